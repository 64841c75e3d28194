ghost use Rattle.std.specs.Prelude.{◌≡◌, ◌∷◌, [], ◌++◌, ◌<◌, ◌↔◌, IfOk, IfErr, IfSome, IfNone, IsTrue, map, length};
ghost use Rattle.std.specs.Prelude.{codes, ℕ, List};
ghost use Rattle.std.specs.Result.{OkIff};
ghost use Rattle.std.specs.Str.Parse.{digits_value};
ghost use Rattle.litmus_text.specs.Number.{IsNumber};
ghost use Rattle.trace_check.specs.TraceLine.{IsFaultOfLine, IsLineOf, IsNoLineOf, IsNoFirstLine, IsOfVersion};
ghost use Rattle.trace_check.specs.TraceLine.{BeginsWith, cores_of, with_since, number_of, parts_of_first};
ghost use Rattle.litmus_text.specs.Form.{HasForm, Writes, key};
ghost use Rattle.litmus_text.specs.Command.{parts_of_op};
ghost use Rattle.address_map.specs.declared.request.Op.{Op};
ghost use Rattle.trace_check.specs.declared.trace_line.Version.{Version};

use super::judge::{MOST_CORES, MOST_WORDS};
use address_map::{CoreId, WordAddr};
use litmus_text::{LineFault, parse_access, parse_number, two_numbers};
use slice_log::Entry;

/// The number of tags of a core.
pub const MOST_TAGS: u64 = 64;

/// The version of a trace's text.
#[derive(Clone, Copy, Debug, PartialEq, Eq)]
pub enum Version {
    /// For 16 cores, without compare-exchanges.
    One,
    /// For 64 cores.
    Two,
    /// For 64 cores. Entries end with their reply: a writer needn't know the log's length.
    WithoutSince,
}

/// What a line of a trace says, after the first.
#[derive(Clone, Copy, Debug, PartialEq, Eq)]
pub enum TraceLine {
    /// A word and the value that it begins with.
    Init(WordAddr, u64),
    /// An access that was performed.
    Entry(Entry),
}

impl Version {
    /// Parses the words of the first line.
    pub fn parse(words: &[&[u8]]) -> Result<Self, LineFault>
        ensures written { IfOk result (λ version. Writes (map (λ w. w.now) words.now) (parts_of_first version)) }
        ensures refused { IfErr result (λ fault. IsNoFirstLine (map (λ w. w.now) words.now)) }
        ensures fault { IfErr result (λ fault. fault ≡ LineFault.NotATrace) }
    {
        let Some((name, rest)) = words.split_first() else {
            return Err(LineFault::NotATrace);
        };
        if *name != b"lockup-trace".as_slice() {
            return Err(LineFault::NotATrace);
        }
        version_of(rest)
    }

    /// Whether a trace of this version can have the access, by its name.
    fn has_access(self, access: &[&[u8]]) -> bool
        ensures { (op : Op) (word : ℕ) → HasForm (map (λ w. w.now) access.now) (parts_of_op op word)
            → (IsTrue result ↔ IsOfVersion self op) }
    {
        match self {
            Version::One => !begins_with(access, b"cas"),
            Version::Two | Version::WithoutSince => true,
        }
    }

    /// Returns the number of cores that a trace of this version can name.
    const fn cores(self) -> u64
        ensures { result ≡ cores_of self }
    {
        match self {
            Version::One => 16,
            Version::Two | Version::WithoutSince => MOST_CORES,
        }
    }
}

// Parses the version, after the first word of all traces.
#[tactic(auto, using(litmus_text::proofs::FormLemmas::wrong_count))]
fn version_of(words: &[&[u8]]) -> Result<Version, LineFault>
    ensures written { IfOk result (λ version. Writes (map (λ w. w.now) words.now) (key (number_of version) ∷ [])) }
    ensures refused { IfErr result
        (λ fault. (version : Version) → Writes (map (λ w. w.now) words.now) (key (number_of version) ∷ []) → ⊥) }
    ensures fault { IfErr result (λ fault. fault ≡ LineFault.NotATrace) }
{
    let [number] = words else {
        return Err(LineFault::NotATrace);
    };
    numbered(number)
}

fn numbered(number: &[u8]) -> Result<Version, LineFault>
    ensures written { IfOk result (λ version. number.now ≡ number_of version) }
    ensures refused { IfErr result (λ fault. (version : Version) → number.now ≡ number_of version → ⊥) }
    ensures fault { IfErr result (λ fault. fault ≡ LineFault.NotATrace) }
{
    match number {
        b"1" => Ok(Version::One),
        b"2" => Ok(Version::Two),
        b"no-since" => Ok(Version::WithoutSince),
        _ => Err(LineFault::NotATrace),
    }
}

impl TraceLine {
    /// Parses the words of a line. Checks first the keywords and the number of words, then the numbers, and last that a
    /// trace can name them.
    pub fn parse(version: Version, words: &[&[u8]]) -> Result<Self, LineFault>
        ensures written { IfOk result (IsLineOf version (map (λ w. w.now) words.now)) }
        ensures refused { IfErr result (λ fault. IsNoLineOf version (map (λ w. w.now) words.now)) }
        ensures fault { IfErr result (IsFaultOfLine version (map (λ w. w.now) words.now)) }
    {
        let Some((name, rest)) = words.split_first() else {
            return Err(LineFault::NotACommand);
        };
        if *name == b"init".as_slice() {
            return parse_init(rest);
        }
        if *name == b"entry".as_slice() {
            return parse_entry(version, rest);
        }
        Err(LineFault::NotACommand)
    }
}

#[tactic(auto, unfolding(crate::specs::TraceLine::IsInRange))]
fn parse_init(words: &[&[u8]]) -> Result<TraceLine, LineFault>
    ensures written { (version : Version) → IfOk result (IsLineOf version (codes "init" ∷ map (λ w. w.now) words.now)) }
    ensures refused { (version : Version) → IfErr result
        (λ fault. IsNoLineOf version (codes "init" ∷ map (λ w. w.now) words.now)) }
    ensures fault { (version : Version) → IfErr result
        (IsFaultOfLine version (codes "init" ∷ map (λ w. w.now) words.now)) }
{
    let (word, value) = two_numbers(words)?;
    if word >= MOST_WORDS {
        return Err(LineFault::OutOfRange);
    }
    Ok(TraceLine::Init(WordAddr(word), value))
}

/// The words of an entry, after its name.
#[derive(Clone, Copy)]
struct EntryWords<'a> {
    core: &'a [u8],
    seq: &'a [u8],
    tag: &'a [u8],
    access: &'a [&'a [u8]],
    reply: &'a [u8],
    since: &'a [u8],
}

fn entry_words<'a>(version: Version, words: &'a [&'a [u8]]) -> Option<EntryWords<'a>>
    ensures parts { IfSome result
        (λ e. with_since version (map (λ w. w.now) words.now)
        ≡ e.core.now ∷ e.seq.now ∷ e.tag.now ∷ (map (λ w. w.now) e.access.now ++ e.reply.now ∷ e.since.now ∷ [])) }
    ensures short { IfNone result (length (with_since version (map (λ w. w.now) words.now)) < 5) }
{
    match version {
        Version::One | Version::Two => full_words(words),
        Version::WithoutSince => bare_words(words),
    }
}

fn full_words<'a>(words: &'a [&'a [u8]]) -> Option<EntryWords<'a>>
    ensures parts { IfSome result
        (λ e. map (λ w. w.now) words.now
        ≡ e.core.now ∷ e.seq.now ∷ e.tag.now ∷ (map (λ w. w.now) e.access.now ++ e.reply.now ∷ e.since.now ∷ [])) }
    ensures short { IfNone result (length words.now < 5) }
{
    let [core, seq, tag, access @ .., reply, since] = words else {
        return None;
    };
    Some(EntryWords {
        core,
        seq,
        tag,
        access,
        reply,
        since,
    })
}

/// Returns the words of an entry that ends with its reply.
fn bare_words<'a>(words: &'a [&'a [u8]]) -> Option<EntryWords<'a>>
    ensures parts { IfSome result
        (λ e. map (λ w. w.now) words.now ++ codes "0" ∷ []
        ≡ e.core.now ∷ e.seq.now ∷ e.tag.now ∷ (map (λ w. w.now) e.access.now ++ e.reply.now ∷ e.since.now ∷ [])) }
    ensures short { IfNone result (length words.now < 4) }
{
    let [core, seq, tag, access @ .., reply] = words else {
        return None;
    };
    Some(EntryWords {
        core,
        seq,
        tag,
        access,
        reply,
        since: b"0",
    })
}

fn parse_entry(version: Version, words: &[&[u8]]) -> Result<TraceLine, LineFault>
    ensures written { IfOk result (IsLineOf version (codes "entry" ∷ map (λ w. w.now) words.now)) }
    ensures refused { IfErr result (λ fault. IsNoLineOf version (codes "entry" ∷ map (λ w. w.now) words.now)) }
    ensures fault { IfErr result (IsFaultOfLine version (codes "entry" ∷ map (λ w. w.now) words.now)) }
{
    let Some(words) = entry_words(version, words) else {
        return Err(LineFault::NotACommand);
    };
    if !version.has_access(words.access) {
        return Err(LineFault::NotACommand);
    }
    let (op, word) = parse_access(words.access)?;
    let core = number(words.core)?;
    let seq = number(words.seq)?;
    let tag = number(words.tag)?;
    let reply = number(words.reply)?;
    let since = number(words.since)?;
    if core >= version.cores() || tag >= MOST_TAGS || word.0 >= MOST_WORDS {
        return Err(LineFault::OutOfRange);
    }
    Ok(TraceLine::Entry(Entry {
        op,
        word,
        seq,
        reply,
        since,
        core: CoreId(core as u8),
        tag: tag as u8,
    }))
}

// Whether this is the first of the words.
pub(super) fn begins_with(words: &[&[u8]], name: &[u8]) -> bool
    ensures { IsTrue result ↔ BeginsWith name.now (map (λ w. w.now) words.now) }
{
    match words.split_first() {
        Some((first, _)) => is_same(first, name),
        None => false,
    }
}

fn is_same(word: &[u8], name: &[u8]) -> bool
    ensures { IsTrue result ↔ (word.now ≡ name.now) }
{
    word == name
}

// Parses a word that has to be a number.
fn number(word: &[u8]) -> Result<u64, LineFault>
    ensures ok { OkIff result (IsNumber word.now) (digits_value 10 word.now) }
    ensures err { IfErr result (λ fault. fault ≡ LineFault.BadNumber) }
{
    parse_number(word).ok_or(LineFault::BadNumber)
}
