//! What the lines of a trace report.
ghost use Rattle.std.specs.Prelude.{◌≡◌, codes, option_and_then, option_map};
ghost use Rattle.murphi_trace.specs.Fired.{before, behind, fired_by, name_and_cores, pair_of, parts_around};

use bstr::ByteSlice;

/// What a line reports of a rule that fired.
#[derive(Clone, Copy)]
pub(crate) struct Fired<'a> {
    pub(crate) name: &'a [u8],
    /// For which cores: `, c: CORE, f: CORE`, or nothing.
    pub(crate) cores: &'a [u8],
}

impl<'a> Fired<'a> {
    /// `Rule "NAME", c: CORE fired.`
    pub(crate) fn told_by(line: &'a [u8]) -> Option<Fired<'a>>
        ensures { option_map name_and_cores result ≡ fired_by line.now }
    {
        let Some(told) = between(line) else {
            return None;
        };
        let Some((name, cores)) = parted(told, b"\"") else {
            return None;
        };
        Some(Fired { name, cores })
    }
}

/// Returns what a line that reports a fired rule has between its fixed first and last words.
fn between(line: &[u8]) -> Option<&[u8]>
    ensures { option_map (λ told. told.now) result
        ≡ option_and_then (before (codes " fired.")) (behind (codes "Rule \"") line.now) }
{
    let Some(told) = behind(line, b"Rule \"") else {
        return None;
    };
    in_front(told, b" fired.")
}

/// Returns what follows a mark, of a text that begins with it.
pub(crate) fn behind<'a>(text: &'a [u8], mark: &[u8]) -> Option<&'a [u8]>
    ensures { option_map (λ rest. rest.now) result ≡ behind mark.now text.now }
{
    text.strip_prefix(mark)
}

/// Returns what is before a mark, of a text that ends with it.
fn in_front<'a>(text: &'a [u8], mark: &[u8]) -> Option<&'a [u8]>
    ensures { option_map (λ front. front.now) result ≡ before mark.now text.now }
{
    text.strip_suffix(mark)
}

/// Returns what is before a mark's first place in a text, and after it.
pub(crate) fn parted<'a>(text: &'a [u8], mark: &[u8]) -> Option<(&'a [u8], &'a [u8])>
    ensures { option_map pair_of result ≡ parts_around mark.now text.now }
{
    text.split_once_str(mark)
}
