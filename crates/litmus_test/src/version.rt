ghost use Rattle.std.specs.Prelude.{◌≡◌, ◌↔◌, [], ◌∷◌, IfOk, IfErr, IsTrue, map};
ghost use Rattle.litmus_text.specs.Form.{Writes, key};
ghost use Rattle.litmus_test.specs.declared.version.Version.{Version};
ghost use Rattle.litmus_test.specs.Line.{has_cas, number_of, parts_of_first};

use litmus_text::LineFault;

/// The version of a litmus test's text.
#[derive(Clone, Copy)]
pub(super) enum Version {
    /// Without compare-exchanges.
    One,
    Two,
}

impl Version {
    /// Parses the words of the first line.
    pub(super) fn parse(words: &[&[u8]]) -> Result<Self, LineFault>
        ensures written { IfOk result (λ version. Writes (map (λ w. w.now) words.now) (parts_of_first version)) }
        ensures only { IfOk result (λ version. (other : Version)
            → Writes (map (λ w. w.now) words.now) (parts_of_first other) → other ≡ version) }
        ensures refused { IfErr result
            (λ fault. (other : Version) → Writes (map (λ w. w.now) words.now) (parts_of_first other) → ⊥) }
        ensures fault { IfErr result (λ fault. fault ≡ LineFault.NotALitmusText) }
    {
        let Some((name, rest)) = words.split_first() else {
            return Err(LineFault::NotALitmusText);
        };
        if *name != b"lockup-litmus".as_slice() {
            return Err(LineFault::NotALitmusText);
        }
        version_of(rest)
    }

    /// Whether it can express a compare-exchange.
    pub(super) const fn has_cas(self) -> bool
        ensures { result ≡ has_cas self }
    {
        matches!(self, Version::Two)
    }
}

// Parses the version, after the first word of all litmus tests.
#[tactic(auto, using(litmus_text::proofs::FormLemmas::wrong_count))]
fn version_of(words: &[&[u8]]) -> Result<Version, LineFault>
    ensures written { IfOk result (λ version. Writes (map (λ w. w.now) words.now) (key (number_of version) ∷ [])) }
    ensures only { IfOk result (λ version. (other : Version)
        → Writes (map (λ w. w.now) words.now) (key (number_of other) ∷ []) → other ≡ version) }
    ensures refused { IfErr result
        (λ fault. (other : Version) → Writes (map (λ w. w.now) words.now) (key (number_of other) ∷ []) → ⊥) }
    ensures fault { IfErr result (λ fault. fault ≡ LineFault.NotALitmusText) }
{
    let [number] = words else {
        return Err(LineFault::NotALitmusText);
    };
    numbered(number)
}

fn numbered(number: &[u8]) -> Result<Version, LineFault>
    ensures written { IfOk result (λ version. number.now ≡ number_of version) }
    ensures only { IfOk result (λ version. (other : Version) → number.now ≡ number_of other → other ≡ version) }
    ensures refused { IfErr result (λ fault. (other : Version) → number.now ≡ number_of other → ⊥) }
    ensures fault { IfErr result (λ fault. fault ≡ LineFault.NotALitmusText) }
{
    match number {
        b"1" => Ok(Version::One),
        b"2" => Ok(Version::Two),
        _ => Err(LineFault::NotALitmusText),
    }
}
