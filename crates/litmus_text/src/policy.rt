ghost use Rattle.std.specs.Prelude.{◌≡◌, ◌≢◌, ◌∷◌, IfOk, IfErr, IfSome, IfNone, map};
ghost use Rattle.litmus_text.specs.Form.{Writes, IsFormFaultOf};
ghost use Rattle.litmus_text.specs.ConfigLine.{name_of_policy, parts_of_policy};
ghost use Rattle.litmus_text.specs.declared.policy.PolicyName.{PolicyName};
ghost use Rattle.address_map.specs.declared.config.PolicyKind.{PolicyKind};

use super::fault::LineFault;
use super::number::{no_numbers, one_number};
use super::slot::Slot;
use super::table::value_named;
use address_map::PolicyKind;

/// The name of a replacement policy.
#[derive(Clone, Copy)]
pub(super) enum PolicyName {
    Lru,
    Fifo,
    Random,
}

/// Each policy, by its name.
static POLICIES: [(&[u8], PolicyName); 3] = [
    (b"lru", PolicyName::Lru),
    (b"fifo", PolicyName::Fifo),
    (b"random", PolicyName::Random),
];

impl PolicyName {
    /// The slots that follow it.
    pub(super) const fn slots(self) -> &'static [Slot] {
        match self {
            PolicyName::Lru | PolicyName::Fifo => &[],
            PolicyName::Random => &[Slot::Number],
        }
    }
}

/// Parses a replacement policy: its name, and its seed if it has one.
pub(super) fn parse_policy(words: &[&[u8]]) -> Result<PolicyKind, LineFault>
    ensures written { IfOk result (λ kind. Writes (map (λ w. w.now) words.now) (parts_of_policy kind)) }
    ensures only { IfOk result (λ kind. (other : PolicyKind)
        → Writes (map (λ w. w.now) words.now) (parts_of_policy other) → other ≡ kind) }
    ensures refused { IfErr result (λ fault. (kind : PolicyKind)
        → Writes (map (λ w. w.now) words.now) (parts_of_policy kind) → ⊥) }
    ensures fault { IfErr result (IsFormFaultOf parts_of_policy (map (λ w. w.now) words.now)) }
{
    let Some((name, rest)) = words.split_first() else {
        return Err(LineFault::NotACommand);
    };
    match policy_named(name) {
        Some(policy) => parse_policy_called(policy, rest),
        None => Err(LineFault::NotACommand),
    }
}

pub(super) fn policy_named(name: &[u8]) -> Option<PolicyName>
    ensures found { IfSome result (λ policy. name.now ≡ name_of_policy policy) }
    ensures none { IfNone result ((policy : PolicyName) → name.now ≢ name_of_policy policy) }
{
    value_named(&POLICIES, name)
}

// Parses the words that follow a policy's name.
fn parse_policy_called(policy: PolicyName, words: &[&[u8]]) -> Result<PolicyKind, LineFault>
    ensures written { IfOk result
        (λ kind. Writes (name_of_policy policy ∷ map (λ w. w.now) words.now) (parts_of_policy kind)) }
    ensures only { IfOk result (λ kind. (other : PolicyKind)
        → Writes (name_of_policy policy ∷ map (λ w. w.now) words.now) (parts_of_policy other) → other ≡ kind) }
    ensures refused { IfErr result (λ fault. (kind : PolicyKind)
        → Writes (name_of_policy policy ∷ map (λ w. w.now) words.now) (parts_of_policy kind) → ⊥) }
    ensures fault { IfErr result (IsFormFaultOf parts_of_policy (name_of_policy policy ∷ map (λ w. w.now) words.now)) }
{
    match policy {
        PolicyName::Lru => {
            no_numbers(words)?;
            Ok(PolicyKind::Lru)
        }
        PolicyName::Fifo => {
            no_numbers(words)?;
            Ok(PolicyKind::Fifo)
        }
        PolicyName::Random => Ok(PolicyKind::Random(one_number(words)?)),
    }
}
