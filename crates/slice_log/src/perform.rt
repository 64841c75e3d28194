ghost use Rattle.std.specs.Prelude.{◌≡◌};
ghost use Rattle.slice_log.specs.Op.{reply_of, value_of};

use address_map::Op;

/// The reply to an access that finds this value in its word.
pub const fn reply_to(op: Op, value: u64) -> u64
    ensures { result ≡ reply_of op value }
{
    match op {
        Op::Store(_) => 0,
        Op::Load | Op::Add(_) | Op::Cas { .. } => value,
    }
}

/// The value that the access leaves in its word.
pub fn performed(op: Op, value: u64) -> u64
    ensures { result ≡ value_of op value }
{
    match op {
        Op::Load => value,
        Op::Store(new) => new,
        Op::Add(delta) => value.wrapping_add(delta),
        Op::Cas { expect, new } => { if value == expect { new } else { value } }
    }
}
