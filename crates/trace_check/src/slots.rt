ghost use Rattle.std.specs.Prelude.{◌≡◌, ◌<◌, ◌^◌, ◌==◌, ℕ, if◌then◌else◌, slice_index_or, OnOk};

use std::alloc::AllocError;

/// Sets the slot at a place. If there are too few slots, more are filled with `empty`.
pub fn set_slot<T: Copy>(
    slots: &mut Vec<T>,
    empty: T,
    place: usize,
    value: T,
) -> Result<(), AllocError>
    requires { place < 2 ^ 32 }
    ensures { OnOk result
        ((i : ℕ) → slice_index_or slots.new.items i empty
        ≡ (if place == i then value else slice_index_or slots.old.items i empty)) }
{
    if place >= slots.len() {
        slots.resize(place + 1, empty)?;
    }
    slots[place] = value;
    Ok(())
}
