ghost use Rattle.std.specs.Prelude.{◌≡◌, IfOk};
ghost use Rattle.gpu_house.specs.Making.{fresh_slots};

use crate::slot::Slot;
use gpu_word::Memory;
use std::alloc::Global;

/// The slots of sides that have done nothing.
pub(crate) fn slots_of<S: Drop, T: Drop>(
    alloc: Global,
    sides: Vec<S>,
) -> Result<Vec<Slot<S, T>>, Memory>
    ensures { IfOk result (λ slots. slots.items ≡ fresh_slots sides.items) }
{
    let mut slots = Vec::with_capacity(alloc, sides.len())?;
    for side in sides {
        slots.push(Slot::make(alloc, side))?;
    }
    Ok(slots)
}
