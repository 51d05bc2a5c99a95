ghost use Rattle.std.specs.Prelude.{◌≡◌, ◌≤◌, length, IfOk};
ghost use Rattle.gpu_plan.specs.Places.{flush_places};
ghost use Rattle.gpu_plan.specs.declared.acting.TheConstants.{MOST_ACTIONS};

use crate::plan::Action;
use std::alloc::{AllocError, Global};

/// Where the flushes stand among actions, in rising order.
pub fn flush_places(alloc: Global, actions: &[Action]) -> Result<Vec<u32>, AllocError>
    requires { length actions.now ≤ MOST_ACTIONS }
    ensures { IfOk result (λ places. places.items ≡ flush_places actions.now) }
{
    let mut places = Vec::new(alloc);
    for (place, action) in actions.iter().enumerate() {
        if let Action::Flush { .. } = action {
            places.push(place as u32)?;
        }
    }
    Ok(places)
}
