ghost use Rattle.std.specs.Prelude.{◌≡◌, IfOk};
ghost use Rattle.shm_words.specs.Seen.{client_at, service_at};

use crate::client::ClientPass;
use crate::plays::Parts;
use crate::service::ServicePass;
use crate::words::SharedWords;
use atomic_table::Table;
use gpu_plan::Plan;
use gpu_word::Memory;
use std::alloc::Global;

/// The words of a plan, all 0, with the client's pass and the service's, which have done nothing.
///
/// # Errors
///
/// `Memory`: for the words, 8 bytes each, or for the client's own copy of the plan.
pub fn make(alloc: Global, plan: &Plan) -> Result<(SharedWords, ClientPass, ServicePass), Memory>
    ensures client { IfOk result (λ made. made.1 ≡ client_at made.0 plan.now) }
    ensures service { IfOk result (λ made. made.2 ≡ service_at made.0 plan.now) }
{
    let own = plan.try_clone(alloc)?;
    let zeros = vec![in alloc; 0u64; 3 + plan.areas().places() as usize]?;
    let (table, mut seat) = Table::of_words(alloc, zeros.as_slice(), plan)?;
    let service = table.shared.split_seat::<Parts>(&mut seat);
    Ok((
        SharedWords { table },
        ClientPass::of(own, seat),
        ServicePass::of(service),
    ))
}
