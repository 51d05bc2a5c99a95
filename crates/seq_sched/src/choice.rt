ghost use Rattle.std.specs.Prelude.{◌≡◌};
ghost use Rattle.seq_sched.specs.Choice.{goes_before, lesser, candidate};

use crate::seat::{Runner, Seat};
use sync_core::SyncCore;

/// Whether the pair (priority, first number) of a is less than that of b.
fn goes_before(a: Runner, b: Runner) -> bool
    ensures { result ≡ goes_before a b }
{
    a.priority < b.priority || a.priority == b.priority && a.front < b.front
}

/// The lesser of the two, and the first where they are equal.
pub fn lesser(a: Option<Runner>, b: Option<Runner>) -> Option<Runner>
    ensures { result ≡ lesser a b }
{
    match (a, b) {
        (None, b) => b,
        (Some(a), None) => Some(a),
        (Some(a), Some(b)) => { if goes_before(b, a) { Some(b) } else { Some(a) } }
    }
}

/// Stream s with its seat, if it can run.
pub fn candidate(seat: Seat, core: &SyncCore, s: u32) -> Option<Runner>
    ensures { result ≡ candidate seat core.now s }
{
    if !seat.home || core.blocked(s) {
        return None;
    }
    match core.front(s) {
        Some(front) => Some(Runner {
            stream: s,
            priority: seat.priority,
            front,
        }),
        None => None,
    }
}
