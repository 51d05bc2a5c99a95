//! Whether a plan has a Close.
ghost use Rattle.std.specs.Prelude.{◌≡◌, ◌-◌, length, take, IsTrue};
ghost use Rattle.std.specs.List.{list_all};
ghost use Rattle.gpu_plan.specs.Plans.{is_closed, stays_open};

use gpu_plan::Action;

/// Whether a Close is among actions, of which none but the last is one.
#[tactic(auto, using(crate::proofs::Closings::closed_at_last))]
pub(crate) fn ends_with_close(actions: &[Action]) -> bool
    requires { IsTrue (list_all stays_open (take (length actions.now - 1) actions.now)) }
    ensures { result ≡ is_closed actions.now }
{
    match actions.last() {
        Some(Action::Close) => true,
        _ => false,
    }
}
