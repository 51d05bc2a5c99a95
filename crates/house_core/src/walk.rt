//! How far a client was found to come, so that asking again walks over no action twice.
ghost use Rattle.std.specs.Prelude.{◌≡◌, ◌↔◌, ◌≤◌, [], ◌∷◌, length, slice_get, Some, IsTrue};
ghost use Rattle.gpu_plan.specs.declared.plan.Action.TheVariants.{Close};
ghost use Rattle.gpu_plan.specs.Passes.{bound, flush_count};
ghost use Rattle.gpu_plan.specs.declared.acting.TheConstants.{MOST_ACTIONS};
ghost use Rattle.house_core.specs.Walks.{start, HasWalked};

use gpu_plan::Action;

/// How many of a client's actions pass one after another, and how many flushes stand among them.
#[derive(Drop)]
pub struct Walk {
    upto: u32,
    behind: u32,
}

// How many flushes an action is.
fn flush_count(action: &Action) -> u32
    ensures { result ≡ flush_count action.now }
{
    match action {
        Action::Flush { .. } => 1,
        _ => 0,
    }
}

// Whether an action is a Close.
fn is_close(action: &Action) -> bool
    ensures { IsTrue result ↔ (action.now ≡ Close) }
{
    match action {
        Action::Close => true,
        _ => false,
    }
}

impl Walk {
    /// Before the first action.
    pub(crate) fn start() -> Walk
        ensures { result ≡ start }
    {
        Walk { upto: 0, behind: 0 }
    }

    /// Whether the client comes to a Close at this number of finished flushes and this greatest token.
    pub(crate) fn comes_to_close(
        &mut self,
        actions: &[Action],
        finished: u32,
        greatest: u32,
    ) -> bool
        requires few { length actions.now ≤ MOST_ACTIONS }
        requires walked { HasWalked actions.now finished greatest self.old }
        ensures walked { HasWalked actions.now finished greatest self.new }
        ensures close { IsTrue result
            ↔ (slice_get actions.now (bound actions.now finished (greatest ∷ [])) ≡ Some Close) }
    {
        while (self.upto as usize) < actions.len() {
            let action = &actions[self.upto as usize];
            if !action.passes(self.behind, finished, greatest) {
                return is_close(action);
            }
            self.behind += flush_count(action);
            self.upto += 1;
        }
        false
    }
}
