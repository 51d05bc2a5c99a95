ghost use Rattle.std.specs.Prelude.{◌≡◌, ◌+◌, ◌<◌, ◌≤◌, length, vec_len};
ghost use Rattle.std.specs.List.{count_by};
ghost use Rattle.gpu_plan.specs.Plans.{is_flush, actions_in, flushes_in};
ghost use Rattle.gpu_plan.specs.declared.acting.TheConstants.{MOST_ACTIONS, MOST_FLUSHES};
ghost use Rattle.gpu_plan.specs.declared.adding.TheConstants.{MOST_STREAMS};

use crate::plan::Plan;

/// A draft that has a stream: the streams before, the plan of the stream begun last, and how much the script has so far.
#[derive(Drop)]
pub(crate) struct Begun {
    pub done: Vec<Plan>,
    pub plan: Plan,
    pub actions: usize,
    pub flushes: usize,
    ghost few: { vec_len done < MOST_STREAMS },
    ghost within: { actions ≤ MOST_ACTIONS },
    ghost flushed: { flushes ≤ MOST_FLUSHES },
    ghost counted: { actions ≡ actions_in done.items + length plan.actions },
    ghost counted_flushes: { flushes ≡ flushes_in done.items + count_by is_flush plan.actions },
}
