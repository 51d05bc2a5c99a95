ghost use Rattle.std.specs.Prelude.{◌≡◌, ◌+◌, ◌<◌, ◌≤◌, length, vec_len};
ghost use Rattle.std.specs.List.{count_by};
ghost use Rattle.std.specs.Option.{option_map_or};
ghost use Rattle.gpu_plan.specs.Plans.{PlanData, is_flush, actions_in, flushes_in};
ghost use Rattle.gpu_plan.specs.declared.acting.TheConstants.{MOST_ACTIONS, MOST_FLUSHES};
ghost use Rattle.gpu_plan.specs.declared.adding.TheConstants.{MOST_STREAMS};

use crate::plan::Plan;

/// The streams before, the stream begun last, and how much the script has so far.
#[derive(Drop)]
pub(crate) struct Draft {
    pub done: Vec<Plan>,
    pub last: Option<Plan>,
    pub actions: usize,
    pub flushes: usize,
    ghost few: { vec_len done < MOST_STREAMS },
    ghost within: { actions ≤ MOST_ACTIONS },
    ghost flushed: { flushes ≤ MOST_FLUSHES },
    ghost counted: { actions
        ≡ actions_in done.items + option_map_or (λ (plan : PlanData). length plan.actions) last 0 },
    ghost counted_flushes: { flushes
        ≡ flushes_in done.items + option_map_or
        (λ (plan : PlanData). count_by is_flush plan.actions) last 0 },
}
