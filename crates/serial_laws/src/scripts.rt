ghost use Rattle.serial_laws.specs.Scripts.{IsScriptPlan, AreLawfulPlans};

use gpu_plan::{Plan, Plans};

// A plan is as its type keeps it.
fn plan_is_lawful(plan: &Plan)
    ensures { IsScriptPlan plan.now }
{
    plan.shows_lawful();
}

/// The plans of a script are lawful, so that the laws hold of them. It looks at each plan, at most 16, once.
#[tactic(auto, using(crate::proofs::Kept::none_lawful, crate::proofs::Kept::one_more))]
pub fn plans_are_lawful(plans: &Plans)
    ensures { AreLawfulPlans plans.now }
{
    let count = plans.count();
    let mut looked = 0;
    while looked < count {
        looked += 1;
        plan_is_lawful(plans.plan(looked));
    }
    plans.shows_version();
}
