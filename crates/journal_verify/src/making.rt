//! The record before any event.
ghost use Rattle.std.specs.Prelude.{◌≡◌, false, [], length, IsTrue, IfOk};
ghost use Rattle.journal_verify.specs.Faults.{AreAllSettled};
ghost use Rattle.journal_verify.specs.Entered.{FitsPlans, CountsAtMost};
ghost use Rattle.journal_verify.specs.Follows.{AreFirst, Follows};

use crate::judge::Judge;
use crate::watch::Watch;
use gpu_plan::Plans;
use gpu_store::Images;
use gpu_word::Memory;
use std::alloc::Global;
use step_parts::Scene;
use stream_state::first_states;
use sync_core::SyncCore;

// The record of each stream before any event.
fn first_watches(alloc: Global, plans: &Plans) -> Result<Vec<Watch>, Memory>
    ensures count { IfOk result (λ watches. length watches.items ≡ length plans.now.plans) }
    ensures first { IfOk result (λ watches. AreFirst plans.now watches.items) }
{
    let mut watches = Vec::new(alloc);
    for index in 0..plans.count() {
        let watch = Watch::make(alloc, plans.plan(index + 1))?;
        watches.push(watch)?;
    }
    Ok(watches)
}

impl Judge {
    /// Before any event.
    pub(crate) fn make(alloc: Global, plans: &Plans) -> Result<Judge, Memory>
        ensures follows { IfOk result (λ judge. Follows plans.now [] judge) }
        ensures counted { IfOk result (λ judge. CountsAtMost 0 judge) }
    {
        let count = plans.count();
        let sync = SyncCore::make(alloc, count)?;
        let images = Images::make(alloc);
        let states = first_states(alloc, count)?;
        let watches = first_watches(alloc, plans)?;
        Ok(Judge {
            drawn: 0,
            scene: Scene { images, sync },
            states,
            watches,
        })
    }

    /// Whether each stream is lost or closed, or done.
    pub(crate) fn is_complete(&self, plans: &Plans) -> bool
        requires { FitsPlans plans.now self.now }
        ensures settled { IsTrue result → AreAllSettled plans.now self.now.watches }
        ensures open { result ≡ false → AreAllSettled plans.now self.now.watches → ⊥ }
    {
        for index in 0..plans.count() {
            let watch = &self.watches[index as usize];
            if !watch.is_settled(plans.plan(index + 1)) {
                return false;
            }
        }
        true
    }

    /// The images.
    pub(crate) fn images(&self) -> &Images
        ensures { result.now ≡ self.now.images }
    {
        &self.scene.images
    }

    /// The images alone.
    pub(crate) fn into_images(self) -> Images
        ensures { result ≡ self.images }
    {
        self.scene.images
    }
}
