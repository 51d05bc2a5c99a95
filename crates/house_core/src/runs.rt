//! Runs leave the house and come back.
ghost use Rattle.std.specs.Prelude.{◌≡◌, ◌≤◌, [], true, false, option_map, IfSome, IfNone};
ghost use Rattle.sync_core.specs.Standing.{is_open};
ghost use Rattle.gpu_journal.specs.declared.event.Event.TheVariants.{Finish, Lost};
ghost use Rattle.gpu_journal.specs.declared.event.Why.TheVariants as why;
ghost use Rattle.gpu_journal.specs.Waits.{standing_of};
ghost use Rattle.gpu_journal.specs.Legal.{IsLegal};
ghost use Rattle.serial_laws.specs.Scripts.{AreLawfulPlans};
ghost use Rattle.serial_laws.specs.Runs.{MayGoOn};
ghost use Rattle.serial_laws.specs.Choosing.{choice_at_home};
ghost use Rattle.house_core.specs.Desks.{RunData, at_home};
ghost use Rattle.house_core.specs.Core.{Stays, Grows, KeepsJournal, IsOfCore, IsAway, is_home, with_out};
ghost use Rattle.house_core.specs.Answers.{Leaves, ComesHome};

use crate::carried::Carried;
use crate::core_of::Core;
use gpu_journal::{Event, put_at};
use gpu_word::Memory;

impl Core {
    /// A run of the stream that the scheduler chooses among those at home, or `None` where none of them can run.
    #[inline(always)]
    pub fn take(&mut self) -> Option<Carried>
        ensures choice { option_map (λ (run : RunData). run.stream) result
            ≡ choice_at_home self.old.plans self.old.past (is_home self.old.outs) }
        ensures none { IfNone result (Stays self.old self.new) }
        ensures same { KeepsJournal self.old self.new }
        ensures leaves { IfSome result (Leaves self.old self.new) }
    {
        let Core {
            plans,
            scene,
            scheduler,
            desks,
            ..
        } = self;
        let stream = scheduler.pick(&scene.sync)?;
        let Some(order) = scene.sync.front(stream) else {
            unreachable!()
        };
        let desk = &mut desks[stream as usize - 1];
        let plan = plans.plan(stream);
        let Some(place) = desk.place(desk.finished()) else {
            unreachable!()
        };
        let put = put_at(plan.actions(), place);
        scheduler.take(stream);
        Some(Carried::take(desk, plan, stream, order, place, put))
    }

    /// What a run carries is what the house keeps, and that is what the journal says.
    pub fn shows_run(&mut self, run: &mut Carried)
        requires { IsOfCore self.old run.old }
        ensures core { self.new ≡ self.old }
        ensures run { run.new ≡ run.old }
        ensures away { IsAway self.old run.old }
        ensures runs { MayGoOn self.old.plans self.old.past run.old.stream run.old.order
            run.old.paused }
        ensures lawful { AreLawfulPlans self.old.plans }
        ensures legal { IsLegal self.old.plans self.old.past }
    {
        let desk = &mut self.desks[run.stream() as usize - 1];
        run.shows_desk(desk);
    }

    /// Takes a run back. The journal stays.
    pub fn back(&mut self, mut run: Carried)
        requires { IsOfCore self.old run }
        ensures same { KeepsJournal self.old self.new }
        ensures outs { self.new.outs ≡ with_out self.old.outs run.stream at_home }
        ensures spare { self.old.spare ≤ self.new.spare }
        ensures away { IsAway self.old run }
    {
        self.shows_run(&mut run);
        let stream = run.stream();
        let Core {
            scheduler,
            desks,
            ..
        } = self;
        scheduler.give_back(stream);
        run.come(&mut desks[stream as usize - 1]);
    }

    // The journal notes that the order of a run is finished, and the run comes back.
    fn enter_finish(&mut self, run: Carried)
        requires own { IsOfCore self.old run }
        requires going { run.paused ≡ false }
        requires end { run.facts.get ≡ run.facts.put }
        requires away { IsAway self.old run }
        requires open { is_open (standing_of self.old.plans self.old.past run.stream) ≡ true }
        ensures event { Grows self.old self.new (Finish run.stream run.order) }
        ensures outs { self.new.outs ≡ with_out self.old.outs run.stream at_home }
    {
        let stream = run.stream();
        let order = run.order();
        let Core {
            journal,
            scene,
            scheduler,
            desks,
            owed,
            ..
        } = self;
        *owed -= 1;
        scene.sync.finish(stream);
        scene.sync.shows_room();
        scheduler.give_back(stream);
        run.finish(&mut desks[stream as usize - 1]);
        journal.push(Event::Finish { stream, order });
    }

    /// Finishes the order of a run that is at its end, and takes the run back. Where its stream is lost or closed it only takes the
    /// run back. It takes no memory.
    #[inline(always)]
    pub fn finish(&mut self, mut run: Carried)
        requires own { IsOfCore self.old run }
        requires going { run.paused ≡ false }
        requires end { run.facts.get ≡ run.facts.put }
        ensures { ComesHome self.old self.new run (Finish run.stream run.order) }
    {
        self.shows_run(&mut run);
        if self.is_open(run.stream()) {
            self.enter_finish(run);
        } else {
            self.back(run);
        }
    }

    /// Loses the stream of a run as out of memory, where it is neither lost nor closed, and takes the run back. It takes the
    /// refusal, and no memory.
    pub fn lose(&mut self, mut run: Carried, refusal: Memory)
        requires { IsOfCore self.old run }
        ensures { ComesHome self.old self.new run (Lost run.stream why.Memory []) }
    {
        self.shows_run(&mut run);
        self.lose_client(run.stream(), refusal);
        self.back(run);
    }
}
