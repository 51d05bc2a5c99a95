//! Runs leave the lock with their sides, and come back.
ghost use Rattle.std.specs.Prelude.{◌≡◌, ◌∷◌, [], length, true, false, option_map, Some, IfSome, IfNone};
ghost use Rattle.sync_core.specs.Standing.{is_open};
ghost use Rattle.gpu_journal.specs.declared.event.Event.TheVariants.{Finish, Lost};
ghost use Rattle.gpu_journal.specs.declared.event.Why.TheVariants as why;
ghost use Rattle.gpu_journal.specs.Waits.{standing_of};
ghost use Rattle.serial_laws.specs.Choosing.{choice_at_home};
ghost use Rattle.house_core.specs.Core.{IsRunOf, is_home, with_out};
ghost use Rattle.house_core.specs.Desks.{at_home};
ghost use Rattle.gpu_house.specs.Slots.{slot_at, with_slot, left_slot, note_ahead};
ghost use Rattle.gpu_house.specs.House.{OutData};
ghost use Rattle.gpu_house.specs.Changes.{Same, with_side, CameDone, ResultsBelong, WroteResults};

use crate::house::House;
use crate::marking::follow;
use crate::meeting::meet;
use crate::naming::Naming;
use crate::run::Run;
use gpu_fetch::ServiceSide;
use gpu_word::Memory;
use std::marker::PhantomData;
use wait_hooks::Hook;

impl<N: Naming, P: ServiceSide, H: Hook> House<N, P, H> {
    /// A run of the stream that the scheduler chooses among those at home, with the stream's side; `None` where none of them can run.
    pub fn take(&mut self) -> Option<Run<N, P>>
        ensures choice { option_map (λ (out : OutData P P.Note). out.run.stream) result
            ≡ choice_at_home N.plans self.old.core.past (is_home self.old.core.outs) }
        ensures none { IfNone result (Same self.old self.new) }
        ensures past { self.new.core.past ≡ self.old.core.past }
        ensures results { self.new.results ≡ self.old.results }
        ensures run { IfSome result (λ out. IsRunOf N.plans self.old.core.past out.run) }
        ensures going { IfSome result (λ out. out.run.paused ≡ false) }
        ensures side { IfSome result
            (λ out. Some out.side ≡ (slot_at self.old.slots out.run.stream).side) }
        ensures note { IfSome result
            (λ out. out.note ≡ note_ahead (slot_at self.old.slots out.run.stream)) }
        ensures list { IfSome result
            (λ out. length (P.side out.side).fetched ≡ out.run.facts.fetched) }
        ensures outs { IfSome result
            (λ out. self.new.core.outs
            ≡ with_out self.old.core.outs out.run.stream
            record { order = out.run.order; paused = false }) }
        ensures slots { IfSome result
            (λ out. self.new.slots
            ≡ with_slot self.old.slots out.run.stream
            (left_slot (slot_at self.old.slots out.run.stream))) }
    {
        let House {
            alloc,
            core,
            slots,
            ..
        } = self;
        let carried = core.take()?;
        core.shows_core();
        match slots[carried.stream() as usize - 1].leave() {
            Some((side, note)) => Some(Run {
                alloc: *alloc,
                carried,
                side,
                note,
                of: PhantomData,
            }),
            None => unreachable!(),
        }
    }

    /// Finishes the order of a run that is at its end: meets its note where no fetch has, appends the finish, counts it in the
    /// results, and publishes it. Where the stream is lost or closed it only takes the run back. It takes no memory.
    pub fn finish(&mut self, run: Run<N, P>, words: &P::Words)
        requires end { run.run.facts.get ≡ run.run.facts.put }
        requires going { run.run.paused ≡ false }
        requires belongs { P.belongs run.side words.now }
        requires note { IfSome run.note (P.note_belongs run.side words.now) }
        requires results { ResultsBelong P.results_belong words.now self.old.results
            run.run.stream }
        ensures event { is_open (standing_of N.plans self.old.core.past run.run.stream) ≡ true
            → self.new.core.past ≡ Finish run.run.stream run.run.order ∷ self.old.core.past }
        ensures over { is_open (standing_of N.plans self.old.core.past run.run.stream) ≡ false
            → self.new.core.past ≡ self.old.core.past }
        ensures outs { self.new.core.outs ≡ with_out self.old.core.outs run.run.stream at_home }
        ensures done { is_open (standing_of N.plans self.old.core.past run.run.stream) ≡ true
            → CameDone P.side P.mark P.belongs P.note_belongs words.now
            self.old.slots self.new.slots run.run.stream run.side run.note }
        ensures home { is_open (standing_of N.plans self.old.core.past run.run.stream) ≡ false
            → self.new.slots ≡ with_side self.old.slots run.run.stream run.side run.note }
        ensures results { WroteResults P.results_belong words.now self.old.results self.new.results
            run.run.stream }
    {
        let Run {
            alloc: _,
            carried,
            mut side,
            mut note,
            of: _,
        } = run;
        let stream = carried.stream();
        let House {
            core,
            slots,
            hooks,
            results,
            ..
        } = self;
        let slot = &mut slots[stream as usize - 1];
        if !core.is_open(stream) {
            core.finish(carried);
            core.shows_core();
            slot.come(side, note);
            return;
        }
        meet(&mut side, &mut note, words);
        core.finish(carried);
        core.shows_core();
        follow(core, hooks);
        let own = &mut results[stream as usize - 1];
        P::count_finish(own, words);
        side.publish_finish(words, own);
        slot.finish(side);
    }

    /// Takes a run back, with its note where no fetch has met that. The journal stays.
    pub fn back(&mut self, run: Run<N, P>)
        requires list { is_open (standing_of N.plans self.old.core.past run.run.stream) ≡ true
            → length (P.side run.side).fetched ≡ run.run.facts.fetched }
        ensures past { self.new.core.past ≡ self.old.core.past }
        ensures outs { self.new.core.outs ≡ with_out self.old.core.outs run.run.stream at_home }
        ensures slots { self.new.slots ≡ with_side self.old.slots run.run.stream run.side run.note }
        ensures results { self.new.results ≡ self.old.results }
    {
        let Run {
            alloc: _,
            carried,
            side,
            note,
            of: _,
        } = run;
        let stream = carried.stream();
        self.core.back(carried);
        self.core.shows_core();
        self.slots[stream as usize - 1].come(side, note);
    }

    /// Loses the stream of a run as out of memory, where it is neither lost nor closed, and takes the run back. It takes the
    /// refusal, and no memory.
    pub fn lose(&mut self, run: Run<N, P>, refusal: Memory)
        ensures event { is_open (standing_of N.plans self.old.core.past run.run.stream) ≡ true
            → self.new.core.past ≡ Lost run.run.stream why.Memory [] ∷ self.old.core.past }
        ensures over { is_open (standing_of N.plans self.old.core.past run.run.stream) ≡ false
            → self.new.core.past ≡ self.old.core.past }
        ensures outs { self.new.core.outs ≡ with_out self.old.core.outs run.run.stream at_home }
        ensures slots { self.new.slots ≡ with_side self.old.slots run.run.stream run.side run.note }
        ensures results { self.new.results ≡ self.old.results }
    {
        let Run {
            alloc: _,
            carried,
            side,
            note,
            of: _,
        } = run;
        let stream = carried.stream();
        let House {
            core,
            slots,
            hooks,
            ..
        } = self;
        core.lose(carried, refusal);
        core.shows_core();
        follow(core, hooks);
        slots[stream as usize - 1].come(side, note);
    }
}
