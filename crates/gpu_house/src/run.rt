ghost use Rattle.std.specs.Prelude.{◌≡◌, option_map, OnOk, IfOk, IfErr, IsTrue, ◌↔◌};
ghost use Rattle.std.specs.List.{All};
ghost use Rattle.gpu_cmd.specs.Copied.{IsCopy};
ghost use Rattle.gpu_cmd.specs.Lawful.{IsLawfulFacts};
ghost use Rattle.gpu_fetch.specs.Fetched.{IsFetched, FetchesSome};
ghost use Rattle.house_core.specs.Core.{book_at};
ghost use Rattle.gpu_house.specs.Names.{table_at};
ghost use Rattle.gpu_house.specs.Slots.{RunFits};
ghost use Rattle.gpu_house.specs.Changes.{met_by};
ghost use Rattle.gpu_house.specs.Batches.{batch_words, AreChained, EndsExactly, FetchesInPart};
ghost use Rattle.gpu_house.specs.Fetching.{CanFetch, HasMetNote, RunFetches};

use crate::batch::Batch;
use crate::meeting::meet;
use crate::naming::Naming;
use gpu_cmd::{CmdError, Command, StreamFacts};
use gpu_fetch::{ServiceSide, fetch_onto};
use gpu_word::Memory;
use house_core::Carried;
use std::alloc::Global;
use std::marker::{Model, PhantomData};

/// A run of one stream, which has left the lock with the stream's side.
///
/// It is not `Drop`: give it back, finish it or lose it. Where the house is given up too, give it up.
///
/// Seen as what it carries, its side, and the note of its flush where no fetch has met that.
pub struct Run<N: Naming, P: ServiceSide> {
    pub(crate) alloc: Global,
    pub(crate) carried: Carried,
    pub(crate) side: P,
    pub(crate) note: Option<P::Note>,
    pub(crate) of: PhantomData<N>,
}

impl<N: Naming, P: ServiceSide> Model for Run<N, P> {
    ghost use Rattle.house_core.specs.Core.{book_at};
    ghost use Rattle.gpu_house.specs.Names.{table_at};
    ghost use Rattle.gpu_house.specs.Slots.{RunFits};
    ghost use Rattle.gpu_house.specs.House.{OutData};

    ghost Value = { OutData P P.Note };

    ghost view = { λ r. record { run = r.carried; side = r.side; note = r.note } };

    ghost invariant = { λ r. RunFits P.side P.table P.mark P.note_of N.plans (table_at N.words)
        (book_at N.books) r.carried r.side r.note };
}

impl<N: Naming, P: ServiceSide> Run<N, P> {
    /// Shows what the type of a run keeps, so that a run that comes out of a lock is known to be of its stream, of its words and of
    /// its book. It changes nothing.
    pub fn shows_fit(&self)
        ensures { RunFits P.side P.table P.mark P.note_of N.plans (table_at N.words)
            (book_at N.books)
            self.now.run self.now.side self.now.note }
    {
        let _ = &self.side;
    }

    /// Gives the run up together with its house. The refusal comes back, to be answered.
    pub fn give_up(self, refusal: Memory) -> Memory {
        let Run {
            alloc: _,
            carried: _carried,
            side: _side,
            note: _note,
            of: _,
        } = self;
        refusal
    }

    /// The stream of the run.
    pub fn stream(&self) -> u32
        ensures { result ≡ self.now.run.stream }
    {
        self.carried.stream()
    }

    /// The order number of the run.
    pub fn order(&self) -> u32
        ensures { result ≡ self.now.run.order }
    {
        self.carried.order()
    }

    /// What the checks of the next command read.
    pub fn facts(&self) -> &StreamFacts
        ensures facts { result.now ≡ self.now.run.facts }
        ensures lawful { IsLawfulFacts self.now.run.facts }
    {
        self.carried.facts()
    }

    /// Whether nothing is left of the flush.
    pub fn at_end(&self) -> bool
        ensures { IsTrue result ↔ (self.now.run.facts.get ≡ self.now.run.facts.put) }
    {
        let facts = self.carried.facts();
        facts.get == facts.put
    }

    /// Whether the latest step of the run was answered Paused.
    pub fn paused(&self) -> bool
        ensures { result ≡ self.now.run.paused }
    {
        self.carried.paused()
    }

    /// Fetches the next command, without the lock, into a list in place of what that has. The answer is the verdict on its words. The
    /// first fetch of an order meets its note.
    ///
    /// # Errors
    ///
    /// `Memory`: the side has fetched the first of the places that were to be fetched.
    pub fn fetch(
        &mut self,
        words: &P::Words,
        list: &mut Vec<(u32, u32)>,
    ) -> Result<Result<Command, CmdError>, Memory>
        requires { CanFetch P.side P.belongs P.note_belongs words.now self.old }
        ensures keeps { HasMetNote P.belongs P.note_belongs words.now self.old self.new }
        ensures fetches { OnOk result
            (RunFetches P.side P.mark P.shows words.now self.old self.new list.new.items) }
        ensures copy { IfOk result (IsCopy list.new.items self.old.run.facts) }
        ensures some { IfErr result
            (λ _. FetchesSome (met_by (option_map P.mark self.old.note) (P.side self.old.side))
            (P.side self.new.side) self.old.run.facts) }
    {
        let Run {
            carried,
            side,
            note,
            ..
        } = self;
        meet(side, note, words);
        list.clear();
        fetch_onto(side, words, carried.facts(), list)
    }

    /// Fetches commands one after the other up to the end of a batch, without the lock. The first fetch of an order meets its note.
    ///
    /// # Errors
    ///
    /// `Memory`: the side has fetched the first of the places that were to be fetched. The run can then only be lost.
    pub fn fetch_batch(&mut self, words: &P::Words) -> Result<Batch, Memory>
        requires { CanFetch P.side P.belongs P.note_belongs words.now self.old }
        ensures keeps { HasMetNote P.belongs P.note_belongs words.now self.old self.new }
        ensures chained { IfOk result (AreChained self.old.run.facts) }
        ensures copies { IfOk result (All IsFetched) }
        ensures end { IfOk result EndsExactly }
        ensures fetches { IfOk result
            (λ batch. RunFetches P.side P.mark P.shows words.now self.old self.new
            (batch_words batch)) }
        ensures some { IfErr result
            (λ _. FetchesInPart (met_by (option_map P.mark self.old.note) (P.side self.old.side))
            (P.side self.new.side) self.old.run.facts) }
    {
        let Run {
            alloc,
            carried,
            side,
            note,
            ..
        } = self;
        meet(side, note, words);
        Batch::fetch(*alloc, side, words, carried.facts())
    }
}
