ghost use Rattle.std.specs.Prelude.{◌≡◌, ◌≤◌, length, map, reverse, IfOk};
ghost use Rattle.std.specs.List.{All};
ghost use Rattle.gpu_journal.specs.Ended.{streams_of, end_of};
ghost use Rattle.run_output.specs.Parts.{LineHasRoom};
ghost use Rattle.gpu_plan.specs.declared.adding.TheConstants.{MOST_STREAMS};

use gpu_house::Report;
use gpu_journal::End;
use gpu_plan::Plans;
use gpu_word::Memory;
use journal_text::Ended;
use journal_verify::ends_of;
use live_view::{Look, MOST_VIEWERS};
use result_words::Dumps;
use serial_laws::plans_are_lawful;
use std::alloc::Global;
use std::marker::Model;
use stream_state::StreamState;
use sync_core::Ending;

// How each stream of a run ended.
fn ends_in(alloc: Global, report: &Report) -> Result<Vec<End>, Memory>
    ensures { IfOk result (λ ends. ends.items
        ≡ map (end_of report.now.past) (streams_of report.now.plans)) }
{
    ends_of(alloc, report.plans().count(), report.journal())
}

// The lines of a run's events have room, and its streams are few.
#[tactic(auto, using(crate::proofs::Rooms::legal_room))]
fn lines_have_room(report: &Report)
    ensures room { All LineHasRoom (reverse report.now.past) }
    ensures few { length report.now.plans.plans ≤ MOST_STREAMS }
{
    plans_are_lawful(report.plans());
    report.shows_legal();
}

/// What is written of a run: the run, the dumps that its clients have read, and the looks of its viewers. How each stream ended
/// is kept beside them.
#[derive(Drop)]
pub(crate) struct Outcome {
    report: Report,
    dumps: Vec<Dumps>,
    looks: Vec<Vec<Look>>,
    ends: Vec<End>,
}

impl Model for Outcome {
    ghost use Rattle.run_output.specs.Runs.{OutputData, CanBeWritten};

    ghost Value = { OutputData };

    ghost view = { λ run. record {
      report = run.report;
      dumps = run.dumps.items;
      looks = run.looks.items;
    } };

    ghost invariant = { λ run. CanBeWritten
        (record { report = run.report; dumps = run.dumps.items; looks = run.looks.items })
        run.ends.items };
}

impl Outcome {
    /// Finds out how each stream ended.
    pub(crate) fn of(
        alloc: Global,
        report: Report,
        dumps: Vec<Dumps>,
        looks: Vec<Vec<Look>>,
    ) -> Result<Outcome, Memory>
        requires dumps { length dumps.items ≡ length report.plans.plans }
        requires looks { length looks.items ≤ MOST_VIEWERS }
        ensures { IfOk result (λ run. run
            ≡ record { report = report; dumps = dumps.items; looks = looks.items }) }
    {
        lines_have_room(&report);
        let ends = ends_in(alloc, &report)?;
        Ok(Outcome {
            report,
            dumps,
            looks,
            ends,
        })
    }

    /// The run. Its events have room in lines.
    pub(crate) fn report(&self) -> &Report
        ensures report { result.now ≡ self.now.report }
        ensures room { All LineHasRoom (reverse result.now.past) }
    {
        &self.report
    }

    /// The dumps of each stream.
    pub(crate) fn dumps(&self) -> &[Dumps]
        ensures dumps { result.now ≡ self.now.dumps }
        ensures few { length result.now ≤ MOST_STREAMS }
    {
        &self.dumps
    }

    /// The looks of each viewer.
    pub(crate) fn looks(&self) -> &[Vec<Look>]
        ensures looks { result.now ≡ self.now.looks }
        ensures few { length result.now ≤ MOST_VIEWERS }
    {
        &self.looks
    }
}

impl Ended for Outcome {
    ghost plans = { λ run. run.report.plans };

    ghost base = { λ run. run.report.base };

    ghost past = { λ run. run.report.past };

    fn plans(&self) -> &Plans {
        self.report.plans()
    }

    fn stream(&self, stream: u32) -> &StreamState {
        self.report.stream(stream)
    }

    fn ends(&self) -> &[End] {
        &self.ends
    }

    fn endings(&self) -> &[Ending] {
        self.report.endings()
    }

    fn mark(&self, index: usize) -> u32 {
        self.report.marks()[index]
    }
}
