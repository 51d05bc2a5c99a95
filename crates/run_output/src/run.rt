ghost use Rattle.std.specs.Prelude.{◌≡◌, ◌≤◌, length, IfOk};
ghost use Rattle.run_output.specs.Pieces.{Adds};
ghost use Rattle.run_output.specs.Runs.{run_text};

use crate::outcome::Outcome;
use crate::output::write_output;
use crate::page::Page;
use gpu_house::Report;
use gpu_io::{Failed, Sink};
use gpu_word::Memory;
use live_view::{Look, MOST_VIEWERS};
use result_words::Dumps;
use std::alloc::Global;
use std::marker::Model;
use std::mem;

/// A run with all memory that writing its output takes, seen as the run, the dumps that its clients have read, and the looks of its
/// viewers.
#[derive(Drop)]
pub struct RunOutput {
    run: Outcome,
    page: Page,
}

impl Model for RunOutput {
    ghost use Rattle.std.specs.Prelude.{◌≡◌};
    ghost use Rattle.run_output.specs.Page.{blank_page};
    ghost use Rattle.run_output.specs.Runs.{OutputData};

    ghost Value = { OutputData };

    ghost view = { λ output. output.run };

    ghost invariant = { λ output. output.page ≡ blank_page };
}

impl RunOutput {
    /// Takes all memory that writing the output of a run takes.
    pub fn make(
        alloc: Global,
        report: Report,
        dumps: Vec<Dumps>,
        looks: Vec<Vec<Look>>,
    ) -> Result<RunOutput, Memory>
        requires dumps { length dumps.items ≡ length report.plans.plans }
        requires looks { length looks.items ≤ MOST_VIEWERS }
        ensures report { IfOk result (λ run. run.report ≡ report) }
        ensures dumps { IfOk result (λ run. run.dumps ≡ dumps.items) }
        ensures looks { IfOk result (λ run. run.looks ≡ looks.items) }
    {
        let run = Outcome::of(alloc, report, dumps, looks)?;
        let page = Page::make(alloc)?;
        Ok(RunOutput { run, page })
    }

    /// The run.
    pub fn report(&self) -> &Report
        ensures { result.now ≡ self.now.report }
    {
        self.run.report()
    }

    /// Writes the output, the lines of the dumps, and those of the looks. After a fault a front of all stands.
    ///
    /// What the run keeps is not given back: the output is the last that a program does with a run, and its memory goes with
    /// the process, at once.
    pub fn write<K: Sink>(self, sink: &mut K) -> Result<(), Failed>
        ensures { Adds K.written K.faults sink.old sink.new result (run_text self) }
    {
        let RunOutput { run, mut page } = self;
        let written = write_output(&mut page, sink, &run);
        mem::forget(run);
        written
    }
}
