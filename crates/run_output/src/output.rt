ghost use Rattle.std.specs.Prelude.{◌≡◌, ◌≤◌, [], length};
ghost use Rattle.std.specs.List.{concat};
ghost use Rattle.journal_text.specs.Picture.{picture_text};
ghost use Rattle.journal_text.specs.Output.{head_lines};
ghost use Rattle.run_output.specs.Pieces.{Adds, Puts};
ghost use Rattle.run_output.specs.Parts.{dump_texts, view_texts};
ghost use Rattle.run_output.specs.Runs.{run_text, section_text};
ghost use Rattle.gpu_plan.specs.declared.adding.TheConstants.{MOST_STREAMS};

use crate::dump_lines::DumpLines;
use crate::event_lines::EventLines;
use crate::look_lines::LookLines;
use crate::outcome::Outcome;
use crate::page::Page;
use gpu_io::{Failed, Sink};
use gpu_plan::Plans;
use gpu_store::Images;
use journal_text::{ImageLines, MarkLines, NameLines, StreamLines};
use live_view::{Look, MOST_VIEWERS};
use result_words::Dumps;

/// The sections of the output of a run.
#[derive(Clone, Copy)]
pub(crate) enum Section {
    /// The head and the names of a script of version 2.
    Names,
    /// The line of each event.
    Journal,
    /// The lines of each image.
    Images,
    /// The line of each stream.
    Streams,
    /// The line of each wait that has ended, with its mark.
    Marks,
    /// The lines of the dumps that the clients have read.
    Dumps,
    /// The lines of what each viewer saw.
    Looks,
}

/// The order in which the sections stand.
const SECTIONS: [Section; 7] = [
    Section::Names,
    Section::Journal,
    Section::Images,
    Section::Streams,
    Section::Marks,
    Section::Dumps,
    Section::Looks,
];

// Puts the head and the names of a script of version 2, and nothing of one of version 1.
#[tactic(auto, using(crate::proofs::Texts::head_text, crate::proofs::Texts::no_head, crate::proofs::Pieces::puts_nothing))]
fn put_names<K: Sink>(page: &mut Page, sink: &mut K, plans: &Plans) -> Result<(), Failed>
    ensures { Puts K.written K.faults sink.old page.old.gathered sink.new page.new.gathered result
        (head_lines plans.now) }
{
    if plans.version() != 2 {
        return Ok(());
    }
    page.put_all(sink, &NameLines::of(plans))
}

/// Puts the lines of each image.
pub(crate) fn put_images<K: Sink>(
    page: &mut Page,
    sink: &mut K,
    images: &Images,
) -> Result<(), Failed>
    ensures { Puts K.written K.faults sink.old page.old.gathered sink.new page.new.gathered result
        (picture_text images.now) }
{
    for image in images.numbers() {
        page.put_all(sink, &ImageLines::of(images, image))?;
    }
    Ok(())
}

// Puts the lines of the dumps that the client of each stream has read.
fn put_dumps<K: Sink>(page: &mut Page, sink: &mut K, dumps: &[Dumps]) -> Result<(), Failed>
    requires { length dumps.now ≤ MOST_STREAMS }
    ensures { Puts K.written K.faults sink.old page.old.gathered sink.new page.new.gathered result
        (concat (dump_texts 1 dumps.now)) }
{
    for index in 0..dumps.len() {
        let own = DumpLines {
            stream: index as u32 + 1,
            dumps: dumps[index].as_slice(),
        };
        page.put_all(sink, &own)?;
    }
    Ok(())
}

// Puts the lines of what each viewer saw.
fn put_looks<K: Sink>(page: &mut Page, sink: &mut K, looks: &[Vec<Look>]) -> Result<(), Failed>
    requires { length looks.now ≤ MOST_VIEWERS }
    ensures { Puts K.written K.faults sink.old page.old.gathered sink.new page.new.gathered result
        (concat (view_texts 1 looks.now)) }
{
    for index in 0..looks.len() {
        let own = LookLines {
            viewer: index as u32 + 1,
            looks: looks[index].as_slice(),
        };
        page.put_all(sink, &own)?;
    }
    Ok(())
}

// Puts a section of the output of a run.
#[tactic(auto, using(journal_text::proofs::Parts::events_text, journal_text::proofs::Parts::streams_text, journal_text::proofs::Parts::marks_text))]
fn put_section<K: Sink>(
    page: &mut Page,
    sink: &mut K,
    run: &Outcome,
    section: Section,
) -> Result<(), Failed>
    ensures { Puts K.written K.faults sink.old page.old.gathered sink.new page.new.gathered result
        (section_text run.now section) }
{
    let report = run.report();
    match section {
        Section::Names => put_names(page, sink, report.plans()),
        Section::Journal => page.put_all(sink, &EventLines::of(run)),
        Section::Images => put_images(page, sink, report.images()),
        Section::Streams => page.put_all(sink, &StreamLines::of(run)),
        Section::Marks => page.put_all(sink, &MarkLines::of(run)),
        Section::Dumps => put_dumps(page, sink, run.dumps()),
        Section::Looks => put_looks(page, sink, run.looks()),
    }
}

// Puts all sections of the output of a run.
fn put_sections<K: Sink>(page: &mut Page, sink: &mut K, run: &Outcome) -> Result<(), Failed>
    ensures { Puts K.written K.faults sink.old page.old.gathered sink.new page.new.gathered result
        (run_text run.now) }
{
    for index in 0..SECTIONS.len() {
        put_section(page, sink, run, SECTIONS[index])?;
    }
    Ok(())
}

/// Writes the output of a run, by way of an empty page. After a fault a front of it stands.
pub(crate) fn write_output<K: Sink>(
    page: &mut Page,
    sink: &mut K,
    run: &Outcome,
) -> Result<(), Failed>
    requires { page.old.gathered ≡ [] }
    ensures { Adds K.written K.faults sink.old sink.new result (run_text run.now) }
{
    put_sections(page, sink, run)?;
    page.give(sink)
}
