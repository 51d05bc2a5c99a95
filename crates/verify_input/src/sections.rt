//! The parts of an output after its journal, line by line.
ghost use Rattle.std.specs.Prelude.{◌≡◌, ◌≤◌, List, [], ◌∷◌, IfOk, IfErr, Contains, length, map, take};
ghost use Rattle.std.specs.Bool.{Decides};
ghost use Rattle.std.specs.List.{flat_map, range_with_len};
ghost use Rattle.gpu_plan.specs.Plans.{PlansData, plan_of};
ghost use Rattle.gpu_plan.specs.Passes.{flush_count, flushes};
ghost use Rattle.gpu_plan.specs.declared.acting.TheConstants.{MOST_ACTIONS};
ghost use Rattle.gpu_journal.specs.declared.event.Event.{Event};
ghost use Rattle.sync_core.specs.Standing.{IsKnown};
ghost use Rattle.gpu_journal.specs.Ended.{streams_of};
ghost use Rattle.journal_verify.specs.Followed.{sum_after};
ghost use Rattle.verify_input.specs.Due as Due;
ghost use Rattle.verify_input.specs.Due.{same_lines, lines_of_image, heads_due, dumps_due, looks_due};
ghost use Rattle.verify_input.specs.Taking.{HasTaken, IsBad, Judges, IsHistory, IsLook, is_lost, past_of};

use crate::reading_lines::{first_look, value_before_end};
use crate::rest::{Bad, Rest};
use crate::what::What;
use gpu_journal::{End, Journal, replay};
use gpu_plan::{Action, Plan, Plans};
use gpu_store::{Images, texel_sum};
use gpu_word::Memory;
use journal_text::{Ended, ImageLines, NameLines, Sheet};
use journal_verify::Followed;
use live_view::{LOOKS, MOST_VIEWERS};
use std::alloc::Global;
use stream_state::StreamState;
use sync_core::Ending;
use wait_hooks::mark;

/// What an output is judged by: its script, the base of its marks, its events, and what these leave.
#[derive(Clone, Copy)]
pub(crate) struct History<'a> {
    pub(crate) plans: &'a Plans,
    pub(crate) base: u32,
    pub(crate) journal: &'a Journal,
    pub(crate) followed: &'a Followed,
    pub(crate) ends: &'a [End],
}

impl Ended for History<'_> {
    ghost plans = { λ history. history.plans.now };

    ghost base = { λ history. history.base };

    ghost past = { past_of };

    ghost fits = { IsHistory };

    fn plans(&self) -> &Plans {
        self.plans
    }

    fn stream(&self, stream: u32) -> &StreamState {
        self.followed.state(stream)
    }

    fn ends(&self) -> &[End] {
        self.ends
    }

    fn endings(&self) -> &[Ending] {
        self.followed.endings()
    }

    fn mark(&self, index: usize) -> u32 {
        mark(self.base, self.followed.endings()[index])
    }
}

/// The head line and the name lines, of a script of version 2.
pub(crate) fn take_names(rest: &mut Rest<'_>, sheet: &mut Sheet, plans: &Plans) -> Result<(), Bad>
    ensures { (h : List Event)
        → Judges plans.now h (heads_due plans.now) rest.old rest.new result }
{
    if plans.version() != 2 {
        return Ok(());
    }
    rest.take_all(sheet, &NameLines::of(plans), What::Name)
}

/// The lines of all images.
pub(crate) fn take_images(
    rest: &mut Rest<'_>,
    sheet: &mut Sheet,
    images: &Images,
) -> Result<(), Bad>
    ensures { (p : PlansData) (h : List Event)
        → Judges p h (same_lines What.Image (flat_map lines_of_image images.now)) rest.old rest.new result }
{
    for image in images.numbers() {
        rest.take_all(sheet, &ImageLines::of(images, image), What::Image)?;
    }
    Ok(())
}

// How many flushes an action is.
fn flush_count(action: &Action) -> u32
    ensures { result ≡ flush_count action.now }
{
    match action {
        Action::Flush { .. } => 1,
        Action::Put { .. } | Action::Finish | Action::Token { .. } | Action::Close => 0,
    }
}

// How many of these actions are flushes.
fn flushes_in(actions: &[Action]) -> u32
    requires { length actions.now ≤ MOST_ACTIONS }
    ensures value { result ≡ flushes actions.now }
    ensures few { result ≤ length actions.now }
{
    let mut count = 0;
    for action in actions {
        count += flush_count(action);
    }
    count
}

// The line of a dump of a stream, before whose action this number of flushes stands.
fn take_dump(
    rest: &mut Rest<'_>,
    sheet: &mut Sheet,
    history: History<'_>,
    stream: u32,
    dump: (u32, u32),
    least: u32,
) -> Result<(), Bad>
    requires history { IsHistory history }
    requires known { IsKnown (length history.plans.now.plans) stream }
    requires there { Contains (plan_of history.plans.now stream).dumps dump }
    requires least { least ≡ flushes (take dump.0 (plan_of history.plans.now stream).actions) }
    ensures { Judges history.entry.plans.now (past_of history.entry) (Due.Dump stream dump ∷ [])
        rest.old rest.new result }
{
    let (action, place) = dump;
    sheet.clear();
    sheet.put_dump(stream, action, place, 0);
    let value = value_before_end(rest.text, sheet.bytes().len());
    if !history.followed.may_be_told(stream, place, least, value) {
        return Err(rest.off(What::Dump));
    }
    sheet.clear();
    sheet.put_dump(stream, action, place, value);
    rest.take(sheet.bytes(), What::Dump)
}

// The lines of the dumps of a stream, whose plan this is.
fn take_dumps_of(
    rest: &mut Rest<'_>,
    sheet: &mut Sheet,
    history: History<'_>,
    stream: u32,
    plan: &Plan,
) -> Result<(), Bad>
    requires history { IsHistory history }
    requires known { IsKnown (length history.plans.now.plans) stream }
    requires plan { plan_of history.plans.now stream ≡ plan.now }
    ensures { Judges history.entry.plans.now (past_of history.entry)
        (map (λ dump. Due.Dump stream dump) plan.now.dumps) rest.old rest.new result }
{
    let mut left = plan.actions();
    let mut done = 0;
    let mut least = 0;
    for dump in plan.dumps() {
        let (passed, more) = left.split_at((dump.0 - done) as usize);
        least += flushes_in(passed);
        left = more;
        done = dump.0;
        take_dump(rest, sheet, history, stream, *dump, least)?;
    }
    Ok(())
}

// Whether a stream that ended so was lost.
fn is_lost(end: End) -> bool
    ensures { result ≡ is_lost end }
{
    match end {
        End::Lost(_) => true,
        End::Done | End::Closed => false,
    }
}

// The lines of the dumps of a stream, unless it is lost.
fn take_dumps_in(
    rest: &mut Rest<'_>,
    sheet: &mut Sheet,
    history: History<'_>,
    stream: u32,
) -> Result<(), Bad>
    requires history { IsHistory history }
    requires known { IsKnown (length history.plans.now.plans) stream }
    ensures { Judges history.entry.plans.now (past_of history.entry)
        (dumps_due history.entry.plans.now (past_of history.entry) stream) rest.old rest.new result }
{
    let index = stream as usize - 1;
    if is_lost(history.ends[index]) {
        return Ok(());
    }
    let plan = history.plans.plan(stream);
    take_dumps_of(rest, sheet, history, stream, plan)
}

/// The lines of all dumps. A stream that is lost has none.
pub(crate) fn take_dumps(
    rest: &mut Rest<'_>,
    sheet: &mut Sheet,
    history: History<'_>,
) -> Result<(), Bad>
    requires history { IsHistory history }
    ensures { Judges history.entry.plans.now (past_of history.entry)
        (flat_map (dumps_due history.entry.plans.now (past_of history.entry))
        (streams_of history.entry.plans.now)) rest.old rest.new result }
{
    for index in 0..history.plans.count() {
        take_dumps_in(rest, sheet, history, index + 1)?;
    }
    Ok(())
}

// The sum of all texels after a number of events.
fn sum_after(alloc: Global, history: History<'_>, events: u32) -> Result<u32, Memory>
    requires history { IsHistory history }
    requires few { events ≤ length history.journal.now.events }
    ensures { IfOk result (λ sum. sum ≡ sum_after history.entry.plans.now (past_of history.entry) events) }
{
    if let Some(sum) = history.followed.sum_after(events) {
        return Ok(sum);
    }
    let images = replay(alloc, history.plans, history.journal, events as usize)?;
    Ok(texel_sum(&images))
}

// Whether a look of this number of events, at least a given number and at most all, has this sum.
fn may_be_seen(
    alloc: Global,
    history: History<'_>,
    least: u32,
    look: (u32, u32),
) -> Result<bool, Memory>
    requires history { IsHistory history }
    ensures { IfOk result (λ may. Decides may (IsLook history.entry.plans.now (past_of history.entry) least look)) }
{
    let (events, sum) = look;
    if events < least {
        return Ok(false);
    }
    if events as usize > history.journal.count() {
        return Ok(false);
    }
    let found = sum_after(alloc, history, events)?;
    Ok(found == sum)
}

// The line of a look of at least a given number of events; answers of how many it is.
fn take_look(
    alloc: Global,
    rest: &mut Rest<'_>,
    sheet: &mut Sheet,
    history: History<'_>,
    viewer: u32,
    least: u32,
) -> Result<u32, Bad>
    requires history { IsHistory history }
    ensures ok { IfOk result (λ then. HasTaken history.entry.plans.now (past_of history.entry)
        (Due.Look viewer ∷ []) least rest.old rest.new then) }
    ensures err { IfErr result (λ bad. IsBad history.entry.plans.now (past_of history.entry)
        (Due.Look viewer ∷ []) least rest.old bad) }
{
    let look = first_look(rest.text);
    let seen = may_be_seen(alloc, history, least, look)?;
    if !seen {
        return Err(rest.off(What::View));
    }
    let (events, sum) = look;
    sheet.clear();
    sheet.put_view(viewer, events, sum);
    rest.take(sheet.bytes(), What::View)?;
    Ok(events)
}

// The lines of a viewer.
fn take_viewer(
    alloc: Global,
    rest: &mut Rest<'_>,
    sheet: &mut Sheet,
    history: History<'_>,
    viewer: u32,
) -> Result<(), Bad>
    requires history { IsHistory history }
    ensures { Judges history.entry.plans.now (past_of history.entry) (looks_due viewer)
        rest.old rest.new result }
{
    let mut least = 0;
    for _look in 0..LOOKS {
        least = take_look(alloc, rest, sheet, history, viewer, least)?;
    }
    // The last look is of all events.
    let all = history.journal.count() as u32;
    take_look(alloc, rest, sheet, history, viewer, all)?;
    Ok(())
}

/// The lines of all viewers.
pub(crate) fn take_viewers(
    alloc: Global,
    rest: &mut Rest<'_>,
    sheet: &mut Sheet,
    history: History<'_>,
    viewers: u32,
) -> Result<(), Bad>
    requires history { IsHistory history }
    requires few { viewers ≤ MOST_VIEWERS }
    ensures { Judges history.entry.plans.now (past_of history.entry)
        (flat_map looks_due (range_with_len 1 viewers)) rest.old rest.new result }
{
    for index in 0..viewers {
        take_viewer(alloc, rest, sheet, history, index + 1)?;
    }
    Ok(())
}
