ghost use Rattle.std.specs.Prelude.{◌≡◌, ◌+◌, ◌<◌, ◌≤◌, ◌^◌, ◌∷◌, [], replicate, vec_len, vec_capacity, IfOk};
ghost use Rattle.left_right.specs.Sides.{view};
ghost use Rattle.live_view.specs.Versions.{blank};
ghost use Rattle.live_view.specs.Copies.{published, steps_pending};
ghost use Rattle.live_view.specs.Rule.{nothing, met};
ghost use Rattle.live_view.specs.Seen.{fresh_writer, fresh_viewer};

use crate::front::Front;
use crate::roll::Roll;
use crate::rule::{Copies, Publishes, Seat, Tells};
use crate::shown::Shown;
use crate::version::Version;
use crate::viewer::Viewer;
use crate::writer::ViewWriter;
use gpu_store::Images;
use gpu_word::Memory;
use std::alloc::Global;
use std::sync::Wait;
use std::thread;

/// The most viewers of a view.
pub const MOST_VIEWERS: u32 = 4;

// The first version, as one of the two copies has it.
fn first(alloc: Global, front: &Front) -> Shown
    ensures { result ≡ record { version = blank; front = front.now } }
{
    Shown {
        version: Version {
            images: Images::make(alloc),
            events: 0,
        },
        front: front.again(),
    }
}

// A reader's place. The port does not say when it finds none that is free, so it is asked again.
fn place<R: Wait>(rt: &R, copies: &Copies) -> Seat
    ensures view { view result.place ≡ nothing }
    ensures table { result.place.table_id ≡ copies.now.desk.place.table_id }
{
    for _ in rt.forever() {
        if let Ok(seat) = copies.factory().reader() {
            return seat;
        }
        thread::yield_now();
    }
    unreachable!()
}

// A viewer that knows which view it reads, and has not looked.
fn make_viewer<R: Wait>(rt: &R, copies: &mut Copies) -> Viewer
    requires known { view copies.old.desk.place ≡ met nothing (published copies.old) }
    requires first { (published copies.old).front.versions ≡ blank ∷ [] }
    ensures published { published copies.new ≡ published copies.old }
    ensures pending { steps_pending copies.new ≡ steps_pending copies.old }
    ensures known { view copies.new.desk.place ≡ view copies.old.desk.place }
    ensures viewer { result ≡ fresh_viewer (published copies.old).front.view }
{
    let mut seat = place(rt, copies);
    seat.learn::<Tells>(copies.tell::<Tells>());
    Viewer::of(seat)
}

// Adds a given number of viewers.
fn add_viewers<R: Wait>(rt: &R, copies: &mut Copies, all: &mut Vec<Viewer>, viewers: u32)
    requires known { view copies.old.desk.place ≡ met nothing (published copies.old) }
    requires first { (published copies.old).front.versions ≡ blank ∷ [] }
    requires none { all.old.items ≡ [] }
    requires room { vec_len all.old + viewers ≤ vec_capacity all.old }
    ensures published { published copies.new ≡ published copies.old }
    ensures pending { steps_pending copies.new ≡ steps_pending copies.old }
    ensures viewers { all.new.items
        ≡ replicate viewers (fresh_viewer (published copies.old).front.view) }
{
    for _ in 0..viewers {
        all.push_reserved(make_viewer(rt, copies));
    }
}

// Two copies that show the first version of the list, of which their writer knows.
fn copies_of<R: Wait>(
    rt: &R,
    alloc: Global,
    front: &Front,
    viewers: usize,
) -> Result<Copies, Memory>
    requires first { front.now.versions ≡ blank ∷ [] }
    requires some { (0 < viewers) × (viewers < 2 ^ 32) }
    ensures published { IfOk result
        (λ copies. published copies ≡ record { version = blank; front = front.now }) }
    ensures pending { IfOk result (λ copies. steps_pending copies ≡ []) }
    ensures known { IfOk result
        (λ copies. view copies.desk.place ≡ met nothing (published copies)) }
{
    let copies = Copies::new(alloc, first(alloc, front), first(alloc, front), viewers)?;
    let (copies, published) = copies.publish_as::<Publishes, R>(rt);
    match published {
        Ok(()) => Ok(copies),
        Err(error) => {
            copies.take(rt);
            Err(Memory::from(error))
        }
    }
}

/// A view whose one version has no image and no event, with its writer and a given number of viewers.
///
/// # Errors
///
/// `Memory`: for the two copies and the places of the viewers.
pub fn make<R: Wait>(
    rt: &R,
    alloc: Global,
    viewers: u32,
) -> Result<(ViewWriter, Vec<Viewer>), Memory>
    requires { (1 ≤ viewers) × (viewers ≤ MOST_VIEWERS) }
    ensures writer { IfOk result (λ made. made.0 ≡ fresh_writer made.0.view made.0.spare) }
    ensures viewers { IfOk result
        (λ made. made.1.items ≡ replicate viewers (fresh_viewer made.0.view)) }
{
    let mut all = Vec::with_capacity(alloc, viewers as usize)?;
    let roll = Roll::open();
    let mut copies = copies_of(rt, alloc, roll.front(), viewers as usize)?;
    add_viewers(rt, &mut copies, &mut all, viewers);
    Ok((ViewWriter::fresh(alloc, copies, roll), all))
}
