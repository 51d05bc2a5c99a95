ghost use Rattle.std.specs.Prelude.{◌≡◌, ◌<◌, IfOk, IfErr, IfSome, IfNone, OnSome, OnOk, OnErr};
ghost use Rattle.crossbeam_queue.specs.Fifo.{Held};
ghost use Rattle.gpu_plan.specs.Passes.{flushes};
ghost use Rattle.flush_queue.specs.Seen.{fresh_end, one_more, note_of, AreLatest};

use crate::rule::{InOrder, Item, Learns, Parts, Posts, Takes, Tells};
use crate::view::View;
use crossbeam_queue::{Pass, RuledArrayQueue};
use gpu_word::Memory;
use shm_words::{ClientPass, Note};
use std::alloc::Global;
use std::marker::Model;
use std::sync::Wait;

/// The flushes of a stream that were posted and not taken yet, at most 16.
///
/// Seen as its name.
#[derive(Drop)]
pub struct FlushQueue {
    ring: RuledArrayQueue<Item, View, InOrder>,
}

impl Model for FlushQueue {
    ghost use Rattle.atomic_table.specs.Seated.{TableId, table_id_coded};
    ghost use Rattle.flush_queue.specs.Seen.{name_of, IsQueue};

    ghost Value = { TableId };

    ghost coded = { table_id_coded };

    ghost view = { λ q. name_of q.ring };

    ghost invariant = { λ q. IsQueue q.ring };
}

/// The end of a queue at which the client of a stream posts its flushes.
///
/// Seen as the name of the queue, the words and the plan of the stream, and how many flushes were posted.
#[derive(Drop)]
pub struct Poster {
    pass: Pass<Item, View>,
}

impl Model for Poster {
    ghost use Rattle.flush_queue.specs.Seen.{EndData, end_told, IsPoster};

    ghost Value = { EndData };

    ghost view = { λ p. end_told p.pass };

    ghost invariant = { λ p. IsPoster p.pass.me };
}

/// The end of a queue at which the service takes the flushes of a stream.
///
/// Seen as the name of the queue, the words and the plan of the stream, and how many flushes were taken.
#[derive(Drop)]
pub struct Taker {
    pass: Pass<Item, View>,
}

impl Model for Taker {
    ghost use Rattle.flush_queue.specs.Seen.{EndData, end_told, IsTaker};

    ghost Value = { EndData };

    ghost view = { λ t. end_told t.pass };

    ghost invariant = { λ t. IsTaker t.pass.me };
}

/// The queue was full. The note comes back.
#[derive(Drop)]
pub struct Full {
    pub note: Note,
}

/// The most notes that a queue holds.
const MOST_NOTES: usize = 16;

/// An empty queue for the flushes of a client that has done nothing yet, with its two ends. The pass comes back.
///
/// # Errors
///
/// `Memory`: for the room of 16 notes.
pub fn make<R: Wait>(
    rt: &R,
    alloc: Global,
    pass: ClientPass,
) -> Result<(FlushQueue, Poster, Taker, ClientPass), Memory>
    requires fresh { pass.done ≡ 0 }

    ensures poster { IfOk result (λ made. made.1 ≡ fresh_end made.0 pass.table pass.plan) }
    ensures taker { IfOk result (λ made. made.2 ≡ fresh_end made.0 pass.table pass.plan) }
    ensures pass { IfOk result (λ made. made.3 ≡ pass) }
{
    let (ring, mut end) = RuledArrayQueue::<Item, View, InOrder>::ruled(alloc, MOST_NOTES)?;
    if ring.push_as::<Tells, R>(rt, &mut end, Err(pass)).is_err() {
        unreachable!();
    }
    match ring.pop_as::<Learns, R>(rt, &mut end) {
        Some(Err(pass)) => {
            let other = ring.another::<Parts>(&mut end);
            let queue = FlushQueue { ring };
            Ok((queue, Poster { pass: end }, Taker { pass: other }, pass))
        }
        _ => unreachable!(),
    }
}

impl FlushQueue {
    /// Posts the next flush of the poster's stream.
    ///
    /// # Errors
    ///
    /// `Full`: at a moment of the call the queue held 16 notes. The given note comes back.
    pub fn post<R: Wait>(&self, rt: &R, poster: &mut Poster, note: Note) -> Result<(), Full>
        requires queue { poster.old.queue ≡ self.now }
        requires note { note ≡ note_of poster.old }
        requires flush { poster.old.count < flushes poster.old.plan.actions }

        ensures posted { OnOk result (poster.new ≡ one_more poster.old) }
        ensures stays { OnErr result (poster.new ≡ poster.old) }
        ensures back { IfErr result (λ full. full.note ≡ note) }
        ensures full { IfErr result (λ full. Held 16 (AreLatest poster.old)) }
    {
        let ring = &self.ring;
        match ring.push_as::<Posts, R>(rt, &mut poster.pass, Ok(note)) {
            Ok(()) => Ok(()),
            Err(Ok(note)) => Err(Full { note }),
            Err(Err(_)) => unreachable!(),
        }
    }

    /// Takes the next flush of the taker's stream. None changes nothing: no clause says that the queue was empty then, which is tested.
    pub fn take_next<R: Wait>(&self, rt: &R, taker: &mut Taker) -> Option<Note>
        requires queue { taker.old.queue ≡ self.now }

        ensures note { IfSome result (λ note. note ≡ note_of taker.old) }
        ensures flush { IfSome result (λ note. taker.old.count < flushes taker.old.plan.actions) }
        ensures taken { OnSome result (taker.new ≡ one_more taker.old) }
        ensures stays { IfNone result (taker.new ≡ taker.old) }
    {
        let ring = &self.ring;
        match ring.pop_as::<Takes, R>(rt, &mut taker.pass)? {
            Ok(note) => Some(note),
            Err(_) => unreachable!(),
        }
    }
}
