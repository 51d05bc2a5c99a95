ghost use Rattle.std.specs.Prelude.{◌≡◌, ◌⊎◌, ◌∷◌, ◌++◌, ◌-◌, ◌<◌, ◌≤◌, [], OnOk, OnErr};
ghost use Rattle.gpu_store.specs.Images.{HasItsTexels};
ghost use Rattle.live_view.specs.Versions.{blank, IsLatest, images_drawn};
ghost use Rattle.live_view.specs.Copies.{published, steps_pending};
ghost use Rattle.live_view.specs.Seen.{fresh_writer, next_version};

use crate::copies::{end_version, hand_over};
use crate::drawn::Drawn;
use crate::next::Next;
use crate::roll::Roll;
use crate::rule::Copies;
use crate::step::Mark;
use crate::viewer::Told;
use gpu_store::Op;
use gpu_word::Memory;
use std::alloc::Global;
use std::collections::VecDeque;
use std::marker::Model;
use std::sync::Wait;

/// Publishes versions of the images, each at one step.
///
/// It is not `Drop`: give it up by `end`.
///
/// Seen as its view, the versions published, those whose publishing found no memory, the images of the last version
/// published, the operations noted since, and how many more there is room for.
pub struct ViewWriter {
    copies: Copies,
    roll: Roll,
    waiting: VecDeque<Drawn>,
}

impl Model for ViewWriter {
    ghost use Rattle.std.specs.Prelude.{◌-◌, ◌++◌, length, drop};
    ghost use Rattle.std.specs.VecDeque.{deque_len, deque_capacity};
    ghost use Rattle.live_view.specs.Copies.{published, steps_pending};
    ghost use Rattle.live_view.specs.Steps.{ops_of};
    ghost use Rattle.live_view.specs.Seen.{WriterData, IsViewWriter};

    ghost Value = { WriterData };

    ghost view = { λ writer. record {
      view = writer.roll.view;
      versions = (published writer.copies).front.versions;
      tried = drop (length (published writer.copies).front.versions) writer.roll.versions;
      images = (published writer.copies).version.images;
      noted = ops_of (steps_pending writer.copies) ++ writer.waiting.items;
      spare = deque_capacity writer.waiting - deque_len writer.waiting;
    } };

    ghost invariant = { λ writer. IsViewWriter (published writer.copies) writer.roll };
}

impl ViewWriter {
    // The writer of two copies that show the first version, which has nothing noted.
    pub(crate) fn fresh(alloc: Global, copies: Copies, roll: Roll) -> ViewWriter
        requires published { published copies ≡ record { version = blank; front = roll } }
        requires pending { steps_pending copies ≡ [] }
        requires versions { roll.versions ≡ blank ∷ [] }
        ensures { result ≡ fresh_writer roll.view result.spare }
    {
        ViewWriter {
            copies,
            roll,
            waiting: VecDeque::new(alloc),
        }
    }

    /// Makes room for a given number of further operations.
    ///
    /// # Errors
    ///
    /// `Memory`: for the room. Nothing changes.
    pub fn reserve(&mut self, more: usize) -> Result<(), Memory>
        ensures room { OnOk result (more ≤ self.new.spare) }
        ensures same { self.new ≡ record self.old { spare = self.new.spare } }
    {
        self.waiting.reserve(more)?;
        Ok(())
    }

    /// Keeps an operation that was done, until a version hands it on.
    pub fn note(&mut self, op: Op)
        requires room { 0 < self.old.spare }
        requires texels { HasItsTexels op }
        ensures { self.new ≡ record self.old {
          noted = self.old.noted ++ op ∷ [];
          spare = self.old.spare - 1;
        } }
    {
        self.waiting.push_back_reserved(Drawn::of(op));
    }

    /// Publishes a version: the images after the operations noted, in order, with a number of events.
    ///
    /// It waits for viewers that still read an earlier version.
    ///
    /// # Errors
    ///
    /// `Memory`: the published version stays, and so do the operations noted. The version may stand among those that
    /// were tried.
    pub fn publish<R: Wait>(&mut self, rt: &R, events: u32) -> Result<(), Memory>
        requires { IsLatest (self.old.versions ++ self.old.tried) events }
        ensures view { self.new.view ≡ self.old.view }
        ensures versions { OnOk result
            (self.new.versions
            ≡ (self.old.versions ++ self.old.tried) ++ next_version self.old events ∷ []) }
        ensures images { OnOk result
            (self.new.images ≡ images_drawn self.old.images self.old.noted) }
        ensures handed { OnOk result ((self.new.noted ≡ []) × (self.new.tried ≡ [])) }
        ensures kept { OnErr result
            ((self.new.versions ≡ self.old.versions) × (self.new.images ≡ self.old.images)
            × (self.new.noted ≡ self.old.noted)) }
        ensures tried { OnErr result
            ((self.new.tried ≡ self.old.tried)
            ⊎ (self.new.tried ≡ self.old.tried ++ next_version self.old events ∷ [])) }
    {
        hand_over(&mut self.copies, &mut self.waiting)?;
        let next = Next {
            copies: &self.copies,
            events,
        };
        if !self.roll.add(&next) {
            return Err(Memory::of_too_many(*self.waiting.allocator(), usize::MAX, 1));
        }
        let front = self.roll.front().again();
        end_version(&mut self.copies, rt, Mark { events, front })
    }

    /// Tells which versions were published.
    pub fn tell(&mut self) -> Told
        ensures view { result.view ≡ self.old.view }
        ensures versions { result.versions ≡ self.old.versions }
        ensures same { self.new ≡ self.old }
    {
        Told::of(self.copies.published().front.again())
    }

    /// Gives the writer up. It waits for viewers that are reading. From then on no look ends.
    pub fn end<R: Wait>(self, rt: &R) {
        let ViewWriter {
            copies,
            roll: _roll,
            waiting: _waiting,
        } = self;
        copies.take(rt);
    }
}
