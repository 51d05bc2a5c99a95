ghost use Rattle.std.specs.Prelude.{◌≡◌, ◌++◌, List, [], ◌∷◌, true, false, Some, None, option_map, IfSome, IsSome, OnOk, OnErr, IfErr};
ghost use Rattle.gpu_house.specs.Slots.{note_ahead, left_slot};

use gpu_word::Memory;
use std::alloc::Global;
use std::collections::VecDeque;
use std::marker::Model;

/// The side of a stream while no run of it is out, and the notes of its orders that no side has met.
#[derive(Drop)]
pub struct Slot<S, T> {
    side: Option<S>,
    begun: bool,
    first: Option<T>,
    notes: VecDeque<T>,
}

impl<S, T> Model for Slot<S, T> {
    ghost use Rattle.gpu_house.specs.Slots.{SlotData};

    ghost Value = { SlotData S T };

    ghost view = { λ s. record {
      side = s.side;
      begun = s.begun;
      first = s.first;
      notes = s.notes.items;
    } };
}

impl<S: Drop, T: Drop> Slot<S, T> {
    /// The slot of a stream that has done nothing.
    pub fn make(alloc: Global, side: S) -> Slot<S, T>
        ensures { result ≡ record { side = Some side; begun = false; first = None; notes = [] } }
    {
        Slot {
            side: Some(side),
            begun: false,
            first: None,
            notes: VecDeque::new(alloc),
        }
    }

    /// The note of one more order stands after all others.
    ///
    /// # Errors
    ///
    /// Out of memory: the note comes back, with the refusal.
    pub fn push(&mut self, note: T) -> Result<(), (T, Memory)>
        ensures ok { OnOk result
            (self.new ≡ record self.old { notes = self.old.notes ++ note ∷ [] }) }
        ensures err { IfErr result (λ back. back.0 ≡ note) }
        ensures same { OnErr result (self.new ≡ self.old) }
    {
        match self.notes.reserve(1) {
            Ok(()) => {
                self.notes.push_back_reserved(note);
                Ok(())
            }
            Err(error) => Err((note, Memory::from(error))),
        }
    }

    /// The last note comes back.
    pub fn pop_last(&mut self) -> Option<T>
        ensures { (notes : List T) (note : T) → self.old.notes ≡ notes ++ note ∷ []
            → (result ≡ Some note) × (self.new ≡ record self.old { notes = notes }) }
    {
        self.notes.pop_back()
    }

    /// The side leaves for a run of the first order, with the order's note where no side has met that.
    pub fn leave(&mut self) -> Option<(S, Option<T>)>
        requires { IsSome self.old.side }
        ensures side { option_map (λ left. left.0) result ≡ self.old.side }
        ensures note { IfSome result (λ left. left.1 ≡ note_ahead self.old) }
        ensures slot { self.new ≡ left_slot self.old }
    {
        let side = self.side.take()?;
        let note = self.begin();
        Some((side, note))
    }

    // The note of the first order leaves, where no side has met that.
    fn begin(&mut self) -> Option<T>
        ensures note { result ≡ note_ahead self.old }
        ensures slot { self.new ≡ record (left_slot self.old) { side = self.old.side } }
    {
        if self.begun {
            return self.first.take();
        }
        self.begun = true;
        self.first = None;
        self.notes.pop_front()
    }

    /// A side comes home while its order is unprocessed, with the order's note where no side has met that.
    pub fn come(&mut self, side: S, note: Option<T>)
        ensures { self.new ≡ record self.old { side = Some side; begun = true; first = note } }
    {
        self.side = Some(side);
        self.begun = true;
        self.first = note;
    }

    /// A side comes home once its order is finished.
    pub fn finish(&mut self, side: S)
        ensures { self.new ≡ record self.old { side = Some side; begun = false; first = None } }
    {
        self.side = Some(side);
        self.begun = false;
        self.first = None;
    }
}
