ghost use Rattle.std.specs.Prelude.{◌≡◌, ◌+◌, ◌≤◌, ◌<◌, [], ◌∷◌, length, reverse, slice_index_or, OnOk, OnErr};
ghost use Rattle.gpu_journal.specs.Past.{event_words};

use crate::entry::{Entry, event_of, keep};
use crate::event::Event;
use gpu_word::Memory;
use std::alloc::Global;
use std::marker::Model;

/// The most words that all events have together.
const MOST_WORDS: usize = u32::MAX as usize;

/// The events of a run. Contracts see the newest first, and how many more events and words there is room for.
///
/// The words of all events lie in one list, so that an event takes no memory of its own.
#[derive(Drop)]
pub struct Journal {
    entries: Vec<Entry>,
    words: Vec<(u32, u32)>,
}

impl Model for Journal {
    ghost use Rattle.std.specs.Prelude.{◌-◌, ◌≤◌, min, length, reverse, vec_len, vec_capacity};
    ghost use Rattle.std.specs.List.{All};
    ghost use Rattle.gpu_journal.specs.Past.{Past};
    ghost use Rattle.gpu_journal.specs.Entries.{events_of, LiesInWords};

    ghost Value = { Past };

    ghost view = { λ journal.
        record {
          events = reverse (events_of journal.words.items journal.entries.items);
          spare = vec_capacity journal.entries - vec_len journal.entries;
          room = min (vec_capacity journal.words) 4294967295 - vec_len journal.words;
        } };

    ghost invariant = { λ journal. (length journal.words.items ≤ 4294967295)
        × All (LiesInWords journal.words.items) journal.entries.items };
}

impl Journal {
    /// A journal without events.
    pub fn make(alloc: Global) -> Journal
        ensures { result.events ≡ [] }
    {
        Journal {
            entries: Vec::new(alloc),
            words: Vec::new(alloc),
        }
    }

    /// The allocator of the lists.
    pub fn allocator(&self) -> Global {
        *self.words.allocator()
    }

    /// Makes room for a given number of further events.
    pub fn reserve(&mut self, more: usize) -> Result<(), Memory>
        ensures events { self.new.events ≡ self.old.events }
        ensures spare { OnOk result (more ≤ self.new.spare) }
        ensures grows { self.old.spare ≤ self.new.spare }
        ensures room { self.new.room ≡ self.old.room }
        ensures full { OnErr result (self.old.spare < more) }
        ensures err { OnErr result (self.new.spare ≡ self.old.spare) }
    {
        self.entries.reserve(more)?;
        Ok(())
    }

    /// Makes room for a given number of further words.
    pub fn reserve_words(&mut self, more: usize) -> Result<(), Memory>
        ensures events { self.new.events ≡ self.old.events }
        ensures spare { self.new.spare ≡ self.old.spare }
        ensures room { OnOk result (more ≤ self.new.room) }
        ensures full { OnErr result (self.old.room < more) }
    {
        if more > MOST_WORDS - self.words.len() {
            return Err(Memory::of_too_many(self.allocator(), self.words.len(), more));
        }
        self.words.reserve(more)?;
        Ok(())
    }

    /// Adds an event after all others, in room that was made before. Its words are copied.
    #[inline(always)]
    pub fn push(&mut self, event: Event<'_>)
        requires spare { 0 < self.old.spare }
        requires room { length (event_words event) ≤ self.old.room }
        ensures events { self.new.events ≡ event.entry ∷ self.old.events }
        ensures spare { self.new.spare + 1 ≡ self.old.spare }
    {
        let entry = keep(&mut self.words, event);
        self.entries.push_reserved(entry);
    }

    /// Adds an event after all others, and takes the memory that this needs.
    ///
    /// # Errors
    ///
    /// `Memory`: the events are as before.
    #[inline(always)]
    pub fn add(&mut self, event: Event<'_>) -> Result<(), Memory>
        ensures ok { OnOk result (self.new.events ≡ event.entry ∷ self.old.events) }
        ensures err { OnErr result (self.new.events ≡ self.old.events) }
    {
        self.reserve(1)?;
        self.reserve_words(event.words().len())?;
        self.push(event);
        Ok(())
    }

    /// How many events there are.
    pub fn count(&self) -> usize
        ensures { result ≡ length self.now.events }
    {
        self.entries.len()
    }

    /// The event at an index. The oldest has index 0.
    #[inline(always)]
    pub fn event(&self, index: usize) -> Event<'_>
        requires { index < length self.now.events }
        ensures { result ≡ slice_index_or (reverse self.now.events) index result }
    {
        event_of(&self.words, &self.entries[index])
    }
}
