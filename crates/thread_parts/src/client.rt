ghost use Rattle.std.specs.Prelude.{◌≡◌, ◌<◌, ◌≤◌, ◌↔◌, [], map, slice_get, None, true, if◌then◌else◌, IsSome, IfSome, IfNone, IfOk, OnSome, IsTrue};
ghost use Rattle.crossbeam_queue.specs.Fifo.{Held};
ghost use Rattle.gpu_cmd.specs.Spans.{words_in};
ghost use Rattle.gpu_plan.specs.Plans.{is_closed};
ghost use Rattle.gpu_plan.specs.Passes.{flushes};
ghost use Rattle.flush_queue.specs.Seen.{fresh_end, one_more, note_of, AreLatest};
ghost use Rattle.shm_words.specs.Seen.{client_at};
ghost use Rattle.thread_parts.specs.Clients.{IsSameClient, HasReadAll, due_in, read_for};
ghost use Rattle.thread_parts.specs.Acts.{DoesAct};

use flush_queue::{FlushQueue, Poster};
use gpu_io::{Gate, Place};
use gpu_plan::Plan;
use gpu_word::Memory;
use result_words::{ResultReader, ResultWords};
use shm_words::{Acted, ClientPass, Note, SharedWords};
use std::alloc::Global;
use std::marker::Model;
use std::sync::Wait;

/// The client of one stream, on a thread of its own: it does the actions of its plan, posts its flushes to the queue of the stream, and
/// reads its dumps in the result words.
///
/// Seen as its stream, its pass, its end of the queue, the note that its queue did not take, its reader, the dump that
/// it must read next, and the dumps that it has read.
#[derive(Drop)]
pub struct Client {
    stream: u32,
    pass: ClientPass,
    poster: Poster,
    held: Option<Note>,
    reader: ResultReader,
    due: Option<(u32, u32)>,
    dumps: Vec<(u32, u32, u32)>,
    planned: Vec<(u32, u32)>,
    position: u32,
    flushed: u32,
}

impl Model for Client {
    ghost use Rattle.thread_parts.specs.Clients.{ThreadClientData, IsThreadClient};

    ghost Value = { ThreadClientData };

    ghost view = { λ c. record {
      stream = c.stream;
      pass = c.pass;
      poster = c.poster;
      held = c.held;
      reader = c.reader;
      due = c.due;
      dumps = c.dumps.items;
    } };

    ghost invariant = { λ c. IsThreadClient
        record {
          stream = c.stream;
          pass = c.pass;
          poster = c.poster;
          held = c.held;
          reader = c.reader;
          due = c.due;
          dumps = c.dumps.items;
        }
        c.planned.items c.position c.flushed c.dumps.cap };
}

/// How one action of a client went.
#[derive(Clone, Copy)]
pub enum Act {
    /// It did an action, posted the flush that it held, or read the dump that was due.
    Went,
    /// Its queue did not take the note.
    Full,
    /// Its await does not pass.
    NotYet,
    /// A dump is due, and too few finishes are counted in the result words.
    Unread,
    /// It stands at its Close.
    AtClose,
    /// No action is left.
    End,
}

impl Act {
    // How a post went.
    fn posted(posted: bool) -> Act
        ensures { result ≡ (if posted then Act.Went else Act.Full) }
    {
        if posted { Act::Went } else { Act::Full }
    }
}

// Posts a note. It comes back where the queue does not take it.
fn post_or_keep<R: Wait>(
    rt: &R,
    queue: &FlushQueue,
    poster: &mut Poster,
    note: Note,
) -> Option<Note>
    requires queue { poster.old.queue ≡ queue.now }
    requires note { note ≡ note_of poster.old }
    requires flush { poster.old.count < flushes poster.old.plan.actions }
    ensures posted { IfNone result (poster.new ≡ one_more poster.old) }
    ensures stays { OnSome result (poster.new ≡ poster.old) }
    ensures back { IfSome result (λ back. back ≡ note) }
    ensures full { OnSome result (Held 16 (AreLatest poster.old)) }
{
    match queue.post(rt, poster, note) {
        Ok(()) => None,
        Err(full) => Some(full.note),
    }
}

// The dump at a place of the list, where it is of this action.
fn due_at(planned: &[(u32, u32)], place: usize, action: u32) -> Option<(u32, u32)>
    ensures { result ≡ due_in (slice_get planned.now place) action }
{
    let dump = *planned.get(place)?;
    if dump.0 == action { Some(dump) } else { None }
}

impl Client {
    /// The client of a stream, which has done nothing.
    ///
    /// # Errors
    ///
    /// `Memory`: for the list of the dumps, 20 bytes each.
    pub fn make(
        alloc: Global,
        stream: u32,
        plan: &Plan,
        pass: ClientPass,
        poster: Poster,
        reader: ResultReader,
    ) -> Result<Client, Memory>
        requires pass { pass ≡ client_at pass.table plan.now }
        requires poster { poster ≡ fresh_end poster.queue pass.table plan.now }
        requires fresh { reader.reads ≡ [] }
        requires places { words_in plan.now.areas.results ≤ reader.places }
        ensures { IfOk result (λ client. client
            ≡ record {
              stream = stream;
              pass = pass;
              poster = poster;
              held = None;
              reader = reader;
              due = None;
              dumps = [];
            }) }
    {
        plan.shows_lawful();
        let planned = Vec::from_slice(alloc, plan.dumps())?;
        let dumps = Vec::with_capacity(alloc, planned.len())?;
        Ok(Client {
            stream,
            pass,
            poster,
            held: None,
            reader,
            due: None,
            dumps,
            planned,
            position: 0,
            flushed: 0,
        })
    }

    /// The stream.
    pub fn stream(&self) -> u32
        ensures { result ≡ self.now.stream }
    {
        self.stream
    }

    /// How many flushes it has made.
    pub fn flushed(&self) -> u32 {
        self.flushed
    }

    /// How many of them it has posted.
    pub fn posted(&self) -> u32 {
        if self.held.is_some() {
            self.flushed.saturating_sub(1)
        } else {
            self.flushed
        }
    }

    /// Whether its next action is an await of a token.
    pub fn awaits_token(&self) -> bool {
        self.pass.awaits_token()
    }

    /// Whether it has read all dumps of its plan.
    pub fn is_whole(&self) -> bool
        ensures { IsTrue result ↔ HasReadAll self.now }
    {
        self.dumps.len() == self.planned.len()
    }

    /// Its reader, and the dumps that it has read.
    pub fn into_parts(self) -> (ResultReader, Vec<(u32, u32, u32)>)
        ensures reader { result.0 ≡ self.reader }
        ensures dumps { result.1.items ≡ self.dumps }
        ensures reads { result.0.reads ≡ map (read_for self.pass.plan) result.1.items }
    {
        let Client { reader, dumps, .. } = self;
        (reader, dumps)
    }

    // Posts the note that is held.
    fn post_held<R: Wait>(&mut self, rt: &R, queue: &FlushQueue) -> Act
        requires held { IsSome self.old.held }
        requires queue { queue.now ≡ self.old.poster.queue }
        ensures acts { DoesAct self.old self.new result }
        ensures same { IsSameClient self.old self.new }
        ensures close { result ≡ Act.AtClose → ⊥ }
    {
        let Some(note) = self.held.take() else {
            unreachable!();
        };
        self.held = post_or_keep(rt, queue, &mut self.poster, note);
        Act::posted(self.held.is_none())
    }

    // Reads the dump that is due, once as many finishes are counted as flushes stand before it.
    fn read_due(&mut self, words: &ResultWords) -> Act
        requires due { IsSome self.old.due }
        requires words { words.now ≡ self.old.reader.table }
        ensures acts { DoesAct self.old self.new result }
        ensures same { IsSameClient self.old self.new }
        ensures close { result ≡ Act.AtClose → ⊥ }
    {
        let Some((action, place)) = self.due else {
            unreachable!();
        };
        let Some(value) = self.reader.read(words, place, self.flushed) else {
            return Act::Unread;
        };
        self.due = None;
        self.dumps.push_reserved((action, place, value));
        Act::Went
    }

    // Does the next action. After an await a dump may be due. The gate hears of a flush before it is made.
    fn go<R: Wait, G: Gate>(
        &mut self,
        rt: &R,
        words: &SharedWords,
        queue: &FlushQueue,
        gate: &G,
    ) -> Act
        requires none_held { self.old.held ≡ None }
        requires none_due { self.old.due ≡ None }
        requires words { words.now ≡ self.old.pass.table }
        requires queue { queue.now ≡ self.old.poster.queue }
        ensures acts { DoesAct self.old self.new result }
        ensures same { IsSameClient self.old self.new }
        ensures close { result ≡ Act.AtClose → is_closed self.new.pass.plan.actions ≡ true }
    {
        match self.pass.act(words) {
            Acted::Stored => {
                self.position += 1;
                Act::Went
            }
            Acted::Passed => {
                self.due = due_at(&self.planned, self.dumps.len(), self.position);
                self.position += 1;
                Act::Went
            }
            Acted::NotYet => Act::NotYet,
            Acted::AtFlush => {
                gate.reach(Place::BeforeFlush {
                    stream: self.stream,
                    flush: self.flushed + 1,
                });
                let note = self.pass.flush(words);
                self.position += 1;
                self.flushed += 1;
                self.held = post_or_keep(rt, queue, &mut self.poster, note);
                Act::posted(self.held.is_none())
            }
            Acted::AtClose => Act::AtClose,
            Acted::End => Act::End,
        }
    }

    /// One action, with no lock: a note that is held is posted, a dump that is due is read, or else the next action is
    /// done. At most one of the first two is due, since no action comes before it.
    pub fn act<R: Wait, G: Gate>(
        &mut self,
        rt: &R,
        words: &(SharedWords, ResultWords),
        queue: &FlushQueue,
        gate: &G,
    ) -> Act
        requires words { words.now.0 ≡ self.old.pass.table }
        requires results { words.now.1 ≡ self.old.reader.table }
        requires queue { queue.now ≡ self.old.poster.queue }
        ensures acts { DoesAct self.old self.new result }
        ensures same { IsSameClient self.old self.new }
        ensures close { result ≡ Act.AtClose → is_closed self.new.pass.plan.actions ≡ true }
    {
        if self.held.is_some() {
            return self.post_held(rt, queue);
        }
        if self.due.is_some() {
            return self.read_due(&words.1);
        }
        self.go(rt, &words.0, queue, gate)
    }
}
