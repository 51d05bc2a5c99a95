ghost use Rattle.std.specs.Prelude.{◌≡◌, ◌<◌, ◌-◌, ◌^◌};
ghost use Rattle.gpu_cmd.specs.Lawful.{IsLawfulAreas, IsLawfulFacts};
ghost use Rattle.stream_state.specs.State.{first_state, facts_of, noted, result_of, IsBounded};

use crate::blocks::Blocks;
use crate::results::Results;
use gpu_cmd::{Areas, StreamFacts};
use gpu_store::Answer;
use std::alloc::Global;
use std::marker::Model;

/// The state of a stream: what its executed commands have left.
#[derive(Drop)]
pub struct StreamState {
    pub(crate) alloc: Global,
    pub(crate) entries: u64,
    pub(crate) fetched: u32,
    pub(crate) release: u64,
    pub(crate) token: u32,
    pub(crate) buckets: Blocks,
    pub(crate) buffers: Blocks,
    invalid_value: u32,
    invalid_operation: u32,
    out_of_texels: u32,
    pub(crate) results: Results,
}

impl Model for StreamState {
    ghost use Rattle.std.specs.Prelude.{◌≤◌, ◌*◌};
    ghost use Rattle.gpu_cmd.specs.declared.areas.TheConstants.{MOST_RING};
    ghost use Rattle.gpu_cmd.specs.declared.facts.TheConstants.{MOST_FETCHED};
    ghost use Rattle.stream_state.specs.State.{State, IsBounded};

    ghost Value = { State };

    ghost view = { λ state. record {
      entries = state.entries;
      fetched = state.fetched;
      release = state.release;
      token = state.token;
      buckets = state.buckets;
      buffers = state.buffers;
      errors = record {
        invalid_value = state.invalid_value;
        invalid_operation = state.invalid_operation;
        out_of_texels = state.out_of_texels;
      };
      results = state.results;
    } };

    ghost invariant = { λ state. (state.fetched ≤ MOST_FETCHED)
        × (state.entries ≤ MOST_RING * state.fetched) };
}

impl StreamState {
    /// The state before the first step: nothing consumed, no bucket, no buffer. It takes no memory.
    pub fn make(alloc: Global) -> StreamState
        ensures { result ≡ first_state }
    {
        StreamState {
            alloc,
            entries: 0,
            fetched: 0,
            release: 0,
            token: 0,
            buckets: Blocks::make(alloc),
            buffers: Blocks::make(alloc),
            invalid_value: 0,
            invalid_operation: 0,
            out_of_texels: 0,
            results: Results::make(alloc),
        }
    }

    /// What the checks of the stream's next command read, for a put: its header stands at the count of consumed
    /// entries, modulo the ring.
    pub fn facts(&self, areas: &Areas, put: u32) -> StreamFacts
        requires { IsLawfulAreas areas.now }
        ensures facts { result ≡ facts_of areas.now put self.now }
        ensures lawful { IsLawfulFacts result }
    {
        StreamFacts {
            areas: *areas,
            get: (self.entries % u64::from(areas.ring)) as u32,
            put,
            fetched: self.fetched,
        }
    }

    /// Counts the answer of a step's image operation by its kind. Done counts nothing.
    pub fn note(&mut self, answer: Answer)
        requires invalid_value { self.old.errors.invalid_value < 2 ^ 32 - 1 }
        requires invalid_operation { self.old.errors.invalid_operation < 2 ^ 32 - 1 }
        requires out_of_texels { self.old.errors.out_of_texels < 2 ^ 32 - 1 }
        ensures { self.new ≡ noted answer self.old }
    {
        match answer {
            Answer::Done => {}
            Answer::InvalidValue => self.invalid_value += 1,
            Answer::InvalidOperation => self.invalid_operation += 1,
            Answer::OutOfTexels => self.out_of_texels += 1,
        }
    }

    /// How many ring entries the executed commands took.
    pub fn entries(&self) -> u64
        ensures entries { result ≡ self.now.entries }
        ensures bounded { IsBounded self.now }
    {
        self.entries
    }

    /// The greatest release that an executed InsertFence named, or 0.
    pub fn release(&self) -> u64
        ensures { result ≡ self.now.release }
    {
        self.release
    }

    /// The token that was set last, also where it fell, or 0.
    pub fn token(&self) -> u32
        ensures { result ≡ self.now.token }
    {
        self.token
    }

    /// How many words were fetched for the executed commands.
    pub fn fetched(&self) -> u32
        ensures fetched { result ≡ self.now.fetched }
        ensures bounded { IsBounded self.now }
    {
        self.fetched
    }

    /// How often an image operation was answered InvalidValue (0x0501), InvalidOperation (0x0502) and OutOfTexels
    /// (0x0505).
    pub fn errors(&self) -> (u32, u32, u32)
        ensures { let errors = self.now.errors in
            result ≡ (errors.invalid_value, errors.invalid_operation, errors.out_of_texels) }
    {
        (
            self.invalid_value,
            self.invalid_operation,
            self.out_of_texels,
        )
    }

    /// The value of a result place: the last that a step wrote there, or 0 where none did.
    pub fn result(&self, place: u32) -> u32
        ensures { result ≡ result_of self.now place }
    {
        self.results.value(place)
    }
}
