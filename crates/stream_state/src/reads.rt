//! What a command reads of a bucket into result memories.
ghost use Rattle.std.specs.Prelude.{◌≡◌, ◌≤◌, ◌<◌, ◌^◌, length, take, IsTrue, IsErr, IfOk};
ghost use Rattle.gpu_cmd.specs.Lawful.{IsLawfulAreas};
ghost use Rattle.stream_state.specs.Verdict.{has_bytes};
ghost use Rattle.stream_state.specs.Writes.{words_written, with_write};
ghost use Rattle.stream_state.specs.Steps.{place_at, writes_of};
ghost use Rattle.stream_state.specs.Accepted.{takes_memory};

use crate::state::StreamState;
use crate::writes::Writes;
use gpu_cmd::{Areas, Command, MOST_SLOT_BYTES, span_at};
use gpu_word::Memory;
use std::alloc::Global;

/// How many bytes a word has.
const WORD_BYTES: u32 = 4;

// The result place at an offset into a result memory.
#[tactic(auto, using(crate::proofs::Counts::span_low))]
fn place_at(areas: &Areas, memory: u32, offset: u32) -> u32
    requires { IsLawfulAreas areas.now }
    ensures place { result ≡ place_at areas.now memory offset }
    ensures low { result < 2 ^ 31 }
{
    match span_at(&areas.results, memory) {
        Some(span) => span.base + offset / WORD_BYTES,
        None => 0,
    }
}

// The size of some bytes as one word, and the first bytes as words.
fn start_writes(
    alloc: Global,
    bytes: &[u8],
    size_place: u32,
    data_size: u32,
    data_place: u32,
) -> Result<Writes, Memory>
    requires size { length bytes.now ≤ MOST_SLOT_BYTES }
    requires place { data_place < 2 ^ 31 }
    ensures { IfOk result (λ writes. writes
        ≡ with_write (size_place, length bytes.now)
        (words_written data_place (take data_size bytes.now))) }
{
    let (data, _) = bytes.split_at(bytes.len().min(data_size as usize));
    let mut writes = Writes::of_bytes(alloc, data_place, data)?;
    writes.add(size_place, bytes.len() as u32)?;
    Ok(writes)
}

impl StreamState {
    // What a command writes to result places.
    pub(crate) fn writes(&self, command: &Command, areas: &Areas) -> Result<Option<Writes>, Memory>
        requires lawful { IsLawfulAreas areas.now }
        requires bytes { IsTrue (has_bytes command.now self.now) }
        ensures writes { IfOk result (λ writes. writes ≡ writes_of areas.now command.now self.now) }
        ensures free { IsErr result → IsTrue (takes_memory command.now) }
    {
        match *command {
            Command::GetBucketStart {
                bucket,
                result_memory,
                result_offset,
                data_size,
                data_memory,
                data_offset,
            } => {
                let size_place = place_at(areas, result_memory, result_offset);
                let data_place = place_at(areas, data_memory, data_offset);
                let bytes = self.buckets.all(bucket);
                let writes = start_writes(self.alloc, bytes, size_place, data_size, data_place)?;
                Ok(Some(writes))
            }
            Command::GetBucketData {
                bucket,
                offset,
                size,
                memory,
                memory_offset,
            } => {
                let bytes = self.buckets.part(bucket, offset, u128::from(size));
                let place = place_at(areas, memory, memory_offset);
                let writes = Writes::of_bytes(self.alloc, place, bytes)?;
                Ok(Some(writes))
            }
            _ => Ok(None),
        }
    }
}
