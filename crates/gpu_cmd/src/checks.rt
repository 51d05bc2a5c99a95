ghost use Rattle.std.specs.Prelude.{◌≡◌, ◌+◌, ◌-◌, ◌*◌, ◌<◌, ◌≤◌, ◌^◌, nat_le, nat_lt, is_some, IfSome, IsTrue};
ghost use Rattle.gpu_word.specs.Formats.{format_of};
ghost use Rattle.gpu_cmd.specs.Lawful.{IsLawfulAreas, places_of};
ghost use Rattle.gpu_cmd.specs.Ranges.{texel_bytes, named, transfer_places};
ghost use Rattle.gpu_cmd.specs.Checks.{has_aligned_results, has_arguments, has_memories};

use crate::areas::Areas;
use crate::command::Command;
use crate::range::{Places, Range, WORD_BYTES};
use gpu_word::Format;

/// How many buckets, and how many buffers, a stream has.
pub const SLOTS: usize = 16;

/// How many bytes a bucket or a buffer has at most.
pub const MOST_SLOT_BYTES: u32 = 262_144;

/// How many ring entries of a SetBucketDataImmediate stand before its data.
const ENTRIES_BEFORE_DATA: usize = 4;

// Check 6: a format has a number from 1 to 4.
fn is_format(number: u32) -> bool
    ensures { result ≡ is_some (format_of number) }
{
    Format::of(number).is_some()
}

// Check 7: there are 16 buckets and 16 buffers.
fn is_slot(number: u32) -> bool
    ensures { result ≡ nat_lt number SLOTS }
{
    (number as usize) < SLOTS
}

// Check 8: the data entries of a number of ring words hold this number of bytes.
fn has_data(entries: usize, size: u32) -> bool
    ensures { result ≡ nat_le size (4 * (entries - 4)) }
{
    (size as usize).div_ceil(WORD_BYTES as usize) <= entries.saturating_sub(ENTRIES_BEFORE_DATA)
}

impl Command {
    // The bytes that are read from a transfer memory.
    fn transfer_range(self) -> Option<Range>
        ensures range { result ≡ (named self).transfer_range }
        ensures small { IfSome result (λ range. range.bytes < 2 ^ 67) }
    {
        match self {
            Command::SetBucketData {
                size,
                memory,
                memory_offset,
                ..
            }
            | Command::BufferData {
                size,
                memory,
                memory_offset,
                ..
            } => Some(Range {
                memory,
                offset: memory_offset,
                bytes: u128::from(size),
            }),
            Command::UploadRect {
                w,
                h,
                format,
                memory,
                memory_offset,
                ..
            } => Some(Range {
                memory,
                offset: memory_offset,
                bytes: texels_bytes(w, h, format),
            }),
            _ => None,
        }
    }

    // The word of a result memory that a bucket's size is written to.
    fn size_range(self) -> Option<Range>
        ensures range { result ≡ (named self).size_range }
        ensures small { IfSome result (λ range. range.bytes < 2 ^ 67) }
    {
        match self {
            Command::GetBucketStart {
                result_memory,
                result_offset,
                ..
            } => Some(Range {
                memory: result_memory,
                offset: result_offset,
                bytes: u128::from(WORD_BYTES),
            }),
            _ => None,
        }
    }

    // The bytes of a result memory that a bucket's bytes are written to.
    fn data_range(self) -> Option<Range>
        ensures range { result ≡ (named self).data_range }
        ensures small { IfSome result (λ range. range.bytes < 2 ^ 67) }
    {
        match self {
            Command::GetBucketStart {
                data_size,
                data_memory,
                data_offset,
                ..
            } if data_size > 0 => Some(Range {
                memory: data_memory,
                offset: data_offset,
                bytes: u128::from(data_size),
            }),
            Command::GetBucketData {
                size,
                memory,
                memory_offset,
                ..
            } => Some(Range {
                memory,
                offset: memory_offset,
                bytes: u128::from(size),
            }),
            _ => None,
        }
    }

    // Checks 6 to 8, which have one error:
    // - a format has a number from 1 to 4
    // - there are 16 buckets and 16 buffers, of at most 262,144 bytes each
    // - the data entries hold all bytes that are read from them; `entries` counts the command's ring words
    // - result memories are written from the start of a word on
    pub(crate) fn has_arguments(self, entries: usize) -> bool
        ensures { result ≡ has_arguments entries self }
    {
        match self {
            Command::Noop
            | Command::SetToken { .. }
            | Command::InsertFence { .. }
            | Command::WaitToken { .. }
            | Command::CreateImage { .. }
            | Command::DeleteImage { .. }
            | Command::ClearRect { .. }
            | Command::CopyRect { .. }
            | Command::WaitSyncToken { .. } => true,
            Command::SetBucketSize { bucket, size } => is_slot(bucket) && size <= MOST_SLOT_BYTES,
            Command::SetBucketData { bucket, .. } => is_slot(bucket),
            Command::SetBucketDataImmediate { bucket, size, .. } => {
                is_slot(bucket) && has_data(entries, size)
            }
            Command::GetBucketStart { bucket, .. } | Command::GetBucketData { bucket, .. } => {
                is_slot(bucket) && self.has_aligned_results()
            }
            Command::UploadRect { format, .. } => is_format(format),
            Command::UploadBucket { format, bucket, .. } => is_format(format) && is_slot(bucket),
            Command::CreateBuffer { buffer, size } => is_slot(buffer) && size <= MOST_SLOT_BYTES,
            Command::DeleteBuffer { buffer } | Command::BufferData { buffer, .. } => is_slot(
                buffer,
            ),
            Command::UploadBuffer { format, buffer, .. } => is_format(format) && is_slot(buffer),
        }
    }

    // Check 8: result memories are written from the start of a word on.
    fn has_aligned_results(self) -> bool
        ensures { result ≡ has_aligned_results self }
    {
        self.size_range().is_none_or(|range| range.is_aligned())
            && self.data_range().is_none_or(|range| range.is_aligned())
    }

    // Check 9: each range lies in a memory that is declared.
    pub(crate) fn has_memories(self, areas: &Areas) -> bool
        ensures { result ≡ has_memories areas.now self }
    {
        self.transfer_range()
            .is_none_or(|range| range.lies_in(&areas.memories))
            && self
                .size_range()
                .is_none_or(|range| range.lies_in(&areas.results))
            && self
                .data_range()
                .is_none_or(|range| range.lies_in(&areas.results))
    }

    // The transfer places that the command reads.
    pub(crate) fn transfer_places(self, areas: &Areas) -> Places
        requires lawful { IsLawfulAreas areas.now }
        requires within { IsTrue (has_memories areas.now self) }
        ensures places { result ≡ transfer_places areas.now self }
        ensures begun { 0 < result.count → areas.now.ring ≤ result.from }
        ensures ended { result.from + result.count ≤ places_of areas.now }
        ensures none { result.count ≡ 0 → result.from ≡ 0 }
    {
        match self.transfer_range() {
            Some(range) => range.places_in(areas),
            None => Places::NONE,
        }
    }
}

/// How many bytes the texels of a rectangle take in a format, by its number; none where the number is no format's.
pub fn texels_bytes(w: u32, h: u32, format: u32) -> u128
    ensures bytes { result ≡ w * h * texel_bytes format }
    ensures small { result < 2 ^ 67 }
{
    let texel_bytes = match Format::of(format) {
        Some(format) => format.bytes(),
        None => 0,
    };
    u128::from(w) * u128::from(h) * u128::from(texel_bytes)
}
