ghost use Rattle.std.specs.Prelude.{◌≡◌, ◌+◌, ◌≤◌, ◌<◌, ◌^◌, IsTrue};
ghost use Rattle.gpu_cmd.specs.Lawful.{IsLawfulAreas, places_of};
ghost use Rattle.gpu_cmd.specs.Ranges.{places_in};
ghost use Rattle.gpu_cmd.specs.Checks.{is_aligned, lies_in};

use crate::areas::{Areas, Span, span_at};

/// How many bytes a word has.
pub(crate) const WORD_BYTES: u32 = 4;

/// Bytes of a memory.
#[derive(Clone, Copy)]
pub struct Range {
    /// The memory's number.
    pub memory: u32,
    /// The first byte.
    pub offset: u32,
    /// How many bytes; the texels of a rectangle may need more than 64 bits.
    pub bytes: u128,
}

/// Places that follow one another.
#[derive(Clone, Copy)]
pub struct Places {
    /// The first place, or 0 where there is none.
    pub from: u32,
    /// How many places.
    pub count: u32,
}

impl Places {
    /// No place.
    pub const NONE: Places = Places { from: 0, count: 0 };
}

impl Range {
    // Whether the range begins where a word does.
    pub(crate) fn is_aligned(self) -> bool
        ensures { result ≡ is_aligned self }
    {
        self.offset % WORD_BYTES == 0
    }

    // Whether the range lies in a declared memory.
    pub(crate) fn lies_in(self, spans: &[Option<Span>; 16]) -> bool
        requires { self.bytes < 2 ^ 67 }
        ensures { result ≡ lies_in spans.now self }
    {
        match span_at(spans, self.memory) {
            Some(span) => {
                u128::from(self.offset) + self.bytes
                    <= u128::from(span.words) * u128::from(WORD_BYTES)
            }
            None => false,
        }
    }

    // The places of the words that the range touches.
    pub(crate) fn places_in(self, areas: &Areas) -> Places
        requires lawful { IsLawfulAreas areas.now }
        requires within { IsTrue (lies_in areas.now.memories self) }
        ensures places { result ≡ places_in areas.now.memories self }
        ensures begun { 0 < result.count → areas.now.ring ≤ result.from }
        ensures ended { result.from + result.count ≤ places_of areas.now }
        ensures none { result.count ≡ 0 → result.from ≡ 0 }
    {
        let Some(span) = span_at(&areas.memories, self.memory) else {
            return Places::NONE;
        };
        if self.bytes == 0 {
            return Places::NONE;
        }
        let first = self.offset / WORD_BYTES;
        let last = (u128::from(self.offset) + self.bytes - 1) / u128::from(WORD_BYTES);
        Places {
            from: span.base + first,
            count: last as u32 + 1 - first,
        }
    }
}
