ghost use Rattle.std.specs.Prelude.{◌≡◌, ◌+◌, ◌↔◌, IsTrue};
ghost use Rattle.gpu_cmd.specs.Lawful.{IsLawfulAreas, places_of};
ghost use Rattle.gpu_cmd.specs.Spans.{span_at, words_in};
ghost use Rattle.gpu_cmd.specs.Tiling.{lies_among, is_apart, each_declared, all_apart, are_tiles};

/// How many entries a ring has at least.
pub const LEAST_RING: u32 = 16;

/// How many entries a ring has at most.
pub const MOST_RING: u32 = 4096;

/// How many words the transfer memories, or the result memories, of a stream have at most.
pub const MOST_WORDS: u64 = 65_536;

/// The places of a transfer memory or of a result memory.
#[derive(Clone, Copy)]
pub struct Span {
    /// The first place.
    pub base: u32,
    /// How many places, one a word.
    pub words: u32,
}

/// What a stream shares with its client: a ring, transfer memories and result memories.
#[derive(Clone, Copy)]
pub struct Areas {
    /// How many entries the ring has, from place 0 on.
    pub ring: u32,
    /// The transfer memories by their numbers. Their places follow those of the ring.
    pub memories: [Option<Span>; 16],
    /// The result memories by their numbers. Their places count from 0 on their own.
    pub results: [Option<Span>; 16],
}

/// The span of a memory, where it is declared.
pub fn span_at(spans: &[Option<Span>; 16], memory: u32) -> Option<Span>
    ensures { result ≡ span_at spans.now memory }
{
    spans.get(memory as usize).copied().flatten()
}

/// How many words the declared memories have in all.
pub fn words_in(spans: &[Option<Span>; 16]) -> u64
    ensures { result ≡ words_in spans.now }
{
    let mut words = 0;
    for span in spans {
        if let Some(span) = span {
            words += u64::from(span.words);
        }
    }
    words
}

impl Span {
    // The place after the span's last one.
    fn end(self) -> u64
        ensures { result ≡ self.base + self.words }
    {
        u64::from(self.base) + u64::from(self.words)
    }

    // Whether the span has a word, and lies between two places.
    fn lies_among(self, first: u32, end: u64) -> bool
        ensures { result ≡ lies_among first end self }
    {
        self.words >= 1 && self.base >= first && self.end() <= end
    }

    // Whether the spans share no place.
    fn is_apart(self, other: Span) -> bool
        ensures { result ≡ is_apart self other }
    {
        self.end() <= u64::from(other.base) || other.end() <= u64::from(self.base)
    }

    // Whether the span shares no place with any of the others.
    fn is_apart_from(self, others: &[Option<Span>]) -> bool
        ensures { result ≡ each_declared (is_apart self) others.now }
    {
        others
            .iter()
            .all(|other| other.is_none_or(|other| self.is_apart(other)))
    }
}

// Whether no declared span shares a place with another.
fn all_apart(spans: &[Option<Span>]) -> bool
    ensures { result ≡ all_apart spans.now }
{
    let mut rest = spans;
    while let [span, others @ ..] = rest {
        if !span.is_none_or(|span| span.is_apart_from(others)) {
            return false;
        }
        rest = others;
    }
    true
}

// Whether each declared span has a word, and lies between two places.
fn all_lie_among(spans: &[Option<Span>; 16], first: u32, end: u64) -> bool
    ensures { result ≡ each_declared (lies_among first end) spans.now }
{
    spans
        .iter()
        .all(|span| span.is_none_or(|span| span.lies_among(first, end)))
}

// Whether the declared spans are tiles from a first place on.
fn are_tiles(first: u32, spans: &[Option<Span>; 16]) -> bool
    ensures { result ≡ are_tiles first spans.now }
{
    let words = words_in(spans);
    if words > MOST_WORDS {
        return false;
    }
    all_lie_among(spans, first, u64::from(first) + words) && all_apart(spans)
}

impl Areas {
    /// How many places the ring and the transfer memories have.
    pub fn places(&self) -> u32
        requires { IsLawfulAreas self.now }
        ensures { result ≡ places_of self.now }
    {
        self.ring + words_in(&self.memories) as u32
    }

    /// Whether a script may declare these areas.
    pub fn is_lawful(&self) -> bool
        ensures { IsTrue result ↔ IsLawfulAreas self.now }
    {
        self.ring >= LEAST_RING
            && self.ring <= MOST_RING
            && are_tiles(self.ring, &self.memories)
            && are_tiles(0, &self.results)
    }
}
