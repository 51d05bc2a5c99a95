ghost use Rattle.std.specs.Prelude.{◌≡◌};
ghost use Rattle.script_lines.specs.Said.{keyword_of};

/// What a line's first word names.
#[derive(Clone, Copy)]
pub enum Keyword {
    StreamLine,
    MemoryLine,
    ResultsLine,
    PutLine,
    FillLine,
    FlushLine,
    FinishLine,
    TokenLine,
    CloseLine,
    DumpLine,
}

/// The keyword that a word is, where it is one.
pub fn keyword_of(word: &[u8]) -> Option<Keyword>
    ensures { result ≡ keyword_of word.now }
{
    if word == b"stream".as_slice() {
        Some(Keyword::StreamLine)
    } else if word == b"memory".as_slice() {
        Some(Keyword::MemoryLine)
    } else if word == b"results".as_slice() {
        Some(Keyword::ResultsLine)
    } else if word == b"put".as_slice() {
        Some(Keyword::PutLine)
    } else if word == b"fill".as_slice() {
        Some(Keyword::FillLine)
    } else if word == b"flush".as_slice() {
        Some(Keyword::FlushLine)
    } else if word == b"finish".as_slice() {
        Some(Keyword::FinishLine)
    } else if word == b"token".as_slice() {
        Some(Keyword::TokenLine)
    } else if word == b"close".as_slice() {
        Some(Keyword::CloseLine)
    } else if word == b"dump".as_slice() {
        Some(Keyword::DumpLine)
    } else {
        None
    }
}
