ghost use Rattle.std.specs.Prelude.{◌≡◌, ◌+◌, ◌*◌, ◌^◌, ◌≤◌, ◌↔◌, ◌⊎◌, IsNone, IfSome};
ghost use Rattle.gpu_word.specs.Header.{size_of, id_of};

/// How many bits of a header are the size.
const SIZE_BITS: u32 = 21;

/// How many bits of a header are the id.
const ID_BITS: u32 = 11;

/// The two parts of a command's first entry.
#[derive(Clone, Copy)]
pub struct Header {
    /// How many ring entries the command takes, its header among them.
    pub size: u32,
    /// Which command it is.
    pub id: u32,
}

/// The size and the id that a header carries.
///
/// The layout is that of Chromium's `CommandHeader`: 21 bits of size, and the id above them.
pub fn split(entry: u32) -> Header
    ensures size { result.size ≡ size_of entry }
    ensures id { result.id ≡ id_of entry }
{
    Header {
        size: entry % (1 << SIZE_BITS),
        id: entry >> SIZE_BITS,
    }
}

/// The header that carries this size and this id, or `None` where one of them has too many bits.
pub fn join(header: Header) -> Option<u32>
    ensures value { IfSome result (λ entry. entry ≡ header.size + header.id * 2 ^ 21) }
    ensures none { IsNone result ↔ ((2 ^ 21 ≤ header.size) ⊎ (2 ^ 11 ≤ header.id)) }
{
    if header.size >= 1 << SIZE_BITS || header.id >= 1 << ID_BITS {
        return None;
    }
    Some(header.size + header.id * (1 << SIZE_BITS))
}
