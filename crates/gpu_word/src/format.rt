ghost use Rattle.std.specs.Prelude.{◌≡◌};
ghost use Rattle.gpu_word.specs.Formats.{format_of, format_bytes};

/// How a texel lies in bytes.
#[derive(Clone, Copy)]
pub enum Format {
    /// Number 1: a byte each of red, green, blue and alpha.
    Rgba8,
    /// Number 2: two bytes with five, six and five bits.
    Rgb565,
    /// Number 3: two bytes with four bits a channel.
    Rgba4444,
    /// Number 4: one byte of grey.
    L8,
}

impl Format {
    /// The format of a number from 1 to 4; every other number has none.
    pub fn of(number: u32) -> Option<Format>
        ensures { result ≡ format_of number }
    {
        match number {
            1 => Some(Format::Rgba8),
            2 => Some(Format::Rgb565),
            3 => Some(Format::Rgba4444),
            4 => Some(Format::L8),
            _ => None,
        }
    }

    /// How many bytes a texel of this format takes.
    pub fn bytes(self) -> u32
        ensures { result ≡ format_bytes self }
    {
        match self {
            Format::Rgba8 => 4,
            Format::Rgb565 | Format::Rgba4444 => 2,
            Format::L8 => 1,
        }
    }
}
