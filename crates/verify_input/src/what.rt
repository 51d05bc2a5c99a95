use std::fmt::{self, Display, Formatter};

/// What is off at a line of an output.
#[derive(Clone, Copy, Debug)]
pub enum What {
    /// A line of the head or of a name was due there.
    Name,
    /// A line of an image was due there.
    Image,
    /// The line of a stream was due there.
    Stream,
    /// The line of a mark was due there.
    Mark,
    /// The line of a dump was due there.
    Dump,
    /// The line of a look was due there.
    View,
    /// The text ends before it.
    Missing,
    /// Nothing was due there.
    More,
}

impl Display for What {
    fn fmt<W: fmt::Write>(&self, f: &mut Formatter<W>) -> fmt::Result {
        f.write_str(match self {
            What::Name => "name",
            What::Image => "image",
            What::Stream => "stream",
            What::Mark => "mark",
            What::Dump => "dump",
            What::View => "view",
            What::Missing => "missing",
            What::More => "more",
        })
    }
}
