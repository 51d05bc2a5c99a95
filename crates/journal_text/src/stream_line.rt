ghost use Rattle.std.specs.Prelude.{◌+◌, ◌≤◌, vec_len, vec_capacity};
ghost use Rattle.journal_text.specs.Appended.{Appended};
ghost use Rattle.journal_text.specs.Text.{end_text, errors_text, tally_text, stream_text};

use crate::digits::put_number;
use crate::event_line::put_why;
use crate::put::put;
use crate::tally::Tally;
use gpu_journal::End;

/// The most bytes of a stream's line.
pub(crate) const STREAM: usize = 256;

/// The most bytes of how a stream ended.
const END: usize = 26;

/// The most bytes of the counts of errors.
const ERRORS: usize = 70;

/// The most bytes of what a stream counted.
const TALLY: usize = 182;

// Appends how a stream ended.
fn put_end(out: &mut Vec<u8>, end: End)
    requires { vec_len out.old + END ≤ vec_capacity out.old }
    ensures text { Appended out.old out.new (end_text end) }
    ensures few { vec_len out.new ≤ vec_len out.old + END }
{
    match end {
        End::Done => put(out, b" done"),
        End::Lost(why) => {
            put(out, b" lost");
            put_why(out, why);
        }
        End::Closed => put(out, b" closed"),
    }
}

// Appends how many errors of each kind there were.
fn put_errors(out: &mut Vec<u8>, errors: (u32, u32, u32))
    requires { vec_len out.old + ERRORS ≤ vec_capacity out.old }
    ensures text { Appended out.old out.new (errors_text errors) }
    ensures few { vec_len out.new ≤ vec_len out.old + ERRORS }
{
    put(out, b" errors");
    put_number(out, u64::from(errors.0));
    put_number(out, u64::from(errors.1));
    put_number(out, u64::from(errors.2));
}

// Appends what a stream counted.
fn put_tally(out: &mut Vec<u8>, tally: &Tally)
    requires { vec_len out.old + TALLY ≤ vec_capacity out.old }
    ensures text { Appended out.old out.new (tally_text tally.now) }
    ensures few { vec_len out.new ≤ vec_len out.old + TALLY }
{
    put(out, b" entries");
    put_number(out, tally.entries);
    put(out, b" release");
    put_number(out, tally.release);
    put(out, b" token");
    put_number(out, u64::from(tally.token));
    put(out, b" words");
    put_number(out, u64::from(tally.words));
    put_errors(out, tally.errors);
}

/// Appends the line of a stream.
#[tactic(auto, unfolding(crate::specs::Text::stream_text))]
pub(crate) fn put_stream(out: &mut Vec<u8>, stream: u32, tally: &Tally, end: End)
    requires { vec_len out.old + STREAM ≤ vec_capacity out.old }
    ensures { Appended out.old out.new (stream_text stream tally.now end) }
{
    put(out, b"stream");
    put_number(out, u64::from(stream));
    put_end(out, end);
    put_tally(out, tally);
    out.push_reserved(b'\n');
}
