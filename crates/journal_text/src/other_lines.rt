ghost use Rattle.std.specs.Prelude.{◌+◌, ◌≤◌, vec_len, vec_capacity};
ghost use Rattle.journal_text.specs.Appended.{Appended};
ghost use Rattle.journal_text.specs.Lines.{name_text, how_text, mark_text, dump_text, view_text};

use crate::digits::{put_hex, put_number};
use crate::put::put;
use gpu_cmd::Name;
use sync_core::{Ending, How};

/// The most bytes of a line of these.
pub(crate) const OTHER: usize = 128;

/// The most bytes of how a wait ended.
const HOW: usize = 8;

/// Appends the name line of a stream.
#[tactic(auto, unfolding(crate::specs::Lines::name_text))]
pub(crate) fn put_name(out: &mut Vec<u8>, stream: u32, name: Name)
    requires { vec_len out.old + OTHER ≤ vec_capacity out.old }
    ensures { Appended out.old out.new (name_text stream name) }
{
    put(out, b"name");
    put_number(out, u64::from(stream));
    put_number(out, u64::from(name.namespace));
    put_number(out, name.id);
    out.push_reserved(b'\n');
}

// Appends how a wait ended.
fn put_how(out: &mut Vec<u8>, how: How)
    requires { vec_len out.old + HOW ≤ vec_capacity out.old }
    ensures text { Appended out.old out.new (how_text how) }
    ensures few { vec_len out.new ≤ vec_len out.old + HOW }
{
    match how {
        How::Release => put(out, b" release"),
        How::Guard => put(out, b" guard"),
        How::Closed => put(out, b" closed"),
    }
}

/// Appends the mark line of an ending.
#[tactic(auto, unfolding(crate::specs::Lines::mark_text))]
pub(crate) fn put_mark(out: &mut Vec<u8>, ending: &Ending, value: u32)
    requires { vec_len out.old + OTHER ≤ vec_capacity out.old }
    ensures { Appended out.old out.new (mark_text ending.now value) }
{
    put(out, b"mark");
    put_number(out, u64::from(ending.stream));
    put_number(out, u64::from(ending.order));
    put_number(out, u64::from(ending.target));
    put_number(out, ending.release);
    put_how(out, ending.how);
    put_number(out, u64::from(value));
    out.push_reserved(b'\n');
}

/// Appends a dump line.
#[tactic(auto, unfolding(crate::specs::Lines::dump_text))]
pub(crate) fn put_dump(out: &mut Vec<u8>, stream: u32, place: u32, index: u32, value: u32)
    requires { vec_len out.old + OTHER ≤ vec_capacity out.old }
    ensures { Appended out.old out.new (dump_text stream place index value) }
{
    put(out, b"dump");
    put_number(out, u64::from(stream));
    put_number(out, u64::from(place));
    put_number(out, u64::from(index));
    out.push_reserved(b' ');
    put_hex(out, value);
    out.push_reserved(b'\n');
}

/// Appends a view line.
#[tactic(auto, unfolding(crate::specs::Lines::view_text))]
pub(crate) fn put_view(out: &mut Vec<u8>, viewer: u32, events: u32, sum: u32)
    requires { vec_len out.old + OTHER ≤ vec_capacity out.old }
    ensures { Appended out.old out.new (view_text viewer events sum) }
{
    put(out, b"view");
    put_number(out, u64::from(viewer));
    put_number(out, u64::from(events));
    out.push_reserved(b' ');
    put_hex(out, sum);
    out.push_reserved(b'\n');
}
