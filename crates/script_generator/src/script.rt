ghost use Rattle.std.specs.Prelude.{◌≡◌, ◌+◌, ◌*◌, ◌≤◌, ◌++◌, vec_len, vec_capacity, IfOk, OnOk};
ghost use Rattle.std.specs.List.{flat_map};
ghost use Rattle.script_generator.specs.Appending.{AppendsWithin};
ghost use Rattle.script_generator.specs.Draws.{after_draws};
ghost use Rattle.script_generator.specs.Generator.{spaced_number, value_text, wait_words, clear_words, copy_words, upload_words, fence_words, block, round_text, rounds, start_text, stream_script, generated};

use crate::digits::{push_number, push_values, put_text, put_value};
use crate::draws::{below, drawn};
use gpu_word::Memory;
use std::alloc::{AllocError, Global};
use std::mem;

/// The largest size of a generated script.
pub const MOST_SIZE: u32 = 2000;

/// The most bytes of the lines of a round.
const ROUND: usize = 224;

// Appends the words of a WaitToken.
#[inline(always)]
fn put_wait(out: &mut Vec<u8>, other: u32, round: u32)
    requires within { vec_len out.old + 29 ≤ vec_capacity out.old }
    ensures { AppendsWithin out.old out.new (flat_map value_text (wait_words other round)) 29 }
{
    put_text(out, b" 20200004");
    put_value(out, other);
    put_value(out, round);
    put_text(out, b" 0");
}

// Appends the words of a ClearRect of one texel.
#[inline(always)]
fn put_clear(out: &mut Vec<u8>, stream: u32, x: u32, y: u32, texel: u32)
    requires within { vec_len out.old + 49 ≤ vec_capacity out.old }
    ensures { AppendsWithin out.old out.new
        (flat_map value_text (clear_words stream x y texel)) 49 }
{
    put_text(out, b" 20800007");
    put_value(out, stream);
    put_value(out, x);
    put_value(out, y);
    put_text(out, b" 1 1");
    put_value(out, texel);
}

// Appends the words of a CopyRect of sixteen texels.
#[inline(always)]
fn put_copy(out: &mut Vec<u8>, other: u32, stream: u32)
    requires within { vec_len out.old + 39 ≤ vec_capacity out.old }
    ensures { AppendsWithin out.old out.new (flat_map value_text (copy_words other stream)) 39 }
{
    put_text(out, b" 20a00009");
    put_value(out, other);
    put_text(out, b" 0 0");
    put_value(out, stream);
    put_text(out, b" 8 8 4 4");
}

// Appends the words of an UploadRect of one texel.
#[inline(always)]
fn put_upload(out: &mut Vec<u8>, stream: u32, x: u32, y: u32)
    requires within { vec_len out.old + 46 ≤ vec_capacity out.old }
    ensures { AppendsWithin out.old out.new (flat_map value_text (upload_words stream x y)) 46 }
{
    put_text(out, b" 20c00009");
    put_value(out, stream);
    put_value(out, x);
    put_value(out, y);
    put_text(out, b" 1 1 1 0 0");
}

// Appends the words of an InsertFence.
#[inline(always)]
fn put_fence(out: &mut Vec<u8>, round: u32)
    requires within { vec_len out.old + 20 ≤ vec_capacity out.old }
    ensures { AppendsWithin out.old out.new (flat_map value_text (fence_words round)) 20 }
{
    put_text(out, b" 20000003");
    put_value(out, round);
    put_text(out, b" 0");
}

// Appends the block of a round, and answers the state after its draws.
#[inline(always)]
fn put_block(out: &mut Vec<u8>, stream: u32, round: u32, state: u32) -> u32
    requires within { vec_len out.old + 183 ≤ vec_capacity out.old }
    ensures text { AppendsWithin out.old out.new
        (flat_map value_text (block stream round state)) 183 }
    ensures state { result ≡ after_draws 6 state }
{
    let d1 = drawn(state);
    let d2 = drawn(d1);
    let d3 = drawn(d2);
    let d4 = drawn(d3);
    let d5 = drawn(d4);
    let d6 = drawn(d5);
    let other = 1 + below(4, d1);
    put_wait(out, other, round);
    put_clear(out, stream, below(16, d2), below(16, d3), d4);
    put_copy(out, other, stream);
    put_upload(out, stream, below(16, d5), below(16, d6));
    put_fence(out, round);
    d6
}

// Appends the number of a half of the ring: 0 or 32.
#[inline(always)]
fn put_half(out: &mut Vec<u8>, half: u32)
    requires within { vec_len out.old + 3 ≤ vec_capacity out.old }
    requires half { half ≤ 1 }
    ensures { AppendsWithin out.old out.new (spaced_number (32 * half)) 3 }
{
    if half == 0 {
        put_text(out, b" 0");
    } else {
        put_text(out, b" 32");
    }
}

// Appends the lines of a round, and answers the state after its draws. The block is put into one half of the ring, and the
// flush ends at the other.
#[inline(always)]
fn put_round(out: &mut Vec<u8>, stream: u32, round: u32, state: u32) -> u32
    requires within { vec_len out.old + ROUND ≤ vec_capacity out.old }
    ensures text { AppendsWithin out.old out.new (round_text stream round state) ROUND }
    ensures state { result ≡ after_draws 7 state }
{
    let half = round % 2;
    put_text(out, b"put");
    put_half(out, half);
    let uploaded = drawn(put_block(out, stream, round, state));
    put_text(out, b"\nfill 0 0");
    put_value(out, uploaded);
    put_text(out, b"\nflush");
    put_half(out, 1 - half);
    put_text(out, b"\nfinish\n");
    uploaded
}

// Appends the lines of a given number of rounds, and answers the state after them.
//
// Room for a round is taken at once, and the text is held by value while a round is put down: then its length stays in a register.
fn push_rounds(
    alloc: Global,
    out: &mut Vec<u8>,
    size: u32,
    stream: u32,
    state: u32,
) -> Result<u32, AllocError>
    requires { size ≤ MOST_SIZE }
    ensures text { OnOk result (out.new.items ≡ out.old.items ++ rounds size stream 1 state) }
    ensures state { IfOk result (λ next. next ≡ after_draws (7 * size) state) }
{
    let mut next = state;
    let mut round = 1;
    while round <= size {
        out.reserve(ROUND)?;
        let mut text = mem::replace(out, Vec::new(alloc));
        next = put_round(&mut text, stream, round, next);
        *out = text;
        round += 1;
    }
    Ok(next)
}

// Appends the lines of a stream before its rounds.
#[tactic(auto, unfolding(crate::specs::Generator::start_text))]
fn push_start(out: &mut Vec<u8>, priority: &[u8], stream: u32) -> Result<(), AllocError>
    ensures { OnOk result (out.new.items ≡ out.old.items ++ start_text priority.now stream) }
{
    out.extend_from_slice(b"stream")?;
    push_number(out, stream)?;
    out.push(b' ')?;
    out.extend_from_slice(priority)?;
    out.extend_from_slice(b" 64\nmemory 0 16\nput 0")?;
    push_values(out, &[0x2040_0004, stream, 16, 16, 28])?;
    out.extend_from_slice(b"\nflush 32\nfinish\n")
}

// Appends the lines of a stream, and answers the state after them.
fn push_stream(
    alloc: Global,
    out: &mut Vec<u8>,
    priority: &[u8],
    size: u32,
    stream: u32,
    state: u32,
) -> Result<u32, AllocError>
    requires { size ≤ MOST_SIZE }
    ensures text { OnOk result
        (out.new.items ≡ out.old.items ++ stream_script priority.now size stream state) }
    ensures state { IfOk result (λ next. next ≡ after_draws (7 * size) state) }
{
    push_start(out, priority, stream)?;
    push_rounds(alloc, out, size, stream, state)
}

/// The script of a size and a seed: four streams, each of which makes an image, and then waits, clears, copies and uploads
/// in as many rounds as the size says.
#[tactic(auto, unfolding(crate::specs::Generator::generated))]
pub fn generate(alloc: Global, size: u32, seed: u32) -> Result<Vec<u8>, Memory>
    requires first { 1 ≤ size }
    requires last { size ≤ MOST_SIZE }
    ensures { IfOk result (λ text. text.items ≡ generated size seed) }
{
    let mut out = Vec::new(alloc);
    out.extend_from_slice(b"gpu-script 1\n")?;
    let state = push_stream(alloc, &mut out, b"low", size, 1, seed)?;
    let state = push_stream(alloc, &mut out, b"low", size, 2, state)?;
    let state = push_stream(alloc, &mut out, b"normal", size, 3, state)?;
    push_stream(alloc, &mut out, b"high", size, 4, state)?;
    Ok(out)
}
