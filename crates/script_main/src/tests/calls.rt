//! Calls of the program.
ghost use Rattle.std.specs.Prelude.{◌<◌};

use crate::run_on;
use gpu_io::{MemorySink, MemorySource};
use script_answers::Status;
use std::alloc::Global;
use std::process::Abort;
use std::sync::Wait;
use std::test::Fail;
use std::thread::Threads;

pub(super) const TWO_TEXELS: &[u8] = b"gpu-script 1
stream 1 normal 16
put 0 20400004 1 2 1 20800007 1 0 0 2 1 ff0000ff
flush 11
";

pub(super) const TWO_TEXELS_OUTPUT: &[u8] = b"order 1 1 11
step 1 0:20400004 1:00000001 2:00000002 3:00000001
step 1 4:20800007 5:00000001 6:00000000 7:00000000 8:00000002 9:00000001 10:ff0000ff
finish 1 1
image 1 2 1
ff0000ff ff0000ff
stream 1 done entries 11 release 0 token 0 words 11 errors 0 0 0
";

// How a source and a sink behave: the sizes of their pieces, and the number of a call that fails, or 0.
#[derive(Drop)]
pub(super) struct Edges {
    pub(super) read_piece: usize,
    pub(super) read_fails: u32,
    pub(super) write_piece: usize,
    pub(super) write_fails: u32,
    ghost read_some: { 0 < read_piece },
    ghost write_some: { 0 < write_piece },
}

// Edges at which nothing fails.
pub(super) fn steady() -> Edges {
    Edges {
        read_piece: 16,
        read_fails: 0,
        write_piece: 10,
        write_fails: 0,
    }
}

// Words of a command line.
pub(super) fn given(alloc: Global, words: &[&str]) -> Result<Vec<String>, Fail> {
    let mut given = Vec::new(alloc);
    for word in words {
        given.push(String::from_str(alloc, word)?)?;
    }
    Ok(given)
}

// A source that gives a text.
pub(super) fn source_of(alloc: Global, text: &[u8], edges: &Edges) -> Result<MemorySource, Fail> {
    let bytes = Vec::from_slice(alloc, text)?;
    let fails = Vec::from_slice(alloc, &[edges.read_fails])?;
    Ok(MemorySource::make(bytes, edges.read_piece, fails))
}

// An empty sink.
pub(super) fn sink_of(alloc: Global, edges: &Edges) -> Result<MemorySink, Fail> {
    let fails = Vec::from_slice(alloc, &[edges.write_fails])?;
    let sink = MemorySink::make(alloc, 4096, edges.write_piece, fails).ok();
    Ok(sink.ok_or("memory is ample")?)
}

// The program ended with this code, and wrote this.
fn stands(rt: &impl Abort, status: Status, written: &[u8], wanted: (u8, &[u8])) {
    assert_eq!(rt; status.code(), wanted.0);
    assert_eq!(rt; written, wanted.1);
}

// The program ends with this code on some words and a text, and writes this.
pub(super) fn ends<R: Threads + Wait + Abort + Sync>(
    rt: &R,
    alloc: Global,
    words: &[&str],
    text: &[u8],
    edges: &Edges,
    wanted: (u8, &[u8]),
) -> Result<(), Fail> {
    let words = given(alloc, words)?;
    let mut source = source_of(alloc, text, edges)?;
    let mut sink = sink_of(alloc, edges)?;
    let status = run_on(rt, alloc, &words, &mut source, &mut sink);
    stands(rt, status, sink.bytes(), wanted);
    Ok(())
}
