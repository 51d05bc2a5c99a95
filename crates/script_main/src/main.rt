//! The program: it does what its words ask for, from standard input to standard output.
//!
//! `top`, the program over any source and sink, has one clause: the record `Conducts`, whose eleven fields are the theorem.
//! It can be read in `specs/Conducts.antt` of `script_answers`, whose head says what they mean for each command.
//!
//! What the contracts say:
//! - `top` does what its words ask for, on threads where they say so. With workers the output is that of a legal and
//!   complete history, and after it come lines that may be told of its dumps, and with viewers the 17 lines of each.
//! - `run_on`, the program over any source and sink, conducts itself so too, with marks over the base 1000.
//!
//! Notes:
//! - Plain words go to `plain_top`, which takes no handle.
//! - Words that are not UTF-8 are a bad command line. Where memory runs out while the command line is read, that is the
//!   answer.
//! - Standard error gets one line, and nothing where all went well. The name of a kind in a refusal is that of the variant
//!   of `Kind`.
#![tactic(auto)]

ghost use Rattle.std.specs.Prelude.{map, string_bytes};
ghost use Rattle.script_answers.specs.Commands.{command_of};
ghost use Rattle.script_answers.specs.Conducts.{Conducts};

mod on_threads;
mod program;

use gpu_io::{OpenGate, RealSink, RealSource, Sink, Source};
use program::top;
use script_answers::{Status, fault_of, is_plain, plain_top};
use std::alloc::Global;
use std::env;
use std::io::{self, ErrorKind};
use std::process::ExitCode;
use std::sync::Wait;
use std::thread::Threads;
use wait_hooks::Marker;

/// The base of the marks.
const BASE: u32 = 1000;

// The words of the command line, without the program's name.
fn words_of(rt: &HostRuntime) -> io::Result<Vec<String>> {
    let mut words = Vec::new(rt.alloc());
    for word in env::args(rt)?.skip(1) {
        words.push(word)?;
    }
    Ok(words)
}

/// The program over any source and any sink, with marks over its base.
pub fn run_on<S: Source, K: Sink, R: Threads + Wait + Sync>(
    rt: &R,
    alloc: Global,
    words: &[String],
    source: &mut S,
    sink: &mut K,
) -> Status
    ensures conducts { Conducts
        (record { left = S.left; read_faults = S.faults; written = K.written; write_faults = K.faults })
        (command_of (map string_bytes words.now)) 1000
        source.old source.new sink.old sink.new result }
{
    let hook = Marker::make(BASE);
    if is_plain(words) {
        return plain_top(alloc, words, source, sink, hook);
    }
    top(rt, alloc, words, source, sink, &OpenGate, hook)
}

// How the program ends where it has no words. Words that are not UTF-8 are no words of the program.
fn wordless(error: &io::Error) -> Status {
    if error.kind() == ErrorKind::OutOfMemory {
        return Status::NoMemory;
    }
    Status::Usage
}

// Runs the program on the process's own words, input and output.
fn main(rt: HostRuntime) -> ExitCode {
    let status = match words_of(&rt) {
        Ok(words) => {
            let mut source = RealSource::make(rt.stdin());
            let mut sink = RealSink::make(rt.stdout());
            run_on(&rt, rt.alloc(), &words, &mut source, &mut sink)
        }
        Err(error) => wordless(&error),
    };
    if let Some(fault) = fault_of(status) {
        // Standard error is for people: where it takes nothing, the exit status still tells.
        let _ = eprintln!(rt; "{fault}");
    }
    ExitCode::from(status.code())
}

#[cfg(test)]
mod tests;
