//! What the program promises, in the words of a caller. These functions are proved and not run.
ghost use Rattle.std.specs.Prelude.{◌≡◌, ◌⊎◌, map, true, false, string_bytes};
ghost use Rattle.gpu_io.specs.Faults.{HasRisen};
ghost use Rattle.gpu_io.specs.Whole.{ReadsAtMost, ReadsMoreThan};
ghost use Rattle.script_answers.specs.Commands.{command_of};
ghost use Rattle.script_answers.specs.Says.{reads, most_bytes};

use crate::run_on;
use gpu_io::{Sink, Source};
use script_answers::Status;
use std::alloc::Global;
use std::sync::Wait;
use std::thread::Threads;

// Whether the program may have written. Else its sink is as it was.
fn may_have_written<S: Source, K: Sink, R: Threads + Wait + Sync>(
    rt: &R,
    alloc: Global,
    words: &[String],
    source: &mut S,
    sink: &mut K,
) -> bool
    ensures { result ≡ false → sink.new ≡ sink.old }
{
    match run_on(rt, alloc, words, source, sink) {
        Status::Ok | Status::SomeLost | Status::MemoryLost | Status::WriteFault => true,
        Status::Usage
        | Status::ReadFault
        | Status::Refused { .. }
        | Status::NoMemory
        | Status::TooLong
        | Status::No { .. }
        | Status::Differs { .. }
        | Status::NotComplete
        | Status::NoJournal { .. } => false,
    }
}

// The program reads for a command that reads alone. Each status that names a fault has its cause: too many bytes, a read that
// failed before that, or a write that failed.
fn ends_for_a_cause<S: Source, K: Sink, R: Threads + Wait + Sync>(
    rt: &R,
    alloc: Global,
    words: &[String],
    source: &mut S,
    sink: &mut K,
) -> Status
    ensures unread { reads (command_of (map string_bytes words.now)) ≡ false
        → source.new ≡ source.old }
    ensures only { (result ≡ Status.TooLong) ⊎ (result ≡ Status.ReadFault)
        → reads (command_of (map string_bytes words.now)) ≡ true }
    ensures too_long { result ≡ Status.TooLong
        → ReadsMoreThan (most_bytes (command_of (map string_bytes words.now)))
        (S.left source.old) (S.left source.new) }
    ensures read_fault { result ≡ Status.ReadFault
        → HasRisen (S.faults source.old) (S.faults source.new) }
    ensures early { result ≡ Status.ReadFault
        → ReadsAtMost (most_bytes (command_of (map string_bytes words.now)))
        (S.left source.old) (S.left source.new) }
    ensures write_fault { result ≡ Status.WriteFault
        → HasRisen (K.faults sink.old) (K.faults sink.new) }
{
    run_on(rt, alloc, words, source, sink)
}
