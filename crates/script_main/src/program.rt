ghost use Rattle.std.specs.Prelude.{map, string_bytes};
ghost use Rattle.script_answers.specs.Commands.{command_of};
ghost use Rattle.script_answers.specs.Conducts.{Conducts};

use crate::on_threads::answer_on;
use gpu_io::{Gate, ReadError, Sink, Source};
use script_answers::{Status, command_of, take_input};
use std::alloc::Global;
use std::sync::Wait;
use std::thread::Threads;
use wait_hooks::Hook;

/// The program: it does what its words ask for, on threads where they say so.
///
/// Its one clause is that of `plain_top`, which does the same for plain words. It may wait.
/// - `run` with 1 to 8 workers runs the script on threads: the clients of the streams, the workers and the viewers side by
///   side.
/// - It writes the output of one history, which is legal and complete. Which one that is may differ from run to run.
/// - After it are 17 lines for each viewer.
#[tactic(auto, using(script_answers::proofs::Endings::said_speaks))]
pub fn top<S: Source, K: Sink, G: Gate + Sync, H: Hook + Send, R: Threads + Wait + Sync>(
    rt: &R,
    alloc: Global,
    words: &[String],
    source: &mut S,
    sink: &mut K,
    gate: &G,
    hook: H,
) -> Status
    ensures conducts { Conducts
        (record { left = S.left; read_faults = S.faults; written = K.written; write_faults = K.faults })
        (command_of (map string_bytes words.now)) (H.base hook)
        source.old source.new sink.old sink.new result }
{
    let Some(command) = command_of(words) else {
        return Status::Usage;
    };
    let input = match take_input(alloc, command, source) {
        Ok(input) => input,
        Err(ReadError::Fault) => return Status::ReadFault,
        Err(ReadError::TooLong) => return Status::TooLong,
        Err(ReadError::Memory(_)) => return Status::NoMemory,
    };
    let Ok(answer) = answer_on(rt, alloc, command, &input, gate, hook) else {
        return Status::NoMemory;
    };
    match answer.write(sink) {
        Ok(ending) => ending,
        Err(_) => Status::WriteFault,
    }
}
