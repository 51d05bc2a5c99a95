ghost use Rattle.std.specs.Prelude.{◌≡◌, true, map, string_bytes};
ghost use Rattle.script_answers.specs.Commands.{command_of, is_plain};
ghost use Rattle.script_answers.specs.Conducts.{Conducts};

use crate::answering::answer_to;
use crate::command::command_of;
use crate::input::take_input;
use crate::status::Status;
use gpu_io::{ReadError, Sink, Source};
use std::alloc::Global;
use wait_hooks::Hook;

/// The program on one thread: it does what its words ask for. It takes no Wait, and always returns.
///
/// - `run` reads a script, runs it by the rule for one thread, and writes the output.
/// - `check` writes how much a script has.
/// - `generate` writes a script, and `trial` one line of what comes of such a script.
/// - `verify` judges a journal.
/// - Every other list of words is refused.
///
/// It is for plain words; those of a run on threads are for `top`.
#[tactic(auto, using(crate::proofs::Endings::said_speaks))]
pub fn plain_top<S: Source, K: Sink, H: Hook>(
    alloc: Global,
    words: &[String],
    source: &mut S,
    sink: &mut K,
    hook: H,
) -> Status
    requires plain { is_plain (command_of (map string_bytes words.now)) ≡ true }
    ensures conducts { Conducts
        (record { left = S.left; read_faults = S.faults; written = K.written; write_faults = K.faults })
        (command_of (map string_bytes words.now)) (H.base hook)
        source.old source.new sink.old sink.new result }
{
    let Some(command) = command_of(words) else {
        return Status::Usage;
    };
    let input = match take_input(alloc, command, source) {
        Ok(input) => input,
        Err(ReadError::Fault) => return Status::ReadFault,
        Err(ReadError::TooLong) => return Status::TooLong,
        Err(ReadError::Memory(_)) => return Status::NoMemory,
    };
    let Ok(answer) = answer_to(alloc, command, &input, hook) else {
        return Status::NoMemory;
    };
    match answer.write(sink) {
        Ok(ending) => ending,
        Err(_) => Status::WriteFault,
    }
}
