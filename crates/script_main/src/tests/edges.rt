//! The program over the adapters of the system's streams: over a reader that tells its bytes, and a writer that does.
ghost use Rattle.std.specs.Prelude.{◌≡◌, ℕ, List, Some, map, true, string_bytes};
ghost use Rattle.script_answers.specs.declared.command.Command.{Command};
ghost use Rattle.script_answers.specs.Commands.{command_of};
ghost use Rattle.script_answers.specs.Says.{reads, Says};
ghost use Rattle.script_answers.specs.Statuses.{speaks};
ghost use Rattle.script_answers.specs.Tells.{held};

use super::calls::given;
use crate::run_on;
use gpu_io::{RealSink, RealSource};
use script_answers::Status;
use std::alloc::Global;
use std::sync::Wait;
use std::test::Fail;
use std::thread::Threads;

// How the program ends on some words and a text, and the sink that it has then. Where it speaks of the text, the bytes that the
// writer holds are what the command says of the bytes that the reader had.
fn ended<R: Threads + Wait + Sync>(
    rt: &R,
    alloc: Global,
    words: &[String],
    text: &[u8],
) -> (Status, RealSink<Vec<u8>>)
    ensures { speaks result.0 ≡ true → (command : Command) × (input : List ℕ) × (said : List ℕ)
        × (command_of (map string_bytes words.now) ≡ Some command)
        × (held (reads (Some command)) (Some text.now) ≡ Some input)
        × Says command 1000 input result.0 said × (result.1.written ≡ Some said) }
{
    let mut source = RealSource::make(text);
    let mut sink = RealSink::make(Vec::new(alloc));
    let status = run_on(rt, alloc, words, &mut source, &mut sink);
    (status, sink)
}

#[test]
fn the_adapters_lose_nothing(rt: HostRuntime) -> Result<(), Fail> {
    let text = b"gpu-script 1\nstream 1 normal 16\nput 0 1\nflush 1\n";
    let words = given(rt.alloc(), &["run", "--workers", "2"])?;
    let (status, _) = ended(&rt, rt.alloc(), &words, text);
    assert!(rt; matches!(status, Status::Ok));
    Ok(())
}
