//! What words ask for.

use super::calls::given;
use script_answers::{Command, command_of, is_plain};
use std::test::Fail;

/// Words of a command, with its numbers of workers and of viewers.
const COMMANDS: [(&[&str], (u32, u32)); 16] = [
    (&["run"], (0, 0)),
    (&["run", "--workers", "0"], (0, 0)),
    (&["run", "--workers=0"], (0, 0)),
    (&["run", "--workers", "1"], (1, 0)),
    (&["run", "--workers=1"], (1, 0)),
    (&["run", "--workers", "5"], (5, 0)),
    (&["run", "--workers=5"], (5, 0)),
    (&["run", "--workers", "8"], (8, 0)),
    (&["run", "--workers=8"], (8, 0)),
    (&["run", "--workers", "1", "--views", "1"], (1, 1)),
    (&["run", "--workers", "8", "--views", "4"], (8, 4)),
    (&["check"], (0, 0)),
    (&["verify"], (0, 0)),
    (&["verify", "--whole"], (0, 0)),
    (&["generate", "1", "0"], (0, 0)),
    (&["trial", "1", "0"], (0, 0)),
];

/// Words of no command.
const NO_COMMANDS: [&[&str]; 26] = [
    &[],
    &["run", "--workers"],
    &["run", "--workers", "00"],
    &["run", "--workers", "9"],
    &["run", "--workers="],
    &["run", "--workers=01"],
    &["run", "--workers=9"],
    &["run", "--worker=1"],
    &["run", "--views", "1"],
    &["run", "--workers", "0", "--views", "1"],
    &["run", "--workers", "1", "--views", "0"],
    &["run", "--workers", "1", "--views", "5"],
    &["run", "--workers=1", "--views", "1"],
    &["run", "--views", "1", "--workers", "1"],
    &["check", "--workers", "1"],
    &["0"],
    &["check", "check"],
    &["generate", "0", "1"],
    &["generate", "2001", "1"],
    &["generate", "1", "4294967296"],
    &["trial"],
    &["trial", "1"],
    &["trial", "0", "1"],
    &["trial", "2001", "1"],
    &["trial", "1", "+1"],
    &["verify", "run"],
];

// The numbers of workers and of viewers that a command asks for.
fn threads_of(command: Command) -> (u32, u32) {
    match command {
        Command::RunOnThreads { workers, views } => (workers, views),
        _ => (0, 0),
    }
}

#[test]
fn a_run_with_workers_alone_is_on_threads(rt: HostRuntime) -> Result<(), Fail> {
    for (words, threads) in COMMANDS {
        let words = given(rt.alloc(), words)?;
        assert_eq!(rt; command_of(&words).map(threads_of), Some(threads));
        assert_eq!(rt; is_plain(&words), threads.0 == 0);
    }
    Ok(())
}

#[test]
fn other_words_ask_for_nothing(rt: HostRuntime) -> Result<(), Fail> {
    for words in NO_COMMANDS {
        let words = given(rt.alloc(), words)?;
        assert!(rt; command_of(&words).is_none());
        assert!(rt; is_plain(&words));
    }
    Ok(())
}
