//! A house over words that its client stores into while its flush runs and between two fetches.

use super::making::{drive, lines_of, only_plan, plans_of};
use super::stirred_pass::StirredPass;
use gpu_house::Report;
use std::alloc::Global;
use std::marker::Brand;
use std::test::Fail;

/// A client that flushes a CreateImage, and then puts 0 at places 0 and 2.
const CREATES: &str =
    "gpu-script 1\nstream 1 normal 16\nput 0 20400004 1 1 1\nflush 4\nput 0 0\nput 2 0\n";

/// The journal where the command is fetched as it was flushed.
const CREATED: &str =
    "order 1 1 4\nstep 1 0:20400004 1:00000001 2:00000001 3:00000001\nfinish 1 1\n";

/// The journal where the first put comes before the first fetch.
const LOST: &str = "order 1 1 4\nlost 1 1 0:00000000\n";

/// The journal where the second put comes before the third fetch.
const NARROW: &str =
    "order 1 1 4\nstep 1 0:20400004 1:00000001 2:00000000 3:00000001\nfinish 1 1\n";

/// The turns that the client takes before each fetch, the journal, and the errors of its stream.
const RUNS: [(&[u32], &str, [u32; 3]); 4] = [
    // A flush that nothing overwrites is executed as it was flushed.
    (&[], CREATED, [0, 0, 0]),
    // A header that was overwritten loses its stream.
    (&[1], LOST, [0, 0, 0]),
    // A word that was fetched may be overwritten.
    (&[0, 1], CREATED, [0, 0, 0]),
    // An argument is judged as it was fetched.
    (&[0, 0, 2], NARROW, [1, 0, 0]),
];

// What a house leaves whose client goes on while its flush is fetched.
#[tactic(auto, using(crate::proofs::Beginning::fresh_results, crate::proofs::Flushing::has_flush, crate::proofs::Flushing::first_mark))]
fn stirred(alloc: Global, turns: &[u32]) -> Result<Report, Fail> {
    let plans = plans_of(alloc, CREATES)?;
    let book = gpu_books::make(alloc)?;
    let plan = only_plan(&plans)?;
    if !StirredPass::can_stir(plan) {
        return Err("puts before a flush".into());
    }
    let (side, note) = StirredPass::make(alloc, plan, turns.to_vec(alloc)?)?;
    drive::<Brand, StirredPass>(alloc, plans, book, &(), side, (), note)
}

// The lines of its journal, and the errors of its stream.
fn told(alloc: Global, turns: &[u32]) -> Result<(Vec<u8>, [u32; 3]), Fail> {
    let report = stirred(alloc, turns)?;
    if report.plans().count() == 0 {
        return Err("a stream".into());
    }
    let (values, operations, texels) = report.stream(1).errors();
    Ok((lines_of(alloc, &report)?, [values, operations, texels]))
}

#[test]
fn a_flush_is_executed_as_it_was_fetched(rt: HostRuntime) -> Result<(), Fail> {
    for (turns, lines, errors) in RUNS {
        let (left, faults) = told(rt.alloc(), turns)?;
        assert_eq!(rt; left.as_slice(), lines.as_bytes());
        assert!(rt; faults == errors);
    }
    Ok(())
}
