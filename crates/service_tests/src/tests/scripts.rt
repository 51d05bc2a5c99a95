//! Scripts of the tests, and what their runs leave.
ghost use Rattle.std.specs.Prelude.{◌≤◌};

use super::making::{lines_of, plans_of};
use gpu_house::Report;
use gpu_io::Gate;
use gpu_threads::{Team, ThreadedRun, run_threads};
use live_view::{Look, MOST_VIEWERS};
use std::alloc::Global;
use std::sync::Wait;
use std::test::Fail;
use std::thread::Threads;
use wait_hooks::Marker;

/// A client that makes an image of two texels and clears it.
pub(crate) const TWO_TEXELS: &str = "gpu-script 1
stream 1 normal 16
put 0 20400004 1 2 1 20800007 1 0 0 2 1 ff0000ff
flush 11
";

/// Two clients, of which the first has two flushes.
pub(crate) const TWO_AND_ONE: &str = "gpu-script 1
stream 1 normal 16
flush 0
flush 0
stream 2 normal 16
flush 0
";

/// A client with two flushes, of two and of three Noops.
pub(crate) const TWO_FLUSHES: &str = "gpu-script 1
stream 1 normal 16
put 0 1 1
flush 2
put 2 1 1 1
flush 5
";

/// A client whose one command has no size.
pub(crate) const LOST: &str = "gpu-script 1
stream 1 normal 16
put 0 0
flush 1
";

/// A client that uploads a word, overwrites it after its flush, uploads it again, and overwrites it once more.
pub(crate) const RACE: &str = "gpu-script 1
stream 1 normal 32
memory 0 1
put 0 20400004 1 1 1 20c00009 1 0 0 1 1 1 0 0
fill 0 0 44332211
flush 13
fill 0 0 88776655
put 13 20c00009 1 0 0 1 1 1 0 0
flush 22
fill 0 0 ccbbaa99
";

/// A client that uploads a word, waits for its flush, and uploads another.
pub(crate) const READ_BACK: &str = "gpu-script 1
stream 1 normal 32
memory 0 1
put 0 20400004 1 1 1 20c00009 1 0 0 1 1 1 0 0
fill 0 0 44332211
flush 13
finish
fill 0 0 88776655
put 13 20c00009 1 0 0 1 1 1 0 0
flush 22
";

// What a run of a script with one worker leaves, where a gate leads it, and what each of a number of viewers saw.
pub(crate) fn viewed<G: Gate + Sync, R: Threads + Wait + Sync>(
    rt: &R,
    alloc: Global,
    script: &str,
    viewers: u32,
    gate: &G,
) -> Result<(Report, Vec<Vec<Look>>), Fail>
    requires { viewers ≤ MOST_VIEWERS }
{
    let plans = plans_of(alloc, script)?;
    let team = Team {
        workers: 1,
        viewers,
    };
    let ran = run_threads(rt, alloc, plans, team, Marker::make(1000), gate).ok();
    let ThreadedRun { report, looks, .. } = ran.ok_or("memory is ample")?;
    Ok((report, looks))
}

// The lines of the journal of such a run without viewers.
pub(crate) fn led<G: Gate + Sync, R: Threads + Wait + Sync>(
    rt: &R,
    alloc: Global,
    script: &str,
    gate: &G,
) -> Result<Vec<u8>, Fail> {
    let (report, _) = viewed(rt, alloc, script, 0, gate)?;
    lines_of(alloc, &report)
}
