//! The third phase of a round: streams run, one after the other.
ghost use Rattle.std.specs.Prelude.{◌≢◌, ◌≤◌, length, IfOk, OnOk};
ghost use Rattle.gpu_run.specs.Turning.{IsInTurn, HasTakenNext, HasRunOut};
ghost use Rattle.gpu_run.specs.Stands.{Acting, Running, Stands, EndsWhereNoneCame};

use crate::client::Client;
use gpu_fetch::{Fetched, PlainPass};
use gpu_house::{House, Naming, Next, Run};
use gpu_word::Memory;
use std::snapshot::Snapshot;
use wait_hooks::Hook;

/// A run takes the next command of its flush. The answer says whether it goes on.
///
/// # Errors
///
/// `Memory`: nothing is known of the house and the run.
fn turn<N: Naming, H: Hook>(
    house: &mut House<N, PlainPass, H>,
    clients: &[Client],
    run: &mut Run<N, PlainPass>,
    list: &mut Vec<(u32, u32)>,
) -> Result<bool, Memory>
    requires turn { IsInTurn N.plans house.old clients.now run.old }
    requires more { run.old.run.facts.get ≢ run.old.run.facts.put }
    ensures { IfOk result (HasTakenNext N.plans house.old house.new clients.now
        run.old.run.stream run.new) }
{
    let words = clients[run.stream() as usize - 1].words();
    let facts = Snapshot::of(run.facts());
    let verdict = run.fetch(words, list)?;
    let fetched = Fetched::of(list, &verdict, &facts);
    match house.step(run, words, &fetched)?.into_next() {
        Next::More => Ok(true),
        Next::FlushEnd => Ok(true),
        _ => Ok(false),
    }
}

/// A run goes on until it is at home again.
///
/// # Errors
///
/// `Memory`: nothing is known of the house.
fn run_out<N: Naming, H: Hook>(
    house: &mut House<N, PlainPass, H>,
    clients: &[Client],
    run: Run<N, PlainPass>,
    list: &mut Vec<(u32, u32)>,
) -> Result<(), Memory>
    requires { IsInTurn N.plans house.old clients.now run }
    ensures { OnOk result (HasRunOut N.plans house.old house.new clients.now) }
{
    let mut out = run;
    while !out.at_end() {
        let went = match turn(house, clients, &mut out, list) {
            Ok(went) => went,
            Err(memory) => return Err(out.give_up(memory)),
        };
        if !went {
            house.back(out);
            return Ok(());
        }
    }
    let words = clients[out.stream() as usize - 1].words();
    house.finish(out, words);
    Ok(())
}

/// Streams run, as the scheduler chooses them, until none can.
///
/// # Errors
///
/// `Memory`: nothing is known of the house.
pub(crate) fn run_all<N: Naming, H: Hook>(
    house: &mut House<N, PlainPass, H>,
    clients: &[Client],
    list: &mut Vec<(u32, u32)>,
) -> Result<(), Memory>
    requires stands { Stands Running N.plans house.old clients.now }
    ensures stands { OnOk result (Stands (Acting 0) N.plans house.new clients.now) }
    ensures longer { OnOk result (length house.old.core.past ≤ length house.new.core.past) }
    ensures ended { OnOk result
        (EndsWhereNoneCame N.plans house.old.core.past house.new.core.past) }
{
    loop {
        match house.take() {
            Some(run) => run_out(house, clients, run, list)?,
            None => return Ok(()),
        }
    }
}
