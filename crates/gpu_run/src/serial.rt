ghost use Rattle.std.specs.Prelude.{◌≡◌, map, IfOk, OnOk};
ghost use Rattle.gpu_fetch.specs.Side.{SideData, no_table};
ghost use Rattle.house_core.specs.Core.{names_of};
ghost use Rattle.gpu_journal.specs.Serial.{serial};
ghost use Rattle.serial_laws.specs.Scripts.{AreLawfulPlans};
ghost use Rattle.gpu_run.specs.Dumps.{all_dumps};
ghost use Rattle.gpu_run.specs.Making.{AreFreshFor};
ghost use Rattle.gpu_run.specs.Stands.{Acting, Stands};

use crate::client::Client;
use crate::parts::Parts;
use crate::reading::all_dumps;
use crate::rounds::play;
use gpu_fetch::PlainPass;
use gpu_house::{House, Naming, Report};
use gpu_plan::Plans;
use gpu_word::Memory;
use result_words::Dumps;
use serial_laws::plans_are_lawful;
use std::alloc::Global;
use std::marker::Brand;
use wait_hooks::Hook;

// Plays a house that has done nothing until no event follows, and gives what its clients have read then.
fn play_out<N: Naming, H: Hook>(
    alloc: Global,
    house: &mut House<N, PlainPass, H>,
    mut clients: Vec<Client>,
) -> Result<Vec<Dumps>, Memory>
    requires { Stands (Acting 0) N.plans house.old clients.items }
    ensures serial { OnOk result (house.new.core.past ≡ serial N.plans) }
    ensures dumps { IfOk result (λ all. all.items ≡ all_dumps N.plans (serial N.plans)) }
{
    let mut list = Vec::new(alloc);
    play(house, &mut clients, &mut list)?;
    all_dumps(alloc, house, clients)
}

// What the house over these parts leaves, and what the clients have read, once no event follows. N names the plans, the base and the books.
fn run_named<N: Naming, H: Hook>(
    alloc: Global,
    plans: Plans,
    hook: H,
    parts: Parts,
) -> Result<(Report, Vec<Dumps>), Memory>
    requires lawful { AreLawfulPlans N.plans }
    requires plans { plans ≡ N.plans }
    requires base { H.base hook ≡ N.base }
    requires fresh { AreFreshFor N.plans.plans parts }
    requires words { map (λ (side : SideData). no_table) parts.sides.items ≡ N.words }
    requires books { names_of parts.books.items ≡ N.books }
    ensures plans { IfOk result (λ ran. ran.0.plans ≡ N.plans) }
    ensures base { IfOk result (λ ran. ran.0.base ≡ N.base) }
    ensures serial { IfOk result (λ ran. ran.0.past ≡ serial N.plans) }
    ensures dumps { IfOk result (λ ran. ran.1.items ≡ all_dumps N.plans (serial N.plans)) }
{
    let Parts {
        clients,
        sides,
        results,
        books,
    } = parts;
    let mut house = House::<N, PlainPass, H>::make(alloc, plans, hook, sides, results, books)?;
    let dumps = play_out(alloc, &mut house, clients)?;
    Ok((house.report(), dumps))
}

/// Runs a script by the rule for one thread, and gives what the house leaves and what the clients read.
///
/// It takes no Wait, and always returns. It loses no stream as out of memory, since the serial history has no such loss.
///
/// # Errors
///
/// `Memory`: the call answers this in place of a loss.
pub fn run_one<H: Hook>(
    alloc: Global,
    plans: Plans,
    hook: H,
) -> Result<(Report, Vec<Dumps>), Memory>
    ensures plans { IfOk result (λ ran. ran.0.plans ≡ plans) }
    ensures base { IfOk result (λ ran. ran.0.base ≡ H.base hook) }
    ensures serial { IfOk result (λ ran. ran.0.past ≡ serial plans) }
    ensures dumps { IfOk result (λ ran. ran.1.items ≡ all_dumps plans (serial plans)) }
{
    plans_are_lawful(&plans);
    let parts = Parts::make(alloc, &plans)?;
    run_named::<Brand, H>(alloc, plans, hook, parts)
}
