//! The rounds of the run on one thread.
ghost use Rattle.std.specs.Prelude.{◌≡◌, OnOk};
ghost use Rattle.gpu_journal.specs.Serial.{serial};
ghost use Rattle.gpu_run.specs.Stands.{Acting, Stands};

use crate::act::act_all;
use crate::client::Client;
use crate::closing::close_all;
use crate::running::run_all;
use gpu_fetch::PlainPass;
use gpu_house::{House, Naming};
use gpu_word::Memory;
use wait_hooks::Hook;

/// Rounds follow one another until one appends nothing.
///
/// # Errors
///
/// `Memory`: nothing is known of the house and the clients.
pub(crate) fn play<N: Naming, H: Hook>(
    house: &mut House<N, PlainPass, H>,
    clients: &mut [Client],
    list: &mut Vec<(u32, u32)>,
) -> Result<(), Memory>
    requires { Stands (Acting 0) N.plans house.old clients.old }
    ensures serial { OnOk result (house.new.core.past ≡ serial N.plans) }
    ensures stands { OnOk result (Stands (Acting 0) N.plans house.new clients.new) }
{
    loop {
        let before = house.journal().count();
        act_all(house, clients)?;
        close_all(house, clients);
        run_all(house, clients, list)?;
        if house.journal().count() == before {
            return Ok(());
        }
    }
}
