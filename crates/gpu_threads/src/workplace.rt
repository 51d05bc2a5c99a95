//! What the threads of a run do at the hall, as a thread sees it.
ghost use Rattle.thread_parts.specs.Clients.{ThreadClientData, IsSameClient};

use crate::chain::serve_on;
use crate::ground::Ground;
use crate::rows::words_of;
use crate::turns::{is_ended, turn};
use gpu_house::Naming;
use gpu_io::Gate;
use std::sync::Wait;
use thread_parts::{Act, Client, Leave, Shift};
use wait_hooks::Hook;

/// What clients and workers do at the hall. What is said of threads is said of this alone, so no proof about threads looks into a hall.
pub(crate) trait Workplace {
    // The client is one of the run.
    ghost has: { ThreadClientData → Type 0 };

    /// A turn of a client that stays where it is.
    fn turn<R: Wait>(&self, rt: &R, client: &mut Client) -> Act
        requires { has client.old }
        ensures has { has client.new }
        ensures same { IsSameClient client.old client.new };

    /// Whether a client that could not go on has come to its end.
    fn is_ended<R: Wait>(&self, rt: &R, client: &Client) -> bool
        requires { has client.now };

    /// Serves turns, one after the other, until the thread has enough or nothing is runnable.
    fn serve<R: Wait>(&self, rt: &R, shift: Shift<'_>) -> Leave;
}

impl<'a, N: Naming, H: Hook, G: Gate> Workplace for Ground<'a, N, H, G> {
    ghost use Rattle.gpu_threads.specs.Clients.{IsClientOf};

    ghost has = { IsClientOf N.plans N.words N.result_words N.queues };

    fn turn<R: Wait>(&self, rt: &R, client: &mut Client) -> Act {
        let own = words_of::<N>(self.words, client.stream());
        turn(rt, self, own, client)
    }

    fn is_ended<R: Wait>(&self, rt: &R, client: &Client) -> bool {
        is_ended(rt, self, client.stream())
    }

    fn serve<R: Wait>(&self, rt: &R, shift: Shift<'_>) -> Leave {
        serve_on(rt, self, shift)
    }
}
