//! What the threads of a run share.
ghost use Rattle.gpu_threads.specs.Rows.{AreShared};

use flush_queue::FlushQueue;
use gpu_hall::Hall;
use gpu_house::Naming;
use gpu_io::Gate;
use result_words::ResultWords;
use shm_words::SharedWords;
use std::marker::Model;
use std::sync::Mutex;
use wait_hooks::Hook;

/// What the threads of a run share: the lock of the hall, the words and the queue of each stream, and the gate.
///
/// Its type keeps that the words and the queues are those that N names. Contracts see nothing else of it.
#[derive(Drop)]
pub struct Ground<'a, N: Naming, H: Hook, G: Gate> {
    pub(crate) hall: &'a Mutex<Hall<N, H>>,
    pub(crate) words: &'a [(SharedWords, ResultWords)],
    pub(crate) queues: &'a [FlushQueue],
    pub(crate) gate: &'a G,
}

impl<'a, N: Naming, H: Hook, G: Gate> Model for Ground<'a, N, H, G> {
    ghost use Rattle.gpu_threads.specs.Rows.{AreShared};

    ghost Value = { Unit {0} };

    ghost view = { λ g. tt };

    ghost invariant = { λ g. AreShared N.plans N.words N.result_words N.queues
        g.words.now g.queues.now };
}

impl<'a, N: Naming, H: Hook, G: Gate> Ground<'a, N, H, G> {
    /// One over the lock of a hall, these words and queues, and this gate.
    pub fn new(
        hall: &'a Mutex<Hall<N, H>>,
        words: &'a [(SharedWords, ResultWords)],
        queues: &'a [FlushQueue],
        gate: &'a G,
    ) -> Ground<'a, N, H, G>
        requires { AreShared N.plans N.words N.result_words N.queues
            words.now queues.now }
    {
        Ground {
            hall,
            words,
            queues,
            gate,
        }
    }
}
