//! What the clients of a run have read, once nothing is left to do.
ghost use Rattle.std.specs.Prelude.{◌≡◌, ◌↔◌, length, IfOk, IsTrue};
ghost use Rattle.std.specs.List.{All};
ghost use Rattle.sync_core.specs.Standing.{IsKnown};
ghost use Rattle.gpu_journal.specs.Complete.{IsComplete};
ghost use Rattle.gpu_journal.specs.Dumps.{dumps_of};
ghost use Rattle.gpu_journal.specs.Ended.{streams_of};
ghost use Rattle.gpu_threads.specs.Clients.{IsClientOf, AreClientsOf};
ghost use Rattle.gpu_threads.specs.Dumps.{AreRead, AreAllRead, IsThrough};
ghost use Rattle.gpu_threads.specs.Rows.{AreWordsOf};

use crate::over::{all_over, is_lost};
use crate::rows::words_of;
use gpu_hall::Hall;
use gpu_house::Naming;
use gpu_word::Memory;
use result_words::{Dumps, ResultWords};
use shm_words::SharedWords;
use std::alloc::Global;
use thread_parts::Client;
use wait_hooks::Hook;

// Whether a client has read all its dumps, or its stream is lost.
fn is_through<N: Naming, H: Hook>(hall: &Hall<N, H>, client: &Client) -> bool
    requires { IsKnown (length N.plans.plans) client.now.stream }
    ensures { IsTrue result ↔ IsThrough N.plans hall.now.past client.now }
{
    if is_lost(hall, client.stream()) {
        return true;
    }
    client.is_whole()
}

/// Whether nothing is left to do: no stream is open, and each client is through.
pub(crate) fn all_done<N: Naming, H: Hook>(hall: &Hall<N, H>, clients: &[Client]) -> bool
    requires { AreClientsOf N.plans N.words N.result_words N.queues clients.now }
    ensures over { IsTrue result → IsComplete N.plans hall.now.past }
    ensures through { IsTrue result → All (IsThrough N.plans hall.now.past) clients.now }
{
    if !all_over(hall) {
        return false;
    }
    for client in clients {
        if !is_through(hall, client) {
            return false;
        }
    }
    true
}

// The dumps of a client that is through, whose reader the hall takes back: by that each value is one that was written. A lost stream has
// none.
fn read_of<N: Naming, H: Hook>(
    hall: &mut Hall<N, H>,
    words: &[(SharedWords, ResultWords)],
    client: Client,
) -> Dumps
    requires client { IsClientOf N.plans N.words N.result_words N.queues client }
    requires words { AreWordsOf N.plans N.words N.result_words words.now }
    requires through { IsThrough N.plans hall.old.past client }
    ensures same { hall.new ≡ hall.old }
    ensures read { AreRead N.plans hall.old.past client.stream
        (dumps_of N.plans hall.old.past client.stream) result }
{
    let stream = client.stream();
    let lost = is_lost(hall, stream);
    let (reader, list) = client.into_parts();
    hall.settle(stream, words_of::<N>(words, stream), reader);
    let mut dumps = Dumps::of(list);
    if lost {
        dumps.clear();
        return dumps;
    }
    dumps
}

/// The dumps of all clients, in the order of their streams.
///
/// # Errors
///
/// `Memory`: there is none for the list.
pub(crate) fn all_read<N: Naming, H: Hook>(
    alloc: Global,
    hall: &mut Hall<N, H>,
    words: &[(SharedWords, ResultWords)],
    clients: Vec<Client>,
) -> Result<Vec<Dumps>, Memory>
    requires clients { AreClientsOf N.plans N.words N.result_words N.queues clients.items }
    requires through { All (IsThrough N.plans hall.old.past) clients.items }
    requires words { AreWordsOf N.plans N.words N.result_words words.now }
    ensures same { hall.new ≡ hall.old }
    ensures read { IfOk result (λ all. AreAllRead N.plans hall.old.past (streams_of N.plans) all.items) }
{
    let mut all = Vec::with_capacity(alloc, clients.len())?;
    for client in clients {
        all.push(read_of(hall, words, client))?;
    }
    Ok(all)
}
