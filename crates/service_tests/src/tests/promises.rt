//! What the calls of a hall promise, in the words of a caller. These functions are proved and not run.
ghost use Rattle.std.specs.Prelude.{◌≡◌, ◌+◌, ◌⊎◌, ◌↔◌, drop, length, [], true, false, Some, None, IsTrue, IfSome, IfNone};
ghost use Rattle.shm_words.specs.declared.client.Acted.TheVariants.{End};
ghost use Rattle.gpu_plan.specs.Plans.{plan_of, is_closed};
ghost use Rattle.sync_core.specs.Standing.{IsKnown, is_open};
ghost use Rattle.gpu_journal.specs.Waits.{standing_of, pending_in};
ghost use Rattle.gpu_journal.specs.Legal.{IsLegal, MayClose};
ghost use Rattle.gpu_journal.specs.Serial.{is_runnable};
ghost use Rattle.serial_laws.specs.Choosing.{choice_at_home};
ghost use Rattle.house_core.specs.Core.{is_home};
ghost use Rattle.gpu_house.specs.Names.{table_at};
ghost use Rattle.gpu_house.specs.Batches.{member_words, batch_words, AreChained};
ghost use Rattle.gpu_house.specs.Waiting.{HaveTargets, FormNoCycle};
ghost use Rattle.gpu_house.specs.Stuck.{IsNotStuck};
ghost use Rattle.gpu_hall.specs.Outs.{NoneIsPaused, IsDoneOrGoesOn};
ghost use Rattle.gpu_hall.specs.Commits.{HasSteps, WentHome};
ghost use Rattle.gpu_hall.specs.Laws.{GrowsBy};
ghost use Rattle.gpu_hall.specs.Ready.{IsReadyRun};
ghost use Rattle.gpu_hall.specs.Words.{AreWordsAt};
ghost use Rattle.thread_parts.specs.Clients.{ThreadClientData, IsSameClient};
ghost use Rattle.gpu_threads.specs.Clients.{IsClientOf};
ghost use Rattle.thread_parts.specs.Acts.{HasGone, HasTried};
ghost use Rattle.gpu_threads.specs.Turns.{HasStopped};

use flush_queue::FlushQueue;
use gpu_hall::{FullPass, Hall};
use gpu_house::{Batch, Closing, Naming, Run};
use gpu_io::Gate;
use gpu_threads::{Client, ClientTurn, Ground, client_turn};
use result_words::ResultWords;
use shm_words::SharedWords;
use std::sync::{Mutex, MutexGuard, Wait};
use wait_hooks::Hook;

// A call that may be made of a hall alone of which the first half of the headline holds.
fn wants_the_headline<N: Naming, H: Hook>(hall: &Hall<N, H>) -> u32
    requires legal { IsLegal N.plans hall.now.past }
    requires targets { HaveTargets N.plans hall.now.past }
    requires no_cycle { FormNoCycle N.plans hall.now.past }
    requires stuck { IsNotStuck N.plans hall.now.past hall.now.outs }
    requires going { NoneIsPaused hall.now.outs }
    requires further { IsDoneOrGoesOn N.plans hall.now.past hall.now.outs }
{
    hall.count()
}

// Whoever gets the lock may make it.
fn look<N: Naming, H: Hook, R: Wait>(rt: &R, hall: &Mutex<Hall<N, H>>) -> u32 {
    let hall = hall.lock(rt);
    hall.shows_laws();
    let count = wants_the_headline(&hall);
    MutexGuard::unlock(hall);
    count
}

// Where the service keeps no wait, none is pending.
fn none_waits<N: Naming, H: Hook>(hall: &Hall<N, H>) -> bool
    ensures { IsTrue result → pending_in N.plans hall.now.past ≡ [] }
{
    hall.waits(1).pending == 0
}

// A stream cannot run of whose first number the service keeps a wait.
fn is_held<N: Naming, H: Hook>(hall: &Hall<N, H>, stream: u32) -> bool
    ensures { IsTrue result → is_runnable N.plans hall.now.past stream ≡ false }
{
    hall.waits(stream).blocked
}

// The run that is taken is of the first number of its stream, by what the service keeps of waits.
fn take_first<N: Naming, H: Hook>(hall: &mut Hall<N, H>) -> Option<Run<N, FullPass>>
    ensures { IfSome result (IsReadyRun N.plans N.words N.books) }
{
    let run = hall.take()?;
    let is_first = hall.waits(run.stream()).front == Some(run.order());
    prove!(is_first);
    Some(run)
}

// A commit takes nothing from the journal, and adds at most an event for each command, and one more where the run comes home. It
// tells of what it adds that the commands are valid, that no wait of a run that goes on was kept, and by which error a stream is lost.
fn commit_more<N: Naming, H: Hook>(
    hall: &mut Hall<N, H>,
    run: Run<N, FullPass>,
    words: &(SharedWords, ResultWords),
    batch: Batch,
) -> Option<Run<N, FullPass>>
    requires going { run.run.paused ≡ false }
    requires chained { AreChained run.run.facts batch }
    requires list { drop run.run.facts.fetched run.side.pass.fetched ≡ batch_words batch }
    requires words { AreWordsAt N.words N.result_words run.run.stream words.now }
    ensures goes { IfSome result (λ on. GrowsBy (length (member_words batch))
        hall.old.past hall.new.past) }
    ensures ends { IfNone result (GrowsBy (length (member_words batch) + 1)
        hall.old.past hall.new.past) }
    ensures steps { IfSome result (λ on. HasSteps N.plans hall.old.past hall.new.past
        run.run.stream (member_words batch) false) }
    ensures home { IfNone result (WentHome N.plans hall.old hall.new run.run (member_words batch)) }
{
    hall.commit(run, words, batch)
}

// It is too early to close a stream exactly where that is open and its client has not come to its Close.
fn is_early<N: Naming, H: Hook>(hall: &mut Hall<N, H>, stream: u32) -> bool
    requires known { IsKnown (length N.plans.plans) stream }
    requires closes { is_closed (plan_of N.plans stream).actions ≡ true }
    ensures { IsTrue result ↔ ((is_open (standing_of N.plans hall.old.past stream) ≡ true)
        × (MayClose N.plans hall.old.past stream → ⊥)) }
{
    hall.close(stream) == Closing::Early
}

// A client that went on did one thing, and one that waits could not go on.
fn turn_once<N: Naming, H: Hook, R: Wait, G: Gate>(
    rt: &R,
    ground: &Ground<'_, N, H, G>,
    own: &(SharedWords, ResultWords),
    client: Client,
) -> ClientTurn
    requires client { IsClientOf N.plans N.words N.result_words N.queues client }
    requires own { AreWordsAt N.words N.result_words client.stream own.now }
    ensures went { (new : ThreadClientData) → result ≡ ClientTurn.Went new
        → IsSameClient client new × HasGone client new }
    ensures waits { (new : ThreadClientData) → result ≡ ClientTurn.Waiting new
        → IsSameClient client new × HasStopped client new }
    ensures ended { (new : ThreadClientData) → result ≡ ClientTurn.Ended new
        → IsSameClient client new × (HasTried client new End ⊎ HasStopped client new) }
{
    client_turn(rt, ground, own, client)
}

// The run that is taken is of the stream that comes before all others at home that can run. None is taken where none can run.
fn takes_the_choice<N: Naming, H: Hook>(hall: &mut Hall<N, H>) -> Option<Run<N, FullPass>>
    ensures chosen { IfSome result (λ out. choice_at_home N.plans hall.old.past
        (is_home hall.old.outs) ≡ Some out.run.stream) }
    ensures idle { IfNone result (choice_at_home N.plans hall.old.past
        (is_home hall.old.outs) ≡ None) }
{
    hall.take()
}

// Where a stream is not lost, as many events have come as flushes were taken.
fn counts_what_comes<N: Naming, H: Hook, R: Wait>(
    rt: &R,
    hall: &mut Hall<N, H>,
    stream: u32,
    queue: &FlushQueue,
) -> u32
    requires known { IsKnown (length N.plans.plans) stream }
    requires queue { queue.now ≡ table_at N.queues stream }
    ensures { (standing_of N.plans hall.new.past stream).lost ≡ false
        → length hall.new.past ≡ length hall.old.past + result }
{
    hall.collect_from(rt, stream, queue)
}
