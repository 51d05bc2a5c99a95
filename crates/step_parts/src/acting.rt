//! A command's work on images, waits and the state of its stream, with all memory wanted before anything changes.
ghost use Rattle.std.specs.Prelude.{◌≡◌, ◌<◌, length, IfOk, OnErr, IsErr, IsTrue};
ghost use Rattle.stream_state.specs.Accepted.{BringsItsTexels};
ghost use Rattle.stream_state.specs.State.{State};
ghost use Rattle.sync_core.specs.Standing.{IsKnown};
ghost use Rattle.sync_core.specs.Core.{unprocessed_of};
ghost use Rattle.gpu_journal.specs.World.{drawn_by};
ghost use Rattle.step_parts.specs.Claims.{wants_memory, IsPlain};
ghost use Rattle.step_parts.specs.Executing.{asks, HasPassed, IsReady, MeetsClaim, Follows, AnswersAct};

use crate::acted::Acted;
use crate::claim::{Claim, claim_of};
use crate::scene::Scene;
use crate::taken::Taken;
use gpu_store::Answer;
use gpu_word::{Memory, split};
use stream_state::{Effect, StreamState};
use sync_core::Judged;

// Makes the image or judges the wait that a command claims, and tells the answer and whether a wait is kept. `None` where it
// claims neither.
fn meet_claim(scene: &mut Scene, taken: &Taken<'_>) -> Result<Option<(Answer, bool)>, Memory>
    requires front { 0 < length (unprocessed_of scene.old.sync taken.now.stream) }
    ensures meets { IfOk result
        (λ did. (state : State) → HasPassed taken.now state
        → MeetsClaim taken.now scene.old scene.new (asks taken.now state) did) }
    ensures same_scene { OnErr result (scene.new ≡ scene.old) }
    ensures free { IsErr result → IsTrue (wants_memory taken.now.command.now) }
{
    match claim_of(taken.plans, taken.command) {
        Claim::Image(op) => Ok(Some((scene.images.apply(&op)?, false))),
        Claim::Wait { target, release } => {
            let judged = scene.sync.wait(taken.stream, target, release)?;
            Ok(Some((Answer::Done, judged == Judged::Kept)))
        }
        Claim::Nothing => Ok(None),
    }
}

// Does what an effect asks that wants no memory: it draws, or it releases.
fn follow(scene: &mut Scene, taken: &Taken<'_>, effect: &Effect) -> Answer
    requires known { IsKnown (length scene.old.sync.streams) taken.now.stream }
    requires plain { IsPlain effect.now }
    requires texels { BringsItsTexels effect.now }
    ensures answer { result ≡ (drawn_by effect.now scene.old.images).answer }
    ensures scene { Follows taken.now scene.old scene.new effect.now }
{
    match effect {
        Effect::Pixels(op) => match scene.images.apply(op) {
            Ok(answer) => answer,
            Err(_) => unreachable!(),
        },
        Effect::Release(release) => {
            scene.sync.release(taken.stream, *release);
            Answer::Done
        }
        _ => Answer::Done,
    }
}

/// Executes a command of a stream that passed all checks, on the images, on the order numbers and waits, and on the state of its
/// stream, which has an unprocessed number.
///
/// All memory is taken before anything changes, so after `Memory` all three are as they were. It comes only for commands that
/// make an image or a wait, or that keep, read or hand out bytes.
pub fn act(scene: &mut Scene, state: &mut StreamState, taken: &Taken<'_>) -> Result<Acted, Memory>
    requires ready { IsReady taken.now scene.old.sync state.old }
    ensures { AnswersAct taken.now scene.old scene.new state.old state.new result }
{
    let claimed = meet_claim(scene, taken)?;
    let areas = taken.plans.plan(taken.stream).areas();
    let size = split(taken.words[0].1).size;
    let effect = state.step(taken.command, size, taken.words, areas)?;
    let (answer, kept) = match claimed {
        Some(did) => did,
        None => (follow(scene, taken, &effect), false),
    };
    state.note(answer);
    Ok(Acted {
        effect,
        answer,
        kept,
    })
}
