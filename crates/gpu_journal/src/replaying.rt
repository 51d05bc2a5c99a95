//! Replay: the images that a history leaves, from its steps alone.
ghost use Rattle.std.specs.Prelude.{◌≡◌, ◌-◌, ◌<◌, ◌≤◌, length, drop, Some, IfOk, OnOk};
ghost use Rattle.gpu_word.specs.Header.{size_of};
ghost use Rattle.gpu_cmd.specs.Lawful.{IsLawfulAreas};
ghost use Rattle.gpu_cmd.specs.Table.{command_said};
ghost use Rattle.stream_state.specs.State.{noted};
ghost use Rattle.stream_state.specs.Steps.{values_of, header_in, command_in, effect, stepped};
ghost use Rattle.stream_state.specs.Laws.{IsTaken};
ghost use Rattle.gpu_journal.specs.World.{drawn_by, replay};
ghost use Rattle.gpu_journal.specs.Legal.{IsLegal};
ghost use Rattle.gpu_journal.specs.Replaying.{IsWithinQuota};

use crate::event::Event;
use crate::journal::Journal;
use gpu_cmd::{Areas, Command, command_of};
use gpu_plan::Plans;
use gpu_store::{Answer, Images};
use gpu_word::{Memory, split};
use std::alloc::Global;
use stream_state::{Effect, StreamState, first_states};

// The command and the size that the words of a step say.
fn command_taken(words: &[(u32, u32)]) -> (Command, u32)
    requires some { 0 < length words.now }
    requires said { command_said (values_of words.now) ≡ Some (command_in words.now) }
    ensures command { result.0 ≡ command_in words.now }
    ensures size { result.1 ≡ size_of (header_in words.now) }
{
    let command = command_of(words).unwrap();
    (command, split(words[0].1).size)
}

// Executes the command of these words on the state of its stream and on the images.
fn execute(
    images: &mut Images,
    state: &mut StreamState,
    areas: &Areas,
    words: &[(u32, u32)],
) -> Result<(), Memory>
    requires lawful { IsLawfulAreas areas.now }
    requires taken { IsTaken areas.now words.now state.old }
    requires within { IsWithinQuota state.old }
    ensures images { OnOk result
        (images.new ≡ (drawn_by (effect areas.now words.now state.old) images.old).images) }
    ensures state { OnOk result
        (state.new ≡ noted (drawn_by (effect areas.now words.now state.old) images.old).answer
        (stepped areas.now words.now state.old)) }
{
    let (command, size) = command_taken(words);
    let answer = match state.step(&command, size, words, areas)? {
        Effect::Pixels(op) => images.apply(&op)?,
        _ => Answer::Done,
    };
    state.note(answer);
    Ok(())
}

/// The images after a given number of the events of a journal, which are a legal history of these plans, uploads included:
/// what their operations leave, one after the other, from no image on.
pub fn replay(
    alloc: Global,
    plans: &Plans,
    journal: &Journal,
    count: usize,
) -> Result<Images, Memory>
    requires within { count ≤ length journal.now.events }
    requires legal { IsLegal plans.now
        (drop (length journal.now.events - count) journal.now.events) }
    ensures { IfOk result (λ images. images
        ≡ replay plans.now (drop (length journal.now.events - count) journal.now.events)) }
{
    let mut images = Images::make(alloc);
    let mut states = first_states(alloc, plans.count())?;
    for index in 0..count {
        if let Event::Step { stream, words } = journal.event(index) {
            let state = &mut states[stream as usize - 1];
            let areas = plans.plan(stream).areas();
            execute(&mut images, state, areas, words.as_slice())?;
        }
    }
    Ok(images)
}
