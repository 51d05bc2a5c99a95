//! A step: what an accepted command does to the state of its stream, and what it asks of the rest of the service.
ghost use Rattle.std.specs.Prelude.{◌≡◌, Ok, IsTrue, IsErr, IfOk, OnOk, OnErr};
ghost use Rattle.gpu_cmd.specs.Lawful.{IsLawfulAreas};
ghost use Rattle.gpu_cmd.specs.Checks.{has_format, has_slot};
ghost use Rattle.stream_state.specs.Verdict.{has_bytes, checked_state};
ghost use Rattle.stream_state.specs.Steps.{effect_of, acted, effect, stepped};
ghost use Rattle.stream_state.specs.Accepted.{IsAccepted, HoldItsBytes, BringsItsTexels, takes_memory};

use crate::effect::Effect;
use crate::state::StreamState;
use gpu_cmd::{Areas, Command};
use gpu_word::Memory;

impl StreamState {
    // Does all of a command but to count its entries and words.
    #[tactic(auto, unfolding(crate::specs::Steps::effect_of, crate::specs::Steps::acted))]
    fn act(
        &mut self,
        command: &Command,
        words: &[(u32, u32)],
        areas: &Areas,
    ) -> Result<Effect, Memory>
        requires lawful { IsLawfulAreas areas.now }
        requires words { HoldItsBytes words.now command.now }
        requires bytes { IsTrue (has_bytes command.now self.old) }
        requires format { IsTrue (has_format command.now) }
        requires slot { IsTrue (has_slot command.now) }
        ensures effect { IfOk result
            (λ given. given ≡ effect_of areas.now command.now words.now self.old) }
        ensures texels { IfOk result BringsItsTexels }
        ensures state { OnOk result (self.new ≡ acted areas.now command.now words.now self.old) }
        ensures memory { OnErr result (self.new ≡ self.old) }
        ensures free { IsErr result → IsTrue (takes_memory command.now) }
    {
        if let Some(writes) = self.writes(command, areas)? {
            self.results.write(writes.as_slice())?;
            return Ok(Effect::Results(writes));
        }
        let effect = self.asked(command, words)?;
        self.change(command, words)?;
        self.count(command);
        Ok(effect)
    }

    /// Executes a command that passed all checks: `words` are the words that were fetched for it, and `size` is the
    /// size in its header.
    ///
    /// Answers what the command asks of the rest of the service, and counts its entries and words. After `Memory`
    /// nothing has changed; it comes only for commands that keep, read or hand out bytes.
    pub fn step(
        &mut self,
        command: &Command,
        size: u32,
        words: &[(u32, u32)],
        areas: &Areas,
    ) -> Result<Effect, Memory>
        requires lawful { IsLawfulAreas areas.now }
        requires accepted { IsAccepted areas.now words.now self.old command.now size }
        requires check { checked_state command.now self.old ≡ Ok tt }
        ensures effect { IfOk result (λ given. given ≡ effect areas.now words.now self.old) }
        ensures texels { IfOk result BringsItsTexels }
        ensures state { OnOk result (self.new ≡ stepped areas.now words.now self.old) }
        ensures memory { OnErr result (self.new ≡ self.old) }
        ensures free { IsErr result → IsTrue (takes_memory command.now) }
    {
        let entries = self.entries() + u64::from(size);
        let fetched = self.fetched() + words.len() as u32;
        let effect = self.act(command, words, areas)?;
        self.entries = entries;
        self.fetched = fetched;
        Ok(effect)
    }
}
