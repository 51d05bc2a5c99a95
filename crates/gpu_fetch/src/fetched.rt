ghost use Rattle.std.specs.Prelude.{◌≡◌, ◌≢◌};
ghost use Rattle.std.specs.List.Sorted.{IsStrictlyIncreasing};
ghost use Rattle.gpu_cmd.specs.Lawful.{IsLawfulFacts};
ghost use Rattle.gpu_cmd.specs.Copied.{IsCopy, copied, fetched_places, places_listed};

use gpu_cmd::{CmdError, Command, StreamFacts};
use std::marker::Model;
use std::snapshot::Snapshot;

/// What was fetched of a command: its words, each once and in order, and the verdict of checks 1 to 10 on them. Contracts see
/// the facts of the stream beside it, which the verdict rests on: they are lawful, and `get` is not `put`.
#[derive(Drop)]
pub struct Fetched<'a> {
    words: &'a [(u32, u32)],
    verdict: &'a Result<Command, CmdError>,
    // A snapshot has no copy, so this is one of the snapshot that `of` is given.
    facts: Snapshot<Snapshot<StreamFacts>>,
}

impl<'a> Model for Fetched<'a> {
    ghost use Rattle.gpu_fetch.specs.Fetched.{FetchedData, IsFetched};

    ghost Value = { FetchedData };

    ghost view = { λ f.
        record { words = f.words.now; verdict = f.verdict.now; facts = f.facts.value.value } };

    ghost invariant = { λ f. IsFetched
        (record { words = f.words.now; verdict = f.verdict.now; facts = f.facts.value.value }) };
}

impl<'a> Fetched<'a> {
    /// The words of a command with the verdict on them.
    pub fn of(
        words: &'a [(u32, u32)],
        verdict: &'a Result<Command, CmdError>,
        facts: &Snapshot<StreamFacts>,
    ) -> Fetched<'a>
        requires lawful { IsLawfulFacts facts.now.value }
        requires more { facts.now.value.get ≢ facts.now.value.put }
        requires copy { IsCopy words.now facts.now.value verdict.now }

        ensures is { result
            ≡ record { words = words.now; verdict = verdict.now; facts = facts.now.value } }
        ensures places { places_listed result.words ≡ fetched_places result.words facts.now.value }
        ensures once { IsStrictlyIncreasing (places_listed result.words) }
        ensures verdict { copied result.words facts.now.value ≡ result.verdict }
    {
        Fetched {
            words,
            verdict,
            facts: Snapshot::of(facts),
        }
    }

    /// The words fetched, as pairs of a place and its value: the ring places of the command and then its transfer places,
    /// as far as the checks let it come. `get` was not `put`.
    pub fn words(&self) -> &'a [(u32, u32)]
        ensures value { result.now ≡ self.now.words }
        ensures copy { IsCopy result.now self.now.facts self.now.verdict }
        ensures more { self.now.facts.get ≢ self.now.facts.put }
    {
        self.words
    }

    /// The command, or the first check that fails on these words.
    pub fn verdict(&self) -> Result<Command, CmdError>
        ensures value { result ≡ self.now.verdict }
        ensures copy { IsCopy self.now.words self.now.facts result }
    {
        *self.verdict
    }
}
