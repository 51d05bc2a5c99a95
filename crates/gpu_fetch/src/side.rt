ghost use Rattle.std.specs.Prelude.{◌≡◌, ℕ, ◌+◌, ◌<◌, ◌≤◌, ◌^◌, [], ◌∷◌, Bool, Option, List, MatchResult, IfOk, IfErr, IsTrue};
ghost use Rattle.std.specs.List.{All};
ghost use Rattle.std.specs.Option.{IfSome};
ghost use Rattle.atomic_table.specs.Seated.{TableId};
ghost use Rattle.gpu_word.specs.Results.{Written, Finish, finishes_in, writes_listed, Settles};
ghost use Rattle.gpu_cmd.specs.Lawful.{places_of};
ghost use Rattle.gpu_fetch.specs.Side.{SideData, side_reach, MayFetch, with_words, with_met, finish_published, token_published, told_more};

use gpu_word::Memory;

/// The service's side of one stream: what fetches its words and publishes to its client.
///
/// Contracts see:
/// - the stream's plan and the list of words fetched
/// - the flushes published as finished, the greatest token published and the latest flush met
///
/// The client may store into the words at any moment. A word fetched is one that it may have put, between the latest
/// flush met and its bound by the side's own numbers.
pub trait ServiceSide: Drop {
    /// The words that the side shares with its client, and with them the result words where there are any.
    type Words;

    /// What a client hands over with a flush.
    type Note: Drop;

    /// What writes results to the client.
    type Results: Drop;

    /// What the client reads results with.
    type Reader;

    // What contracts see of a side.
    ghost side: { Self → SideData };

    // The name of the table of words that a side shares with its client, where it has one.
    ghost table: { Self → TableId };

    // How many actions the client had done once a note's flush was made: its place and one more, or 0 for no flush.
    ghost mark: { Self.Note → ℕ };

    // A note is of a table of words: its facts wherever it lies, where its words are not at hand.
    ghost note_of: { Self.Note → TableId → Type 0 } = { λ n t. Unit {0} };

    // Results are of a table of result words, and a reader is.
    ghost results_of: { Self.Results → TableId → Type 0 } = { λ r t. Unit {0} };

    ghost reader_of: { Self.Reader → TableId → Type 0 } = { λ r t. Unit {0} };

    // The words and the side are of one stream.
    ghost belongs: { Self → Self.Words → Type 0 };

    // The words, the note and the side are of one stream.
    ghost note_belongs: { Self → Self.Words → Self.Note → Type 0 };

    // What a fetch finds in the words, which nothing need be known of: a place with a value.
    ghost shows: { Self.Words → ℕ × ℕ → Type 0 } = { λ w word. Unit {0} };

    // Whether a fetch can run out of memory.
    ghost wants: { Type 0 } = { Unit {0} };

    // The words and the results are of one stream.
    ghost results_belong: { Self.Words → Self.Results → Type 0 };

    // The words and the reader are of one stream.
    ghost reader_belongs: { Self.Words → Self.Reader → Type 0 };

    // Whether the results take a place.
    ghost takes: { Self.Results → ℕ → Bool };

    // The results and finishes that were written, in order, where they are known.
    ghost written: { Self.Results → Option (List Written) };

    // What the reader was given: the place, the finishes asked for, and the value of each read.
    ghost reads: { Self.Reader → List (ℕ × ℕ × ℕ) };

    /// Fetches the word at a place once. The list of fetches grows by the place and the answer.
    ///
    /// # Errors
    ///
    /// `Memory`: the side is as before.
    fn fetch(&mut self, words: &Self::Words, place: u32) -> Result<u32, Memory>
        requires belongs { belongs self.old words.now }
        requires place { place < places_of (side self.old).plan.areas }

        ensures grows { MatchResult result
            (λ value. side self.new ≡ with_words (side self.old) ((place, value) ∷ []))
            (λ _. side self.new ≡ side self.old) }
        ensures may { IfOk result (λ value. MayFetch (side self.old) (place, value)) }
        ensures shows { IfOk result (λ value. shows words.now (place, value)) }
        ensures memory { IfErr result (λ _. wants) }
        ensures belongs { belongs self.new words.now }
        ensures notes { (n : Self.Note) → note_belongs self.old words.now n
            → note_belongs self.new words.now n }
        ensures table { table self.new ≡ table self.old };

    /// Meets the flush of a note. The place of a flush that is met lies below the client's bound.
    fn meet(&mut self, words: &Self::Words, note: Self::Note)
        requires note { note_belongs self.old words.now note }
        requires flush { 1 ≤ mark note }

        ensures met { side self.new ≡ with_met (side self.old) (mark note) }
        ensures bounded { (side self.new).met ≤ side_reach (side self.new) }
        ensures belongs { belongs self.new words.now }
        ensures notes { (n : Self.Note) → note_belongs self.old words.now n
            → note_belongs self.new words.now n }
        ensures table { table self.new ≡ table self.old };

    /// Publishes the greater of a token and the greatest published before.
    fn publish_token(&mut self, words: &Self::Words, token: u32)
        requires belongs { belongs self.old words.now }

        ensures told { side self.new ≡ token_published (side self.old) token }
        ensures belongs { belongs self.new words.now }
        ensures notes { (n : Self.Note) → note_belongs self.old words.now n
            → note_belongs self.new words.now n }
        ensures table { table self.new ≡ table self.old };

    /// Publishes one more flush as finished. The finish was counted in the results before.
    fn publish_finish(&mut self, words: &Self::Words, results: &Self::Results)
        requires belongs { belongs self.old words.now }
        requires counted { IfSome (written results.now)
            (λ list. finishes_in list ≡ (side self.old).finished + 1) }
        requires room { (side self.old).finished + 1 < 2 ^ 64 }

        ensures finished { side self.new ≡ finish_published (side self.old) }
        ensures belongs { belongs self.new words.now }
        ensures notes { (n : Self.Note) → note_belongs self.old words.now n
            → note_belongs self.new words.now n }
        ensures table { table self.new ≡ table self.old };

    /// Writes values to result places, in order. Each place is one that the results take.
    fn publish_results(results: &mut Self::Results, words: &Self::Words, writes: &[(u32, u32)])
        requires belongs { results_belong words.now results.old }
        requires takes { All (λ write. IsTrue (takes results.old write.0)) writes.now }

        ensures written { written results.new
            ≡ told_more (written results.old) (writes_listed writes.now) }
        ensures takes { (place : ℕ) → takes results.new place ≡ takes results.old place }
        ensures named { (t : TableId) → results_of results.old t → results_of results.new t }
        ensures belongs { results_belong words.now results.new };

    /// Counts one more finish in the result words.
    fn count_finish(results: &mut Self::Results, words: &Self::Words)
        requires belongs { results_belong words.now results.old }

        ensures written { written results.new ≡ told_more (written results.old) (Finish ∷ []) }
        ensures takes { (place : ℕ) → takes results.new place ≡ takes results.old place }
        ensures named { (t : TableId) → results_of results.old t → results_of results.new t }
        ensures belongs { results_belong words.now results.new };

    /// Takes the reader back: each value that it was given is the last one written to its place, or 0, in a first part of
    /// the list that has at least as many finishes as the read asked for.
    fn settle(results: &mut Self::Results, words: &Self::Words, reader: Self::Reader)
        requires belongs { results_belong words.now results.old }
        requires reader { reader_belongs words.now reader }

        ensures settled { IfSome (written results.new) (λ list. Settles list (reads reader)) }
        ensures written { written results.new ≡ written results.old }
        ensures takes { (place : ℕ) → takes results.new place ≡ takes results.old place }
        ensures named { (t : TableId) → results_of results.old t → results_of results.new t }
        ensures belongs { results_belong words.now results.new };

    // What holds of a note's stream holds of it without the note.
    ghost without_note: { (s : Self) (w : Self.Words) (n : Self.Note) → note_belongs s w n
        → belongs s w };
}
