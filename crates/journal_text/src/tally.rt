ghost use Rattle.std.specs.Prelude.{◌≡◌};
ghost use Rattle.journal_text.specs.Text.{tally_of};

use stream_state::StreamState;

/// What a stream counted in its run.
#[derive(Clone, Copy)]
pub struct Tally {
    /// The ring entries of its executed commands.
    pub entries: u64,
    /// Its release count.
    pub release: u64,
    /// Its last token, or 0.
    pub token: u32,
    /// The words that were fetched for its executed commands.
    pub words: u32,
    /// How many image operations were answered InvalidValue, InvalidOperation and OutOfTexels.
    pub errors: (u32, u32, u32),
}

impl Tally {
    /// What the state of a stream says of it.
    pub fn of(state: &StreamState) -> Tally
        ensures { result ≡ tally_of state.now }
    {
        Tally {
            entries: state.entries(),
            release: state.release(),
            token: state.token(),
            words: state.fetched(),
            errors: state.errors(),
        }
    }
}
