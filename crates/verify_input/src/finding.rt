use crate::what::What;
use gpu_plan::Kind;
use gpu_store::Images;

/// The verdict on an input: a script, a line `journal`, and a journal text.
#[derive(Drop)]
pub enum Finding {
    /// This line of the input is the first bad one of the script, and this the first kind of what is wrong with it.
    Refused { line: u32, kind: Kind },
    /// The script is lawful, and there is no journal: this line of the input is missing or refused.
    NoJournal { line: u32 },
    /// The event of this number, counted from 1, is the first that breaks a rule, and this is the least rule that it breaks.
    No { event: u32, rule: u32 },
    /// This line of the input is the first of a whole output that is off, and this is what is off there.
    Differs { line: u32, what: What },
    /// The events are a legal history of the script, and not a complete one.
    NotComplete,
    /// This number of events is a legal and complete history of the script, and leaves these images.
    Yes { images: Images, events: u32 },
}
