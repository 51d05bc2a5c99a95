use gpu_store::Images;

/// The verdict on a list of events.
#[derive(Drop)]
pub enum Verdict {
    /// They are a legal and complete history, which leaves these images.
    Yes(Images),
    /// The event of this number, counted from 1, is the first that breaks a rule, and this is the least rule that it breaks.
    No { event: u32, rule: u32 },
    /// They are a legal history that is not complete.
    NotComplete,
}
