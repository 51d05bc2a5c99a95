use crate::drawn::Drawn;
use crate::front::Front;

/// The end of a version: its number of events, and the list of versions up to it.
#[derive(Drop)]
pub struct Mark {
    pub events: u32,
    pub front: Front,
}

/// What leads from one version to the next: operations, and a mark after them.
#[derive(Drop)]
pub enum Step {
    Draw(Drawn),
    End(Mark),
}
