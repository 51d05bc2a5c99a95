use crate::rule::Copies;

/// What the next version is made of: the published version, with the steps after it, and a number of events.
#[derive(Drop)]
pub struct Next<'a> {
    pub copies: &'a Copies,
    pub events: u32,
}
