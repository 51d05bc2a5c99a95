use crate::front::Front;
use crate::look::Sight;

/// What a reader or the writer knows of the view. No value of it is ever made.
pub struct Known {
    /// The versions up to the one that it met last, or `None` before it met one.
    pub front: Option<Front>,
    /// Its looks, in order. A contract reads the array as a list of any length.
    pub looks: [Sight; 0],
}
