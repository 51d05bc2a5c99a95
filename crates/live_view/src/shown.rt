use crate::front::Front;
use crate::version::Version;

/// What viewers read: a version, and the list that it ends.
///
/// Between two operations of a step the copy that no viewer reads is no version of the list.
#[derive(Drop)]
pub struct Shown {
    pub version: Version,
    pub front: Front,
}
