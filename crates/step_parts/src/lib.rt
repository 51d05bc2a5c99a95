//! One accepted command, executed on all that it touches.
//!
//! What the contracts say:
//! - `act` executes a command that passed all checks. The images, the state of its stream, the order numbers and the waits
//!   are then those that the definitions give, for every list of sync events that the core represented.
//! - It tells the effect, the answer of the image operation, and whether a wait is kept. It also tells the result places
//!   that are written, all of which are declared.
//! - Where memory runs out none of the three has changed. That comes only for commands that make an image or a wait, or
//!   that keep, read or hand out bytes.
//!
//! Notes:
//! - A wait's stream and release are read off the command, since it is judged before its stream has told the effect.
//! - A wait that is dropped is a step like others. It counts as made, and only the flag `kept` tells it from a kept one.
#![tactic(auto)]

mod acted;
mod acting;
mod claim;
mod scene;
mod taken;

pub use acted::Acted;
pub use acting::act;
pub use scene::Scene;
pub use taken::Taken;
