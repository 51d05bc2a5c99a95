//! Scripts: what recorded clients do, read from text.
//!
//! What the contracts say:
//! - `parse` gives the plans that the meaning of a script gives, or its first bad line with its first kind. It does so for
//!   every text within the limit, and for all lines of both versions.
//! - A fence by a name stands by the number of the stream that has it, whether that comes earlier or later. It stands by 0
//!   where no stream has it.
//! - The types of the plans keep what the format allows:
//!   - areas that lie end to end, and puts within them;
//!   - a Close at the end alone;
//!   - dumps at a Finish and at a declared result place;
//!   - the limits on streams, actions, flushes and fences;
//!   - the version 1 or 2;
//!   - names that differ, whose namespaces are at most 255, and which in version 1 are the numbers of the streams.
//! - Laws: how far a client can come, and what it may have put. No two streams of any script have the same name. In version
//!   1 stream S has the name (0, S).
//!
//! Notes:
//! - A plan is closed where a Close is among its actions. Its type keeps that a Close is the last, so the code looks at the
//!   last action alone.
//! - A plan grows where it lies, one put after the other. A plan that gets no memory for an action, or that cannot take a
//!   whole put line, is as it was.
//! - An action takes eight bytes. The fences of flushes lie in a list of the plan, in the order of their flushes, and
//!   `Plan::fences_at` finds those of one flush by a binary search. A flush that waits for nothing is not in the list.
//! - That names differ is proved of the definitions, a line at a time, and kept by the loop over the lines. The calls that
//!   take up one line know nothing of it.
//! - The definition numbers the streams before it reads the other lines. That the code says the same is proved line by
//!   line, since renumbering changes nothing but fences.
#![tactic(auto)]

mod acting;
mod adding;
mod begun;
mod copies;
mod draft;
mod fenced;
mod fences;
mod growing;
mod laws;
mod place;
mod places;
mod plan;
mod renumbering;
mod script;
mod spans;

pub use acting::{MOST_ACTIONS, MOST_FENCES, MOST_FLUSHES};
pub use adding::{LAST_NAMESPACE, MOST_STREAMS};
pub use fences::Fences;
pub use laws::{bound_is_first, bound_never_falls, held_values, names_are_lawful, one_further};
pub use place::Place;
pub use places::flush_places;
pub use plan::{Action, Plan, Plans};
pub use script::{MOST_BYTES, parse};
pub use script_lines::{Kind, ScriptFault};
pub use spans::LAST_MEMORY;
