ghost use Rattle.std.specs.Prelude.{◌≤◌, IfOk};
ghost use Rattle.gpu_cmd.specs.Spans.{AreTiles};
ghost use Rattle.gpu_cmd.specs.declared.areas.TheConstants.{MOST_RING};
ghost use Rattle.script_lines.specs.Outcome.{Gives};
ghost use Rattle.gpu_plan.specs.Adding.{spans_with};

use gpu_cmd::{MOST_WORDS, Span, span_at, words_in};
use script_lines::{Kind, LineError};

/// The greatest number of a memory.
pub const LAST_MEMORY: u32 = 15;

/// Memories that count from a first place on, with one more after those before.
#[tactic(auto, unfolding(crate::specs::Adding::spans_with))]
pub(crate) fn spans_with(
    first: u32,
    spans: &[Option<Span>; 16],
    memory: u32,
    words: u32,
) -> Result<[Option<Span>; 16], LineError>
    requires tiles { AreTiles first spans.now }
    requires low { first ≤ MOST_RING }
    ensures said { Gives (λ new. new) result (spans_with first spans.now memory words) }
    ensures tiles { IfOk result (λ new. AreTiles first new) }
{
    if span_at(spans, memory).is_some() {
        return Err(LineError::Refused(Kind::Double));
    }
    let before = words_in(spans);
    if memory > LAST_MEMORY || words == 0 || before + u64::from(words) > MOST_WORDS {
        return Err(LineError::Refused(Kind::Limit));
    }
    let mut new = *spans;
    new[memory as usize] = Some(Span {
        base: first + before as u32,
        words,
    });
    Ok(new)
}
