use gpu_store::Answer;
use stream_state::Effect;

/// What an executed command did beside its stream's state.
#[derive(Drop)]
pub struct Acted {
    /// What it asked of the rest of the service.
    pub effect: Effect,
    /// How its image operation was answered, or Done where it has none.
    pub answer: Answer,
    /// Whether it made a wait that is kept.
    pub kept: bool,
}
