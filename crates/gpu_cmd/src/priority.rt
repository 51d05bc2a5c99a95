/// How soon a stream is chosen among those that can run.
#[derive(Clone, Copy)]
pub enum Priority {
    High,
    Normal,
    Low,
}
