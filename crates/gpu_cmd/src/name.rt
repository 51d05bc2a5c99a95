/// The name of a stream.
#[derive(Clone, Copy, PartialEq, Eq, Hash)]
pub struct Name {
    /// The namespace, which a script keeps at most 255.
    pub namespace: u32,
    /// The id within the namespace.
    pub id: u64,
}
