/// A read or a write failed, and its source or sink has counted the fault.
#[derive(Clone, Copy)]
pub struct Failed;
