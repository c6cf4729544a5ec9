// Which calls of a sink in memory fail.

/// A call of a sink in memory that fails.
#[derive(Clone, Copy, Debug)]
pub struct SinkStop {
    /// The call's number, from 0; a write of an empty piece has none.
    pub call: u64,
    /// The most bytes of the piece that are taken before it fails.
    pub taken: usize,
}
