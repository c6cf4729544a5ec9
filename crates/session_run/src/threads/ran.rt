//! What a session brings back from its thread.
use session_machine::Reply;

/// What a session replied, and where its entries stand.
#[derive(Drop)]
pub struct Ran {
    /// The replies to its calls.
    pub replies: Vec<Reply>,
    /// The places of its shared calls' entries, from 0.
    pub places: Vec<u64>,
}
