//! A session that plays in turn.
use session_calls::Session;
use session_machine::Reply;

/// A session, and its replies so far.
#[derive(Drop)]
pub struct Player {
    /// The session.
    pub session: Session,
    /// The replies to the calls that it made.
    pub replies: Vec<Reply>,
}
