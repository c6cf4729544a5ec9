// What a call leaves in a hall.

/// Which call it was, with what was handed in.
#[derive(Clone, Copy, Debug, PartialEq, Eq)]
pub enum HallAct {
    /// `pin_latest`.
    Latest,
    /// `pin_at` of this number.
    At(u64),
    /// `publish` on this base.
    Publish(u32),
    /// `pass`.
    Pass,
}

/// The session that made a call, and the call.
#[derive(Clone, Copy, Debug, PartialEq, Eq)]
pub struct HallEntry {
    /// The session's number, as it was handed in.
    pub session: u16,
    /// The call.
    pub act: HallAct,
}
