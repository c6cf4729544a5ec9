//! A session over a hall of versions: a pin or none, a draft, and one call after the other.
//!
//! The promise: `step_local` is the machine's step of a local call; `prepare`, `act` and `finish` together are its step of a shared one.
//! After want of memory the session is as before.
//!
//! What contracts see of a session is defined in `specs/States`, the three steps of a shared call in `specs/Turns`, and the netlist that a
//! session keeps after its draft in `specs/Ahead`. The machine itself is the crate session_machine's.
//!
//! `prepare` does all that needs no hall, the analysis of a draft included, and leaves the session as it was; `act` alone touches the
//! hall, adds just one entry and leaves the session as it was; `finish` gives the reply and sets the session. Move no analysis and no
//! copy into `act`: it is what a thread does while it holds the turn.
#![tactic(auto)]

mod session;

pub use session::{Ready, Session, Taken};
