//! What serves clients that share a list: the engine and the list's taker, and the passes that they make. The session
//! that lends them to one client at a time, behind a lock, comes with the threads.
//!
//! | File | Has | Its words |
//! |---|---|---|
//! | `named.rt` | `Named`, which list and which document a session is of | |
//! | `gate.rt` | `Gate`, `NoGate`: who is told of a session's steps | |
//! | `session_core.rt` | `Core`, the engine, the taker and the entries held | `specs/Sessions.antt` |
//! | `entering.rt` | how the entries held enter the engine | |
//! | `passing.rt` | `pass`, `Rest`: batches are taken and settled until nothing fires | `specs/Passes.antt` |
//!
//! Begin at `pass`.
#![tactic(auto)]

mod entering;
mod gate;
mod named;
mod passing;
mod session_core;

pub use gate::{Gate, NoGate};
pub use named::Named;
pub use passing::{Rest, pass};
pub use session_core::Core;
