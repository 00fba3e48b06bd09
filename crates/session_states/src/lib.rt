//! The session machine: what a client's item does to a session, and which items enter it together.
//!
//! | File | Has | Its words |
//! |---|---|---|
//! | `item.rt` | `Item`, `Entry`: what a client sends, and with its client and rank | `specs/Clients.antt` |
//! | `state.rt` | `State`, `after`: the machine | `specs/Machine.antt` |
//! | `batch.rt` | `Batch`: the entries of one turn | `specs/Batches.antt` |
//! | `open_batch.rt` | `OpenBatch`: entries are added one by one | `specs/OpenBatches.antt` |
//! | `turn.rt` | `Act`, `Effect`, `Turn`: what a batch led to | |
//!
//! Begin at `after`.
#![tactic(auto)]

mod batch;
mod item;
mod open_batch;
mod state;
mod turn;

pub use batch::Batch;
pub use item::{Entry, Item};
pub use open_batch::OpenBatch;
pub use state::{State, after};
pub use turn::{Act, Effect, Turn};
