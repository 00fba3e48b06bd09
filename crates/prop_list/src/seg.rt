//! The form of the list over an unbounded queue: it is never full, and refuses nobody for good.
mod bounds;
mod calls;
mod ending;
mod making;
mod rule;
mod seats;
mod views;

pub use seats::{List, Seat, Taker};
