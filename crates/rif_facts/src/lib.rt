//! States of facts: which facts there are, by which keys they are found, and how a change is done to them.
//!
//! | File | Has | Its words |
//! |---|---|---|
//! | `facts.rt` | `Facts`, a state of facts | rif_values `specs/Facts.antt`, `specs/FactsWithRoom.antt` |
//! | `keys.rt` | `Key`, by which facts are found | `specs/Keys.antt` |
//! | `room.rt` | `Room`, what is taken before a change is done | `specs/FactsWithRoom.antt` |
//! | `fates.rt` | what some changes make of each fact | `specs/Fates.antt` |
//! | `net_change.rt` | the net change that they make of a state | `specs/Fates.antt` |
//! | `indexed.rt` | facts kept in two orders | `specs/Marks.antt` |
//! | `both_ways.rt` | a fact, and the same with its first two places exchanged | `specs/Marks.antt` |
//! | `marked.rt` | facts kept in one order, each with a mark | `specs/Marks.antt` |
//! | `runs.rt` | facts that stand next to each other | `specs/Runs.antt` |
//!
//! Begin at `Facts`.
#![tactic(auto)]

mod both_ways;
mod facts;
mod fates;
mod indexed;
mod keys;
mod marked;
mod net_change;
mod room;
mod runs;

pub use facts::Facts;
pub use keys::Key;
pub use room::Room;
