//! The values that every layer speaks of: texts, constants, facts, bindings, instances and changes.
//!
//! | File | Has | Its words |
//! |---|---|---|
//! | `text.rt` | `Text`, a name or string that is copied in constant time | |
//! | `listed.rt` | `Listed`, a list that contracts see as one | |
//! | `shared.rt` | `Shared`, a list that is copied in constant time | |
//! | `numbers.rt` | the n-th of a list, counted from 1 | `specs/Numbers.antt` |
//! | `integer.rt` | `Integer`, the type and range of integers | |
//! | `constant.rt`, `fact.rt` | `Const`, `Fact` and the places of a fact | `specs/Order.antt`, `specs/Places.antt` |
//! | `binding.rt` | `Binding`, the values of variables | `specs/Bindings.antt` |
//! | `instance.rt` | `Instance`, a rule with the values of its variables | `specs/InstanceOrder.antt` |
//! | `rows.rt` | the pairs of a row with one more variable, or without some | `specs/Bindings.antt` |
//! | `change.rt` | `Change`, `Delta`, `RowDelta`: changes and net changes | `specs/Facts.antt` |
//! | `writing.rt` | constants and facts as text | `specs/Writing.antt` |
//! | `laws.rt` | laws of the orders | `specs/OrderLaws.antt` |
//! | `out_of_memory.rt` | `OutOfMemory`, the one answer that is free | |
//!
//! Sets as ordered lists are defined in `specs/Sets.antt`.
//!
//! Begin at `Const` and `Fact`.
#![tactic(auto)]

mod binding;
mod change;
mod constant;
mod fact;
mod instance;
mod integer;
mod laws;
mod listed;
mod numbers;
mod out_of_memory;
mod rows;
mod shared;
mod text;
mod writing;

pub use binding::Binding;
pub use change::{Change, Delta, RowDelta};
pub use constant::{Const, are_same};
pub use fact::Fact;
pub use instance::Instance;
pub use integer::{GREATEST_INTEGER, Integer, LEAST_INTEGER};
pub use laws::{derived_orders_are_the_stated_ones, orders_are_total, orders_tell_all_apart};
pub use listed::Listed;
pub use numbers::nth;
pub use out_of_memory::OutOfMemory;
pub use rows::pairs_with;
pub use shared::Shared;
pub use text::Text;
pub use writing::{push_const, push_fact, write_const, write_fact};
