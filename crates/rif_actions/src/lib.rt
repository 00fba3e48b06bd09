//! What a rule's block does at a state of facts.
//!
//! | File | Has | Its words |
//! |---|---|---|
//! | `changes.rt` | `Block`, the changes of a rule's block at a state, or that it is void | `specs/Blocks.antt` |
//! | `blocks.rt` | `block`: a block is evaluated here | `specs/Blocks.antt` |
//! | `scope.rt` | values of the block's variables | `specs/Blocks.antt` |
//! | `uses.rt` | what an action does | `specs/Uses.antt` |
//! | `laws.rt` | laws of the definitions | `specs/Laws.antt` |
//!
//! Begin at `block`.
#![tactic(auto)]

mod blocks;
mod changes;
pub mod laws;
mod scope;
mod uses;

pub use blocks::block;
pub use changes::Block;
pub use scope::Scope;
