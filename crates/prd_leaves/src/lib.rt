//! What the tokens of a document stand for: its leaves, and the prefixes that it declares.
//!
//! | File | Has | Its words |
//! |---|---|---|
//! | `document_leaves.rt` | `leaves`: the leaves of all tokens, and the prefixes | `specs/Leaves.antt` |
//! | `token_leaf.rt`, `behind.rt` | the leaf of a token, by what stands straight before it | `specs/LeafSteps.antt` |
//! | `keyword.rt` | words | `specs/LeafWords.antt` |
//! | `literal.rt`, `token_text.rt` | literals, and the parts of a token's text | `specs/Literals.antt` |
//! | `text_pool.rt` | what makes the texts of leaves | `specs/Literals.antt` |
//! | `prefixes.rt` | the prefixes that are declared | prd_grammar `specs/Prefixes.antt` |
//!
//! `specs/Documents.antt` says what the tokens of a document lead to, by their leaves. Begin at `leaves`.
#![tactic(auto)]

mod behind;
mod document_leaves;
mod keyword;
mod literal;
mod prefixes;
mod text_pool;
mod token_leaf;
mod token_text;

pub use behind::Behind;
pub use document_leaves::leaves;
pub use prefixes::Prefixes;
pub use text_pool::TextPool;
pub use token_leaf::leaf_at;
pub use token_text::{behind_colon, inner, text_of};
