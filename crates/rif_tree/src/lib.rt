//! The tree of a document, from `Term` to `Doc`.
//!
//! | File | Has | Its words |
//! |---|---|---|
//! | `tree.rt` | `Term`, `Formula`, `Level` | `specs/Variables.antt`, `specs/Ready.antt`, `specs/Scoped.antt` |
//! | `rule.rt` | `Rule`, `Doc`, and what a rule's block has: a rule is a `Rule` | `specs/Rules.antt` |
//! | `builtin.rt` | `Func`, `Pred`, `Builtin`: the built-ins; `Arity` | |
//! | `builtin_names.rt` | their names and numbers of arguments | `specs/BuiltinNames.antt` |
//! | `keyword.rt` | `Keyword`: the words that the grammar spells | `specs/Keywords.antt` |
//! | `variables.rt` | `has_variable`: whether a variable is among some | `specs/Variables.antt` |
//! | `copying.rt` | how a tree is copied: `CopyIn`, `copy_items` | |
//! | `laws.rt` | laws of what is free, ready and in scope, and of names | `specs/Laws.antt` |
//!
//! Begin at `Doc`.
#![tactic(auto)]

mod builtin;
mod builtin_names;
mod copying;
mod keyword;
mod laws;
mod rule;
mod tree;
mod variables;

pub use builtin::{Arity, Builtin, Func, Pred};
pub use builtin_names::{func_namespace, pred_namespace};
pub use copying::{CopyIn, copy_items};
pub use keyword::{KEYWORDS, Keyword};
pub use laws::{
    builtins_are_named, functions_are_named, keywords_are_named, parts_have_what_is_free,
    predicates_are_named, readiness_grows, readiness_is_of_members, scope_is_of_members,
};
pub use rule::{Action, Decl, Doc, Rule, Target};
pub use tree::{Formula, Level, Term};
pub use variables::has_variable;
