//! The values, the document's tree, the refusals and the sets that every layer speaks of, under one name.
//!
//! Each stands in a crate of its own, so that the layers above wait for no more than they use: rif_values,
//! rif_sets, rif_tree and rif_refusals. Here are their public names together, and their tests.
#![tactic(auto)]

pub use rif_refusals::{Counted, Fault, Refusal, limits, limits_are_the_stated_ones};
pub use rif_sets::{find_in_set, set_laws, sorted_set};
pub use rif_tree::{
    Action, Arity, Builtin, Decl, Doc, Formula, Func, KEYWORDS, Keyword, Level, Pred, Rule, Target,
    Term, func_namespace, has_variable, pred_namespace,
};
pub use rif_values::{
    Binding, Change, Const, Delta, Fact, GREATEST_INTEGER, Instance, Integer, LEAST_INTEGER,
    Listed, OutOfMemory, RowDelta, Shared, Text, are_same, derived_orders_are_the_stated_ones, nth,
    orders_are_total, orders_tell_all_apart, pairs_with, push_const, push_fact, write_const,
    write_fact,
};

#[cfg(test)]
mod tests;
