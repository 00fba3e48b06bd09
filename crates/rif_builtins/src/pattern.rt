use rif_tree::Term;
use rif_values::Const;
use sqlite_items::Items;

/// A pattern of a condition: what is matched against one fact.
///
/// Source: RIF-PRD, "Matching substitution"; a frame stands for its slots.
#[derive(Debug, Drop)]
pub enum Pattern {
    /// A predicate and its arguments.
    Atom(Const, Items<Term>),
    /// An object, a slot and its value.
    Slot(Term, Term, Term),
    /// An object and its class.
    Member(Term, Term),
}
