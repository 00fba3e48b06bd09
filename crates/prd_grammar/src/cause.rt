use rif_refusals::{Counted, Refusal};

/// Why a document is refused at a place.
///
/// Source: our own (docs/FORMATS.md, "Refusals").
#[derive(Clone, Copy)]
pub enum Cause {
    Expected,
    TooDeep,
    IntRange,
    UnknownPrefix,
    LeftOut,
    UnknownBuiltin,
    Arity,
    BadStrategy,
    PriorityRange,
    TooMany(Counted),
}
