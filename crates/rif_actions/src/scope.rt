use rif_values::{Const, Listed};

/// The values of the rule's variables and of the block's so far, and how many objects were made.
///
/// Source: RIF-PRD, "Action blocks"; the number of objects is our own (docs/PROFILE.md, "Actions").
#[derive(Debug, Drop)]
pub struct Scope {
    pub row: Listed<(u32, Const)>,
    pub made: u64,
}
