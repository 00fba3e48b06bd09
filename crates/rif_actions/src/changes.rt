use rif_values::{Change, Listed};

/// What a rule's block is at a state of facts.
///
/// Source: RIF-PRD, "Action blocks"; void blocks are our own (docs/PROFILE.md, "Actions").
#[derive(Debug, PartialEq, Eq, Drop)]
pub enum Block {
    /// A term that it needs has no value, or no more objects can be made.
    Void,
    /// Its changes, in order, and how many objects were made, its own among them.
    Changes { list: Listed<Change>, made: u64 },
}
