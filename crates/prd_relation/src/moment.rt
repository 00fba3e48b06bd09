use rif_values::{Instance, Listed};

/// One state of a history: its conflict set, and the instance whose firing led to it, where one did.
///
/// Source: RIF-PRD, "Operational semantics of a production rule system" and "Conflict resolution".
#[derive(Debug, PartialEq, Eq, Drop)]
pub struct Moment {
    pub conflict_set: Listed<Instance>,
    pub pick: Option<Instance>,
}
