/// What a history says of an instance: its age in states, from 1 where the newest conflict set has it, and
/// whether it is refracted.
///
/// Source: RIF-PRD, "Conflict resolution", rif:forwardChaining: refraction and recency.
#[derive(Clone, Copy, Debug, PartialEq, Eq)]
pub struct Mark {
    pub age: u64,
    pub refracted: bool,
}
