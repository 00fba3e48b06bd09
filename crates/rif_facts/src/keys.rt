use rif_values::Const;

/// Some of a fact's constants, by which facts are found.
///
/// Source: our own (docs/PROFILE.md, "Facts by key").
#[derive(Debug, PartialEq, Eq, Drop)]
pub enum Key {
    /// The atoms of a predicate, whatever the number of their arguments.
    Predicate(Const),
    /// The frames of a slot.
    Slot(Const),
    /// The frames of an object and a slot.
    ObjectSlot(Const, Const),
    /// The frames and memberships of an object.
    Object(Const),
    /// The memberships of a class.
    Class(Const),
    /// All frames.
    Frames,
    /// All memberships.
    Members,
}
