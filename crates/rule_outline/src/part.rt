//! Parts of a rule's conditions.

/// What a part is.
#[derive(Clone, Copy, Debug, PartialEq, Eq)]
pub enum Form {
    /// All conditions of the rule together.
    Condition,
    /// One `such that` formula.
    SuchThat,
    /// The formula behind `If`.
    If,
    And,
    Or,
    Not,
    Exists,
    /// A frame, whose slots are parts of it.
    Frame,
    /// A slot of a frame.
    Slot,
    /// An atom or a membership.
    Pattern,
    Equality,
    Predicate,
}

impl Form {
    /// Whether its members are conjuncts of what it stands in.
    pub fn is_joined(self) -> bool {
        match self {
            Form::Condition | Form::SuchThat | Form::If | Form::And | Form::Frame => true,
            _ => false,
        }
    }
}

/// A part of a rule's conditions.
#[derive(Clone, Copy, Debug)]
pub struct Part {
    pub form: Form,
    /// Which leaf it begins with.
    pub leaf: usize,
    /// Which part it stands in; the first one, the condition, in itself.
    pub parent: usize,
    /// Which part is the first behind all that stand in it.
    pub end: usize,
    /// Whether it is one of the conjuncts of the condition.
    pub is_conjunct: bool,
}
