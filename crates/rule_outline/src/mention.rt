//! Places where variables stand.

/// What declares a variable.
#[derive(Clone, Copy, Debug, PartialEq, Eq)]
pub enum Declarer {
    Forall,
    Exists,
    Block,
}

/// A place where a variable stands in a rule.
#[derive(Clone, Copy, Debug)]
pub struct Mention {
    /// The variable, as its place in the rule's names.
    pub var: u32,
    /// Which leaf it is.
    pub leaf: usize,
    /// What declares it there; a use has none.
    pub declarer: Option<Declarer>,
    /// Which mention declares the variable of this name that holds there.
    pub held_by: Option<usize>,
    /// From which mention on a variable that is declared here holds, and up to which.
    pub reach: (usize, usize),
    /// Whether it stands in a condition, and not in the block.
    pub is_in_condition: bool,
    /// Whether a `Not` stands between it and what declares it.
    pub is_in_not: bool,
    /// Whether an `Or` stands between it and what declares it.
    pub is_in_or: bool,
    /// Whether it stands where a value is asked for: in a built-in's call or in an equality.
    pub is_asked: bool,
}

impl Mention {
    /// Whether it uses the variable that this mention declares.
    pub fn is_use_of(&self, declaration: usize) -> bool {
        self.declarer.is_none() && self.held_by == Some(declaration)
    }

    /// Whether what it declares holds at a mention.
    pub fn reaches(&self, mention: usize) -> bool {
        let (first, end) = self.reach;
        first <= mention && mention < end
    }
}
