//! The leaves that a walk through a rule goes by: each stands for one node of the tree, in the order of the text.
use prd_grammar::Leaf;
use rif_tree::Keyword;

/// What a leaf stands for in the tree.
#[derive(Clone, Copy, Debug, PartialEq, Eq)]
pub enum Sign {
    Variable,
    Constant,
    Builtin,
    And,
    Or,
    Not,
    Exists,
}

/// What a leaf stands for; the others stand for no node.
pub fn sign_of(leaf: &Leaf) -> Option<Sign> {
    match leaf {
        Leaf::Var(_) => Some(Sign::Variable),
        Leaf::Int(_)
        | Leaf::Str(_)
        | Leaf::Typed(_)
        | Leaf::Iri(_)
        | Leaf::Curie(_)
        | Leaf::Local(_)
        | Leaf::Key(Keyword::True | Keyword::False) => Some(Sign::Constant),
        Leaf::Builtin(_) => Some(Sign::Builtin),
        Leaf::Key(Keyword::And) => Some(Sign::And),
        Leaf::Key(Keyword::Or) => Some(Sign::Or),
        Leaf::Key(Keyword::Not | Keyword::INeg) => Some(Sign::Not),
        Leaf::Key(Keyword::Exists) => Some(Sign::Exists),
        _ => None,
    }
}

/// The first sign from a place on, and its place.
pub fn next_sign(leaves: &[Leaf], from: usize) -> Option<(usize, Sign)> {
    let rest = leaves.get(from..)?;
    for (place, leaf) in rest.iter().enumerate() {
        if let Some(sign) = sign_of(leaf) {
            return Some((from.saturating_add(place), sign));
        }
    }
    None
}

/// Where the rule of a number, counted from 1, begins.
pub fn start_of_rule(leaves: &[Leaf], number: u32) -> Option<usize> {
    let mut begun = 0u32;
    let mut is_inside = false;
    for (place, leaf) in leaves.iter().enumerate() {
        if !is_inside && begins_rule(leaf) {
            begun = begun.saturating_add(1);
            if begun == number {
                return Some(place);
            }
        }
        is_inside = is_inside_behind(is_inside, leaf);
    }
    None
}

fn begins_rule(leaf: &Leaf) -> bool {
    match leaf {
        Leaf::Key(Keyword::Forall | Keyword::If | Keyword::Do) => true,
        _ => false,
    }
}

// Whether a rule goes on behind a leaf with one that could begin another: up to its `Do` it does.
fn is_inside_behind(is_inside: bool, leaf: &Leaf) -> bool {
    match leaf {
        Leaf::Key(Keyword::Forall | Keyword::If) => true,
        Leaf::Key(Keyword::Do) => false,
        _ => is_inside,
    }
}
