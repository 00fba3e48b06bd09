//! What a walk through a rule has found so far.
use crate::mention::{Declarer, Mention};
use crate::part::{Form, Part};
use crate::sign::{Sign, next_sign};
use prd_grammar::Leaf;
use rif_values::OutOfMemory;
use std::alloc::Global;

/// A variable that holds.
#[derive(Clone, Copy)]
struct Held {
    var: u32,
    /// Which mention declares it.
    declaration: usize,
    /// How many `Not` and `Or` stand round that.
    nots: u32,
    ors: u32,
}

/// What stands round a place of a rule.
#[derive(Clone, Copy)]
pub struct Around {
    /// Which part it stands in.
    pub part: usize,
    pub nots: u32,
    pub ors: u32,
    /// Whether a value is asked for.
    pub is_asked: bool,
    pub is_in_condition: bool,
    /// Whether what stands there is a conjunct of the condition.
    pub is_conjunct: bool,
}

impl Around {
    /// The same place, where a value is asked for.
    pub fn asked(self) -> Around {
        Around {
            is_asked: true,
            ..self
        }
    }

    // What stands round the members of a part.
    fn inside(self, part: usize, form: Form) -> Around {
        Around {
            part,
            nots: self
                .nots
                .saturating_add(if form == Form::Not { 1 } else { 0 }),
            ors: self
                .ors
                .saturating_add(if form == Form::Or { 1 } else { 0 }),
            is_conjunct: self.is_conjunct && form.is_joined(),
            ..self
        }
    }
}

/// A walk through a rule and its leaves.
#[derive(Drop)]
pub struct Walk<'a> {
    leaves: &'a [Leaf],
    /// Where the next sign is looked for.
    at: usize,
    /// Whether some sign wasn't the tree's.
    is_lost: bool,
    held: Vec<Held>,
    pub mentions: Vec<Mention>,
    pub parts: Vec<Part>,
}

impl<'a> Walk<'a> {
    /// A walk that begins at a leaf.
    pub fn new(alloc: Global, leaves: &'a [Leaf], at: usize) -> Walk<'a> {
        Walk {
            leaves,
            at,
            is_lost: false,
            held: Vec::new(alloc),
            mentions: Vec::new(alloc),
            parts: Vec::new(alloc),
        }
    }

    /// Whether some sign wasn't the tree's.
    pub fn is_lost(&self) -> bool {
        self.is_lost
    }

    /// Goes past the next sign, which is to be this one, and gives its place.
    pub fn pass(&mut self, sign: Sign) -> usize {
        match next_sign(self.leaves, self.at) {
            Some((place, found)) => {
                self.is_lost = self.is_lost || found != sign;
                self.at = place.saturating_add(1);
                place
            }
            None => {
                self.is_lost = true;
                self.leaves.len()
            }
        }
    }

    // Where what begins with the next sign begins: a built-in's name stands behind `External` `(`.
    fn next_place(&self) -> usize {
        match next_sign(self.leaves, self.at) {
            Some((place, Sign::Builtin)) => place.saturating_sub(2),
            Some((place, _)) => place,
            None => self.leaves.len(),
        }
    }

    /// Opens a part that begins at the next sign, and gives what stands round its members.
    pub fn open(&mut self, form: Form, around: Around) -> Result<Around, OutOfMemory> {
        let leaf = self.next_place();
        self.open_at(form, leaf, around)
    }

    /// Opens a part that begins with the part round it.
    pub fn open_at_front(&mut self, form: Form, around: Around) -> Result<Around, OutOfMemory> {
        let leaf = match self.parts.get(around.part) {
            Some(part) => part.leaf,
            None => self.leaves.len(),
        };
        self.open_at(form, leaf, around)
    }

    fn open_at(&mut self, form: Form, leaf: usize, around: Around) -> Result<Around, OutOfMemory> {
        let place = self.parts.len();
        self.parts.push(Part {
            form,
            leaf,
            parent: around.part,
            end: place.saturating_add(1),
            is_conjunct: around.is_conjunct && !form.is_joined(),
        })?;
        Ok(around.inside(place, form))
    }

    /// Closes the part that these members stand in.
    pub fn close(&mut self, inside: Around) {
        let end = self.parts.len();
        if let Some(part) = self.parts.get_mut(inside.part) {
            part.end = end;
        }
    }

    /// How many variables hold.
    pub fn held(&self) -> usize {
        self.held.len()
    }

    /// Leaves the reach of all variables but the first so many that hold.
    pub fn leave(&mut self, held: usize) {
        let end = self.mentions.len();
        if let Some(left) = self.held.as_slice().get(held..) {
            end_reaches(self.mentions.as_mut_slice(), left, end);
        }
        self.held.truncate(held);
    }

    /// A declaration of a variable at the next sign, which holds behind it.
    pub fn declare(
        &mut self,
        var: u32,
        declarer: Declarer,
        around: Around,
    ) -> Result<(), OutOfMemory> {
        let declaration = self.mention(var, Some(declarer), around)?;
        self.hold(var, declaration, around)
    }

    /// A use of a variable at the next sign.
    pub fn use_variable(&mut self, var: u32, around: Around) -> Result<(), OutOfMemory> {
        self.mention(var, None, around)?;
        Ok(())
    }

    /// A place of a variable at the next sign: which mention it is.
    pub fn mention(
        &mut self,
        var: u32,
        declarer: Option<Declarer>,
        around: Around,
    ) -> Result<usize, OutOfMemory> {
        let place = self.mentions.len();
        let leaf = self.pass(Sign::Variable);
        let held = innermost(self.held.as_slice(), var);
        self.mentions
            .push(mention_at(var, leaf, declarer, held, around))?;
        Ok(place)
    }

    /// A variable holds from here on.
    pub fn hold(
        &mut self,
        var: u32,
        declaration: usize,
        around: Around,
    ) -> Result<(), OutOfMemory> {
        let first = self.mentions.len();
        begin_reach(self.mentions.as_mut_slice(), declaration, first);
        self.held.push(Held {
            var,
            declaration,
            nots: around.nots,
            ors: around.ors,
        })?;
        Ok(())
    }
}

fn begin_reach(mentions: &mut [Mention], declaration: usize, first: usize) {
    if let Some(mention) = mentions.get_mut(declaration) {
        mention.reach = (first, usize::MAX);
    }
}

fn end_reaches(mentions: &mut [Mention], left: &[Held], end: usize) {
    for one in left {
        if let Some(mention) = mentions.get_mut(one.declaration) {
            mention.reach.1 = end;
        }
    }
}

// The innermost declaration of a variable that holds.
fn innermost(held: &[Held], var: u32) -> Option<Held> {
    held.iter().rev().find(|one| one.var == var).copied()
}

fn mention_at(
    var: u32,
    leaf: usize,
    declarer: Option<Declarer>,
    held: Option<Held>,
    around: Around,
) -> Mention {
    let (held_by, nots, ors) = match held {
        Some(one) => (Some(one.declaration), one.nots, one.ors),
        None => (None, 0, 0),
    };
    Mention {
        var,
        leaf,
        declarer,
        held_by,
        reach: (0, 0),
        is_in_condition: around.is_in_condition,
        is_in_not: nots < around.nots,
        is_in_or: ors < around.ors,
        is_asked: around.is_asked,
    }
}
