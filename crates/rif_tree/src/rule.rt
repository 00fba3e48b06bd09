ghost use Rattle.std.specs.Prelude.{◌≡◌, IfOk};

use crate::copying::{CopyIn, copy_items};
use crate::tree::{Formula, Level, Term};
use rif_values::{Const, OutOfMemory, Text};
use sqlite_items::Items;
use std::alloc::Global;

/// What an action asserts or retracts.
///
/// Source: RIF-PRD, "Atomic formulas".
#[derive(Debug, Drop)]
pub enum Target {
    /// A predicate and its arguments.
    Atom(Const, Items<Term>),
    /// An object, and pairs of a slot and its value.
    Frame(Term, Items<(Term, Term)>),
    /// An object and its class.
    Member(Term, Term),
}

impl Target {
    /// An equal target, at the cost of a copy of its terms.
    pub fn copy(&self, alloc: Global) -> Result<Target, OutOfMemory>
        ensures { IfOk result (λ copy. copy ≡ self.now) }
    {
        match self {
            Target::Atom(predicate, arguments) => {
                Ok(Target::Atom(predicate.copy()?, copy_items(alloc, arguments.as_slice())?))
            }
            Target::Frame(object, pairs) => {
                Ok(Target::Frame(object.copy(alloc)?, copy_items(alloc, pairs.as_slice())?))
            }
            Target::Member(object, class) => {
                Ok(Target::Member(object.copy(alloc)?, class.copy(alloc)?))
            }
        }
    }
}

/// An action of a block.
///
/// Source: RIF-PRD, "Actions"; to retract a membership is our own (docs/PROFILE.md, "Actions").
#[derive(Debug, Drop)]
pub enum Action {
    Assert(Target),
    Retract(Target),
    /// An object and a slot, all of whose values are retracted.
    RetractSlot(Term, Term),
    /// An object, all of whose frames and memberships are retracted.
    RetractObject(Term),
    /// An object, and pairs of a slot and its new value.
    Modify(Term, Items<(Term, Term)>),
}

impl Action {
    /// An equal action, at the cost of a copy of its terms.
    pub fn copy(&self, alloc: Global) -> Result<Action, OutOfMemory>
        ensures { IfOk result (λ copy. copy ≡ self.now) }
    {
        match self {
            Action::Assert(target) => Ok(Action::Assert(target.copy(alloc)?)),
            Action::Retract(target) => Ok(Action::Retract(target.copy(alloc)?)),
            Action::RetractSlot(object, slot) => {
                Ok(Action::RetractSlot(object.copy(alloc)?, slot.copy(alloc)?))
            }
            Action::RetractObject(object) => Ok(Action::RetractObject(object.copy(alloc)?)),
            Action::Modify(object, pairs) => {
                Ok(Action::Modify(object.copy(alloc)?, copy_items(alloc, pairs.as_slice())?))
            }
        }
    }
}

impl CopyIn for Action {
    fn copy_in(&self, alloc: Global) -> Result<Action, OutOfMemory> {
        self.copy(alloc)
    }
}

/// A declaration of a block: how one of its variables gets a value.
///
/// Source: RIF-PRD, "Action blocks"; that a slot with several values gives the least is our own
/// (docs/PROFILE.md, "Actions").
#[derive(Debug, Drop)]
pub enum Decl {
    /// The variable is the least value of the object's slot.
    Slot { var: u32, object: Term, slot: Term },
    /// The variable is an object made anew.
    New { var: u32 },
}

impl Decl {
    /// An equal declaration, at the cost of a copy of its terms.
    pub fn copy(&self, alloc: Global) -> Result<Decl, OutOfMemory>
        ensures { IfOk result (λ copy. copy ≡ self.now) }
    {
        match self {
            Decl::Slot { var, object, slot } => Ok(Decl::Slot {
                var: *var,
                object: object.copy(alloc)?,
                slot: slot.copy(alloc)?,
            }),
            Decl::New { var } => Ok(Decl::New { var: *var }),
        }
    }
}

impl CopyIn for Decl {
    fn copy_in(&self, alloc: Global) -> Result<Decl, OutOfMemory> {
        self.copy(alloc)
    }
}

/// A rule: its priority, the names of its variables in first-seen order, its levels from the outermost,
/// its `If` formula where it has one, and its block.
///
/// Source: RIF-PRD, "Rules" and "Groups"; a rule's priority is that of the nearest group around it that
/// gives one, else 0.
#[derive(Debug, Drop)]
pub struct Rule {
    pub priority: i32,
    pub names: Items<Text>,
    pub levels: Items<Level>,
    pub condition: Option<Formula>,
    pub decls: Items<Decl>,
    pub actions: Items<Action>,
}

impl Rule {
    /// An equal rule, at the cost of a copy of its formulas and actions.
    pub fn copy(&self, alloc: Global) -> Result<Rule, OutOfMemory>
        ensures { IfOk result (λ copy. copy ≡ self.now) }
    {
        Ok(Rule {
            priority: self.priority,
            names: copy_items(alloc, self.names.as_slice())?,
            levels: copy_items(alloc, self.levels.as_slice())?,
            condition: copy_condition(alloc, &self.condition)?,
            decls: copy_items(alloc, self.decls.as_slice())?,
            actions: copy_items(alloc, self.actions.as_slice())?,
        })
    }
}

fn copy_condition(
    alloc: Global,
    condition: &Option<Formula>,
) -> Result<Option<Formula>, OutOfMemory>
    ensures { IfOk result (λ copy. copy ≡ condition.now) }
{
    match condition {
        Some(formula) => Ok(Some(formula.copy(alloc)?)),
        None => Ok(None),
    }
}

impl CopyIn for Rule {
    fn copy_in(&self, alloc: Global) -> Result<Rule, OutOfMemory> {
        self.copy(alloc)
    }
}

/// A document: its rules, in the order of the text.
///
/// Source: RIF-PRD, "Document and imports".
#[derive(Debug, Drop)]
pub struct Doc {
    pub rules: Items<Rule>,
}

impl Doc {
    /// An equal document, at the cost of a copy of each rule.
    pub fn copy(&self, alloc: Global) -> Result<Doc, OutOfMemory>
        ensures { IfOk result (λ copy. copy ≡ self.now) }
    {
        Ok(Doc {
            rules: copy_items(alloc, self.rules.as_slice())?,
        })
    }
}
