ghost use Rattle.std.specs.Prelude.{◌≡◌, IfOk};

use rif_tree::{Action, CopyIn, Decl, Formula, copy_items};
use rif_values::{OutOfMemory, Text};
use sqlite_items::Items;
use std::alloc::Global;

/// A rule whose variables stand by number: its `Forall` variables first, in order of declaration, then those of its
/// `Exists` and of its block.
///
/// Source: RIF-PRD, "Rules" and "Groups"; the numbers are our own (docs/PROFILE.md, "Ready order").
#[derive(Debug, Drop)]
pub struct SafeRule {
    pub priority: i32,
    /// The name of each variable, at its number.
    pub names: Items<Text>,
    /// How many variables the rule's `Forall` declare.
    pub head_vars: u32,
    /// The conjunction of the `such that` formulas and the `If` formula, in a ready order.
    pub condition: Formula,
    pub decls: Items<Decl>,
    pub actions: Items<Action>,
}

impl SafeRule {
    /// An equal rule, at the cost of a copy of its condition and block.
    pub fn copy(&self, alloc: Global) -> Result<SafeRule, OutOfMemory>
        ensures { IfOk result (λ copy. copy ≡ self.now) }
    {
        Ok(SafeRule {
            priority: self.priority,
            names: copy_items(alloc, self.names.as_slice())?,
            head_vars: self.head_vars,
            condition: self.condition.copy(alloc)?,
            decls: copy_items(alloc, self.decls.as_slice())?,
            actions: copy_items(alloc, self.actions.as_slice())?,
        })
    }
}

impl CopyIn for SafeRule {
    fn copy_in(&self, alloc: Global) -> Result<SafeRule, OutOfMemory> {
        self.copy(alloc)
    }
}
