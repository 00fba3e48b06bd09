ghost use Rattle.std.specs.Prelude.{◌≡◌, IfOk};
ghost use Rattle.safe_rules.specs.SafeRules.{AreSafe};

use crate::safe_rule::SafeRule;
use rif_tree::copy_items;
use rif_values::OutOfMemory;
use sqlite_items::Items;
use std::alloc::Global;
use std::marker::Model;

/// A document of safe rules, in the order of the text. Contracts see it as the list of its rules.
///
/// Source: RIF-PRD, "Safeness"; that conditions stand in a ready order is our own (docs/PROFILE.md, "Ready order").
#[derive(Debug, Drop)]
pub struct SafeDoc {
    rules: Items<SafeRule>,
}

impl Model for SafeDoc {
    ghost use Rattle.std.specs.Prelude.{List};
    ghost use Rattle.safe_rules.specs.declared.safe_rule.SafeRule.{SafeRule};
    ghost use Rattle.safe_rules.specs.SafeRules.{AreSafe};
    ghost use Rattle.std.specs.Coded.{codes};
    ghost use Rattle.rif_tree.specs.contracts.tree.Formula as formula;
    ghost use Rattle.rif_tree.specs.contracts.tree.Term as term;

    ghost coded = { Prim.hlevel (codes, formula.the_row.coded, term.the_row.coded) };

    ghost Value = { List SafeRule };

    ghost view = { λ doc. doc.rules };

    ghost invariant = { λ doc. AreSafe doc.rules };

    ghost inverse = { λ rules. record { rules = rules } };
}

impl SafeDoc {
    /// The document of these rules, each of which is safe, in constant time and without memory.
    pub fn of_rules(rules: Items<SafeRule>) -> SafeDoc
        requires { AreSafe rules }
        ensures { result ≡ rules }
    {
        SafeDoc { rules }
    }

    /// The rules, in the order of the text, in constant time. Each is safe.
    pub fn rules(&self) -> &[SafeRule]
        ensures rules { result.now ≡ self.now }
        ensures safe { AreSafe self.now }
    {
        self.rules.as_slice()
    }

    /// An equal document, at the cost of a copy of each rule.
    pub fn copy(&self, alloc: Global) -> Result<SafeDoc, OutOfMemory>
        ensures { IfOk result (λ copy. copy ≡ self.now) }
    {
        let rules = copy_items(alloc, self.rules.as_slice())?;
        Ok(SafeDoc::of_rules(rules))
    }
}
