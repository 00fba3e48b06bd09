ghost use Rattle.std.specs.Prelude.{◌≡◌, IfOk};
ghost use Rattle.rif_facts.specs.Marks.{turned, turned_if_any};

use rif_values::{Fact, OutOfMemory};
use std::marker::Model;

// A fact, and the same with its first two places exchanged, where it is a frame or a membership. Contracts see it
// as the fact.
#[derive(Debug, Drop)]
pub(crate) struct BothWays {
    pub(crate) fact: Fact,
    pub(crate) turned: Option<Fact>,
}

impl Model for BothWays {
    ghost use Rattle.std.specs.Prelude.{◌≡◌};
    ghost use Rattle.rif_values.specs.declared.fact.Fact.{Fact};
    ghost use Rattle.rif_facts.specs.Marks.{turned_if_any};

    ghost Value = { Fact };

    ghost view = { λ both. both.fact };

    ghost invariant = { λ both. both.turned ≡ turned_if_any both.fact };
}

impl BothWays {
    // A copy of a fact, and the same turned.
    pub(crate) fn of(fact: &Fact) -> Result<BothWays, OutOfMemory>
        ensures { IfOk result (λ both. both ≡ fact.now) }
    {
        let turned = match fact {
            Fact::Atom(_, _) => None,
            _ => Some(turned_copy(fact)?),
        };
        Ok(BothWays {
            fact: fact.copy()?,
            turned,
        })
    }
}

// A copy of a fact with its first two places exchanged.
pub(crate) fn turned_copy(fact: &Fact) -> Result<Fact, OutOfMemory>
    ensures { IfOk result (λ copy. copy ≡ turned fact.now) }
{
    match fact {
        Fact::Atom(_, _) => fact.copy(),
        Fact::Frame(object, slot, value) => {
            Ok(Fact::Frame(slot.copy()?, object.copy()?, value.copy()?))
        }
        Fact::Member(object, class) => Ok(Fact::Member(class.copy()?, object.copy()?)),
    }
}
