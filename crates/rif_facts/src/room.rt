ghost use Rattle.std.specs.Prelude.{◌≡◌, IfOk};

use crate::both_ways::BothWays;
use rif_values::{Delta, Fact, Listed, OutOfMemory};
use std::alloc::Global;
use std::marker::Model;

/// Room for a change of facts, which `Facts::reserve` makes and `Facts::commit` uses. Contracts see it as that
/// change.
///
/// Source: our own (docs/PROFILE.md, "Facts by key").
#[derive(Debug, Drop)]
pub struct Room {
    pub(crate) delta: Delta,
}

impl Model for Room {
    ghost use Rattle.rif_values.specs.declared.change.Delta.{Delta};

    ghost Value = { Delta };

    ghost view = { λ room. room.delta };
}

// What is to be put in and taken out for a change. Contracts see it as that change.
#[derive(Debug, Drop)]
pub(crate) struct Ready {
    pub(crate) added: Listed<BothWays>,
    pub(crate) removed: Listed<BothWays>,
}

impl Model for Ready {
    ghost use Rattle.rif_values.specs.declared.change.Delta.{Delta};

    ghost Value = { Delta };

    ghost view = { λ ready. record { added = ready.added; removed = ready.removed } };
}

impl Ready {
    pub(crate) fn of(alloc: Global, delta: &Delta) -> Result<Ready, OutOfMemory>
        ensures { IfOk result (λ ready. ready ≡ delta.now) }
    {
        Ok(Ready {
            added: both_ways(alloc, delta.added.as_slice())?,
            removed: both_ways(alloc, delta.removed.as_slice())?,
        })
    }
}

// Each fact, and the same turned.
pub(crate) fn both_ways(alloc: Global, facts: &[Fact]) -> Result<Listed<BothWays>, OutOfMemory>
    ensures { IfOk result (λ list. list ≡ facts.now) }
{
    let mut list = Vec::new(alloc);
    for fact in facts {
        list.push(BothWays::of(fact)?)?;
    }
    Ok(Listed::from_vec(list))
}
