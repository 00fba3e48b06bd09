ghost use Rattle.std.specs.Prelude.{◌≡◌};
ghost use Rattle.rif_actions.specs.Uses.{fact_change, frame_change};

use rif_values::{Change, Const, Fact};

/// What an action does with a fact.
#[derive(Debug, Clone, Copy)]
pub enum FactUse {
    Assert,
    Retract,
}

impl FactUse {
    /// The change of the fact.
    pub fn change(self, fact: Fact) -> Change
        ensures { result ≡ fact_change self fact }
    {
        match self {
            FactUse::Assert => Change::Assert(fact),
            FactUse::Retract => Change::Retract(fact),
        }
    }
}

/// What an action does with an object's slot and a value.
#[derive(Debug, Clone, Copy)]
pub enum FrameUse {
    Fact(FactUse),
    Modify,
}

impl FrameUse {
    /// The change of the object's slot.
    pub fn change(self, object: Const, slot: Const, value: Const) -> Change
        ensures { result ≡ frame_change self object slot value }
    {
        match self {
            FrameUse::Fact(way) => way.change(Fact::Frame(object, slot, value)),
            FrameUse::Modify => Change::Modify(object, slot, value),
        }
    }
}
