ghost use Rattle.std.specs.Prelude.{◌≡◌, None};

use rif_values::Instance;
use session_states::{Act, Effect};

/// What a turn came to.
#[derive(Drop)]
pub struct Settled {
    pub act: Act,
    pub pick: Option<Instance>,
    pub effect: Effect,
}

impl Settled {
    /// An act that is no firing.
    pub fn unfired(act: Act) -> Settled
        ensures { result ≡ record { act = act; pick = None; effect = Effect.None } }
    {
        Settled {
            act,
            pick: None,
            effect: Effect::None,
        }
    }
}
