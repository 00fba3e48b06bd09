ghost use Rattle.std.specs.Prelude.{◌≡◌, ◌≢◌, ◌∷◌, ◌++◌, [], List, IfOk, None, OnOk, Some, false, true};
ghost use Rattle.session_states.specs.Batches.{AreLawfulBatches, IsLawful};
ghost use Rattle.session_states.specs.declared.item.Entry.{Entry};
ghost use Rattle.session_states.specs.declared.turn.Act.TheVariants.{Fired};
ghost use Rattle.prd_relation.specs.RuleSystem.{system_of};
ghost use Rattle.prd_relation.specs.Runs.{fires, IsReplay};
ghost use Rattle.rif_engine.specs.Replaying.{IsReplayed};
ghost use Rattle.rif_engine.specs.SoFar.{last_act_of, MayTake, session_before};

use crate::engine::Engine;
use prd_relation::laws::{
    a_firing_disposes_of_nothing, a_session_is_disposed_by_a_dispose, turns_stop_where_they_must,
};
use rif_values::OutOfMemory;
use safe_rules::SafeDoc;
use session_states::{Act, Batch};
use std::alloc::Global;
use std::collections::VecDeque;

/// The engine that has run some batches, with an empty batch after each firing. The condition is that each batch is
/// lawful, none is empty, and none stands behind one that ends in a Dispose.
///
/// It costs what `Engine::take_batch` and `Engine::act` cost for each turn.
///
/// Source: RIF-PRD, "Operational semantics of a production rule system"; batches are our own (docs/PROFILE.md,
/// "Replay").
pub fn replay(alloc: Global, doc: SafeDoc, batches: Vec<Batch>) -> Result<Engine, OutOfMemory>
    requires { AreLawfulBatches batches.items }
    ensures { IfOk result (λ engine. (all : List (List Entry)) × IsReplay (system_of doc) batches.items all
        × (engine ≡ record { doc = doc; done = all; owed = None })) }
{
    let mut left = VecDeque::from_vec(batches);
    let mut engine = Engine::start(alloc, doc)?;
    while let Some(batch) = left.pop_front() {
        make_turns(alloc, batch, &mut engine)?;
    }
    Ok(engine)
}

// Makes the turn of a batch, and those of empty batches while the last one fired.
fn make_turns(alloc: Global, batch: Batch, engine: &mut Engine) -> Result<(), OutOfMemory>
    requires { MayTake engine.old batch }
    ensures doc { OnOk result (engine.new.doc ≡ engine.old.doc) }
    ensures replayed { (given left : List (List Entry)) → IsReplayed given (batch ∷ left) false engine.old
        → OnOk result (IsReplayed given left false engine.new) }
{
    a_session_is_disposed_by_a_dispose();
    turns_stop_where_they_must();
    let mut fired = make_turn(alloc, batch, engine)?;
    while fired {
        fired = make_turn(alloc, Batch::new(alloc), engine)?;
    }
    Ok(())
}

// Makes one turn, and answers whether it fired.
fn make_turn(alloc: Global, batch: Batch, engine: &mut Engine) -> Result<bool, OutOfMemory>
    requires { MayTake engine.old batch }
    ensures done { OnOk result (engine.new ≡ record engine.old { done = engine.old.done ++ batch ∷ [] }) }
    ensures fired { IfOk result
        (λ fired. fired ≡ fires (system_of engine.old.doc) (session_before engine.old) batch) }
    ensures next { IfOk result (λ fired. fired ≡ true → MayTake engine.new []) }
{
    a_firing_disposes_of_nothing();
    match engine.take_batch(alloc, batch) {
        Ok(()) => {}
        Err((_, none)) => return Err(none),
    }
    let act = engine.act(alloc)?;
    Ok(act == Act::Fired)
}
