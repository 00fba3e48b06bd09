ghost use Rattle.std.specs.Prelude.{◌≡◌, ◌≢◌, ◌⊎◌, ◌+◌, [], IfOk, IfSome, None, Some, true};
ghost use Rattle.session_states.specs.declared.state.State.TheVariants.{Disposed as DisposedState};
ghost use Rattle.session_states.specs.declared.turn.Act.TheVariants.{Fired, Disposed as DisposedAct};
ghost use Rattle.rif_engine.specs.SoFar.{last_act_of, session_now};
ghost use Rattle.rif_session.specs.Passes.{IfActed, IsBusy, IsIdle, Passes};
ghost use Rattle.rif_session.specs.Steps.{Advances, WasBusy};
ghost use Rattle.rif_session.specs.declared.passing.Rest.TheVariants.{Nothing};

use crate::gate::Gate;
use crate::named::Named;
use crate::session_core::Core;
use prd_relation::laws::{a_firing_disposes_of_nothing, turns_stop_where_they_must};
use prop_list::Propagation;
use rif_values::OutOfMemory;
use session_states::{Act, State};
use std::sync::Wait;

/// How a pass ended.
#[derive(Clone, Copy, Debug, PartialEq, Eq)]
pub enum Rest {
    /// There was nothing to do.
    Nothing,
    /// The act that ended it, which isn't Fired.
    Acted(Act),
}

/// Settles the act that is owed, and then takes batches from the list and settles their acts, until the first act
/// that isn't Fired; answers that act, or that there was nothing to do. It waits where the list does.
///
/// A batch is what `next` gives until None, 1,024 entries, a Halt or a Dispose; room for each entry is made before it
/// is taken. Before each turn is added the gate is told. Where an act disposes, the list is shut. After want of
/// memory what was taken is kept, and a later pass goes on.
///
/// The cost grows with the entries that are taken and with the firings, as `Engine::take_batch` and `Engine::act` do;
/// beside these it is constant.
pub fn pass<L: Propagation, N: Named, G: Gate, R: Wait>(
    rt: &R,
    core: &mut Core<L, N>,
    list: &L,
    gate: &G,
) -> Result<Rest, OutOfMemory>
    requires { L.identity list.now ≡ N.list }
    ensures passes { Passes core.old.engine core.new.engine core.old.held.entries (L.taken core.old.taker)
        (L.taken core.new.taker) (L.nones core.old.taker) (L.nones core.new.taker) }

    // Nothing is answered exactly where no act was owed, and the session is disposed, or it was idle and the first
    // `next` found nothing.
    ensures nothing { IfOk result (λ rest. rest ≡ Nothing → (core.old.engine.owed ≡ None)
        × (core.new.engine ≡ core.old.engine) × (core.new.held.entries ≡ core.old.held.entries)
        × (L.taken core.new.taker ≡ L.taken core.old.taker)
        × ((((session_now core.old.engine).state ≡ DisposedState) × (L.nones core.new.taker ≡ L.nones core.old.taker))
        ⊎ (IsIdle core.old.engine core.old.held.entries × (L.nones core.new.taker ≡ L.nones core.old.taker + 1)))) }
    ensures something { IfOk result (λ rest. rest ≢ Nothing → IsBusy core.old.engine core.old.held.entries
        (L.taken core.old.taker) (L.taken core.new.taker)) }
    ensures acted { IfOk result (λ rest. IfActed rest (λ act. (act ≢ Fired) × (core.new.engine.owed ≡ None)
        × (last_act_of core.new.engine ≡ Some act) × (core.new.held.entries ≡ [])
        × (act ≡ DisposedAct → L.has_shut core.new.taker ≡ true))) }
{
    for _ in rt.forever() {
        let Some(act) = step(rt, core, list, gate)? else {
            return Ok(Rest::Nothing);
        };
        if act != Act::Fired {
            return Ok(Rest::Acted(act));
        }
    }
    unreachable!()
}

// Settles the act that is owed, or else takes a batch and settles its act; None where there is nothing to do.
fn step<L: Propagation, N: Named, G: Gate, R: Wait>(
    rt: &R,
    core: &mut Core<L, N>,
    list: &L,
    gate: &G,
) -> Result<Option<Act>, OutOfMemory>
    requires { L.identity list.now ≡ N.list }
    ensures passes { Passes core.old.engine core.new.engine core.old.held.entries (L.taken core.old.taker)
        (L.taken core.new.taker) (L.nones core.old.taker) (L.nones core.new.taker) }
    ensures fired { result ≡ Ok (Some Fired) → Advances core.old.engine core.new.engine core.old.held.entries
        core.new.held.entries (L.taken core.old.taker) (L.taken core.new.taker) (L.nones core.old.taker)
        (L.nones core.new.taker) }
    ensures nothing { result ≡ Ok None → (core.old.engine.owed ≡ None)
        × (last_act_of core.old.engine ≢ Some Fired)
        × (core.new.engine ≡ core.old.engine) × (core.new.held.entries ≡ core.old.held.entries)
        × (L.taken core.new.taker ≡ L.taken core.old.taker)
        × ((((session_now core.old.engine).state ≡ DisposedState) × (L.nones core.new.taker ≡ L.nones core.old.taker))
        ⊎ ((core.old.held.entries ≡ []) × (L.nones core.new.taker ≡ L.nones core.old.taker + 1))) }
    ensures acted { IfOk result (λ found. IfSome found (λ act. (core.new.engine.owed ≡ None)
        × (last_act_of core.new.engine ≡ Some act) × (core.new.held.entries ≡ [])
        × (act ≡ DisposedAct → L.has_shut core.new.taker ≡ true)
        × WasBusy core.old.engine core.old.held.entries (L.taken core.old.taker) (L.taken core.new.taker))) }
{
    a_firing_disposes_of_nothing();
    turns_stop_where_they_must();
    if core.engine.owes() {
        return Ok(Some(core.settle(list)?));
    }
    if core.engine.state() == State::Disposed {
        return Ok(None);
    }
    turn(rt, core, list, gate)
}

// Takes a batch and settles its act; None where the list has no entry and none may enter.
fn turn<L: Propagation, N: Named, G: Gate, R: Wait>(
    rt: &R,
    core: &mut Core<L, N>,
    list: &L,
    gate: &G,
) -> Result<Option<Act>, OutOfMemory>
    requires list { L.identity list.now ≡ N.list }
    requires settled { core.old.engine.owed ≡ None }
    requires live { (session_now core.old.engine).state ≢ DisposedState }
    ensures passes { Passes core.old.engine core.new.engine core.old.held.entries (L.taken core.old.taker)
        (L.taken core.new.taker) (L.nones core.old.taker) (L.nones core.new.taker) }
    ensures fired { result ≡ Ok (Some Fired) → Advances core.old.engine core.new.engine core.old.held.entries
        core.new.held.entries (L.taken core.old.taker) (L.taken core.new.taker) (L.nones core.old.taker)
        (L.nones core.new.taker) }
    ensures nothing { result ≡ Ok None → (last_act_of core.old.engine ≢ Some Fired)
        × (core.new.engine ≡ core.old.engine) × (core.new.held.entries ≡ core.old.held.entries)
        × (L.taken core.new.taker ≡ L.taken core.old.taker)
        × (core.old.held.entries ≡ []) × (L.nones core.new.taker ≡ L.nones core.old.taker + 1) }
    ensures acted { IfOk result (λ found. IfSome found (λ act. (core.new.engine.owed ≡ None)
        × (last_act_of core.new.engine ≡ Some act) × (core.new.held.entries ≡ [])
        × (act ≡ DisposedAct → L.has_shut core.new.taker ≡ true)
        × WasBusy core.old.engine core.old.held.entries (L.taken core.old.taker) (L.taken core.new.taker))) }
{
    turns_stop_where_they_must();
    core.fill(rt, list)?;
    if !core.may_enter() {
        return Ok(None);
    }
    gate.between(&core.engine);
    core.enter()?;
    Ok(Some(core.settle(list)?))
}
