ghost use Rattle.std.specs.Prelude.{◌≡◌, ◌≢◌, ◌⊎◌, ◌+◌, [], false, length, true, None, Some};
ghost use Rattle.std.specs.Prelude.{IfOk, IsTrue, OnErr, OnOk};
ghost use Rattle.std.proofs.Props.{props};
ghost use Rattle.std.specs.Coded.{Coded-set};
ghost use Rattle.std.specs.Option.{is_some};
ghost use Rattle.rif_tree.specs.contracts.tree.Formula as formula;
ghost use Rattle.rif_tree.specs.contracts.tree.Term as term;
ghost use Rattle.prd_relation.specs.RuleSystem.{system_of};
ghost use Rattle.session_states.specs.Batches.{IsLawful, joined};
ghost use Rattle.session_states.specs.OpenBatches.{takes_more};
ghost use Rattle.session_states.specs.declared.state.State.TheVariants.{Disposed};
ghost use Rattle.session_states.specs.declared.turn.Act.TheVariants.{Fired, Disposed as DisposedAct};
ghost use Rattle.rif_engine.specs.SoFar.{last_act_of, MayTake, session_now, settled_run};
ghost use Rattle.rif_session.specs.Sessions.{AreFrontOfRun, batches_so_far, ends_disposed};
ghost use Rattle.rif_session.specs.Steps.{Fills};
ghost use Rattle.rif_session.specs.Fronts.{AreFrontOfRun-prop};

use crate::entering::enter;
use crate::named::Named;
use prd_relation::laws::{
    a_dispose_disposes, a_session_is_disposed_by_a_dispose, turns_stop_where_they_must,
};
use prop_list::Propagation;
use rif_engine::Engine;
use rif_values::OutOfMemory;
use session_states::{Act, OpenBatch};
use std::alloc::Global;
use std::marker::PhantomData;
use std::sync::Wait;

/// What stands behind a session's lock: the engine, the list's taker, and the entries that were taken for the next
/// batch. It keeps that the batches that entered the engine, joined, and then the entries held are exactly what the
/// taker has taken; that they are the first batches of a run; and that the taker has shut the list only where the
/// last one ends in a Dispose.
pub struct Core<L: Propagation, N: Named> {
    alloc: Global,
    pub(crate) engine: Engine,
    pub(crate) held: OpenBatch,
    pub(crate) taker: L::Taker,
    of: PhantomData<N>,
    pub ghost known: { engine.doc ≡ N.document } by { Prim.hlevel (props, Coded-set formula.the_row.coded, Coded-set term.the_row.coded) },
    pub ghost tied: { L.taken_from taker ≡ N.list },
    pub ghost same: { L.taken taker ≡ joined (batches_so_far engine) held.entries },
    pub ghost lawful: { AreFrontOfRun (system_of engine.doc) (batches_so_far engine) } by { AreFrontOfRun-prop (system_of engine.doc) (batches_so_far engine) },
    pub ghost shut: { L.has_shut taker ≡ true → ends_disposed (batches_so_far engine) ≡ true },
    pub ghost free: { held.entries ≢ [] → (engine.owed ≡ None) × ((session_now engine).state ≢ Disposed) },
}

impl<L: Propagation, N: Named> Core<L, N> {
    /// The core of an engine that has no turn and of a taker that has taken nothing. It takes no memory.
    pub fn new(alloc: Global, engine: Engine, taker: L::Taker) -> Core<L, N>
        requires engine { engine ≡ record { doc = N.document; done = []; owed = None } }
        requires taker { (L.taken_from taker ≡ N.list) × (L.taken taker ≡ []) × (L.has_shut taker ≡ false) }
        ensures engine { result.engine ≡ engine }
        ensures held { result.held.entries ≡ [] }
        ensures taker { result.taker ≡ taker }
    {
        Core {
            alloc,
            engine,
            held: OpenBatch::new(alloc),
            taker,
            of: PhantomData,
        }
    }

    /// Settles the act that is owed, and answers it. Where it disposes, the list is shut. After want of memory the
    /// act is still owed.
    ///
    /// It costs what `Engine::act` costs.
    pub(crate) fn settle(&mut self, list: &L) -> Result<Act, OutOfMemory>
        requires list { L.identity list.now ≡ N.list }
        requires owes { IsTrue (is_some self.old.engine.owed) }
        ensures ok { OnOk result (self.new.engine ≡ settled_run self.old.engine) }
        ensures act { IfOk result (λ act. last_act_of self.new.engine ≡ Some act) }
        ensures err { OnErr result (self.new.engine ≡ self.old.engine) }
        ensures held { self.new.held ≡ self.old.held }
        ensures same { (L.taken self.new.taker ≡ L.taken self.old.taker)
            × (L.nones self.new.taker ≡ L.nones self.old.taker) }
        ensures shut { IfOk result (λ act. act ≡ DisposedAct → L.has_shut self.new.taker ≡ true) }
    {
        a_dispose_disposes();
        a_session_is_disposed_by_a_dispose();
        turns_stop_where_they_must();
        let act = self.engine.act(self.alloc)?;
        shut_where_disposed(list, &mut self.taker, act);
        Ok(act)
    }

    /// Takes entries from the list for the next batch, until it is full or ends in Halt or Dispose, or the list has
    /// none just then. Room for each is made before it is taken. After want of memory those that were taken are held.
    pub(crate) fn fill<R: Wait>(&mut self, rt: &R, list: &L) -> Result<(), OutOfMemory>
        requires list { L.identity list.now ≡ N.list }
        requires settled { self.old.engine.owed ≡ None }
        requires live { (session_now self.old.engine).state ≢ Disposed }
        ensures engine { self.new.engine ≡ self.old.engine }
        ensures fills { Fills self.old.held.entries self.new.held.entries (L.taken self.old.taker)
            (L.taken self.new.taker) (L.nones self.old.taker) (L.nones self.new.taker) }
        ensures short { OnOk result (takes_more self.new.held.entries ≡ true
            → L.nones self.new.taker ≡ L.nones self.old.taker + 1) }
    {
        while self.held.takes_more() {
            if !self.take_one(rt, list)? {
                return Ok(());
            }
        }
        Ok(())
    }

    // Takes an entry where there is one, and answers whether.
    fn take_one<R: Wait>(&mut self, rt: &R, list: &L) -> Result<bool, OutOfMemory>
        requires list { L.identity list.now ≡ N.list }
        requires settled { self.old.engine.owed ≡ None }
        requires live { (session_now self.old.engine).state ≢ Disposed }
        requires takes { takes_more self.old.held.entries ≡ true }
        ensures engine { self.new.engine ≡ self.old.engine }
        ensures fills { Fills self.old.held.entries self.new.held.entries (L.taken self.old.taker)
            (L.taken self.new.taker) (L.nones self.old.taker) (L.nones self.new.taker) }
        ensures took { IfOk result (λ took. took ≡ true → (L.nones self.new.taker ≡ L.nones self.old.taker)
            × (length self.new.held.entries ≡ length self.old.held.entries + 1)) }
        ensures none { IfOk result (λ took. took ≡ false → L.nones self.new.taker ≡ L.nones self.old.taker + 1) }
    {
        self.held.reserve()?;
        match list.next(rt, &mut self.taker) {
            None => Ok(false),
            Some(entry) => match self.held.add(entry) {
                Ok(()) => Ok(true),
                Err(_) => unreachable!(),
            },
        }
    }

    /// Whether the entries held may enter as a batch: there are some, or the last act is Fired. In constant time.
    pub(crate) fn may_enter(&self) -> bool
        ensures lawful { IsLawful self.now.held.entries }
        ensures enters { result ≡ true → (last_act_of self.now.engine ≡ Some Fired) ⊎ (self.now.held.entries ≢ []) }
        ensures rests { result ≡ false → (last_act_of self.now.engine ≢ Some Fired) × (self.now.held.entries ≡ []) }
    {
        let is_empty = self.held.entries().is_empty();
        match self.engine.last_act() {
            Some(act) if act == Act::Fired => true,
            Some(_) | None => !is_empty,
        }
    }

    /// Enters the entries held as a batch, whose act is owed then. After want of memory they are still held.
    ///
    /// It costs what `Engine::take_batch` costs.
    pub(crate) fn enter(&mut self) -> Result<(), OutOfMemory>
        requires may { MayTake self.old.engine self.old.held.entries }
        requires lawful { IsLawful self.old.held.entries }
        ensures taker { self.new.taker ≡ self.old.taker }
        ensures ok { OnOk result (self.new.engine ≡ record self.old.engine { owed = Some self.old.held.entries }) }
        ensures none_held { OnOk result (self.new.held.entries ≡ []) }
        ensures err { OnErr result (self.new.engine ≡ self.old.engine) }
    {
        a_dispose_disposes();
        a_session_is_disposed_by_a_dispose();
        turns_stop_where_they_must();
        enter(self.alloc, &mut self.engine, &mut self.held)
    }

    /// The engine and the taker, of a core that holds no entry.
    pub(crate) fn open(self) -> (Global, Engine, L::Taker)
        ensures { (result.1 ≡ self.engine) × (result.2 ≡ self.taker) }
    {
        let Core {
            alloc,
            engine,
            held: _,
            taker,
            of: _,
        } = self;
        (alloc, engine, taker)
    }
}

// Shuts the list after a Dispose.
fn shut_where_disposed<L: Propagation>(list: &L, taker: &mut L::Taker, act: Act)
    requires { L.taken_from taker.old ≡ L.identity list.now }
    ensures same { (L.taken_from taker.new ≡ L.taken_from taker.old) × (L.taken taker.new ≡ L.taken taker.old)
        × (L.nones taker.new ≡ L.nones taker.old) }
    ensures shut { act ≡ DisposedAct → L.has_shut taker.new ≡ true }
    ensures other { L.has_shut taker.new ≡ true → (act ≡ DisposedAct) ⊎ (L.has_shut taker.old ≡ true) }
{
    if act == Act::Disposed {
        list.shut(taker);
    }
}
