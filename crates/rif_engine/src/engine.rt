ghost use Rattle.std.specs.Prelude.{◌≡◌, ◌<◌, ◌++◌, ◌∷◌, List, [], IfErr, IfOk, IsTrue, None, OnErr, OnOk, Some};
ghost use Rattle.std.specs.Prelude.{vec_capacity, vec_len};
ghost use Rattle.std.specs.Option.{is_some};
ghost use Rattle.prd_relation.specs.History.{newest_facts};
ghost use Rattle.session_states.specs.declared.item.Entry.{Entry};
ghost use Rattle.session_states.specs.declared.turn.Turn.{Turn};
ghost use Rattle.rif_engine.specs.Keeping.{settled_turn};
ghost use Rattle.rif_engine.specs.SoFar.{last_act_of, MayTake, session_now, settled_run, turns_of, unsettled_turns};

use crate::settled::Settled;
use crate::standing::Standing;
use crate::steps::ending;
use rif_facts::Facts;
use rif_values::OutOfMemory;
use safe_rules::SafeDoc;
use session_states::{Act, Batch, Effect, State, Turn};
use std::alloc::Global;
use std::marker::Model;

/// An engine: a document, and a run of it so far. Contracts see the document, the batches whose turns are done, and
/// the batch whose act is owed, where one is.
///
/// A batch enters by `take_batch`, and then its act is owed until `act` settles it. After a refusal for want of memory
/// everything is as before, and the call can be made again.
///
/// Source: RIF-PRD, "Operational semantics of a production rule system"; batches are our own (docs/PROFILE.md,
/// "Turns").
#[derive(Drop)]
pub struct Engine {
    doc: SafeDoc,
    // the last one has no act while it is owed
    turns: Vec<Turn>,
    standing: Standing,
}

impl Model for Engine {
    ghost use Rattle.rif_engine.specs.Keeping.{Keeps, run_in};
    ghost use Rattle.rif_engine.specs.SoFar.{RunSoFar};
    ghost use Rattle.std.specs.Coded.{codes};
    ghost use Rattle.rif_tree.specs.contracts.tree.Formula as formula;
    ghost use Rattle.rif_tree.specs.contracts.tree.Term as term;

    ghost coded = { Prim.hlevel (codes, formula.the_row.coded, term.the_row.coded) };

    ghost Value = { RunSoFar };

    ghost view = { λ engine. run_in engine.doc engine.turns.items };

    ghost invariant = { λ engine. Keeps engine.doc engine.turns.items engine.standing };
}

impl Engine {
    /// An idle engine with no facts and no turn, at the cost of listing the instances of the empty state.
    pub fn start(alloc: Global, doc: SafeDoc) -> Result<Engine, OutOfMemory>
        ensures { IfOk result (λ engine. engine ≡ record { doc = doc; done = []; owed = None }) }
    {
        let standing = Standing::start(alloc, &doc)?;
        Ok(Engine {
            doc,
            turns: Vec::new(alloc),
            standing,
        })
    }

    /// Takes a batch, whose act is owed then. The condition is that no act is owed, that the session isn't disposed,
    /// and that an empty batch follows a firing. After want of memory the batch is handed back, and everything is as
    /// before.
    ///
    /// Where the batch has changes it costs as `Facts::apply` does, and a listing of the instances of the state
    /// before, where that state isn't listed yet.
    ///
    /// Source: our own (docs/PROFILE.md, "Turns").
    pub fn take_batch(&mut self, alloc: Global, batch: Batch) -> Result<(), (Batch, OutOfMemory)>
        requires { MayTake self.old batch }
        ensures ok { OnOk result (self.new ≡ record self.old { owed = Some batch }) }
        ensures err { OnErr result (self.new ≡ self.old) }
        ensures back { IfErr result (λ refused. refused.0 ≡ batch) }
    {
        if self.turns.reserve(1).is_err() {
            return Err((batch, OutOfMemory));
        }
        match self.standing.take(alloc, &self.doc, batch.entries()) {
            Ok(()) => {
                push_unsettled(&mut self.turns, batch);
                Ok(())
            }
            Err(none) => Err((batch, none)),
        }
    }

    /// Settles the act that is owed, and answers it. The condition is that one is owed. After want of memory it is
    /// still owed, and everything is as before.
    ///
    /// Where the session is firing it lists the instances of the newest state from scratch, if they aren't listed yet;
    /// a firing costs the evaluation of the rule's actions and `Facts::apply`.
    ///
    /// Source: RIF-PRD, "Operational semantics of a production rule system"; acts are our own (docs/PROFILE.md,
    /// "Turns").
    pub fn act(&mut self, alloc: Global) -> Result<Act, OutOfMemory>
        requires { IsTrue (is_some self.old.owed) }
        ensures ok { OnOk result (self.new ≡ settled_run self.old) }
        ensures act { IfOk result (λ act. last_act_of self.new ≡ Some act) }
        ensures err { OnErr result (self.new ≡ self.old) }
    {
        let Some(turn) = self.turns.as_slice().last() else {
            unreachable!()
        };
        let end = ending(turn.batch.entries());
        let settled = self.standing.settle(alloc, &self.doc, end)?;
        let act = settled.act;
        settle_last(&mut self.turns, settled);
        Ok(act)
    }

    /// Whether an act is owed, in constant time.
    pub fn owes(&self) -> bool
        ensures { result ≡ is_some self.now.owed }
    {
        match self.turns.as_slice().last() {
            Some(turn) => turn.act.is_none(),
            None => false,
        }
    }

    /// The act of the last turn, and None where there is no turn or an act is owed. In constant time.
    pub fn last_act(&self) -> Option<Act>
        ensures { result ≡ last_act_of self.now }
    {
        match self.turns.as_slice().last() {
            Some(turn) => turn.act,
            None => None,
        }
    }

    /// The state of the session, with the items of the batch taken whose act is owed. In constant time.
    pub fn state(&self) -> State
        ensures { result ≡ (session_now self.now).state }
    {
        self.standing.state
    }

    /// The document of `start`, in constant time.
    pub fn doc(&self) -> &SafeDoc
        ensures { result.now ≡ self.now.doc }
    {
        &self.doc
    }

    /// The turns, in constant time: those of the run of the batches, and the last one without an act while it is owed.
    pub fn turns(&self) -> &[Turn]
        ensures { result.now ≡ turns_of self.now }
    {
        self.turns.as_slice()
    }

    /// The facts of the newest state, in constant time.
    pub fn facts(&self) -> &Facts
        ensures { result.now.list ≡ newest_facts (session_now self.now).history }
    {
        &self.standing.facts
    }
}

// Puts the turn of a batch at the end, whose act is owed.
fn push_unsettled(turns: &mut Vec<Turn>, batch: Batch)
    requires { vec_len turns.old < vec_capacity turns.old }
    ensures { turns.new.items ≡ turns.old.items ++ unsettled_turns (Some batch) }
{
    match turns.push(Turn {
        batch,
        act: None,
        pick: None,
        effect: Effect::None,
    }) {
        Ok(()) => {}
        Err(_) => unreachable!(),
    }
}

// Gives the last turn its act, pick and effect.
fn settle_last(turns: &mut Vec<Turn>, settled: Settled)
    ensures { (before : List Turn) (batch : List Entry) → turns.old.items ≡ before ++ unsettled_turns (Some batch)
        → turns.new.items ≡ before ++ settled_turn batch settled ∷ [] }
{
    if let Some(turn) = turns.last_mut() {
        turn.act = Some(settled.act);
        turn.pick = settled.pick;
        turn.effect = settled.effect;
    }
}
