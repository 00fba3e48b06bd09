ghost use Rattle.std.specs.Prelude.{◌≡◌, ◌≤◌, ◌^◌};

use crate::listing::Listing;
use crate::settled::Settled;
use crate::steps::{block_of_instance, changes_of, do_block, made_after, state_after};
use rif_facts::Facts;
use rif_values::{Instance, OutOfMemory};
use safe_rules::SafeDoc;
use session_states::{Act, Entry, State};
use std::alloc::Global;

/// What stands between two turns, and while an act is owed.
#[derive(Drop)]
pub struct Standing {
    pub state: State,
    pub facts: Facts,
    pub listing: Listing,
    /// How many objects were made.
    pub made: u64,
    ghost few: { made ≤ 2 ^ 63 },
}

impl Standing {
    ghost use Rattle.std.specs.Prelude.{◌≡◌, ◌≤◌, ◌^◌, IfOk, None, OnErr, OnOk};
    ghost use Rattle.session_states.specs.declared.turn.Effect.TheVariants.{None as NoEffect};
    ghost use Rattle.prd_relation.specs.Choice.{chosen_instance};
    ghost use Rattle.prd_relation.specs.History.{moments_of};
    ghost use Rattle.prd_relation.specs.RuleSystem.{system_of};
    ghost use Rattle.prd_relation.specs.Turns.{Session, block_at, first_session, firing_of, outcome_after, outcome_in};
    ghost use Rattle.prd_relation.specs.Turns.{session_with};
    ghost use Rattle.rif_engine.specs.Standing.{Settles, Shows};

    /// An idle session with no facts.
    pub fn start(alloc: Global, doc: &SafeDoc) -> Result<Standing, OutOfMemory>
        ensures { IfOk result (λ standing. Shows (system_of doc.now) standing first_session) }
    {
        Ok(Standing {
            state: State::Idle,
            facts: Facts::new(alloc),
            listing: Listing::start(alloc, doc)?,
            made: 0,
        })
    }

    /// Takes the items of a batch in order. After want of memory it stands for the same session as before.
    pub fn take(&mut self, alloc: Global, doc: &SafeDoc, batch: &[Entry]) -> Result<(), OutOfMemory>
        ensures ok { (s : Session) → Shows (system_of doc.now) self.old s
            → OnOk result (Shows (system_of doc.now) self.new (session_with s batch.now)) }
        ensures err { (s : Session) → Shows (system_of doc.now) self.old s
            → OnErr result (Shows (system_of doc.now) self.new s) }
    {
        let changes = changes_of(alloc, batch)?;
        if !changes.is_empty() {
            self.listing.list_newest(alloc, doc, &self.facts)?;
            self.facts.apply(alloc, changes.as_slice())?;
            self.listing.note(None);
        }
        self.state = state_after(self.state, batch);
        Ok(())
    }

    /// Settles the act, which the end of the batch may have fixed. After want of memory it stands for the same session
    /// as before.
    pub fn settle(
        &mut self,
        alloc: Global,
        doc: &SafeDoc,
        ending: Option<Act>,
    ) -> Result<Settled, OutOfMemory>
        ensures settles { (s : Session) → Shows (system_of doc.now) self.old s
            → IfOk result (λ settled. Settles settled (outcome_after (system_of doc.now) ending s)) }
        ensures ok { (s : Session) → Shows (system_of doc.now) self.old s
            → OnOk result (Shows (system_of doc.now) self.new (outcome_after (system_of doc.now) ending s).session) }
        ensures err { (s : Session) → Shows (system_of doc.now) self.old s
            → OnErr result (Shows (system_of doc.now) self.new s) }
    {
        match ending {
            Some(act) => Ok(Settled::unfired(act)),
            None => self.act(alloc, doc),
        }
    }

    fn act(&mut self, alloc: Global, doc: &SafeDoc) -> Result<Settled, OutOfMemory>
        ensures settles { (s : Session) → Shows (system_of doc.now) self.old s
            → IfOk result (λ settled. Settles settled
            (outcome_in (system_of doc.now) s s.state
            (chosen_instance (system_of doc.now) (moments_of (system_of doc.now) s.history)))) }
        ensures ok { (s : Session) → Shows (system_of doc.now) self.old s
            → OnOk result (Shows (system_of doc.now) self.new
            (outcome_in (system_of doc.now) s s.state
            (chosen_instance (system_of doc.now) (moments_of (system_of doc.now) s.history))).session) }
        ensures err { (s : Session) → Shows (system_of doc.now) self.old s
            → OnErr result (Shows (system_of doc.now) self.new s) }
    {
        match self.state {
            State::Idle => Ok(Settled::unfired(Act::Idle)),
            State::Disposed => Ok(Settled::unfired(Act::Disposed)),
            State::Firing(left) => match self.listing.chosen(alloc, doc, &self.facts)? {
                Some(instance) if left > 0 => {
                    self.fire(alloc, doc, instance, State::Firing(left - 1))
                }
                Some(_) => Ok(self.stop(Act::StoppedLimit)),
                None => Ok(self.stop(Act::StoppedQuiet)),
            },
            State::UntilHalt(budget) => match self.listing.chosen(alloc, doc, &self.facts)? {
                Some(instance) if budget > 0 => {
                    self.fire(alloc, doc, instance, State::UntilHalt(budget - 1))
                }
                Some(_) => Ok(self.stop(Act::StoppedLimit)),
                None => Ok(Settled::unfired(Act::Resting)),
            },
        }
    }

    fn stop(&mut self, act: Act) -> Settled
        ensures settled { result ≡ record { act = act; pick = None; effect = NoEffect } }
        ensures stopped { self.new ≡ record self.old { state = State.Idle } }
    {
        self.state = State::Idle;
        Settled::unfired(act)
    }

    // Fires an instance that was chosen in the newest state, which is listed.
    fn fire(
        &mut self,
        alloc: Global,
        doc: &SafeDoc,
        instance: Instance,
        next: State,
    ) -> Result<Settled, OutOfMemory>
        requires { self.old.listing.unlisted ≡ None }
        ensures settles { (s : Session) → Shows (system_of doc.now) self.old s
            → IfOk result (λ settled. Settles settled
            (firing_of s next instance (block_at (system_of doc.now) s instance))) }
        ensures ok { (s : Session) → Shows (system_of doc.now) self.old s
            → OnOk result (Shows (system_of doc.now) self.new
            (firing_of s next instance (block_at (system_of doc.now) s instance)).session) }
        ensures err { (s : Session) → Shows (system_of doc.now) self.old s
            → OnErr result (Shows (system_of doc.now) self.new s) }
    {
        let picked = instance.copy()?;
        let block = block_of_instance(alloc, doc, &instance, &self.facts, self.made)?;
        let effect = do_block(alloc, &mut self.facts, &block)?;
        self.listing.note(Some(picked));
        self.state = next;
        self.made = made_after(self.made, &block);
        Ok(Settled {
            act: Act::Fired,
            pick: Some(instance),
            effect,
        })
    }
}
