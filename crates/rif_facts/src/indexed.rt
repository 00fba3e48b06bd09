ghost use Rattle.std.specs.Prelude.{◌≡◌, ◌&&◌, [], length, filter, map, is_some, IfOk, IfSome, OnOk, OnErr};
ghost use Rattle.std.specs.Prelude.{true, false, Some, None, if◌then◌else◌};
ghost use Rattle.rif_values.specs.declared.fact.Fact.{Fact};
ghost use Rattle.rif_values.specs.Facts.{IsFacts, has_fact, same_fact, is_about};
ghost use Rattle.rif_facts.specs.Keys.{is_candidate};
ghost use Rattle.rif_facts.specs.Marks.{mark_at, counted, IsMarked, turned, is_the};
ghost use Rattle.rif_facts.specs.Runs.{is_in_run, IsTurnedRun};

use crate::both_ways::{BothWays, turned_copy};
use crate::keys::Key;
use crate::marked::MarkedFacts;
use crate::runs::Run;
use rif_values::{Const, Fact, OutOfMemory};
use std::alloc::Global;
use std::marker::Model;

// Facts with marks in two orders: that of facts, and, of frames and memberships, that with the first two places
// exchanged, in which the frames of a slot and the memberships of a class stand together. Contracts see it as the
// list of the facts with their marks.
#[derive(Debug, Drop)]
pub(crate) struct IndexedFacts {
    facts: MarkedFacts,
    turned: MarkedFacts,
}

impl Model for IndexedFacts {
    ghost use Rattle.std.specs.Prelude.{Bool, List};
    ghost use Rattle.rif_values.specs.declared.fact.Fact.{Fact};
    ghost use Rattle.rif_facts.specs.Marks.{IsIndexed};

    ghost Value = { List (Fact × Bool) };

    ghost view = { λ indexed. indexed.facts };

    ghost invariant = { λ indexed. IsIndexed indexed.facts indexed.turned };
}

impl IndexedFacts {
    // No facts. It takes no memory.
    pub(crate) fn new(alloc: Global) -> IndexedFacts
        ensures empty { result ≡ [] }
        ensures marked { IsMarked result }
    {
        IndexedFacts {
            facts: MarkedFacts::new(alloc),
            turned: MarkedFacts::new(alloc),
        }
    }

    // How many facts there are, whatever their marks.
    pub(crate) fn len(&self) -> usize
        ensures len { result ≡ length self.now }
        ensures marked { IsMarked self.now }
    {
        self.facts.len()
    }

    pub(crate) fn mark(&self, fact: &Fact) -> Option<bool>
        ensures mark { result ≡ mark_at self.now fact.now }
        ensures marked { IsMarked self.now }
    {
        self.facts.mark(fact)
    }

    // Puts a new fact in, which doesn't count yet. After want of memory the facts are as before.
    pub(crate) fn put(&mut self, fact: &BothWays) -> Result<(), OutOfMemory>
        requires { mark_at self.old fact.now ≡ None }
        ensures ok { OnOk result ((q : Fact) → mark_at self.new q
            ≡ (if same_fact fact.now q then Some false else mark_at self.old q)) }
        ensures err { OnErr result ((q : Fact) → mark_at self.new q ≡ mark_at self.old q) }
    {
        let copy = fact.fact.copy()?;
        put_turned(&mut self.turned, &fact.turned)?;
        match self.facts.put(copy) {
            Ok(()) => Ok(()),
            Err(refused) => {
                take_turned(&mut self.turned, &fact.turned);
                Err(refused)
            }
        }
    }

    // Makes a fact count that was put in. It takes no memory.
    pub(crate) fn count(&mut self, fact: &BothWays)
        ensures { (q : Fact) → mark_at self.new q
            ≡ (if same_fact fact.now q && is_some (mark_at self.old q) then Some true else mark_at self.old q) }
    {
        self.facts.count(&fact.fact);
        count_turned(&mut self.turned, &fact.turned);
    }

    // Takes a fact out, if it is there. It takes no memory.
    pub(crate) fn take(&mut self, fact: &BothWays)
        ensures { (q : Fact) → mark_at self.new q ≡ (if same_fact fact.now q then None else mark_at self.old q) }
    {
        self.facts.take(&fact.fact);
        take_turned(&mut self.turned, &fact.turned);
    }

    // Puts new facts in, which don't count yet. After want of memory all but these are as before.
    pub(crate) fn put_all(&mut self, facts: &[BothWays]) -> Result<(), OutOfMemory>
        requires set { IsFacts facts.now }
        requires new { (q : Fact) → has_fact facts.now q ≡ true → mark_at self.old q ≡ None }
        ensures ok { OnOk result ((q : Fact) → mark_at self.new q
            ≡ (if has_fact facts.now q then Some false else mark_at self.old q)) }
        ensures err { OnErr result
            ((q : Fact) → has_fact facts.now q ≡ false → mark_at self.new q ≡ mark_at self.old q) }
        ensures marked { OnOk result (IsMarked self.new) }
    {
        for fact in facts {
            self.put(fact)?;
        }
        let _ = &self.facts;
        Ok(())
    }

    // Makes facts count that were put in. It takes no memory.
    pub(crate) fn count_all(&mut self, facts: &[BothWays])
        ensures marks { (q : Fact) → mark_at self.new q
            ≡ (if has_fact facts.now q && is_some (mark_at self.old q) then Some true else mark_at self.old q) }
        ensures marked { IsMarked self.new }
    {
        for fact in facts {
            self.count(fact);
        }
        let _ = &self.facts;
    }

    // Takes facts out, where they are there. It takes no memory.
    pub(crate) fn take_all(&mut self, facts: &[BothWays])
        ensures marks { (q : Fact) → mark_at self.new q ≡ (if has_fact facts.now q then None else mark_at self.old q) }
        ensures marked { IsMarked self.new }
    {
        for fact in facts {
            self.take(fact);
        }
        let _ = &self.facts;
    }

    // A copy of each fact that counts, in order.
    pub(crate) fn all(&self, alloc: Global) -> Result<Vec<Fact>, OutOfMemory>
        ensures facts { IfOk result (λ found. found.items ≡ counted self.now) }
        ensures marked { IsMarked self.now }
    {
        self.facts.all(alloc)
    }

    // A copy of each fact that counts and that the key names, in order.
    pub(crate) fn candidates(&self, alloc: Global, key: &Key) -> Result<Vec<Fact>, OutOfMemory>
        ensures { IfOk result (λ found. found.items ≡ filter (is_candidate key.now) (counted self.now)) }
    {
        match key {
            Key::Predicate(predicate) => self.of_run(alloc, Run::Atoms(predicate.copy()?)),
            Key::Slot(slot) => self.of_turned_run(alloc, Run::FramesOf(slot.copy()?)),
            Key::ObjectSlot(object, slot) => {
                self.of_run(alloc, Run::SlotValues(object.copy()?, slot.copy()?))
            }
            Key::Object(object) => self.of_object(alloc, object),
            Key::Class(class) => self.of_turned_run(alloc, Run::MembershipsOf(class.copy()?)),
            Key::Frames => self.of_run(alloc, Run::Frames),
            Key::Members => self.of_run(alloc, Run::Members),
        }
    }

    fn of_run(&self, alloc: Global, run: Run) -> Result<Vec<Fact>, OutOfMemory>
        ensures facts { IfOk result (λ found. found.items ≡ filter (is_in_run run) (counted self.now)) }
        ensures marked { IsMarked self.now }
    {
        self.facts.of_run(alloc, &run)
    }

    // The frames of an object, and then its memberships.
    fn of_object(&self, alloc: Global, object: &Const) -> Result<Vec<Fact>, OutOfMemory>
        ensures { IfOk result (λ found. found.items ≡ filter (is_about object.now) (counted self.now)) }
    {
        let mut found = self.of_run(alloc, Run::FramesOf(object.copy()?))?;
        let mut memberships = self.of_run(alloc, Run::MembershipsOf(object.copy()?))?;
        found.append(&mut memberships)?;
        Ok(found)
    }

    // The facts of a run of the turned ones, turned back.
    fn of_turned_run(&self, alloc: Global, run: Run) -> Result<Vec<Fact>, OutOfMemory>
        requires { IsTurnedRun run }
        ensures { IfOk result (λ found. found.items
            ≡ filter (λ fact. is_in_run run (turned fact)) (counted self.now)) }
    {
        let mut found = Vec::new(alloc);
        let all = self.turned.of_run(alloc, &run)?;
        for fact in &all {
            found.push(turned_copy(fact)?)?;
        }
        Ok(found)
    }
}

// Puts a fact in, where there is one.
fn put_turned(facts: &mut MarkedFacts, fact: &Option<Fact>) -> Result<(), OutOfMemory>
    requires { IfSome fact.now (λ f. mark_at facts.old f ≡ None) }
    ensures ok { OnOk result ((q : Fact) → mark_at facts.new q
        ≡ (if is_the fact.now q then Some false else mark_at facts.old q)) }
    ensures err { OnErr result (facts.new ≡ facts.old) }
{
    match fact {
        Some(fact) => facts.put(fact.copy()?),
        None => Ok(()),
    }
}

fn count_turned(facts: &mut MarkedFacts, fact: &Option<Fact>)
    ensures { (q : Fact) → mark_at facts.new q
        ≡ (if is_the fact.now q && is_some (mark_at facts.old q) then Some true else mark_at facts.old q) }
{
    match fact {
        Some(fact) => facts.count(fact),
        None => {}
    }
}

fn take_turned(facts: &mut MarkedFacts, fact: &Option<Fact>)
    ensures { (q : Fact) → mark_at facts.new q ≡ (if is_the fact.now q then None else mark_at facts.old q) }
{
    match fact {
        Some(fact) => facts.take(fact),
        None => {}
    }
}
