ghost use Rattle.std.specs.Prelude.{◌≡◌, ◌&&◌, [], ◌∷◌, ◌++◌, length, filter, is_some, IfOk, OnOk, OnErr};
ghost use Rattle.std.specs.Prelude.{true, false, Some, None, if◌then◌else◌};
ghost use Rattle.rif_values.specs.declared.fact.Fact.{Fact};
ghost use Rattle.rif_values.specs.Facts.{same_fact};
ghost use Rattle.rif_facts.specs.Marks.{mark_at, counted, IsMarked, IsInRange, IsAboveLeast};
ghost use Rattle.rif_facts.specs.Runs.{is_in_run};

use crate::runs::Run;
use rif_values::{Const, Fact, OutOfMemory};
use std::alloc::Global;
use std::collections::BTreeMap;
use std::marker::Model;

// Facts in order, each with a mark, which says whether it counts. Contracts see it as the list of these pairs.
#[derive(Debug, Drop)]
pub(crate) struct MarkedFacts {
    entries: BTreeMap<Fact, bool>,
}

impl Model for MarkedFacts {
    ghost use Rattle.std.specs.Prelude.{Bool, List};
    ghost use Rattle.rif_values.specs.declared.fact.Fact.{Fact};
    ghost use Rattle.rif_facts.specs.Marks.{IsMarked};

    ghost Value = { List (Fact × Bool) };

    ghost view = { λ facts. facts.entries.entries };

    ghost invariant = { λ facts. IsMarked facts.entries.entries };
}

impl MarkedFacts {
    // No facts. It takes no memory.
    pub(crate) fn new(alloc: Global) -> MarkedFacts
        ensures empty { result ≡ [] }
        ensures marked { IsMarked result }
    {
        MarkedFacts {
            entries: BTreeMap::new(alloc),
        }
    }

    // How many facts there are, whatever their marks.
    pub(crate) fn len(&self) -> usize
        ensures len { result ≡ length self.now }
        ensures marked { IsMarked self.now }
    {
        self.entries.len()
    }

    pub(crate) fn mark(&self, fact: &Fact) -> Option<bool>
        ensures mark { result ≡ mark_at self.now fact.now }
        ensures marked { IsMarked self.now }
    {
        self.entries.get(fact).copied()
    }

    // Puts a new fact in, which doesn't count yet. After want of memory the facts are as before.
    pub(crate) fn put(&mut self, fact: Fact) -> Result<(), OutOfMemory>
        requires { mark_at self.old fact ≡ None }
        ensures ok { OnOk result ((q : Fact) → mark_at self.new q
            ≡ (if same_fact fact q then Some false else mark_at self.old q)) }
        ensures err { OnErr result (self.new ≡ self.old) }
        ensures marked { IsMarked self.new }
    {
        read_range(&fact);
        self.entries.insert(fact, false)?;
        Ok(())
    }

    // Makes a fact count that was put in. It takes no memory.
    pub(crate) fn count(&mut self, fact: &Fact)
        ensures marks { (q : Fact) → mark_at self.new q
            ≡ (if same_fact fact.now q && is_some (mark_at self.old q) then Some true else mark_at self.old q) }
        ensures marked { IsMarked self.new }
    {
        if let Some(mark) = self.entries.get_mut(fact) {
            *mark = true;
        }
    }

    // Takes a fact out, if it is there. It takes no memory.
    pub(crate) fn take(&mut self, fact: &Fact)
        ensures marks { (q : Fact) → mark_at self.new q ≡ (if same_fact fact.now q then None else mark_at self.old q) }
        ensures marked { IsMarked self.new }
    {
        self.entries.remove(fact);
    }

    // A copy of each fact that counts, in order.
    pub(crate) fn all(&self, alloc: Global) -> Result<Vec<Fact>, OutOfMemory>
        ensures facts { IfOk result (λ found. found.items ≡ counted self.now) }
        ensures marked { IsMarked self.now }
    {
        let mut found = Vec::new(alloc);
        for (fact, counts) in &self.entries {
            push_counted(&mut found, fact, *counts)?;
        }
        Ok(found)
    }

    // A copy of each fact of a run that counts, in order. It visits no others but those of the run that don't
    // count, and one more.
    pub(crate) fn of_run(&self, alloc: Global, run: &Run) -> Result<Vec<Fact>, OutOfMemory>
        ensures facts { IfOk result (λ found. found.items ≡ filter (is_in_run run.now) (counted self.now)) }
        ensures marked { IsMarked self.now }
    {
        let mut found = Vec::new(alloc);
        let entries = &self.entries;
        let first = run.first(alloc)?;
        for (fact, counts) in entries.range(first..) {
            if !run.has(fact) {
                break;
            }
            push_counted(&mut found, fact, *counts)?;
        }
        Ok(found)
    }
}

// Puts a copy of a fact at the end, where it counts.
fn push_counted(facts: &mut Vec<Fact>, fact: &Fact, counts: bool) -> Result<(), OutOfMemory>
    ensures { OnOk result (facts.new.items ≡ facts.old.items ++ (if counts then fact.now ∷ [] else [])) }
{
    if counts {
        facts.push(fact.copy()?)?;
    }
    Ok(())
}

// Reads the constants of a fact at its first places, so that their range is known.
fn read_range(fact: &Fact)
    ensures { IsInRange fact.now }
{
    match fact {
        Fact::Atom(predicate, _) => read_constant(predicate),
        Fact::Frame(object, slot, value) => {
            read_constant(object);
            read_constant(slot);
            read_constant(value);
        }
        Fact::Member(object, class) => {
            read_constant(object);
            read_constant(class);
        }
    }
}

fn read_constant(constant: &Const)
    ensures { IsAboveLeast constant.now }
{
    if let Const::Int(number) = constant {
        let _number = *number;
    }
}
