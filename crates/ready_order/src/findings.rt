//! What tests of formulas have found, so that they needn't find it again.
ghost use Rattle.std.specs.Prelude.{◌≡◌, ◌+◌, suc, false, map, sum, replicate, set, get_or, IfOk};
ghost use Rattle.ready_order.specs.Findings.{places_of, starts_of};

use rif_tree::Formula;
use rif_values::OutOfMemory;
use std::alloc::Global;

/// Which formulas of a list, and which inside these, were found ready, each at its place: they are counted from 0 in
/// text order, a formula before those inside it. And where the places of each formula of the list start.
#[derive(Drop)]
pub(crate) struct Findings {
    is_ready: Vec<bool>,
    starts: Vec<usize>,
}

impl Findings {
    /// None of these formulas, and of those inside them, was found ready.
    pub(crate) fn new(alloc: Global, formulas: &[Formula]) -> Result<Findings, OutOfMemory>
        ensures places { IfOk result
            (λ findings. findings.is_ready.items ≡ replicate (sum (map places_of formulas.now)) false) }
        ensures starts { IfOk result (λ findings. findings.starts.items ≡ starts_of 0 formulas.now) }
    {
        let count = places_in_each(formulas)?;
        let starts = starts_in(alloc, formulas)?;
        Ok(Findings {
            is_ready: vec![in alloc; false; count]?,
            starts,
        })
    }

    /// Where the places of a formula of the list start.
    pub(crate) fn start_of(&self, index: usize) -> usize
        ensures { result ≡ get_or self.now.starts.items index 0 }
    {
        if index < self.starts.len() {
            self.starts[index]
        } else {
            0
        }
    }

    /// Whether the formula at a place was found ready. At a place past the last one none was.
    pub(crate) fn is_ready(&self, place: usize) -> bool
        ensures { result ≡ get_or self.now.is_ready.items place false }
    {
        place < self.is_ready.len() && self.is_ready[place]
    }

    /// Whether the formula at a place is found ready.
    pub(crate) fn tell(&mut self, place: usize, is_ready: bool)
        ensures told { self.new.is_ready.items ≡ set self.old.is_ready.items place is_ready }
        ensures starts { self.new.starts.items ≡ self.old.starts.items }
    {
        if place < self.is_ready.len() {
            self.is_ready[place] = is_ready;
        }
    }
}

fn starts_in(alloc: Global, formulas: &[Formula]) -> Result<Vec<usize>, OutOfMemory>
    ensures { IfOk result (λ starts. starts.items ≡ starts_of 0 formulas.now) }
{
    let mut starts = Vec::new(alloc);
    let mut start = 0;
    for formula in formulas {
        starts.push(start)?;
        start = place_after(start, formula)?;
    }
    Ok(starts)
}

// How many places a formula takes: one, and those of the formulas inside it.
#[cycle(places)]
#[tactic(auto, using(crate::proofs::FindingsLemmas::places_and, crate::proofs::FindingsLemmas::places_or))]
fn places_in(formula: &Formula) -> Result<usize, OutOfMemory>
    ensures { IfOk result (λ count. count ≡ places_of formula.now) }
{
    match formula {
        Formula::And(members) => one_more(places_in_each(members.as_slice())?),
        Formula::Or(branches) => one_more(places_in_each(branches.as_slice())?),
        Formula::Not(inner) => one_more(places_in(inner.get())?),
        Formula::Exists(_, inner) => one_more(places_in(inner.get())?),
        Formula::Equal(..) => Ok(1),
        Formula::Member(..) => Ok(1),
        Formula::Frame(..) => Ok(1),
        Formula::Atom(..) => Ok(1),
        Formula::Holds(..) => Ok(1),
    }
}

#[cycle(places)]
fn places_in_each(formulas: &[Formula]) -> Result<usize, OutOfMemory>
    ensures { IfOk result (λ count. count ≡ sum (map places_of formulas.now)) }
{
    let mut count: usize = 0;
    for formula in formulas {
        let more = places_in(formula)?;
        count = count.checked_add(more).ok_or(OutOfMemory)?;
    }
    Ok(count)
}

fn one_more(count: usize) -> Result<usize, OutOfMemory>
    ensures { IfOk result (λ more. more ≡ suc count) }
{
    count.checked_add(1).ok_or(OutOfMemory)
}

/// The place after those that a formula takes which begins at this place.
pub(crate) fn place_after(start: usize, formula: &Formula) -> Result<usize, OutOfMemory>
    ensures { IfOk result (λ place. place ≡ start + places_of formula.now) }
{
    let count = places_in(formula)?;
    start.checked_add(count).ok_or(OutOfMemory)
}
