//! What the tests find, as text: a word for each fact, row or instance, with a space behind it.
use prd_relation::Plain;
use rif_facts::Facts;
use rif_values::{Binding, Delta, Fact, Instance, OutOfMemory, write_const, write_fact};
use std::alloc::Global;

/// Appends the facts, each behind a sign.
pub fn show_facts(
    alloc: Global,
    out: &mut Vec<u8>,
    sign: &str,
    facts: &[Fact],
) -> Result<(), OutOfMemory> {
    for fact in facts {
        out.extend_from_slice(sign.as_bytes())?;
        write_fact(alloc, out, fact)?;
        out.push(b' ')?;
    }
    Ok(())
}

/// A state's facts, in order.
pub fn facts_text(alloc: Global, facts: &Facts) -> Result<Vec<u8>, OutOfMemory> {
    let mut out = Vec::new(alloc);
    show_facts(alloc, &mut out, "", facts.to_list(alloc)?.as_slice())?;
    Ok(out)
}

pub fn delta_text(alloc: Global, delta: &Delta) -> Result<Vec<u8>, OutOfMemory> {
    let mut out = Vec::new(alloc);
    show_facts(alloc, &mut out, "-", delta.removed.as_slice())?;
    show_facts(alloc, &mut out, "+", delta.added.as_slice())?;
    Ok(out)
}

/// Appends the values of a row's variables, in order of variable.
pub fn show_row(alloc: Global, out: &mut Vec<u8>, row: &Binding) -> Result<(), OutOfMemory> {
    for (_, value) in row.pairs() {
        write_const(alloc, out, value)?;
        out.push(b',')?;
    }
    out.push(b' ')?;
    Ok(())
}

/// Appends an instance, behind its rule's number.
pub fn show_instance(
    alloc: Global,
    out: &mut Vec<u8>,
    instance: &Instance,
) -> Result<(), OutOfMemory> {
    let number = format!(in alloc; "{}:", instance.rule)?;
    out.extend_from_slice(number.as_bytes())?;
    show_row(alloc, out, &instance.row)
}

/// The newest conflict set of a history: each instance behind its age, and behind a `!` where it is refracted.
pub fn history_text(alloc: Global, history: &Plain) -> Result<Vec<u8>, OutOfMemory> {
    let mut out = Vec::new(alloc);
    for (instance, mark) in history.conflict_set().iter().zip(history.marks()) {
        let sign = if mark.refracted { "!" } else { "" };
        let front = format!(in alloc; "{sign}{} ", mark.age)?;
        out.extend_from_slice(front.as_bytes())?;
        show_instance(alloc, &mut out, instance)?;
    }
    Ok(out)
}
