//! The steps of a turn that need no session.
ghost use Rattle.std.specs.Prelude.{◌≡◌, ◌≤◌, ◌^◌, ◌++◌, IfOk, OnErr, OnOk};
ghost use Rattle.prd_relation.specs.Turns.{state_with, changes_in, change_of, ending_act, ending_item};
ghost use Rattle.prd_relation.specs.Turns.{facts_after_block, effect_of_block, made_after_block};
ghost use Rattle.prd_relation.specs.RuleSystem.{system_of};
ghost use Rattle.rif_actions.specs.Uses.{HasMadeAtMost};
ghost use Rattle.std.specs.Option.{option_to_list};

use rif_actions::{Block, block};
use rif_facts::Facts;
use rif_values::{Change, Instance, OutOfMemory, nth};
use safe_rules::SafeDoc;
use session_states::{Act, Effect, Entry, Item, State, after};
use std::alloc::Global;

/// The state after the items of a batch.
pub fn state_after(state: State, batch: &[Entry]) -> State
    ensures { result ≡ state_with state batch.now }
{
    let mut now = state;
    for entry in batch {
        now = after(now, &entry.item);
    }
    now
}

/// The changes of a batch, in order.
pub fn changes_of(alloc: Global, batch: &[Entry]) -> Result<Vec<Change>, OutOfMemory>
    ensures { IfOk result (λ changes. changes.items ≡ changes_in batch.now) }
{
    let mut changes = Vec::new(alloc);
    for entry in batch {
        push_change(&mut changes, &entry.item)?;
    }
    Ok(changes)
}

fn push_change(changes: &mut Vec<Change>, item: &Item) -> Result<(), OutOfMemory>
    ensures { OnOk result (changes.new.items ≡ changes.old.items ++ option_to_list (change_of item.now)) }
{
    match item {
        Item::Change(change) => Ok(changes.push(change.copy()?)?),
        Item::Fire(_) | Item::Until(_) | Item::Halt | Item::Dispose => Ok(()),
    }
}

/// The act that the end of a batch fixes, where it does.
pub fn ending(batch: &[Entry]) -> Option<Act>
    ensures { result ≡ ending_act batch.now }
{
    match batch.last() {
        Some(entry) => ending_of(&entry.item),
        None => None,
    }
}

fn ending_of(item: &Item) -> Option<Act>
    ensures { result ≡ ending_item item.now }
{
    match item {
        Item::Halt => Some(Act::Halted),
        Item::Dispose => Some(Act::Disposed),
        Item::Change(_) | Item::Fire(_) | Item::Until(_) => None,
    }
}

/// The block of an instance.
pub fn block_of_instance(
    alloc: Global,
    doc: &SafeDoc,
    instance: &Instance,
    facts: &Facts,
    made: u64,
) -> Result<Block, OutOfMemory>
    requires { made ≤ 2 ^ 63 }
    ensures block { IfOk result (λ block. block ≡ (system_of doc.now).block instance.now facts.now.list made) }
    ensures counted { IfOk result (HasMadeAtMost (2 ^ 63)) }
{
    match nth(doc.rules(), instance.rule) {
        Some(rule) => block(alloc, rule, &instance.row, facts, made),
        None => Ok(Block::Void),
    }
}

/// Does a block, and answers what it did to the facts. After want of memory they are as before.
pub fn do_block(alloc: Global, facts: &mut Facts, block: &Block) -> Result<Effect, OutOfMemory>
    ensures effect { IfOk result (λ effect. effect ≡ effect_of_block facts.old.list block.now) }
    ensures facts { OnOk result (facts.new.list ≡ facts_after_block facts.old.list block.now) }
    ensures err { OnErr result (facts.new.list ≡ facts.old.list) }
{
    match block {
        Block::Void => Ok(Effect::Void),
        Block::Changes { list, made: _ } => Ok(Effect::Net(facts.apply(alloc, list.as_slice())?)),
    }
}

/// How many objects were made after a block.
pub fn made_after(made: u64, block: &Block) -> u64
    requires made { made ≤ 2 ^ 63 }
    requires block { HasMadeAtMost (2 ^ 63) block.now }
    ensures made { result ≡ made_after_block made block.now }
    ensures few { result ≤ 2 ^ 63 }
{
    match block {
        Block::Void => made,
        Block::Changes { list: _, made } => *made,
    }
}
