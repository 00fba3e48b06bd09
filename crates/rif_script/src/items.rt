//! Items as the lines of a script have them.
ghost use Rattle.std.specs.Prelude.{◌≡◌};
ghost use Rattle.rif_script.specs.ReadingItems.{asserted_from, fact_retracted, item_from, is_fact_sign};
ghost use Rattle.rif_script.specs.ReadingItems.{modified_from};
ghost use Rattle.rif_script.specs.ReadingItems.{modify_of, number_from, number_of, retracted_from, retracted_with};
ghost use Rattle.rif_script.specs.ReadingItems.{slot_behind, whole};
ghost use Rattle.rif_script.specs.SentLeaves.{Gives, seen};

use crate::constants::{const_behind, read_const};
use crate::facts::{fact_behind, read_fact};
use crate::line_fault::LineFault;
use crate::sent_tokens::SentTokens;
use prd_reader::{Leaf, TextPool};
use rif_values::{Change, Const, Fact};
use session_states::Item;

/// The item of a word and the tokens behind it.
#[tactic(auto, unfolding(crate::specs::ReadingItems::item_from))]
pub fn read_item(pool: &mut TextPool, word: &[u8], at: SentTokens<'_>) -> Result<Item, LineFault>
    ensures { Gives (λ item. item) result (item_from word.now (seen at.entry)) }
{
    if word == b"assert".as_slice() {
        Ok(Item::Change(read_asserted(pool, at)?))
    } else if word == b"retract".as_slice() {
        Ok(Item::Change(read_retracted(pool, at)?))
    } else if word == b"modify".as_slice() {
        Ok(Item::Change(read_modified(pool, at)?))
    } else if word == b"fire".as_slice() {
        Ok(Item::Fire(read_number(pool, at)?))
    } else if word == b"until".as_slice() {
        Ok(Item::Until(read_number(pool, at)?))
    } else if word == b"halt".as_slice() {
        read_nothing(at, Item::Halt)
    } else if word == b"dispose".as_slice() {
        read_nothing(at, Item::Dispose)
    } else {
        Err(LineFault::Bad)
    }
}

// The item, where no token is left.
fn read_nothing(at: SentTokens<'_>, item: Item) -> Result<Item, LineFault>
    ensures { Gives (λ given. given) result (whole (seen at.entry) item) }
{
    if at.is_empty() {
        Ok(item)
    } else {
        Err(LineFault::Bad)
    }
}

#[tactic(auto, unfolding(crate::specs::ReadingItems::asserted_from))]
fn read_asserted(pool: &mut TextPool, at: SentTokens<'_>) -> Result<Change, LineFault>
    ensures { Gives (λ change. change) result (asserted_from (seen at.entry)) }
{
    Ok(Change::Assert(read_fact(pool, at)?))
}

// A frame with one pair, as the slot's new value.
#[tactic(auto, unfolding(crate::specs::ReadingItems::modified_from))]
fn read_modified(pool: &mut TextPool, at: SentTokens<'_>) -> Result<Change, LineFault>
    ensures { Gives (λ change. change) result (modified_from (seen at.entry)) }
{
    modify_of(read_fact(pool, at)?)
}

fn modify_of(fact: Fact) -> Result<Change, LineFault>
    ensures { Gives (λ change. change) result (modify_of fact) }
{
    match fact {
        Fact::Frame(object, slot, value) => Ok(Change::Modify(object, slot, value)),
        Fact::Atom(_, _) | Fact::Member(_, _) => Err(LineFault::Bad),
    }
}

// A fact, an object and a slot, or an object.
#[tactic(auto, unfolding(crate::specs::ReadingItems::retracted_from))]
fn read_retracted(pool: &mut TextPool, at: SentTokens<'_>) -> Result<Change, LineFault>
    ensures { Gives (λ change. change) result (retracted_from (seen at.entry)) }
{
    let (object, rest) = read_const(pool, at)?;
    retracted_with(pool, object, rest)
}

fn retracted_with(
    pool: &mut TextPool,
    object: Const,
    at: SentTokens<'_>,
) -> Result<Change, LineFault>
    ensures { Gives (λ change. change) result (retracted_with object (seen at.entry)) }
{
    let Some((leaf, rest)) = at.first(pool)? else {
        return Ok(Change::RetractObject(object));
    };
    if is_fact_sign(&leaf) {
        retracted_fact(pool, object, &leaf, rest)
    } else {
        retracted_slot(pool, object, leaf, rest)
    }
}

fn retracted_fact(
    pool: &mut TextPool,
    object: Const,
    leaf: &Leaf,
    rest: SentTokens<'_>,
) -> Result<Change, LineFault>
    ensures { Gives (λ change. change) result (fact_retracted object (seen rest.entry) leaf.now) }
{
    Ok(Change::Retract(fact_behind(pool, object, leaf, rest)?))
}

fn retracted_slot(
    pool: &mut TextPool,
    object: Const,
    leaf: Leaf,
    rest: SentTokens<'_>,
) -> Result<Change, LineFault>
    ensures { Gives (λ change. change) result (slot_behind object (seen rest.entry) leaf) }
{
    let (slot, rest) = const_behind(pool, leaf, rest)?;
    if !rest.is_empty() {
        return Err(LineFault::Bad);
    }
    Ok(Change::RetractSlot(object, slot))
}

fn is_fact_sign(leaf: &Leaf) -> bool
    ensures { result ≡ is_fact_sign leaf.now }
{
    matches!(leaf, Leaf::Hash | Leaf::OpenSquare | Leaf::Open)
}

// An integer of at least 0, which all the tokens are.
#[tactic(auto, unfolding(crate::specs::ReadingItems::number_from))]
fn read_number(pool: &mut TextPool, at: SentTokens<'_>) -> Result<u64, LineFault>
    ensures { Gives (λ number. number) result (number_from (seen at.entry)) }
{
    let Some((leaf, rest)) = at.first(pool)? else {
        return Err(LineFault::Bad);
    };
    let number = number_of(&leaf)?;
    if !rest.is_empty() {
        return Err(LineFault::Bad);
    }
    Ok(number)
}

fn number_of(leaf: &Leaf) -> Result<u64, LineFault>
    ensures { Gives (λ number. number) result (number_of leaf.now) }
{
    match leaf {
        Leaf::Int(Some(number)) if *number >= 0 => Ok(*number as u64),
        _ => Err(LineFault::Bad),
    }
}
