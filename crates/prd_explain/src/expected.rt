//! What could stand at a place, in words.
use crate::spot::Spot;
use crate::wanted::words_of;
use itoa::Buffer;
use prd_grammar::{Leaf, Literal};
use prd_recognition::{Want, advance};
use refusal_lines::push_short;
use rif_values::{GREATEST_INTEGER, LEAST_INTEGER, OutOfMemory};
use std::alloc::Global;
use std::collections::VecDeque;

/// What could stand at a place.
pub fn push_expected(alloc: Global, out: &mut Vec<u8>, spot: &Spot<'_>) -> Result<(), OutOfMemory> {
    let mut stack = wanted_behind(alloc, spot.leaves_before())?;
    let wanted = wanted_text(alloc, stack.front())?;
    out.extend_from_slice(b", expected ")?;
    if is_misspelled(&mut stack, spot.leaf())? {
        out.extend_from_slice(b"a text of its type")?;
    } else {
        out.extend_from_slice(wanted.as_slice())?;
    }
    Ok(())
}

// Whether a leaf could stand here if it were spelled as its type is.
fn is_misspelled(stack: &mut VecDeque<Want>, leaf: Option<&Leaf>) -> Result<bool, OutOfMemory> {
    match leaf {
        Some(Leaf::Misspelled) => advance(stack, &Leaf::Typed(Literal::OfNoType)),
        _ => Ok(false),
    }
}

/// What has still to come behind the leaves.
pub fn wanted_behind(alloc: Global, leaves: &[Leaf]) -> Result<VecDeque<Want>, OutOfMemory> {
    let mut stack = VecDeque::new(alloc);
    stack.push_back(Want::Document)?;
    for leaf in leaves {
        advance(&mut stack, leaf)?;
    }
    Ok(stack)
}

// What could come first of a want, or behind all of them.
fn wanted_text(alloc: Global, want: Option<&Want>) -> Result<Vec<u8>, OutOfMemory> {
    let mut out = Vec::new(alloc);
    match want {
        Some(Want::SameVariable(name)) => {
            out.extend_from_slice(b"the variable ?")?;
            push_short(&mut out, name.bytes())?;
        }
        Some(want) => out.extend_from_slice(words_of(want).as_bytes())?,
        None => out.extend_from_slice(b"the end of the document")?,
    }
    Ok(out)
}

/// The integers that there are.
pub fn push_integers(out: &mut Vec<u8>) -> Result<(), OutOfMemory> {
    let mut number = Buffer::new();
    out.extend_from_slice(b", expected ")?;
    out.extend_from_slice(number.format(LEAST_INTEGER).as_bytes())?;
    out.extend_from_slice(b" to ")?;
    out.extend_from_slice(number.format(GREATEST_INTEGER).as_bytes())?;
    Ok(())
}

/// The types that there are, where a leaf is a type.
pub fn push_types(out: &mut Vec<u8>, leaf: Option<&Leaf>) -> Result<(), OutOfMemory> {
    if let Some(Leaf::TypeName(_)) = leaf {
        out.extend_from_slice(
            b", expected xs:integer, xs:boolean, xs:string, rif:iri or rif:local",
        )?;
    }
    Ok(())
}
