//! Names of built-ins that stand where they can't, in words.
use crate::expected::wanted_behind;
use crate::spot::Spot;
use prd_grammar::Leaf;
use prd_leaves::{Prefixes, behind_colon, inner};
use prd_recognition::advance;
use refusal_lines::push_name;
use rif_lex::Kind;
use rif_tree::{Builtin, Func, Pred};
use rif_values::OutOfMemory;
use std::alloc::Global;

/// How a built-in's call is written, where a bracket is found behind the name of one that stands as a term.
pub fn hint_of_external(alloc: Global, spot: &Spot<'_>) -> Result<Option<Vec<u8>>, OutOfMemory> {
    if !is_behind_builtin(alloc, spot.leaves_before())? {
        return Ok(None);
    }
    let mut out = Vec::new(alloc);
    out.extend_from_slice(b"a built-in's call is written External(")?;
    push_name(&mut out, spot.text(spot.at.saturating_sub(1)))?;
    out.extend_from_slice(b"(..))")?;
    Ok(Some(out))
}

// Whether the last of the leaves names a built-in, and stands where a term may.
fn is_behind_builtin(alloc: Global, leaves: &[Leaf]) -> Result<bool, OutOfMemory> {
    match leaves.split_last() {
        Some((Leaf::Iri(iri) | Leaf::Curie(Some(iri)), before)) if is_builtin(iri.bytes()) => {
            let mut stack = wanted_behind(alloc, before)?;
            advance(&mut stack, &Leaf::Int(None))
        }
        _ => Ok(false),
    }
}

fn is_builtin(iri: &[u8]) -> bool {
    Builtin::named(iri).is_some()
}

/// The built-in of the same name in another namespace, if there is one.
pub fn hint_of_builtin(alloc: Global, spot: &Spot<'_>) -> Result<Option<Vec<u8>>, OutOfMemory> {
    let name = name_at(spot);
    match prefix_of(alloc, spot.prefixes, name) {
        Some(prefix) => {
            let mut out = Vec::new(alloc);
            out.extend_from_slice(b"did you mean `")?;
            out.extend_from_slice(prefix)?;
            out.push(b':')?;
            push_name(&mut out, name)?;
            out.extend_from_slice(b"`?")?;
            Ok(Some(out))
        }
        None => Ok(None),
    }
}

// The name at a place without its namespace.
fn name_at<'a>(spot: &Spot<'a>) -> &'a [u8] {
    let text = spot.text(spot.at);
    match spot.token() {
        Some(token) if token.kind == Kind::Iri => behind_hash(inner(text)),
        _ => behind_colon(text),
    }
}

fn behind_hash(iri: &[u8]) -> &[u8] {
    match iri.iter().position(|byte| *byte == b'#') {
        Some(at) => &iri[at + 1..],
        None => &iri[iri.len()..],
    }
}

// The prefix under which there is a built-in of this name, where the document leaves the prefix its meaning.
fn prefix_of(alloc: Global, prefixes: &Prefixes, name: &[u8]) -> Option<&'static [u8]> {
    let prefix = if Func::named(name).is_some() {
        "func".as_bytes()
    } else if Pred::named(name).is_some() {
        "pred".as_bytes()
    } else {
        return None;
    };
    let undeclared = Prefixes::new(alloc);
    if prefixes.meaning(prefix) == undeclared.meaning(prefix) {
        Some(prefix)
    } else {
        None
    }
}
