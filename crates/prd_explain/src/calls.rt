//! Calls of built-ins with another number of arguments, in words.
use crate::spot::Spot;
use prd_grammar::{BuiltinName, Leaf};
use prd_recognition::is_term;
use refusal_lines::{push_name, push_number};
use rif_tree::{Arity, Builtin};
use rif_values::OutOfMemory;

/// A call of a built-in, as far as its arguments have come.
#[derive(Clone, Copy)]
pub struct Call<'a> {
    builtin: Builtin,
    /// The built-in's name as the document spells it.
    name: &'a [u8],
    arguments: u64,
}

/// The call that a place stands in, if the innermost bracket is that of a built-in's arguments.
pub fn call_at<'a>(spot: &Spot<'a>) -> Option<Call<'a>> {
    let open = spot.innermost_bracket()?;
    let name = open.saturating_sub(1);
    match spot.leaves.get(name) {
        Some(Leaf::Builtin(BuiltinName::Known(builtin))) => Some(Call {
            builtin: *builtin,
            name: spot.text(name),
            arguments: count_of_terms(spot.leaves_from(open)),
        }),
        _ => None,
    }
}

/// How many arguments a call's built-in takes, and how many were found.
pub fn push_call(out: &mut Vec<u8>, call: &Call<'_>) -> Result<(), OutOfMemory> {
    out.extend_from_slice(b": `")?;
    push_name(out, call.name)?;
    out.extend_from_slice(b"` takes ")?;
    push_arguments(out, call.builtin)?;
    out.extend_from_slice(b", found ")?;
    push_number(out, call.arguments)
}

// How many terms stand straight in the bracket that these leaves begin with.
fn count_of_terms(leaves: &[Leaf]) -> u64 {
    let mut depth = 0u64;
    let mut count = 0u64;
    for leaf in leaves {
        match leaf {
            Leaf::Open => depth = depth.saturating_add(1),
            Leaf::Close => depth = depth.saturating_sub(1),
            _ if depth == 1 && is_term(leaf) => count = count.saturating_add(1),
            _ => {}
        }
    }
    count
}

fn push_arguments(out: &mut Vec<u8>, builtin: Builtin) -> Result<(), OutOfMemory> {
    let Arity { least, most } = builtin.arity();
    push_number(out, least)?;
    if least < most {
        out.extend_from_slice(b" to ")?;
        push_number(out, most)?;
    }
    out.extend_from_slice(if most == 1 {
        b" argument"
    } else {
        b" arguments"
    })?;
    Ok(())
}
