//! Atomic formulas and pairs as text, in the form that `term.rt` has.
ghost use Rattle.std.specs.Prelude.{◌≡◌, ◌++◌, List, OnOk, map};
ghost use Rattle.rif_lex.specs.Spelling.{Gap, Spelled, gap_text, spelled_text};
ghost use Rattle.prd_writing.specs.Canonical.{listed, const_spelling, pair_spelling, frame_spelling, member_spelling};
ghost use Rattle.prd_writing.specs.Canonical.{equal_spelling, atom_spelling};

use crate::term::{push_bytes, push_space, push_term, push_terms};
use rif_tree::Term;
use rif_values::{Const, OutOfMemory, Text, push_const};

fn push_constant(out: &mut Vec<u8>, constant: &Const) -> Result<(), OutOfMemory>
    ensures { (gap : Gap) (rest : List Spelled) →
        OnOk result (out.new.items ++ (gap_text gap ++ spelled_text rest)
        ≡ out.old.items ++ spelled_text (const_spelling constant.now gap rest)) }
{
    push_const(out, constant)
}

// Appends a slot and its value.
fn push_pair(out: &mut Vec<u8>, names: &[Text], pair: &(Term, Term)) -> Result<(), OutOfMemory>
    ensures { (gap : Gap) (rest : List Spelled) →
        OnOk result (out.new.items ++ (gap_text gap ++ spelled_text rest)
        ≡ out.old.items ++ spelled_text (pair_spelling names.now pair.now gap rest)) }
{
    push_term(out, names, &pair.0)?;
    push_bytes(out, b"->")?;
    push_term(out, names, &pair.1)?;
    Ok(())
}

// Appends the pairs with one space between two.
fn push_pairs(out: &mut Vec<u8>, names: &[Text], pairs: &[(Term, Term)]) -> Result<(), OutOfMemory>
    ensures { (rest : List Spelled) →
        OnOk result (out.new.items ++ spelled_text rest
        ≡ out.old.items ++ spelled_text (listed (map (pair_spelling names.now) pairs.now) rest)) }
{
    let mut is_first = true;
    for pair in pairs {
        push_space(out, is_first)?;
        push_pair(out, names, pair)?;
        is_first = false;
    }
    Ok(())
}

// Appends an object with its pairs in brackets.
pub fn push_frame(
    out: &mut Vec<u8>,
    names: &[Text],
    object: &Term,
    pairs: &[(Term, Term)],
) -> Result<(), OutOfMemory>
    ensures { (gap : Gap) (rest : List Spelled) →
        OnOk result (out.new.items ++ (gap_text gap ++ spelled_text rest)
        ≡ out.old.items ++ spelled_text (frame_spelling names.now object.now pairs.now gap rest)) }
{
    push_term(out, names, object)?;
    push_bytes(out, b"[")?;
    push_pairs(out, names, pairs)?;
    push_bytes(out, b"]")?;
    Ok(())
}

// Appends an object and its class.
pub fn push_member(
    out: &mut Vec<u8>,
    names: &[Text],
    object: &Term,
    class: &Term,
) -> Result<(), OutOfMemory>
    ensures { (gap : Gap) (rest : List Spelled) →
        OnOk result (out.new.items ++ (gap_text gap ++ spelled_text rest)
        ≡ out.old.items ++ spelled_text (member_spelling names.now object.now class.now gap rest)) }
{
    push_term(out, names, object)?;
    push_bytes(out, b" # ")?;
    push_term(out, names, class)?;
    Ok(())
}

pub fn push_equal(
    out: &mut Vec<u8>,
    names: &[Text],
    left: &Term,
    right: &Term,
) -> Result<(), OutOfMemory>
    ensures { (gap : Gap) (rest : List Spelled) →
        OnOk result (out.new.items ++ (gap_text gap ++ spelled_text rest)
        ≡ out.old.items ++ spelled_text (equal_spelling names.now left.now right.now gap rest)) }
{
    push_term(out, names, left)?;
    push_bytes(out, b" = ")?;
    push_term(out, names, right)?;
    Ok(())
}

// Appends a predicate with its arguments in brackets.
pub fn push_atom(
    out: &mut Vec<u8>,
    names: &[Text],
    predicate: &Const,
    arguments: &[Term],
) -> Result<(), OutOfMemory>
    ensures { (gap : Gap) (rest : List Spelled) →
        OnOk result (out.new.items ++ (gap_text gap ++ spelled_text rest)
        ≡ out.old.items ++ spelled_text (atom_spelling names.now predicate.now arguments.now gap rest)) }
{
    push_constant(out, predicate)?;
    push_bytes(out, b"(")?;
    push_terms(out, names, arguments)?;
    push_bytes(out, b")")?;
    Ok(())
}
