//! Blocks of rules as text, in the form that `term.rt` has.
ghost use Rattle.std.specs.Prelude.{◌≡◌, ◌++◌, ◌∷◌, List, ℕ, OnOk, map};
ghost use Rattle.rif_lex.specs.Spelling.{Gap, Spelled, joined, space, gap_text, spelled_text};
ghost use Rattle.prd_writing.specs.Canonical.{listed, spaced, closing, target_spelling, action_spelling};
ghost use Rattle.prd_writing.specs.Canonical.{decl_spelling, block_spelling, slot_spelling, new_spelling, verb_text};
ghost use Rattle.prd_writing.specs.Canonical.{acted_spelling, term_spelling};

use crate::atomic::{push_atom, push_frame, push_member};
use crate::term::{push_bytes, push_space, push_term, push_var};
use rif_tree::{Action, Decl, Rule, Target, Term};
use rif_values::{OutOfMemory, Text};

fn push_target(out: &mut Vec<u8>, names: &[Text], target: &Target) -> Result<(), OutOfMemory>
    ensures { (gap : Gap) (rest : List Spelled) →
        OnOk result (out.new.items ++ (gap_text gap ++ spelled_text rest)
        ≡ out.old.items ++ spelled_text (target_spelling names.now target.now gap rest)) }
{
    match target {
        Target::Atom(predicate, arguments) => {
            push_atom(out, names, predicate, arguments.as_slice())?
        }
        Target::Frame(object, pairs) => push_frame(out, names, object, pairs.as_slice())?,
        Target::Member(object, class) => push_member(out, names, object, class)?,
    }
    Ok(())
}

// Appends what stands in an action's brackets.
fn push_acted(out: &mut Vec<u8>, names: &[Text], action: &Action) -> Result<(), OutOfMemory>
    ensures { (rest : List Spelled) →
        OnOk result (out.new.items ++ spelled_text rest
        ≡ out.old.items ++ spelled_text (acted_spelling names.now action.now rest)) }
{
    match action {
        Action::Assert(target) => push_target(out, names, target)?,
        Action::Retract(target) => push_target(out, names, target)?,
        Action::RetractSlot(object, slot) => push_two(out, names, object, slot)?,
        Action::RetractObject(object) => push_term(out, names, object)?,
        Action::Modify(object, pairs) => push_frame(out, names, object, pairs.as_slice())?,
    }
    Ok(())
}

// Appends an object and a slot.
fn push_two(
    out: &mut Vec<u8>,
    names: &[Text],
    object: &Term,
    slot: &Term,
) -> Result<(), OutOfMemory>
    ensures { (rest : List Spelled) →
        OnOk result (out.new.items ++ spelled_text rest
        ≡ out.old.items ++ spelled_text
        (term_spelling names.now object.now space (term_spelling names.now slot.now joined rest))) }
{
    push_term(out, names, object)?;
    push_bytes(out, b" ")?;
    push_term(out, names, slot)?;
    Ok(())
}

// Appends an action's word.
fn push_verb(out: &mut Vec<u8>, action: &Action) -> Result<(), OutOfMemory>
    ensures { (rest : List ℕ) →
        OnOk result (out.new.items ++ rest ≡ out.old.items ++ (verb_text action.now ++ rest)) }
{
    match action {
        Action::Assert(_) => out.extend_from_slice(b"Assert")?,
        Action::Retract(_) => out.extend_from_slice(b"Retract")?,
        Action::RetractSlot(_, _) => out.extend_from_slice(b"Retract")?,
        Action::RetractObject(_) => out.extend_from_slice(b"Retract")?,
        Action::Modify(_, _) => out.extend_from_slice(b"Modify")?,
    }
    Ok(())
}

fn push_action(out: &mut Vec<u8>, names: &[Text], action: &Action) -> Result<(), OutOfMemory>
    ensures { (gap : Gap) (rest : List Spelled) →
        OnOk result (out.new.items ++ (gap_text gap ++ spelled_text rest)
        ≡ out.old.items ++ spelled_text (action_spelling names.now action.now gap rest)) }
{
    push_verb(out, action)?;
    push_bytes(out, b"(")?;
    push_acted(out, names, action)?;
    push_bytes(out, b")")?;
    Ok(())
}

// Appends the actions with one space between two.
fn push_actions(out: &mut Vec<u8>, names: &[Text], actions: &[Action]) -> Result<(), OutOfMemory>
    ensures { (rest : List Spelled) →
        OnOk result (out.new.items ++ spelled_text rest
        ≡ out.old.items ++ spelled_text (listed (map (action_spelling names.now) actions.now) rest)) }
{
    let mut is_first = true;
    for action in actions {
        push_space(out, is_first)?;
        push_action(out, names, action)?;
        is_first = false;
    }
    Ok(())
}

// Appends a declaration of the value of an object's slot.
fn push_slot(
    out: &mut Vec<u8>,
    names: &[Text],
    var: u32,
    object: &Term,
    slot: &Term,
) -> Result<(), OutOfMemory>
    ensures { (gap : Gap) (rest : List Spelled) →
        OnOk result (out.new.items ++ (gap_text gap ++ spelled_text rest)
        ≡ out.old.items ++ spelled_text (slot_spelling names.now var object.now slot.now gap rest)) }
{
    push_bytes(out, b"(")?;
    push_var(out, names, var)?;
    push_bytes(out, b" ")?;
    push_term(out, names, object)?;
    push_bytes(out, b"[")?;
    push_term(out, names, slot)?;
    push_bytes(out, b"->")?;
    push_var(out, names, var)?;
    push_bytes(out, b"])")?;
    Ok(())
}

// Appends a declaration of an object that is made anew.
fn push_new(out: &mut Vec<u8>, names: &[Text], var: u32) -> Result<(), OutOfMemory>
    ensures { (gap : Gap) (rest : List Spelled) →
        OnOk result (out.new.items ++ (gap_text gap ++ spelled_text rest)
        ≡ out.old.items ++ spelled_text (new_spelling names.now var gap rest)) }
{
    push_bytes(out, b"(")?;
    push_var(out, names, var)?;
    push_bytes(out, b" New())")?;
    Ok(())
}

fn push_decl(out: &mut Vec<u8>, names: &[Text], decl: &Decl) -> Result<(), OutOfMemory>
    ensures { (gap : Gap) (rest : List Spelled) →
        OnOk result (out.new.items ++ (gap_text gap ++ spelled_text rest)
        ≡ out.old.items ++ spelled_text (decl_spelling names.now decl.now gap rest)) }
{
    match decl {
        Decl::Slot { var, object, slot } => push_slot(out, names, *var, object, slot)?,
        Decl::New { var } => push_new(out, names, *var)?,
    }
    Ok(())
}

// Appends the declarations, each with a space behind it.
fn push_decls(out: &mut Vec<u8>, names: &[Text], decls: &[Decl]) -> Result<(), OutOfMemory>
    ensures { (rest : List Spelled) →
        OnOk result (out.new.items ++ spelled_text rest
        ≡ out.old.items ++ spelled_text (spaced (map (decl_spelling names.now) decls.now) rest)) }
{
    for decl in decls {
        push_decl(out, names, decl)?;
        push_bytes(out, b" ")?;
    }
    Ok(())
}

pub fn push_block(out: &mut Vec<u8>, rule: &Rule) -> Result<(), OutOfMemory>
    ensures { (rest : List Spelled) →
        OnOk result (out.new.items ++ spelled_text rest
        ≡ out.old.items ++ spelled_text (block_spelling rule.now rest)) }
{
    push_bytes(out, b"Do(")?;
    push_decls(out, rule.names.as_slice(), rule.decls.as_slice())?;
    push_actions(out, rule.names.as_slice(), rule.actions.as_slice())?;
    push_bytes(out, b")")?;
    Ok(())
}
