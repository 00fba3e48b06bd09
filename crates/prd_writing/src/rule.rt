//! Rules and documents as text, in the form that `term.rt` has.
ghost use Rattle.std.specs.Prelude.{◌≡◌, ◌++◌, ◌∷◌, [], List, ℕ, OnOk, OnErr};
ghost use Rattle.std.specs.Fmt.{signed_decimal};
ghost use Rattle.rif_lex.specs.Spelling.{Spelled, joined, spelled_text};
ghost use Rattle.prd_writing.specs.Canonical.{condition_spelling, block_spelling, such_spelling, level_spelling};
ghost use Rattle.prd_writing.specs.Canonical.{levels_spelling, rule_spelling, group_spelling, groups_spelling};
ghost use Rattle.prd_writing.specs.Canonical.{rules_spelling, canonical_text, closing, if_spelling};
ghost use Rattle.prd_writing.specs.Canonical.{some_such_spelling, some_rules_spelling};

use crate::action::push_block;
use crate::formula::{push_formula, push_such_that, push_vars};
use crate::term::push_bytes;
use itoa::Buffer;
use rif_tree::{Doc, Formula, Level, Rule};
use rif_values::{OutOfMemory, Text};
use std::alloc::Global;

/// Appends the canonical text of a document. After want of memory `out` is as before. A variable that is no place
/// in its rule's names is written as a `?` alone; such a text isn't read back. The cost is the text's length.
///
/// Source: our own (docs/FORMATS.md, "Canonical text").
pub fn write_doc(alloc: Global, out: &mut Vec<u8>, doc: &Doc) -> Result<(), OutOfMemory>
    ensures ok { OnOk result (out.new.items ≡ out.old.items ++ canonical_text doc.now) }
    ensures err { OnErr result (out.new.items ≡ out.old.items) }
{
    let mut text = Vec::new(alloc);
    push_rules(&mut text, doc.rules.as_slice())?;
    out.extend_from_slice(text.as_slice())?;
    Ok(())
}

fn push_rules(out: &mut Vec<u8>, rules: &[Rule]) -> Result<(), OutOfMemory>
    ensures { OnOk result (out.new.items ≡ out.old.items ++ spelled_text (rules_spelling rules.now)) }
{
    if rules.is_empty() {
        out.extend_from_slice(b"Document()\n")?;
        return Ok(());
    }
    push_some_rules(out, rules)
}

// Appends the document of some rules, of which there is one at least.
fn push_some_rules(out: &mut Vec<u8>, rules: &[Rule]) -> Result<(), OutOfMemory>
    ensures { OnOk result (out.new.items ≡ out.old.items ++ spelled_text (some_rules_spelling rules.now)) }
{
    push_bytes(out, b"Document(Group(\n")?;
    push_groups(out, rules)?;
    push_bytes(out, b"))\n")?;
    Ok(())
}

// Appends a line for each rule.
fn push_groups(out: &mut Vec<u8>, rules: &[Rule]) -> Result<(), OutOfMemory>
    ensures { (rest : List Spelled) →
        OnOk result (out.new.items ++ spelled_text rest
        ≡ out.old.items ++ spelled_text (groups_spelling rules.now rest)) }
{
    for rule in rules {
        push_group(out, rule)?;
    }
    Ok(())
}

// Appends a rule in a group of its priority.
fn push_group(out: &mut Vec<u8>, rule: &Rule) -> Result<(), OutOfMemory>
    ensures { (rest : List Spelled) →
        OnOk result (out.new.items ++ spelled_text rest
        ≡ out.old.items ++ spelled_text (group_spelling rule.now rest)) }
{
    push_bytes(out, b"Group ")?;
    push_priority(out, rule.priority)?;
    push_bytes(out, b"(")?;
    push_levels(out, rule, rule.levels.as_slice())?;
    push_bytes(out, b")\n")?;
    Ok(())
}

fn push_priority(out: &mut Vec<u8>, priority: i32) -> Result<(), OutOfMemory>
    ensures { (rest : List ℕ) →
        OnOk result (out.new.items ++ rest ≡ out.old.items ++ (signed_decimal priority ++ rest)) }
{
    let mut number = Buffer::new();
    out.extend_from_slice(number.format(priority).as_bytes())?;
    Ok(())
}

// Appends the levels round the rule's condition and block.
#[cycle(levels_writing)]
fn push_levels(out: &mut Vec<u8>, rule: &Rule, levels: &[Level]) -> Result<(), OutOfMemory>
    ensures { (rest : List Spelled) →
        OnOk result (out.new.items ++ spelled_text rest
        ≡ out.old.items ++ spelled_text (levels_spelling rule.now levels.now rest)) }
{
    match levels.split_first() {
        None => push_inner(out, rule)?,
        Some((level, more)) => push_around(out, rule, level, more)?,
    }
    Ok(())
}

// Appends one level with those inside it.
#[cycle(levels_writing)]
fn push_around(
    out: &mut Vec<u8>,
    rule: &Rule,
    level: &Level,
    more: &[Level],
) -> Result<(), OutOfMemory>
    ensures { (rest : List Spelled) →
        OnOk result (out.new.items ++ spelled_text rest
        ≡ out.old.items ++ spelled_text
        (level_spelling rule.now.names level.now (levels_spelling rule.now more.now (closing joined ∷ rest)))) }
{
    push_level(out, rule.names.as_slice(), level)?;
    push_levels(out, rule, more)?;
    push_bytes(out, b")")?;
    Ok(())
}

// Appends a `Forall` up to the bracket of its inner rule.
fn push_level(out: &mut Vec<u8>, names: &[Text], level: &Level) -> Result<(), OutOfMemory>
    ensures { (rest : List Spelled) →
        OnOk result (out.new.items ++ spelled_text rest
        ≡ out.old.items ++ spelled_text (level_spelling names.now level.now rest)) }
{
    push_bytes(out, b"Forall ")?;
    push_vars(out, names, level.vars.as_slice())?;
    push_such(out, names, level.such_that.as_slice())?;
    push_bytes(out, b"(")?;
    Ok(())
}

fn push_such(out: &mut Vec<u8>, names: &[Text], formulas: &[Formula]) -> Result<(), OutOfMemory>
    ensures { (rest : List Spelled) →
        OnOk result (out.new.items ++ spelled_text rest
        ≡ out.old.items ++ spelled_text (such_spelling names.now formulas.now rest)) }
{
    if !formulas.is_empty() {
        push_some_such(out, names, formulas)?;
    }
    Ok(())
}

fn push_some_such(
    out: &mut Vec<u8>,
    names: &[Text],
    formulas: &[Formula],
) -> Result<(), OutOfMemory>
    ensures { (rest : List Spelled) →
        OnOk result (out.new.items ++ spelled_text rest
        ≡ out.old.items ++ spelled_text (some_such_spelling names.now formulas.now rest)) }
{
    push_bytes(out, b"such that ")?;
    push_such_that(out, names, formulas)?;
    Ok(())
}

// Appends the rule's condition and block.
fn push_inner(out: &mut Vec<u8>, rule: &Rule) -> Result<(), OutOfMemory>
    ensures { (rest : List Spelled) →
        OnOk result (out.new.items ++ spelled_text rest
        ≡ out.old.items ++ spelled_text (levels_spelling rule.now [] rest)) }
{
    push_condition(out, rule.names.as_slice(), &rule.condition)?;
    push_block(out, rule)?;
    Ok(())
}

fn push_condition(
    out: &mut Vec<u8>,
    names: &[Text],
    condition: &Option<Formula>,
) -> Result<(), OutOfMemory>
    ensures { (rest : List Spelled) →
        OnOk result (out.new.items ++ spelled_text rest
        ≡ out.old.items ++ spelled_text (condition_spelling names.now condition.now rest)) }
{
    match condition {
        Some(formula) => push_if(out, names, formula)?,
        None => {}
    }
    Ok(())
}

fn push_if(out: &mut Vec<u8>, names: &[Text], formula: &Formula) -> Result<(), OutOfMemory>
    ensures { (rest : List Spelled) →
        OnOk result (out.new.items ++ spelled_text rest
        ≡ out.old.items ++ spelled_text (if_spelling names.now formula.now rest)) }
{
    push_bytes(out, b"If ")?;
    push_formula(out, names, formula)?;
    push_bytes(out, b" Then ")?;
    Ok(())
}
