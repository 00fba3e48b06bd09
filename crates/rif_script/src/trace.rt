//! The text of a run.
ghost use Rattle.std.specs.Prelude.{◌≡◌, ◌++◌, OnErr, OnOk, Some, codes};
ghost use Rattle.std.specs.List.{flat_map};
ghost use Rattle.std.specs.Option.{option_copied};
ghost use Rattle.rif_script.specs.Lines.{entry_line};
ghost use Rattle.rif_values.specs.Bindings.{value_at};
ghost use Rattle.safe_rules.specs.SafeRules.{rule_of};
ghost use Rattle.rif_script.specs.Trace.{bound_text, text_of_variable, row_text, act_word, pick_text, fact_line};
ghost use Rattle.rif_script.specs.Trace.{effect_text, act_text, turn_text, turns_text, firing_count, end_line};
ghost use Rattle.rif_script.specs.Trace.{run_text};

use crate::job::Job;
use crate::lines::{push_entry_lines, push_name, push_number};
use rif_values::{Binding, Fact, Instance, OutOfMemory, push_const, push_fact};
use safe_rules::SafeRule;
use session_states::{Act, Effect, Entry, Turn};
use std::alloc::Global;

/// Appends the text of a run: its turns, the entries that are left, and the number of facts at the end.
/// After want of memory `out` is as before. The cost is the text's length.
///
/// Source: our own (docs/FORMATS.md, "The trace").
pub fn write_run(
    alloc: Global,
    out: &mut Vec<u8>,
    job: &Job,
    turns: &[Turn],
    left: &[Entry],
    facts: usize,
) -> Result<(), OutOfMemory>
    ensures ok { OnOk result (out.new.items ≡ out.old.items ++ run_text job.now turns.now left.now facts) }
    ensures err { OnErr result (out.new.items ≡ out.old.items) }
{
    let mut text = Vec::new(alloc);
    push_turns(&mut text, job, turns)?;
    push_entry_lines(&mut text, b"left", job.names.as_slice(), left)?;
    push_end(&mut text, turns, facts)?;
    out.extend_from_slice(text.as_slice())?;
    Ok(())
}

fn push_turns(out: &mut Vec<u8>, job: &Job, turns: &[Turn]) -> Result<(), OutOfMemory>
    ensures { OnOk result (out.new.items ≡ out.old.items ++ turns_text job.now 1 turns.now) }
{
    for (before, turn) in turns.iter().enumerate() {
        push_turn(out, job, before + 1, turn)?;
    }
    Ok(())
}

fn push_turn(out: &mut Vec<u8>, job: &Job, number: usize, turn: &Turn) -> Result<(), OutOfMemory>
    ensures { OnOk result (out.new.items ≡ out.old.items ++ turn_text job.now number turn.now) }
{
    out.extend_from_slice(b"turn ")?;
    push_number(out, number as u64)?;
    out.push(b'\n')?;
    push_entry_lines(out, b"in", job.names.as_slice(), turn.batch.entries())?;
    push_act(out, job.doc.rules(), turn)
}

// Appends what a turn's act, pick and effect show.
fn push_act(out: &mut Vec<u8>, rules: &[SafeRule], turn: &Turn) -> Result<(), OutOfMemory>
    ensures { OnOk result (out.new.items ≡ out.old.items ++ act_text rules.now turn.now) }
{
    push_word(out, turn.act)?;
    push_pick(out, rules, &turn.pick)?;
    out.push(b'\n')?;
    push_effect(out, &turn.effect)
}

fn push_word(out: &mut Vec<u8>, act: Option<Act>) -> Result<(), OutOfMemory>
    ensures { OnOk result (out.new.items ≡ out.old.items ++ act_word act) }
{
    match act {
        Some(act) => Ok(out.extend_from_slice(word(act))?),
        None => Ok(()),
    }
}

// The word of an act.
fn word(act: Act) -> &'static [u8]
    ensures { result.now ≡ act_word (Some act) }
{
    match act {
        Act::Idle => b"idle",
        Act::Halted => b"halted",
        Act::Disposed => b"disposed",
        Act::Fired => b"fired",
        Act::StoppedQuiet => b"quiet",
        Act::StoppedLimit => b"limit",
        Act::Resting => b"rest",
    }
}

fn push_pick(
    out: &mut Vec<u8>,
    rules: &[SafeRule],
    pick: &Option<Instance>,
) -> Result<(), OutOfMemory>
    ensures { OnOk result (out.new.items ≡ out.old.items ++ pick_text rules.now pick.now) }
{
    let Some(pick) = pick else {
        return Ok(());
    };
    out.push(b' ')?;
    push_number(out, u64::from(pick.rule))?;
    match rule_of(rules, pick.rule) {
        Some(rule) => push_row(out, rule, &pick.row),
        None => Ok(()),
    }
}

// The rule of a number, counted from 1, where there is one.
fn rule_of(rules: &[SafeRule], number: u32) -> Option<&SafeRule>
    ensures { option_copied result ≡ rule_of rules.now number }
{
    match number.checked_sub(1) {
        Some(place) => rules.get(place as usize),
        None => None,
    }
}

// Appends the names and values of a rule's `Forall` variables.
#[tactic(auto, using(crate::proofs::RowLemmas::row_is_shown))]
fn push_row(out: &mut Vec<u8>, rule: &SafeRule, row: &Binding) -> Result<(), OutOfMemory>
    ensures { OnOk result (out.new.items ≡ out.old.items ++ row_text (Some rule.now) row.now) }
{
    for var in 0..rule.head_vars {
        push_variable(out, rule, row, var)?;
    }
    Ok(())
}

fn push_variable(
    out: &mut Vec<u8>,
    rule: &SafeRule,
    row: &Binding,
    var: u32,
) -> Result<(), OutOfMemory>
    ensures { OnOk result (out.new.items ≡ out.old.items ++ text_of_variable rule.now row.now var) }
{
    out.extend_from_slice(b" ?")?;
    push_name(out, rule.names.as_slice(), var)?;
    out.push(b'=')?;
    push_value(out, row, var)
}

fn push_value(out: &mut Vec<u8>, row: &Binding, var: u32) -> Result<(), OutOfMemory>
    ensures { OnOk result (out.new.items ≡ out.old.items ++ bound_text (value_at row.now var)) }
{
    match row.get(var) {
        Some(value) => push_const(out, value),
        None => Ok(()),
    }
}

fn push_effect(out: &mut Vec<u8>, effect: &Effect) -> Result<(), OutOfMemory>
    ensures { OnOk result (out.new.items ≡ out.old.items ++ effect_text effect.now) }
{
    match effect {
        Effect::None => Ok(()),
        Effect::Void => {
            out.extend_from_slice(b"void\n")?;
            Ok(())
        }
        Effect::Net(delta) => {
            push_fact_lines(out, b"- ", delta.removed.as_slice())?;
            push_fact_lines(out, b"+ ", delta.added.as_slice())
        }
    }
}

fn push_fact_lines(out: &mut Vec<u8>, sign: &[u8], facts: &[Fact]) -> Result<(), OutOfMemory>
    ensures { OnOk result (out.new.items ≡ out.old.items ++ flat_map (fact_line sign.now) facts.now) }
{
    for fact in facts {
        out.extend_from_slice(sign)?;
        push_fact(out, fact)?;
        out.push(b'\n')?;
    }
    Ok(())
}

fn push_end(out: &mut Vec<u8>, turns: &[Turn], facts: usize) -> Result<(), OutOfMemory>
    ensures { OnOk result (out.new.items ≡ out.old.items ++ end_line turns.now facts) }
{
    out.extend_from_slice(b"end turns ")?;
    push_number(out, turns.len() as u64)?;
    out.extend_from_slice(b" firings ")?;
    push_number(out, firings(turns) as u64)?;
    out.extend_from_slice(b" facts ")?;
    push_number(out, facts as u64)?;
    out.push(b'\n')?;
    Ok(())
}

fn firings(turns: &[Turn]) -> usize
    ensures { result ≡ firing_count turns.now }
{
    let mut count = 0;
    for turn in turns {
        if let Some(Act::Fired) = turn.act {
            count += 1;
        }
    }
    count
}
