//! Each call on small values that were worked by hand.
use crate::reading::{changes_of, doc_of, facts_of};
use crate::showing::{delta_text, facts_text, history_text, show_facts, show_row};
use prd_relation::{Plain, choose_plain};
use rif_facts::{Facts, Key};
use rif_match::{list_instances, matches};
use rif_refusals::Fault;
use rif_values::{Binding, Const, OutOfMemory, Text};
use safe_rules::SafeDoc;
use std::alloc::Global;
use std::test::Fail;

/// Changes that lead to the state of the tests below, one of them done twice.
static STATE: &str = "a assert _y # _C\na assert _x[_s->_b]\na assert _x # _C\n\
    a assert _p(_x)\na assert _x[_s->_a]\na assert _y # _C\n";

#[test]
fn a_state_has_its_facts_in_order_each_once(rt: HostRuntime) -> Result<(), Fail> {
    let alloc = rt.alloc();
    let state = facts_of(alloc, STATE)?;
    let shown = facts_text(alloc, &state.copy(alloc)?)?;
    let wanted = "_p(_x) _x[_s->_a] _x[_s->_b] _x # _C _y # _C ";
    assert_eq!(rt; str::from_utf8(shown.as_slice())?, wanted);
    Ok(())
}

/// A change of the state, and what it removes and adds.
static CHANGES: &[(&str, &str)] = &[
    ("assert _y # _C", ""),
    ("assert _y # _B", "+_y # _B "),
    ("retract _x # _D", ""),
    ("retract _x # _C", "-_x # _C "),
    ("retract _x _s", "-_x[_s->_a] -_x[_s->_b] "),
    ("retract _x", "-_x[_s->_a] -_x[_s->_b] -_x # _C "),
    ("modify _x[_s->_b]", "-_x[_s->_a] "),
    ("modify _y[_s->_b]", "+_y[_s->_b] "),
];

#[test]
fn a_change_removes_and_adds_facts(rt: HostRuntime) -> Result<(), Fail> {
    let alloc = rt.alloc();
    for (change, wanted) in CHANGES {
        let mut state = facts_of(alloc, STATE)?;
        let line = format!(in alloc; "a {change}")?;
        let changes = changes_of(alloc, line.as_str())?;
        let planned = delta_text(alloc, &state.delta(alloc, changes.as_slice())?)?;
        assert_eq!(rt; str::from_utf8(planned.as_slice())?, *wanted, "{change}");
        let done = delta_text(alloc, &state.apply(alloc, changes.as_slice())?)?;
        assert_eq!(rt; str::from_utf8(done.as_slice())?, *wanted, "{change}");
        let after = facts_of(alloc, format!(in alloc; "{STATE}{line}\n")?.as_str())?;
        assert_eq!(rt; state.len(), after.len(), "{change}");
        assert_eq!(rt;
            facts_text(alloc, &state)?.as_slice(),
            facts_text(alloc, &after)?.as_slice(),
            "{change}"
        );
    }
    Ok(())
}

/// Facts of each kind that share their names.
static SHARED: &str =
    "a assert _a(1)\na assert _a(_b 2)\na assert _b(1)\na assert _a[_a->1]\na assert _a[_b->2]\n\
    a assert _a[_b->1]\na assert _b[_a->3]\na assert _a # _b\na assert _b # _a\na assert _c # _b\n";

/// A key, and what it names of them.
static KEYS: &[(&str, &str)] = &[
    ("the atoms of _a", "_a(1) _a(_b 2) "),
    ("the slot _a", "_a[_a->1] _b[_a->3] "),
    ("the object _a and its slot _a", "_a[_a->1] "),
    ("the object _a", "_a[_a->1] _a[_b->1] _a[_b->2] _a # _b "),
    ("the class _a", "_b # _a "),
    ("all frames", "_a[_a->1] _a[_b->1] _a[_b->2] _b[_a->3] "),
    ("all memberships", "_a # _b _b # _a _c # _b "),
];

#[test]
fn keys_name_their_facts(rt: HostRuntime) -> Result<(), Fail> {
    let alloc = rt.alloc();
    let state = facts_of(alloc, SHARED)?;
    for (key, wanted) in KEYS {
        let shown = named_by(alloc, &state, key)?;
        assert_eq!(rt; str::from_utf8(shown.as_slice())?, *wanted, "{key}");
    }
    Ok(())
}

fn named_by(alloc: Global, state: &Facts, key: &str) -> Result<Vec<u8>, OutOfMemory> {
    let name = Const::Local(Text::from_str(alloc, "a")?);
    let facts = state.candidates(alloc, &key_of(key, name)?)?;
    let mut shown = Vec::new(alloc);
    show_facts(alloc, &mut shown, "", facts.as_slice())?;
    Ok(shown)
}

fn key_of(key: &str, name: Const) -> Result<Key, OutOfMemory> {
    match key {
        "the atoms of _a" => Ok(Key::Predicate(name)),
        "the slot _a" => Ok(Key::Slot(name)),
        "the object _a and its slot _a" => Ok(Key::ObjectSlot(name.copy()?, name)),
        "the object _a" => Ok(Key::Object(name)),
        "the class _a" => Ok(Key::Class(name)),
        "all frames" => Ok(Key::Frames),
        _ => Ok(Key::Members),
    }
}

#[test]
fn room_is_used_by_the_change_that_it_was_made_for(rt: HostRuntime) -> Result<(), Fail> {
    let alloc = rt.alloc();
    let mut state = facts_of(alloc, STATE)?;
    let before = facts_text(alloc, &state)?;
    let added = changes_of(alloc, "a assert _z # _C\n")?;
    let unused = state.delta(alloc, added.as_slice())?;
    state.reserve(alloc, &unused)?;
    assert_eq!(rt; facts_text(alloc, &state)?.as_slice(), before.as_slice());
    let moved = changes_of(alloc, "a retract _x\na assert _w # _C\n")?;
    let delta = state.delta(alloc, moved.as_slice())?;
    let room = state.reserve(alloc, &delta)?;
    assert_eq!(rt; facts_text(alloc, &state)?.as_slice(), before.as_slice());
    state.commit(room);
    let after = facts_of(
        alloc,
        format!(in alloc; "{STATE}a retract _x\na assert _w # _C\n")?.as_str(),
    )?;
    assert_eq!(rt;
        facts_text(alloc, &state)?.as_slice(),
        facts_text(alloc, &after)?.as_slice()
    );
    Ok(())
}

const ALWAYS: &str = "If And()";

const OF_C_WITHOUT_P: &str = "Forall ?x (If And(?x # _C Not(_p(?x)))";

/// A rule up to its block, a second one, and the rows that the instances of the first extend to under the condition
/// of the second.
static CONDITIONS: &[(&str, &str, &str)] = &[
    (ALWAYS, "Forall ?x (If ?x # _C", "_x, _y, "),
    (OF_C_WITHOUT_P, "Forall ?x (If ?x # _C", "_y, "),
    (OF_C_WITHOUT_P, "Forall ?x (If _p(?x)", ""),
    (ALWAYS, "Forall ?x (If Or(?x # _C _p(?x))", "_x, _y, "),
    (
        "Forall ?x (If ?x # _C",
        "Forall ?x ?y (If And(?x # _C ?y # _C)",
        "_x,_x, _x,_y, _y,_x, _y,_y, ",
    ),
    (
        "Forall ?x (If _p(?x)",
        "Forall ?x ?y (If ?x[_s->?y]",
        "_x,_a, _x,_b, ",
    ),
    (
        ALWAYS,
        "Forall ?x (If And(?x # _C Exists ?z (?x[_s->?z]))",
        "_x, ",
    ),
    (
        "Forall ?x ?y (If ?x[_s->?y]",
        "Forall ?x ?y (If And(?y = _b ?x # _C)",
        "_x,_b, ",
    ),
];

#[test]
fn rows_satisfy_conditions(rt: HostRuntime) -> Result<(), Fail> {
    let alloc = rt.alloc();
    let facts = facts_of(alloc, STATE)?;
    for (first, second, wanted) in CONDITIONS {
        let mut shown = Vec::new(alloc);
        let second = rule_with(alloc, second)?;
        for instance in list_instances(alloc, &rule_with(alloc, first)?, &facts)?.as_slice() {
            show_longer(alloc, &mut shown, &facts, &second, &instance.row)?;
        }
        assert_eq!(rt; str::from_utf8(shown.as_slice())?, *wanted, "{first}");
    }
    Ok(())
}

// The document of the rule that begins so.
fn rule_with(alloc: Global, front: &str) -> Result<SafeDoc, Fault> {
    let end = if front.starts_with("Forall") { ")" } else { "" };
    let rule = format!(in alloc; "{front} Then Do(Assert(_p())){end}")?;
    doc_of(alloc, rule.as_str())
}

// Appends the rows that extend a row and satisfy the conditions of the document's rules.
fn show_longer(
    alloc: Global,
    out: &mut Vec<u8>,
    facts: &Facts,
    doc: &SafeDoc,
    row: &Binding,
) -> Result<(), Fault> {
    for rule in doc.rules() {
        for longer in matches(alloc, facts, row, &rule.condition)?.as_slice() {
            show_row(alloc, out, longer)?;
        }
    }
    Ok(())
}

/// Two rules, of which the second has the higher priority.
static RULES: &str = "Forall ?x (If ?x # _C Then Do(Assert(_q(?x)))) \
    Group 5 (Forall ?x (If _p(?x) Then Do(Assert(_r(?x)))))";

/// The conflict sets of histories that stay at one state, where each chosen instance is picked: the instances with
/// their ages, and those that are refracted.
static HISTORY: &[&str] = &[
    "1 1:_x, 1 1:_y, 1 2:_x, ",
    "2 1:_x, 2 1:_y, !2 2:_x, ",
    "!3 1:_x, 3 1:_y, !3 2:_x, ",
    "!4 1:_x, !4 1:_y, !4 2:_x, ",
];

#[test]
fn a_history_marks_its_instances_and_one_is_chosen(rt: HostRuntime) -> Result<(), Fail> {
    let alloc = rt.alloc();
    let doc = doc_of(alloc, RULES)?;
    let facts = facts_of(alloc, STATE)?;
    let mut history = Plain::start(alloc, &doc)?;
    for wanted in HISTORY {
        let pick = choose_plain(&doc, &history)?;
        history.push(alloc, &doc, &facts, pick)?;
        let shown = history_text(alloc, &history)?;
        assert_eq!(rt; str::from_utf8(shown.as_slice())?, *wanted);
    }
    assert!(rt; choose_plain(&doc, &history)?.is_none());
    Ok(())
}
