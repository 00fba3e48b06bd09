//! The refusals that stand at a leaf, by the leaves before it.
ghost use Rattle.std.specs.Prelude.{◌≡◌, Some};
ghost use Rattle.prd_recognition.specs.Reached.{counts_seen, progress_seen};
ghost use Rattle.prd_grammar.specs.Refusals.{cause_at, cause_in_rule, has_wrong_arguments, is_action_too_many};
ghost use Rattle.prd_grammar.specs.Refusals.{is_bad_priority, is_bad_strategy, is_forward_chaining, is_name_too_many};
ghost use Rattle.prd_grammar.specs.Refusals.{is_pattern_too_many, is_priority, is_refused_type, is_too_deep};
ghost use Rattle.prd_grammar.specs.Refusals.{is_undeclared, is_unknown, is_wide, is_wrong_arity, place_of_refusal};
ghost use Rattle.prd_grammar.specs.Refusals.{refusal_at, unexpected};
ghost use Rattle.prd_grammar.specs.Progress.{rule_at};

use crate::counting::{RuleReading, has_name};
use crate::progress::{Reading, depth_of};
use crate::signs::is_action;
use prd_grammar::{Bracket, BuiltinName, Cause, Leaf, Literal};
use rif_refusals::limits::{
    MOST_ACTIONS, MOST_OPEN_BRACKETS, MOST_PATTERNS, MOST_PRIORITY, MOST_RULES, MOST_VARIABLES,
};
use rif_refusals::{Counted, Refusal};
use rif_values::Integer;
use std::collections::VecDeque;

// The type of a typed literal is none of the five.
fn is_refused_type(leaf: &Leaf) -> bool
    ensures { result ≡ is_refused_type leaf.now }
{
    match leaf {
        Leaf::TypeName(known) => !*known,
        _ => false,
    }
}

// A bracket opens inside as many as may be open.
fn is_too_deep(brackets: &VecDeque<Bracket>, leaf: &Leaf) -> bool
    ensures { result ≡ is_too_deep brackets.now.items leaf.now }
{
    match leaf {
        Leaf::Open | Leaf::OpenSquare => MOST_OPEN_BRACKETS <= depth_of(brackets) as u64,
        _ => false,
    }
}

// An integer is out of range.
fn is_wide(leaf: &Leaf) -> bool
    ensures { result ≡ is_wide leaf.now }
{
    match leaf {
        Leaf::Int(None) | Leaf::Typed(Literal::Integer(None)) => true,
        _ => false,
    }
}

// A prefix isn't declared.
fn is_undeclared(leaf: &Leaf) -> bool
    ensures { result ≡ is_undeclared leaf.now }
{
    match leaf {
        Leaf::Curie(None) | Leaf::Builtin(BuiltinName::Undeclared) => true,
        _ => false,
    }
}

// A name isn't a built-in's.
fn is_unknown(leaf: &Leaf) -> bool
    ensures { result ≡ is_unknown leaf.now }
{
    match leaf {
        Leaf::Builtin(BuiltinName::Unknown) => true,
        _ => false,
    }
}

// The innermost bracket is that of a built-in that takes another number of arguments.
fn has_wrong_arguments(brackets: &VecDeque<Bracket>) -> bool
    ensures { result ≡ has_wrong_arguments brackets.now.items }
{
    match brackets.front() {
        Some(Bracket::Arguments(builtin, count)) => !builtin.takes(*count),
        _ => false,
    }
}

// The bracket of a built-in's arguments ends, and the built-in takes another number of them.
fn is_wrong_arity(brackets: &VecDeque<Bracket>, leaf: &Leaf) -> bool
    ensures { result ≡ is_wrong_arity brackets.now.items leaf.now }
{
    match leaf {
        Leaf::Close => has_wrong_arguments(brackets),
        _ => false,
    }
}

fn is_forward_chaining(iri: &[u8]) -> bool
    ensures { result ≡ is_forward_chaining iri.now }
{
    iri == b"http://www.w3.org/2007/rif#forwardChaining".as_slice()
}

// The strategy of a group's head isn't `rif:forwardChaining`.
fn is_bad_strategy(in_head: bool, leaf: &Leaf) -> bool
    ensures { result ≡ is_bad_strategy in_head leaf.now }
{
    match leaf {
        Leaf::Iri(iri) | Leaf::Curie(Some(iri)) => in_head && !is_forward_chaining(iri.bytes()),
        _ => false,
    }
}

fn is_priority(priority: Integer) -> bool
    ensures { result ≡ is_priority priority }
{
    -Integer::from(MOST_PRIORITY) <= priority && priority <= Integer::from(MOST_PRIORITY)
}

// The priority of a group's head is out of range.
fn is_bad_priority(in_head: bool, leaf: &Leaf) -> bool
    ensures { result ≡ is_bad_priority in_head leaf.now }
{
    match leaf {
        Leaf::Int(Some(priority)) => in_head && !is_priority(*priority),
        _ => false,
    }
}

// A rule has a variable more than it may have.
fn is_name_too_many(counts: &RuleReading, leaf: &Leaf) -> bool
    ensures { result ≡ is_name_too_many (counts_seen counts.now) leaf.now }
{
    match leaf {
        Leaf::Var(name) => {
            MOST_VARIABLES <= counts.names.len() as u64 && !has_name(&counts.names, name)
        }
        _ => false,
    }
}

// A rule has something more than it may have.
fn cause_in_rule(named: bool, counts: &RuleReading, leaf: &Leaf) -> Option<Cause>
    ensures { result ≡ cause_in_rule named (Some (counts_seen counts.now)) leaf.now }
{
    if is_name_too_many(counts, leaf) {
        Some(Cause::TooMany(Counted::Variables))
    } else if counts.is_pattern(named, leaf) && MOST_PATTERNS <= counts.patterns {
        Some(Cause::TooMany(Counted::Patterns))
    } else if is_action(leaf) && MOST_ACTIONS <= counts.actions {
        Some(Cause::TooMany(Counted::Actions))
    } else {
        None
    }
}

// At the first leaf of a rule it has nothing too many.
fn cause_of_rule(reading: &Reading<'_>, leaf: &Leaf) -> Option<Cause>
    ensures { result ≡ cause_in_rule reading.now.named (rule_at (progress_seen reading.now) leaf.now) leaf.now }
{
    match &reading.rule {
        Some(counts) => cause_in_rule(reading.named, counts, leaf),
        None => None,
    }
}

/// The least refusal that stands at a leaf behind what has been read, but for the grammar's.
///
/// Source: our own (docs/FORMATS.md, "Refusals").
pub fn cause_at(reading: &Reading<'_>, leaf: &Leaf) -> Option<Cause>
    ensures { result ≡ cause_at (progress_seen reading.now) leaf.now }
{
    if is_refused_type(leaf) {
        Some(Cause::LeftOut)
    } else if is_too_deep(&reading.brackets, leaf) {
        Some(Cause::TooDeep)
    } else if is_wide(leaf) {
        Some(Cause::IntRange)
    } else if is_undeclared(leaf) {
        Some(Cause::UnknownPrefix)
    } else if is_unknown(leaf) {
        Some(Cause::UnknownBuiltin)
    } else if is_wrong_arity(&reading.brackets, leaf) {
        Some(Cause::Arity)
    } else if is_bad_strategy(reading.in_head, leaf) {
        Some(Cause::BadStrategy)
    } else if is_bad_priority(reading.in_head, leaf) {
        Some(Cause::PriorityRange)
    } else if reading.is_new_rule(leaf) && MOST_RULES <= reading.rules {
        Some(Cause::TooMany(Counted::Rules))
    } else {
        cause_of_rule(reading, leaf)
    }
}

/// What the grammar refuses: what is left out of the profile, and all else.
pub fn unexpected(leaf: &Leaf) -> Cause
    ensures { result ≡ unexpected leaf.now }
{
    match leaf {
        Leaf::LeftOut => Cause::LeftOut,
        _ => Cause::Expected,
    }
}

/// The refusal for a cause at a line and a column; in constant time.
///
/// Source: our own (docs/FORMATS.md, "Refusals").
pub fn refusal_at(cause: Cause, line: u64, col: u64) -> Refusal
    ensures { result ≡ refusal_at cause line col }
{
    match cause {
        Cause::Expected => Refusal::Expected { line, col },
        Cause::TooDeep => Refusal::TooDeep { line, col },
        Cause::IntRange => Refusal::IntRange { line, col },
        Cause::UnknownPrefix => Refusal::UnknownPrefix { line, col },
        Cause::LeftOut => Refusal::LeftOut { line, col },
        Cause::UnknownBuiltin => Refusal::UnknownBuiltin { line, col },
        Cause::Arity => Refusal::Arity { line, col },
        Cause::BadStrategy => Refusal::BadStrategy { line, col },
        Cause::PriorityRange => Refusal::PriorityRange { line, col },
        Cause::TooMany(what) => Refusal::TooMany { what, line, col },
    }
}

/// The line and the column of a refusal of a document; another refusal has none there. In constant time.
///
/// Source: our own (docs/FORMATS.md, "Refusals").
pub fn place_of_refusal(refusal: &Refusal) -> Option<(u64, u64)>
    ensures { result ≡ place_of_refusal refusal.now }
{
    match refusal {
        Refusal::Expected { line, col }
        | Refusal::TooDeep { line, col }
        | Refusal::IntRange { line, col }
        | Refusal::UnknownPrefix { line, col }
        | Refusal::LeftOut { line, col }
        | Refusal::UnknownBuiltin { line, col }
        | Refusal::Arity { line, col }
        | Refusal::BadStrategy { line, col }
        | Refusal::PriorityRange { line, col }
        | Refusal::TooMany { line, col, .. } => Some((*line, *col)),
        _ => None,
    }
}
