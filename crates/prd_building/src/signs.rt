//! What the leaves at a place begin, as far as the builder looks.
ghost use Rattle.std.specs.Prelude.{◌≡◌, drop, IfOk};
ghost use Rattle.std.specs.Option.{option_copied};
ghost use Rattle.std.specs.List.{slice_get};
ghost use Rattle.prd_building.specs.Signs.{first, leaf_or_end, closes, closes_square, opens, ends_vars, ends_decls};
ghost use Rattle.prd_building.specs.Signs.{ends_such, ends_levels, begins_rule, begins_such, begins_if, begins_new};
ghost use Rattle.prd_building.specs.Signs.{member_sign, action_sign, tail_sign, formula_sign, builtin_sign};
ghost use Rattle.prd_building.specs.Signs.{term_or_atom, is_atom, is_constant, leaf_name, leaf_priority};
ghost use Rattle.prd_building.specs.Signs.{strategy_width, priority_width, leaf_func, term_sign, leaf_const};
ghost use Rattle.prd_building.specs.Signs.{const_width};
ghost use Rattle.prd_grammar.specs.Values.{literal_value, place_of};

use prd_grammar::{Builtin, BuiltinName, Keyword, Leaf, Literal};
use rif_tree::{Func, Pred};
use rif_values::{Const, Integer, OutOfMemory, Text};
use std::alloc::Global;

/// What a term begins with.
#[derive(Clone, Copy)]
pub enum TermSign {
    Variable,
    /// `External` and the function's name.
    Call(Func),
    Constant,
}

/// What a formula begins with.
#[derive(Clone, Copy)]
pub enum FormulaSign {
    And,
    Or,
    /// `Not` or `INeg`.
    Not,
    Exists,
    /// A bracket.
    Grouped,
    /// `External` and the predicate's name.
    Holds(Pred),
    /// A name and the bracket of its arguments.
    Atom,
    Term,
}

/// What goes on behind a first term.
#[derive(Clone, Copy)]
pub enum TailSign {
    Equal,
    Member,
    Pairs,
    /// A bracket closes.
    Close,
    Other,
}

/// What an action begins with.
#[derive(Clone, Copy)]
pub enum ActionSign {
    Assert,
    Retract,
    Modify,
}

/// What a member of a group or of the document begins with.
#[derive(Clone, Copy)]
pub enum MemberSign {
    /// None: the bracket closes.
    Close,
    Prefix,
    Group,
    Rule,
}

/// The place that many leaves further on.
pub fn past(leaves: &[Leaf], at: usize, count: usize) -> usize
    ensures { drop result leaves.now ≡ drop count (drop at leaves.now) }
{
    at.saturating_add(count).min(leaves.len())
}

fn leaf_at(leaves: &[Leaf], at: usize) -> Option<&Leaf>
    ensures { leaf_or_end (option_copied result) ≡ first (drop at leaves.now) }
{
    leaves.get(at)
}

/// Whether a bracket closes there, or the leaves end.
pub fn closes(leaves: &[Leaf], at: usize) -> bool
    ensures { result ≡ closes (drop at leaves.now) }
{
    match leaf_at(leaves, at) {
        None | Some(Leaf::Close) => true,
        _ => false,
    }
}

/// Whether a square bracket closes there.
pub fn closes_square(leaves: &[Leaf], at: usize) -> bool
    ensures { result ≡ closes_square (drop at leaves.now) }
{
    match leaf_at(leaves, at) {
        Some(Leaf::CloseSquare) => true,
        _ => false,
    }
}

/// Whether a bracket opens there.
pub fn opens(leaves: &[Leaf], at: usize) -> bool
    ensures { result ≡ opens (drop at leaves.now) }
{
    match leaf_at(leaves, at) {
        Some(Leaf::Open) => true,
        _ => false,
    }
}

/// Whether no variable stands there.
pub fn ends_vars(leaves: &[Leaf], at: usize) -> bool
    ensures { result ≡ ends_vars (drop at leaves.now) }
{
    match leaf_at(leaves, at) {
        Some(Leaf::Var(_)) => false,
        _ => true,
    }
}

/// Whether no declaration stands there.
pub fn ends_decls(leaves: &[Leaf], at: usize) -> bool
    ensures { result ≡ ends_decls (drop at leaves.now) }
{
    !opens(leaves, at)
}

/// Whether the inner rule's bracket stands there, and no formula.
pub fn ends_such(leaves: &[Leaf], at: usize) -> bool
    ensures { result ≡ ends_such (drop at leaves.now) }
{
    opens(leaves, at) && begins_rule(leaves, past(leaves, at, 1))
}

fn begins_rule(leaves: &[Leaf], at: usize) -> bool
    ensures { result ≡ begins_rule (drop at leaves.now) }
{
    match leaf_at(leaves, at) {
        Some(Leaf::Key(Keyword::Forall | Keyword::If | Keyword::Do)) => true,
        _ => false,
    }
}

/// Whether no `Forall` stands there.
pub fn ends_levels(leaves: &[Leaf], at: usize) -> bool
    ensures { result ≡ ends_levels (drop at leaves.now) }
{
    match leaf_at(leaves, at) {
        Some(Leaf::Key(Keyword::Forall)) => false,
        _ => true,
    }
}

/// Whether `such that` stands there.
pub fn begins_such(leaves: &[Leaf], at: usize) -> bool
    ensures { result ≡ begins_such (drop at leaves.now) }
{
    match leaf_at(leaves, at) {
        Some(Leaf::Key(Keyword::Such)) => true,
        _ => false,
    }
}

/// Whether an `If` stands there.
pub fn begins_if(leaves: &[Leaf], at: usize) -> bool
    ensures { result ≡ begins_if (drop at leaves.now) }
{
    match leaf_at(leaves, at) {
        Some(Leaf::Key(Keyword::If)) => true,
        _ => false,
    }
}

/// Whether a `New` stands there.
pub fn begins_new(leaves: &[Leaf], at: usize) -> bool
    ensures { result ≡ begins_new (drop at leaves.now) }
{
    match leaf_at(leaves, at) {
        Some(Leaf::Key(Keyword::New)) => true,
        _ => false,
    }
}

/// What the member there begins with.
pub fn member_sign(leaves: &[Leaf], at: usize) -> MemberSign
    ensures { result ≡ member_sign (drop at leaves.now) }
{
    match leaf_at(leaves, at) {
        None | Some(Leaf::Close) => MemberSign::Close,
        Some(Leaf::Key(Keyword::Prefix)) => MemberSign::Prefix,
        Some(Leaf::Key(Keyword::Group)) => MemberSign::Group,
        _ => MemberSign::Rule,
    }
}

/// What the action there begins with.
pub fn action_sign(leaves: &[Leaf], at: usize) -> ActionSign
    ensures { result ≡ action_sign (drop at leaves.now) }
{
    match leaf_at(leaves, at) {
        Some(Leaf::Key(Keyword::Retract)) => ActionSign::Retract,
        Some(Leaf::Key(Keyword::Modify)) => ActionSign::Modify,
        _ => ActionSign::Assert,
    }
}

/// What goes on there.
pub fn tail_sign(leaves: &[Leaf], at: usize) -> TailSign
    ensures { result ≡ tail_sign (drop at leaves.now) }
{
    match leaf_at(leaves, at) {
        None | Some(Leaf::Close) => TailSign::Close,
        Some(Leaf::Equal) => TailSign::Equal,
        Some(Leaf::Hash) => TailSign::Member,
        Some(Leaf::OpenSquare) => TailSign::Pairs,
        _ => TailSign::Other,
    }
}

/// What the formula there begins with.
pub fn formula_sign(leaves: &[Leaf], at: usize) -> FormulaSign
    ensures { result ≡ formula_sign (drop at leaves.now) }
{
    match leaf_at(leaves, at) {
        Some(Leaf::Open) => FormulaSign::Grouped,
        Some(Leaf::Key(Keyword::And)) => FormulaSign::And,
        Some(Leaf::Key(Keyword::Or)) => FormulaSign::Or,
        Some(Leaf::Key(Keyword::Not | Keyword::INeg)) => FormulaSign::Not,
        Some(Leaf::Key(Keyword::Exists)) => FormulaSign::Exists,
        Some(Leaf::Key(Keyword::External)) => builtin_sign(leaves, past(leaves, at, 2)),
        _ => term_or_atom(leaves, at),
    }
}

fn builtin_sign(leaves: &[Leaf], at: usize) -> FormulaSign
    ensures { result ≡ builtin_sign (first (drop at leaves.now)) }
{
    match leaf_at(leaves, at) {
        Some(Leaf::Builtin(BuiltinName::Known(Builtin::Func(_)))) => FormulaSign::Term,
        Some(Leaf::Builtin(BuiltinName::Known(Builtin::Pred(pred)))) => FormulaSign::Holds(*pred),
        _ => FormulaSign::Holds(Pred::NumericEqual),
    }
}

fn term_or_atom(leaves: &[Leaf], at: usize) -> FormulaSign
    ensures { result ≡ term_or_atom (drop at leaves.now) }
{
    if is_atom(leaves, at) {
        FormulaSign::Atom
    } else {
        FormulaSign::Term
    }
}

/// Whether a constant stands there, and the bracket of its arguments behind it.
pub fn is_atom(leaves: &[Leaf], at: usize) -> bool
    ensures { result ≡ is_atom (drop at leaves.now) }
{
    is_constant(leaves, at) && opens(leaves, past(leaves, at, const_width(leaves, at)))
}

fn is_constant(leaves: &[Leaf], at: usize) -> bool
    ensures { result ≡ is_constant (drop at leaves.now) }
{
    match term_sign(leaves, at) {
        TermSign::Constant => true,
        _ => false,
    }
}

/// The place of the variable there among the names, and where it is none of them how many they are.
pub fn variable_at(names: &[Text], leaves: &[Leaf], at: usize) -> Result<u32, OutOfMemory>
    ensures { IfOk result (λ place. place ≡ place_of names.now (leaf_name (first (drop at leaves.now)))) }
{
    match leaf_at(leaves, at) {
        Some(Leaf::Var(name)) => place_of(names, name.bytes()),
        _ => place_of(names, b""),
    }
}

// A place past a `u32`, which no document has, is answered as want of memory.
fn place_of(names: &[Text], name: &[u8]) -> Result<u32, OutOfMemory>
    ensures { IfOk result (λ place. place ≡ place_of names.now name.now) }
{
    let mut place = 0;
    for known in names {
        if known.bytes() == name {
            return Ok(place);
        }
        if place == u32::MAX {
            return Err(OutOfMemory);
        }
        place += 1;
    }
    Ok(place)
}

/// The priority that a group's head gives, where that around it is this one.
///
/// One past an `i32`, which no document has, is answered as want of memory.
pub fn priority_at(around: i32, leaves: &[Leaf], at: usize) -> Result<i32, OutOfMemory>
    ensures { IfOk result (λ priority. priority ≡ leaf_priority around (first (drop at leaves.now))) }
{
    match leaf_at(leaves, at) {
        Some(Leaf::Int(Some(number))) => narrowed(*number),
        _ => Ok(around),
    }
}

fn narrowed(number: Integer) -> Result<i32, OutOfMemory>
    ensures { IfOk result (λ narrow. narrow ≡ number) }
{
    if number < i32::MIN as Integer || number > i32::MAX as Integer {
        return Err(OutOfMemory);
    }
    Ok(number as i32)
}

/// How many leaves a group's strategy is.
pub fn strategy_width(leaves: &[Leaf], at: usize) -> usize
    ensures { result ≡ strategy_width (first (drop at leaves.now)) }
{
    match leaf_at(leaves, at) {
        Some(Leaf::Iri(_) | Leaf::Curie(_)) => 1,
        _ => 0,
    }
}

/// How many leaves a group's priority is.
pub fn priority_width(leaves: &[Leaf], at: usize) -> usize
    ensures { result ≡ priority_width (first (drop at leaves.now)) }
{
    match leaf_at(leaves, at) {
        Some(Leaf::Int(_)) => 1,
        _ => 0,
    }
}

/// What the term there begins with.
pub fn term_sign(leaves: &[Leaf], at: usize) -> TermSign
    ensures { result ≡ term_sign (drop at leaves.now) }
{
    match leaf_at(leaves, at) {
        Some(Leaf::Var(_)) => TermSign::Variable,
        Some(Leaf::Key(Keyword::External)) => TermSign::Call(func_at(leaves, past(leaves, at, 2))),
        _ => TermSign::Constant,
    }
}

fn func_at(leaves: &[Leaf], at: usize) -> Func
    ensures { result ≡ leaf_func (first (drop at leaves.now)) }
{
    match leaf_at(leaves, at) {
        Some(Leaf::Builtin(BuiltinName::Known(Builtin::Func(func)))) => *func,
        _ => Func::NumericAdd,
    }
}

/// The constant there.
pub fn constant_at(alloc: Global, leaves: &[Leaf], at: usize) -> Result<Const, OutOfMemory>
    ensures { IfOk result (λ constant. constant ≡ leaf_const (first (drop at leaves.now))) }
{
    match leaf_at(leaves, at) {
        None => Ok(Const::Bool(false)),
        Some(leaf) => constant_of(alloc, leaf),
    }
}

fn constant_of(alloc: Global, leaf: &Leaf) -> Result<Const, OutOfMemory>
    ensures { IfOk result (λ constant. constant ≡ leaf_const leaf.now) }
{
    match leaf {
        Leaf::Int(Some(number)) => Ok(Const::Int(*number)),
        Leaf::Int(None) => Ok(Const::Int(0)),
        Leaf::Str(text) => Ok(Const::Str(text.copy()?)),
        Leaf::Typed(literal) => literal_constant(alloc, literal),
        Leaf::Iri(text) => Ok(Const::Iri(text.copy()?)),
        Leaf::Curie(Some(text)) => Ok(Const::Iri(text.copy()?)),
        Leaf::Curie(None) => Ok(Const::Iri(Text::from_str(alloc, "")?)),
        Leaf::Local(text) => Ok(Const::Local(text.copy()?)),
        Leaf::Key(Keyword::True) => Ok(Const::Bool(true)),
        _ => Ok(Const::Bool(false)),
    }
}

fn literal_constant(alloc: Global, literal: &Literal) -> Result<Const, OutOfMemory>
    ensures { IfOk result (λ constant. constant ≡ literal_value literal.now) }
{
    match literal {
        Literal::Integer(Some(number)) => Ok(Const::Int(*number)),
        Literal::Integer(None) => Ok(Const::Int(0)),
        Literal::Boolean(truth) => Ok(Const::Bool(*truth)),
        Literal::String(text) => Ok(Const::Str(text.copy()?)),
        Literal::Iri(text) => Ok(Const::Iri(text.copy()?)),
        Literal::Local(text) => Ok(Const::Local(text.copy()?)),
        Literal::OfNoType => Ok(Const::Str(Text::from_str(alloc, "")?)),
    }
}

/// How many leaves the constant there is.
pub fn const_width(leaves: &[Leaf], at: usize) -> usize
    ensures { result ≡ const_width (first (drop at leaves.now)) }
{
    match leaf_at(leaves, at) {
        Some(Leaf::Typed(_)) => 3,
        _ => 1,
    }
}
