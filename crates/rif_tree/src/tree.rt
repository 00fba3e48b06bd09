//! The tree of a document. In it a variable is its place, counted from 0, in its rule's names.
//!
//! Lists are `Items` and a formula inside a formula is `Boxed`, so that contracts see a tree as plain data.
ghost use Rattle.std.specs.Prelude.{◌≡◌, IfOk};

use crate::builtin::{Func, Pred};
use crate::copying::{CopyIn, copy_items};
use rif_values::{Const, OutOfMemory, Text};
use sqlite_items::{Boxed, Items};
use std::alloc::Global;

/// A term.
///
/// Source: RIF-PRD, "Terms".
#[derive(Debug, Drop)]
pub enum Term {
    Const(Const),
    /// A variable, by its place.
    Var(u32),
    /// A built-in function of some arguments.
    Call(Func, Items<Term>),
}

impl Term {
    /// An equal term. It visits the whole term, as deep as it is.
    #[cycle(term_copy)]
    pub fn copy(&self, alloc: Global) -> Result<Term, OutOfMemory>
        ensures { IfOk result (λ copy. copy ≡ self.now) }
    {
        match self {
            Term::Const(constant) => Ok(Term::Const(constant.copy()?)),
            Term::Var(var) => Ok(Term::Var(*var)),
            Term::Call(func, arguments) => {
                Ok(Term::Call(*func, copy_terms(alloc, arguments.as_slice())?))
            }
        }
    }
}

#[cycle(term_copy)]
fn copy_terms(alloc: Global, terms: &[Term]) -> Result<Items<Term>, OutOfMemory>
    ensures { IfOk result (λ copy. copy ≡ terms.now) }
{
    let mut items = Vec::new(alloc);
    for term in terms {
        items.push(term.copy(alloc)?)?;
    }
    Ok(Items::from_vec(items))
}

impl CopyIn for Term {
    fn copy_in(&self, alloc: Global) -> Result<Term, OutOfMemory> {
        self.copy(alloc)
    }
}

impl CopyIn for (Term, Term) {
    fn copy_in(&self, alloc: Global) -> Result<(Term, Term), OutOfMemory> {
        Ok((self.0.copy(alloc)?, self.1.copy(alloc)?))
    }
}

/// A condition formula.
///
/// Source: RIF-PRD, "Formulas".
#[derive(Debug, Drop)]
pub enum Formula {
    And(Items<Formula>),
    Or(Items<Formula>),
    /// Negation as inflationary negation, which the presentation syntax spells `Not` or `INeg`.
    Not(Boxed<Formula>),
    /// Some variables, and the formula in which they hold.
    Exists(Items<u32>, Boxed<Formula>),
    Equal(Term, Term),
    /// An object and its class.
    Member(Term, Term),
    /// An object, and pairs of a slot and its value.
    Frame(Term, Items<(Term, Term)>),
    /// A predicate and its arguments.
    Atom(Const, Items<Term>),
    /// A built-in predicate of some arguments.
    Holds(Pred, Items<Term>),
}

impl Formula {
    /// An equal formula. It visits the whole formula, as deep as it is.
    #[cycle(formula_copy)]
    pub fn copy(&self, alloc: Global) -> Result<Formula, OutOfMemory>
        ensures { IfOk result (λ copy. copy ≡ self.now) }
    {
        match self {
            Formula::And(members) => Ok(Formula::And(copy_formulas(alloc, members.as_slice())?)),
            Formula::Or(branches) => Ok(Formula::Or(copy_formulas(alloc, branches.as_slice())?)),
            Formula::Not(inner) => {
                Ok(Formula::Not(Boxed::new(alloc, inner.get().copy(alloc)?)?))
            }
            Formula::Exists(vars, inner) => {
                let vars = Items::from_slice(alloc, vars.as_slice())?;
                Ok(Formula::Exists(vars, Boxed::new(alloc, inner.get().copy(alloc)?)?))
            }
            Formula::Equal(left, right) => Ok(Formula::Equal(
                left.copy(alloc)?,
                right.copy(alloc)?,
            )),
            Formula::Member(object, class) => {
                Ok(Formula::Member(object.copy(alloc)?, class.copy(alloc)?))
            }
            Formula::Frame(object, pairs) => {
                Ok(Formula::Frame(object.copy(alloc)?, copy_items(alloc, pairs.as_slice())?))
            }
            Formula::Atom(predicate, arguments) => {
                Ok(Formula::Atom(predicate.copy()?, copy_terms(alloc, arguments.as_slice())?))
            }
            Formula::Holds(pred, arguments) => {
                Ok(Formula::Holds(*pred, copy_terms(alloc, arguments.as_slice())?))
            }
        }
    }
}

#[cycle(formula_copy)]
fn copy_formulas(alloc: Global, formulas: &[Formula]) -> Result<Items<Formula>, OutOfMemory>
    ensures { IfOk result (λ copy. copy ≡ formulas.now) }
{
    let mut items = Vec::new(alloc);
    for formula in formulas {
        items.push(formula.copy(alloc)?)?;
    }
    Ok(Items::from_vec(items))
}

impl CopyIn for Formula {
    fn copy_in(&self, alloc: Global) -> Result<Formula, OutOfMemory> {
        self.copy(alloc)
    }
}

/// One `Forall` of a rule: its variables, and its `such that` formulas.
///
/// Source: RIF-PRD, "Rules".
#[derive(Debug, Drop)]
pub struct Level {
    pub vars: Items<u32>,
    pub such_that: Items<Formula>,
}

impl Level {
    /// An equal level, at the cost of a copy of its formulas.
    pub fn copy(&self, alloc: Global) -> Result<Level, OutOfMemory>
        ensures { IfOk result (λ copy. copy ≡ self.now) }
    {
        Ok(Level {
            vars: Items::from_slice(alloc, self.vars.as_slice())?,
            such_that: copy_items(alloc, self.such_that.as_slice())?,
        })
    }
}

impl CopyIn for Level {
    fn copy_in(&self, alloc: Global) -> Result<Level, OutOfMemory> {
        self.copy(alloc)
    }
}
