ghost use Rattle.std.specs.Prelude.{◌≡◌, IfOk};
ghost use Rattle.rif_values.specs.Facts.{same_const};
ghost use Rattle.rif_values.specs.Order.{const_cmp};

use crate::integer::Integer;
use crate::out_of_memory::OutOfMemory;
use crate::text::Text;
use std::alloc::AllocError;
use std::cmp::Ordering;

/// A constant of RIF. They are ordered by kind, as the kinds stand here, and within a kind by value
/// or bytes.
///
/// Source: RIF-PRD, "Terms"; the order is our own (docs/PROFILE.md, "Order").
#[derive(Debug, PartialEq, Eq, PartialOrd, Ord, Hash, Drop)]
pub enum Const {
    /// An `xs:integer`.
    Int(Integer),
    /// An `xs:boolean`.
    Bool(bool),
    /// An `xs:string`.
    Str(Text),
    /// A `rif:iri`.
    Iri(Text),
    /// A `rif:local`, without its `_`.
    Local(Text),
    /// The object that an action made as the one of this number, counted from 0.
    Fresh(u64),
}

impl Const {
    /// The order of constants: the kind first, then value or bytes.
    ///
    /// Source: our own (docs/PROFILE.md, "Order").
    pub fn cmp(&self, other: &Const) -> Ordering
        ensures { result ≡ const_cmp self.now other.now }
    {
        Ord::cmp(self, other)
    }

    /// An equal constant, in constant time.
    pub fn copy(&self) -> Result<Const, OutOfMemory>
        ensures { IfOk result (λ copy. copy ≡ self.now) }
    {
        Ok(self.clone()?)
    }
}

impl Clone for Const {
    ghost is_clone = { λ constant copy. copy ≡ constant };

    fn clone(&self) -> Result<Const, AllocError> {
        match self {
            Const::Int(number) => Ok(Const::Int(*number)),
            Const::Bool(truth) => Ok(Const::Bool(*truth)),
            Const::Str(text) => Ok(Const::Str(text.clone()?)),
            Const::Iri(text) => Ok(Const::Iri(text.clone()?)),
            Const::Local(text) => Ok(Const::Local(text.clone()?)),
            Const::Fresh(number) => Ok(Const::Fresh(*number)),
        }
    }
}

/// Whether two constants are the same. It compares them once, texts byte by byte.
pub fn are_same(one: &Const, other: &Const) -> bool
    ensures { result ≡ same_const one.now other.now }
{
    one.cmp(other).is_eq()
}
