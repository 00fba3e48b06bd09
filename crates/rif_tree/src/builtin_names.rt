//! The names of built-ins, and how many arguments they take.
ghost use Rattle.std.specs.Prelude.{◌≡◌, drop, false, IfNone, IfSome, length, true};
ghost use Rattle.rif_tree.specs.BuiltinNames.{func_name, pred_name, func_named, pred_named, builtin_named};
ghost use Rattle.rif_tree.specs.BuiltinNames.{func_namespace, pred_namespace, is_in_namespace};
ghost use Rattle.rif_tree.specs.BuiltinNames.{func_arity, pred_arity, arity_of, takes};

use crate::builtin::{Arity, Builtin, Func, Pred};

const FUNCS: &[Func] = &[
    Func::NumericAdd,
    Func::NumericSubtract,
    Func::NumericMultiply,
    Func::NumericIntegerDivide,
    Func::NumericIntegerMod,
    Func::Not,
    Func::Concat,
    Func::StringLength,
];

const PREDS: &[Pred] = &[
    Pred::NumericEqual,
    Pred::NumericNotEqual,
    Pred::NumericLessThan,
    Pred::NumericLessThanOrEqual,
    Pred::NumericGreaterThan,
    Pred::NumericGreaterThanOrEqual,
    Pred::BooleanEqual,
    Pred::BooleanLessThan,
    Pred::BooleanGreaterThan,
    Pred::StartsWith,
    Pred::EndsWith,
    Pred::Contains,
    Pred::IsLiteralInteger,
    Pred::IsLiteralString,
    Pred::IsLiteralBoolean,
];

/// The IRI that stands before the local names of built-in functions.
///
/// Source: RIF-DTB, "List of RIF Built-in Predicates and Functions".
pub fn func_namespace() -> &'static str
    ensures { result.now ≡ func_namespace }
{
    "http://www.w3.org/2007/rif-builtin-function#"
}

/// The IRI that stands before the local names of built-in predicates.
///
/// Source: RIF-DTB, "List of RIF Built-in Predicates and Functions".
pub fn pred_namespace() -> &'static str
    ensures { result.now ≡ pred_namespace }
{
    "http://www.w3.org/2007/rif-builtin-predicate#"
}

impl Func {
    /// Its local name, in constant time.
    ///
    /// Source: RIF-DTB, "List of RIF Built-in Predicates and Functions"; that of `NumericIntegerMod` is our own
    /// (docs/FORMATS.md, "Built-ins").
    pub fn name(self) -> &'static [u8]
        ensures { result.now ≡ func_name self }
    {
        match self {
            Func::NumericAdd => b"numeric-add",
            Func::NumericSubtract => b"numeric-subtract",
            Func::NumericMultiply => b"numeric-multiply",
            Func::NumericIntegerDivide => b"numeric-integer-divide",
            Func::NumericIntegerMod => b"numeric-integer-mod",
            Func::Not => b"not",
            Func::Concat => b"concat",
            Func::StringLength => b"string-length",
        }
    }

    /// The function of a local name; `None` where no function has it.
    ///
    /// Linear in the name's length; takes no memory.
    ///
    /// Source: RIF-DTB, "List of RIF Built-in Predicates and Functions".
    pub fn named(name: &[u8]) -> Option<Func>
        ensures { result ≡ func_named name.now }
    {
        for func in FUNCS {
            if name == func.name() {
                return Some(*func);
            }
        }
        None
    }

    /// How many arguments it takes, in constant time.
    ///
    /// Source: our own (docs/FORMATS.md, "Built-ins").
    pub fn arity(self) -> Arity
        ensures { result ≡ func_arity self }
    {
        match self {
            Func::Not | Func::StringLength => Arity { least: 1, most: 1 },
            Func::Concat => Arity { least: 2, most: 16 },
            _ => Arity { least: 2, most: 2 },
        }
    }
}

impl Pred {
    /// Its local name, in constant time.
    ///
    /// Source: RIF-DTB, "List of RIF Built-in Predicates and Functions".
    pub fn name(self) -> &'static [u8]
        ensures { result.now ≡ pred_name self }
    {
        match self {
            Pred::NumericEqual => b"numeric-equal",
            Pred::NumericNotEqual => b"numeric-not-equal",
            Pred::NumericLessThan => b"numeric-less-than",
            Pred::NumericLessThanOrEqual => b"numeric-less-than-or-equal",
            Pred::NumericGreaterThan => b"numeric-greater-than",
            Pred::NumericGreaterThanOrEqual => b"numeric-greater-than-or-equal",
            Pred::BooleanEqual => b"boolean-equal",
            Pred::BooleanLessThan => b"boolean-less-than",
            Pred::BooleanGreaterThan => b"boolean-greater-than",
            Pred::StartsWith => b"starts-with",
            Pred::EndsWith => b"ends-with",
            Pred::Contains => b"contains",
            Pred::IsLiteralInteger => b"is-literal-integer",
            Pred::IsLiteralString => b"is-literal-string",
            Pred::IsLiteralBoolean => b"is-literal-boolean",
        }
    }

    /// The predicate of a local name; `None` where no predicate has it.
    ///
    /// Linear in the name's length; takes no memory.
    ///
    /// Source: RIF-DTB, "List of RIF Built-in Predicates and Functions".
    pub fn named(name: &[u8]) -> Option<Pred>
        ensures { result ≡ pred_named name.now }
    {
        for pred in PREDS {
            if name == pred.name() {
                return Some(*pred);
            }
        }
        None
    }

    /// How many arguments it takes, in constant time.
    ///
    /// Source: our own (docs/FORMATS.md, "Built-ins").
    pub fn arity(self) -> Arity
        ensures { result ≡ pred_arity self }
    {
        match self {
            Pred::IsLiteralInteger | Pred::IsLiteralString | Pred::IsLiteralBoolean => {
                Arity { least: 1, most: 1 }
            }
            _ => Arity { least: 2, most: 2 },
        }
    }
}

impl Builtin {
    /// The built-in that an IRI names; `None` where it names none.
    ///
    /// Linear in the IRI's length; takes no memory.
    ///
    /// Source: RIF-DTB, "List of RIF Built-in Predicates and Functions".
    pub fn named(iri: &[u8]) -> Option<Builtin>
        ensures { result ≡ builtin_named iri.now }
    {
        if let Some(name) = behind(func_namespace().as_bytes(), iri) {
            return Some(Builtin::Func(Func::named(name)?));
        }
        if let Some(name) = behind(pred_namespace().as_bytes(), iri) {
            return Some(Builtin::Pred(Pred::named(name)?));
        }
        None
    }

    /// How many arguments it takes, in constant time.
    ///
    /// Source: our own (docs/FORMATS.md, "Built-ins").
    pub fn arity(self) -> Arity
        ensures { result ≡ arity_of self }
    {
        match self {
            Builtin::Func(func) => func.arity(),
            Builtin::Pred(pred) => pred.arity(),
        }
    }

    /// Whether it takes so many arguments, in constant time.
    ///
    /// Source: our own (docs/FORMATS.md, "Built-ins").
    pub fn takes(self, count: u64) -> bool
        ensures { result ≡ takes self count }
    {
        let arity = self.arity();
        arity.least <= count && count <= arity.most
    }
}

// What stands behind a namespace in an IRI of it.
fn behind<'a>(namespace: &[u8], iri: &'a [u8]) -> Option<&'a [u8]>
    ensures inside { IfSome result (λ name. (is_in_namespace namespace.now iri.now ≡ true)
        × (name.now ≡ drop (length namespace.now) iri.now)) }
    ensures outside { IfNone result (is_in_namespace namespace.now iri.now ≡ false) }
{
    let count = namespace.len().min(iri.len());
    if &iri[..count] == namespace {
        Some(&iri[count..])
    } else {
        None
    }
}
