//! What the words of extensions and of built-ins promise. Each law is the clause of a function with an empty body,
//! and its statement stands in specs/ExtensionLaws.antt, specs/Truth.antt or specs/BuiltinLaws.antt.
//!
//! Source: RIF-PRD, "Matching substitution" and "Condition satisfaction"; RIF-DTB, "List of RIF Built-in Predicates
//! and Functions".
ghost use Rattle.rif_builtins.specs.ExtensionLaws.{IsEvaluationBinding, IsMatchingExact, IsEqualityExact};
ghost use Rattle.rif_builtins.specs.ExtensionLaws.{IsOneByOne, IsOfBoth, GoesByForm, IsSetOfExtensions};
ghost use Rattle.rif_builtins.specs.Truth.{IsTrueByForm, IsTruthOfFree, IsExtensionTrue, IsSettledByTruth};
ghost use Rattle.rif_builtins.specs.Truth.{IsOrderFree};
ghost use Rattle.rif_builtins.specs.BuiltinLaws.{AreDivisionsExact, AreComparisonsOpposite, IsNotUndone};
ghost use Rattle.rif_builtins.specs.BuiltinLaws.{ArePartsOfConcat, AreConcatsExact, AreByCharacters, AreAllCounted};

/// Law: where a formula is ready for the variables of a row, and none is declared where it holds already, each
/// extension of the row has values for exactly the row's variables and the formula's free ones, and keeps the row's
/// values.
pub fn evaluation_binds()
    ensures { IsEvaluationBinding }
{}

/// Law: a pattern that is ready for a row matches a fact to the one row that extends the row by exactly the pattern's
/// variables, and under which the pattern's terms have the fact's constants as values.
pub fn a_match_is_the_one_binding()
    ensures { IsMatchingExact }
{}

/// Law: an equality that is ready for a row takes it to the one row that extends it by exactly the variables of both
/// sides, and under which both sides have the same value. Where both sides have their values, this is the row itself.
pub fn an_equality_is_the_one_binding()
    ensures { IsEqualityExact }
{}

/// Law: which rows a formula gives, form by form.
pub fn formulas_go_by_form()
    ensures { GoesByForm }
{}

/// Law: what a formula gives of some rows is what it gives of each of them.
pub fn rows_are_taken_one_by_one()
    ensures { IsOneByOne }
{}

/// Law: what a formula gives of two lists of rows together is what it gives of either.
pub fn lists_are_taken_together()
    ensures { IsOfBoth }
{}

/// Law: the extensions of a row are in order without repeats, and are the rows that the formula gives.
pub fn extensions_are_a_set()
    ensures { IsSetOfExtensions }
{}

/// Law: when a formula is true under a row, form by form. A conjunction is true where each of its members is,
/// whatever their order.
pub fn truth_goes_by_form()
    ensures { IsTrueByForm }
{}

/// Law: whether a formula is true under a row goes by the values of its free variables alone.
pub fn truth_goes_by_free_variables()
    ensures { IsTruthOfFree }
{}

/// Law: where a formula is ready for the variables of a row, and none is declared where it holds already, the
/// extensions of the row are exactly the rows that extend it by the formula's free variables and under which the
/// formula is true.
pub fn extensions_are_where_it_is_true()
    ensures { IsExtensionTrue }
{}

/// Law: two such formulas that have the same free variables, and are true under the same rows, have the same
/// extensions.
pub fn truth_settles_extensions()
    ensures { IsSettledByTruth }
{}

/// Law: two such conjunctions of the same members have the same extensions, whatever the order of the members.
pub fn order_of_conjuncts_is_free()
    ensures { IsOrderFree }
{}

/// Law: by each divisor but zero there are a quotient and a remainder. The quotient times the divisor, and the
/// remainder added, are the dividend; the remainder is nearer to zero than the divisor, and isn't on the other side
/// of zero than the dividend. They are the values where they are in the range, which a remainder always is.
pub fn divisions_are_exact()
    ensures { AreDivisionsExact }
{}

/// Law: not-equal says the opposite of equal, greater-than-or-equal that of less-than, and less-than-or-equal that of
/// greater-than. What is greater one way round is less the other.
pub fn comparisons_are_opposite()
    ensures { AreComparisonsOpposite }
{}

/// Law: `not` of what `not` gives is what it was given.
pub fn not_is_undone_by_itself()
    ensures { IsNotUndone }
{}

/// Law: a text starts with another where it is that one with some text behind it, ends with it where it has some text
/// before it, and contains it where it has both.
pub fn parts_are_of_a_concatenation()
    ensures { ArePartsOfConcat }
{}

/// Law: a concatenation is its strings one behind the other. That of two starts with the first and ends with the
/// second, and its length is the sum of theirs.
pub fn concatenations_are_exact()
    ensures { AreConcatsExact }
{}

/// Law: a text starts with another, ends with it or contains it by its bytes just where it does by its characters.
pub fn bytes_say_what_characters_say()
    ensures { AreByCharacters }
{}

/// Law: a built-in has a value only of as many arguments as it takes.
pub fn values_are_of_as_many_arguments()
    ensures { AreAllCounted }
{}
