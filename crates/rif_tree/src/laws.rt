//! Laws of the words for variables and names.
ghost use Rattle.rif_tree.specs.Laws.{AreFuncsNamed, ArePredsNamed, AreBuiltinsNamed, AreKeywordsNamed};
ghost use Rattle.rif_tree.specs.Laws.{ArePartsFree, IsReadinessGrowing, IsReadinessOfMembers, IsScopeOfMembers};

/// Law: what a formula has free as a part of another is what it has free.
#[tactic(auto, using(crate::proofs::FreeLemmas::part_free))]
pub fn parts_have_what_is_free()
    ensures { ArePartsFree }
{}

/// Law: what is ready is ready where more variables are bound.
#[tactic(auto, using(crate::proofs::ReadyLemmas::ready_grows))]
pub fn readiness_grows()
    ensures { IsReadinessGrowing }
{}

/// Law: readiness goes by which variables are bound, whatever their order and however often they are listed.
#[tactic(auto, using(crate::proofs::ReadyLemmas::ready_same))]
pub fn readiness_is_of_members()
    ensures { IsReadinessOfMembers }
{}

/// Law: scope goes by which variables hold, whatever their order and however often they are listed.
#[tactic(auto, using(crate::proofs::ScopedLemmas::scope_same))]
pub fn scope_is_of_members()
    ensures { IsScopeOfMembers }
{}

/// Law: a text is found as the function whose local name it is, and as no other.
#[tactic(auto, using(crate::proofs::NamesLemmas::funcs_named))]
pub fn functions_are_named()
    ensures { AreFuncsNamed }
{}

/// Law: a text is found as the predicate whose local name it is, and as no other.
#[tactic(auto, using(crate::proofs::NamesLemmas::preds_named))]
pub fn predicates_are_named()
    ensures { ArePredsNamed }
{}

/// Law: an IRI is found as the built-in that it names, and as no other.
pub fn builtins_are_named()
    ensures { AreBuiltinsNamed }
{}

/// Law: a text is found as the keyword that it is, and as no other.
#[tactic(auto, using(crate::proofs::NamesLemmas::keywords_named))]
pub fn keywords_are_named()
    ensures { AreKeywordsNamed }
{}
