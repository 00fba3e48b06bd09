//! What the words of sets and changes promise, for each order that tells its elements apart. Each law is
//! the clause of a function with an empty body, and its statement stands in specs/SetLaws.antt.
//!
//! Source: the project's own way to write finite sets.
ghost use Rattle.rif_values.specs.Sets.{IsExact};
ghost use Rattle.rif_sets.specs.SetLaws.{HasWhatIsContained, IsSettledByElements, OrdersAnyList, LeavesASetInOrder};
ghost use Rattle.rif_sets.specs.SetLaws.{AddsAndRemoves, IsDoneOneByOne, TellsTheDifference, LeadsToTheNewSet};
ghost use Rattle.rif_sets.specs.SetLaws.{CanBeDone, IsNetOfWhatItLeadsTo, AreTogetherOne};

/// Law: a list has an element exactly where it contains it.
#[tactic(auto, using(crate::proofs::SetsMembers::has_contains))]
pub fn a_list_has_what_it_contains<K: Ord>()
    ensures { IsExact K.cmp → HasWhatIsContained K.cmp }
{}

/// Law: two sets with the same elements are the same list.
#[tactic(auto, using(crate::proofs::SetsMembers::same_set))]
pub fn sets_with_the_same_elements_are_equal<K: Ord>()
    ensures { IsExact K.cmp → IsSettledByElements K.cmp }
{}

/// Law: putting a list in order makes a set of the same elements.
pub fn ordering_keeps_the_elements<K: Ord>()
    ensures { IsExact K.cmp → OrdersAnyList K.cmp }
{}

/// Law: a set put in order is the same list.
#[tactic(auto, using(crate::proofs::SetsSteps::ordered_same))]
pub fn ordering_a_set_changes_nothing<K: Ord>()
    ensures { IsExact K.cmp → LeavesASetInOrder K.cmp }
{}

/// Law: after a change a set has what was added, and what was there and wasn't removed.
pub fn a_change_adds_and_removes<K: Ord>()
    ensures { IsExact K.cmp → AddsAndRemoves K.cmp }
{}

/// Law: a change may be done one element after another.
pub fn a_change_may_be_done_one_by_one<K: Ord>()
    ensures { IsExact K.cmp → IsDoneOneByOne K.cmp }
{}

/// Law: a net change adds what the new set alone has, and removes what the old one alone has.
#[tactic(auto, using(crate::proofs::SetsChanges::has_beyond))]
pub fn net_change_tells_the_difference<K: Ord>()
    ensures { IsExact K.cmp → TellsTheDifference K.cmp }
{}

/// Law: doing the net change from one set to another gives the other.
#[tactic(auto, using(crate::proofs::SetsChanges::gives_of_net))]
pub fn net_change_leads_to_the_new_set<K: Ord>()
    ensures { IsExact K.cmp → LeadsToTheNewSet K.cmp }
{}

/// Law: the net change from a set can be done to it.
pub fn net_change_is_possible<K: Ord>()
    ensures { IsExact K.cmp → CanBeDone K.cmp }
{}

/// Law: a change that can be done is the net change to what it gives.
#[tactic(auto, using(crate::proofs::SetsChanges::is_net))]
pub fn possible_change_is_a_net_change<K: Ord>()
    ensures { IsExact K.cmp → IsNetOfWhatItLeadsTo K.cmp }
{}

/// Law: two changes, one after the other, are one net change.
pub fn two_changes_make_one<K: Ord>()
    ensures { IsExact K.cmp → AreTogetherOne K.cmp }
{}
