//! What the words of histories, of the choice and of runs promise. Each law is the clause of a function
//! with an empty body, and its statement stands in specs/Laws.antt.
//!
//! Source: RIF-PRD, "Operational semantics of a production rule system" and "Conflict resolution".
ghost use Rattle.prd_relation.specs.Laws.{AreAgesSaid, IsRefractionSaid, AreOthersUnaged};
ghost use Rattle.prd_relation.specs.Laws.{ChoosesUnrefracted, ChoosesLeast, ChoosesBest, ChoosesWhereItCan};
ghost use Rattle.prd_relation.specs.Laws.{AreFiringsStates, ReachHistories, TellTheirFacts};
ghost use Rattle.prd_relation.specs.Laws.{DisposesEnd, IsReplayOne, AreReplaysLawful};
ghost use Rattle.prd_relation.specs.Laws.{AllowsTheBest, PickTheChosen};
ghost use Rattle.prd_relation.specs.Laws.{FiresTheChosen, OthersKeepHistories, StopsWhereItMust};
ghost use Rattle.prd_relation.specs.Laws.{DisposesByDispose, DisposesOnlyByDispose, FiringsStayLive};

/// Law: the age is how many of the newest states in a row have the instance in their conflict sets.
pub fn ages_count_states_in_a_row()
    ensures { AreAgesSaid }
{}

/// Law: an instance is refracted exactly where it was picked and conflict sets have had it ever since.
pub fn refraction_lasts_while_the_instance_does()
    ensures { IsRefractionSaid }
{}

/// Law: an instance that isn't in the newest conflict set has age 0.
pub fn other_instances_have_no_age()
    ensures { AreOthersUnaged }
{}

/// Law: what is chosen is in the newest conflict set and isn't refracted.
pub fn the_chosen_is_unrefracted()
    ensures { ChoosesUnrefracted }
{}

/// Law: what is chosen is allowed, and each other instance that is allowed is above it.
pub fn the_chosen_is_the_least_allowed()
    ensures { ChoosesLeast }
{}

/// Law: nothing is chosen exactly where each instance of the newest conflict set is refracted.
pub fn something_is_chosen_where_it_can_be()
    ensures { ChoosesWhereItCan }
{}

/// Law: no unrefracted instance has a rule of higher priority than the one that is chosen, and none of
/// the highest is younger.
pub fn the_chosen_is_a_best_one()
    ensures { ChoosesBest }
{}

/// Law: each firing leads to one more state, a void one too, and one that changes nothing.
pub fn firings_are_states()
    ensures { AreFiringsStates }
{}

/// Law: whatever the batches of a run are, what it reaches is a history: its first state is empty, each state
/// is a set of facts, and each pick was in the conflict set of the state before.
pub fn runs_reach_histories()
    ensures { ReachHistories }
{}

/// Law: the changes and net effects of a run's turns, done in order from no facts on, lead to its newest
/// state of facts.
pub fn turns_tell_their_facts()
    ensures { TellTheirFacts }
{}

/// Law: no batch of a run follows one that ends in a Dispose.
pub fn a_dispose_ends_the_run()
    ensures { DisposesEnd }
{}

/// Law: some batches have one replay at most: two lists of batches that are each a replay of them are equal, and so
/// are their turns.
pub fn one_replay()
    ensures { IsReplayOne }
{}

/// Law: where the given batches are lawful, the batches of a replay are those of a run.
pub fn replays_are_lawful()
    ensures { AreReplaysLawful }
{}

/// Law: an instance is allowed exactly where it is in the newest conflict set and isn't refracted, no
/// unrefracted instance has a rule of higher priority, and none whose rule has no lower priority is younger.
pub fn the_allowed_are_the_best()
    ensures { AllowsTheBest }
{}

/// Law: along a run each pick was what is chosen in the history before it.
pub fn picks_of_runs_are_chosen()
    ensures { PickTheChosen }
{}

/// Law: where a turn fires, its pick is what is chosen after its batch, and its effect and the one state that
/// it leads to are those of the pick's block.
pub fn a_firing_is_of_the_chosen()
    ensures { FiresTheChosen }
{}

/// Law: every other turn picks nothing, has no effect, and adds no state and no object to those of its batch.
pub fn other_turns_keep_the_history()
    ensures { OthersKeepHistories }
{}

/// Law: what each act says of its batch, of the state and of the choice; so a turn stops or rests only where
/// each instance is refracted, or where the budget is spent.
pub fn turns_stop_where_they_must()
    ensures { StopsWhereItMust }
{}

/// Law: in a session that isn't disposed the act of a lawful batch says that it is exactly where the batch ends in a
/// Dispose.
pub fn a_dispose_disposes()
    ensures { DisposesByDispose }
{}

/// Law: a lawful batch leaves a session disposed, that wasn't, only where it ends in a Dispose.
pub fn a_session_is_disposed_by_a_dispose()
    ensures { DisposesOnlyByDispose }
{}

/// Law: a turn that fires leaves a session that isn't disposed.
pub fn a_firing_disposes_of_nothing()
    ensures { FiringsStayLive }
{}
