//! Similar and alike worlds behave alike, and runs that are judged alike have one verdict: laws of the rule table, as
//! contracts of functions with empty bodies.
//!
//! Worlds are similar if they are equal without their times, and each transaction that may still read as of its begin
//! finds the same before its begin, and the same after it, in both (`specs/Similar`). Replies are alike if they are
//! equal without their times, which only `Began` and `Precommitted` have.
//!
//! Worlds are alike if one is similar to the other with its versions in other places, those of a group in the same order
//! (`specs/Places`), and with what transactions hold in another order, that of each transaction in the same order
//! (`specs/Holdings`). Their replies are equal without times and places.
#![tactic(auto)]

ghost use Rattle.hek_similar.specs.Laws.{SimilarWorldsAnswerAlike, SimilarRunsAnswerAlike, SimilarWorldsHaveSameRows, SimilarToItself, SimilarBothWays, SimilarInTurn, FormsDecide, RenumberedWorldsAnswerAlike, RenumberedRunsAnswerAlike, RenumberedWorldsHaveSameRows, RenumberedWorldsAreSound, RegroupedWorldsAnswerTheSame, RegroupedRunsAnswerTheSame, RegroupedWorldsHaveSameRows, RegroupedWorldsAreSound, AlikeWorldsAnswerAlike, AlikeRunsAnswerAlike, AlikeWorldsHaveSameRows, AlikeToItself, AlikeBothWays, AlikeInTurn, CanonicalFormsDecide, SerialIsRightInTurn, JudgedAlikeHaveOneVerdict, ToldAlikeAreJudgedAlike, ToldAlikeGoOn, ToldAlikeGoOnInAlikeWorlds};

/// Each event is answered alike in two sound similar worlds, and leads to similar worlds, if neither clock is full.
pub fn similar_worlds_answer_alike()
    ensures { SimilarWorldsAnswerAlike }
{}

/// From two reachable similar worlds, the same events are answered alike one after another and lead to similar worlds,
/// if there are no more events than either clock has times left.
pub fn similar_runs_answer_alike()
    ensures { SimilarRunsAnswerAlike }
{}

/// Similar worlds have the same committed rows.
pub fn similar_worlds_have_same_rows()
    ensures { SimilarWorldsHaveSameRows }
{}

/// Similarity is an equivalence, so that one world can be taken for all worlds similar to it.
pub fn similarity_is_an_equivalence()
    ensures itself { SimilarToItself }
    ensures both_ways { SimilarBothWays }
    ensures in_turn { SimilarInTurn }
{}

/// Sound worlds are similar exactly if their forms (`specs/Forms`) are equal. A form has no times: for each transaction
/// that may still read as of its begin it says which versions were made, which ended, and which transactions were
/// prepared after that begin.
pub fn forms_decide_similarity()
    ensures { FormsDecide }
{}

/// Each event has the same reply in a renumbered world (`specs/Places`), but for the place that it names, and leads to the
/// renumbered next world, if the keys of a bucket that it scans are of one group. This holds in all worlds, at full
/// clocks too.
pub fn renumbered_worlds_answer_alike()
    ensures { RenumberedWorldsAnswerAlike }
{}

/// A renumbering of the first world stays one, so the same events are answered alike one after another.
pub fn renumbered_runs_answer_alike()
    ensures { RenumberedRunsAnswerAlike }
{}

/// A renumbered world has the same committed rows.
pub fn renumbered_worlds_have_same_rows()
    ensures { RenumberedWorldsHaveSameRows }
{}

/// The renumbered world of a sound world is sound.
pub fn renumbered_worlds_are_sound()
    ensures { RenumberedWorldsAreSound }
{}

/// Worlds are regrouped if each transaction holds the same in both (`specs/Holdings`): it has the same read set, write
/// set, bucket set, waiting list and dependents, in order. Each event has the same reply in both, and leads to regrouped
/// worlds. This holds in all worlds, at full clocks too.
pub fn regrouped_worlds_answer_the_same()
    ensures { RegroupedWorldsAnswerTheSame }
{}

/// So have the same events one after another.
pub fn regrouped_runs_answer_the_same()
    ensures { RegroupedRunsAnswerTheSame }
{}

/// Regrouped worlds have the same committed rows.
pub fn regrouped_worlds_have_same_rows()
    ensures { RegroupedWorldsHaveSameRows }
{}

/// A world regrouped from a sound one is sound.
pub fn regrouped_worlds_are_sound()
    ensures { RegroupedWorldsAreSound }
{}

/// Worlds are alike if one is similar to the other renumbered and regrouped (`specs/Alike`). Each event is answered alike
/// in two sound alike worlds, but for times and places, and leads to alike worlds, if neither clock is full and the keys
/// of a bucket that it scans are of one group.
pub fn alike_worlds_answer_alike()
    ensures { AlikeWorldsAnswerAlike }
{}

/// From two reachable alike worlds, the same events are answered alike one after another and lead to alike worlds, if
/// there are no more events than either clock has times left.
pub fn alike_runs_answer_alike()
    ensures { AlikeRunsAnswerAlike }
{}

/// Alike worlds have the same committed rows.
pub fn alike_worlds_have_same_rows()
    ensures { AlikeWorldsHaveSameRows }
{}

/// To be alike is an equivalence, so that one world can be taken for all worlds alike to it.
pub fn being_alike_is_an_equivalence()
    ensures itself { AlikeToItself }
    ensures both_ways { AlikeBothWays }
    ensures in_turn { AlikeInTurn }
{}

/// Sound worlds are alike exactly if the forms of their canonical worlds (`specs/Canonical`) are equal. The canonical
/// world has its versions by group, in each group in order, and its locks, entries, waiters and dependents by
/// transaction, of each transaction in order.
pub fn canonical_forms_decide()
    ensures { CanonicalFormsDecide }
{}

/// Whether a run is serial, with all its transactions taken as serializable, can be told without its interleaving and
/// without times (`specs/Verdicts`): run the committed transactions one after another, in the order in which they drew
/// their end times, and see whether each gets the replies that it got.
pub fn serial_runs_are_right_in_turn()
    ensures { SerialIsRightInTurn }
{}

/// So two runs over the same rows have one verdict if the same committed transactions drew their end times in the same
/// order, and each of them read and wrote the same, with the same replies.
pub fn runs_judged_alike_have_one_verdict()
    ensures { JudgedAlikeHaveOneVerdict }
{}

/// Histories are told alike if the same transactions drew their end times in the same order and each transaction's
/// reads, writes and commit are the same. Such histories are judged alike, whatever follows, if it is the same but for
/// times, or the answers of alike worlds to the same events.
pub fn histories_told_alike()
    ensures judged { ToldAlikeAreJudgedAlike }
    ensures go_on { ToldAlikeGoOn }
    ensures go_on_in_alike_worlds { ToldAlikeGoOnInAlikeWorlds }
{}
