//! The laws of runs whose transactions are each at their own level.
ghost use Rattle.hek_history_runs.specs.Laws.{FirstCommittersWin, RunsExplainThemselves, RunsAreRecorded};

/// In any run, where a committed snapshot transaction writes a key, no other committed writer of the key ends between the begin
/// and the end of that transaction.
pub fn first_committers_win()
    ensures { FirstCommittersWin }
{}

/// Each history that records a run, each committed transaction at its own level, has the points of the run as an explanation, also
/// if the writers of a key have to commit in the order of their ends, or all points have to go by their times.
pub fn runs_explain_themselves()
    ensures { RunsExplainThemselves }
{}

/// Each run is recorded by some history, if its lists are no longer than a program's can be: one with a transaction for each ID, at
/// that place.
pub fn runs_are_recorded()
    ensures { RunsAreRecorded }
{}
