//! The laws that tie serial transcripts to explanations.
ghost use Rattle.hek_history_laws.specs.Laws.{SerialRunsHaveExplanations, SerialRunsAreRecorded};

/// Where a checker finds a transcript serial, each transaction taken as serializable, each history that records the
/// transcript has the order of end times as an explanation, also if the writers of a key have to commit in the order of
/// their ends, or all points have to go by their times.
pub fn serial_runs_have_explanations()
    ensures { SerialRunsHaveExplanations }
{}

/// Each transcript that a checker finds serial, each transaction taken as serializable, is recorded by some history: one
/// with the committed transactions in the order of their end times.
pub fn serial_runs_are_recorded()
    ensures { SerialRunsAreRecorded }
{}
