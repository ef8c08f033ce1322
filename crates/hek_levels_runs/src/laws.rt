//! The laws that tie explanations of histories, and serial transcripts, to the levels of logs.
ghost use Rattle.hek_levels_runs.specs.Laws.{SerialExplanationsExplain, SnapshotExplanationsExplain, SerialRunsHold};

/// Where points explain a history and keep the turns of its log, and whoever takes place is serializable, the order of the
/// commits explains the log at the level serializable.
pub fn serial_explanations_explain()
    ensures { SerialExplanationsExplain }
{}

/// Where points explain a history and keep the turns of its log, and whoever takes place is serializable or at snapshot, the
/// order of the commits explains the log at the level snapshot.
pub fn snapshot_explanations_explain()
    ensures { SnapshotExplanationsExplain }
{}

/// Where a checker finds a transcript serial, each transaction taken as serializable, the order of end times explains the log
/// of each history that records the transcript at each level, if it keeps the turns of the log, and the log is read uncommitted.
pub fn serial_runs_hold()
    ensures { SerialRunsHold }
{}
