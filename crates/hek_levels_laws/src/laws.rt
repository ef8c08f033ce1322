//! Laws of levels, as contracts of functions that do nothing.
ghost use Rattle.hek_levels_laws.specs.Laws.{LevelsImply, FewerTurnsImply, GuaranteesImply, ExplainedIsReadUncommitted, FoundSays, BareSays};

/// Serializable implies snapshot, this prefix and parallel snapshot, each of these causal, this read atomic, this the monotonic view, and
/// this read committed, by one explanation.
pub fn levels_imply()
    ensures { LevelsImply }
{}

/// What explains a log explains it with fewer turns: without sessions, without real time, or without versions.
pub fn fewer_turns_imply()
    ensures { FewerTurnsImply }
{}

/// Causal implies all four guarantees, and each of these the monotonic view.
pub fn guarantees_imply()
    ensures { GuaranteesImply }
{}

/// What has an explanation by any rules is read uncommitted.
pub fn explained_is_read_uncommitted()
    ensures { ExplainedIsReadUncommitted }
{}

/// What a read found was at some time there just if the opening has it or a change of another transaction left it.
pub fn found_says()
    ensures { FoundSays }
{}

/// An order keeps the turns of a log just if its bare log has an explanation.
pub fn bare_says()
    ensures { BareSays }
{}
