//! Levels and guarantees, each as what a read sees.
ghost use Rattle.std.specs.Prelude.{◌≡◌};
ghost use Rattle.hek_levels.specs.Levels.{links, plain_rules, cause_rules, rules_of, rules_for, asked_of};

/// The levels of a whole history. Read uncommitted is below them, and has no rules: it asks for no order.
#[derive(Clone, Copy)]
pub enum Level {
    /// No answer is that of an aborted transaction, of a change that was undone, or of a later transaction.
    ReadCommitted,
    /// The reads of a transaction go forward.
    MonotonicView,
    /// Who reads of a transaction sees all of it.
    ReadAtomic,
    /// Who sees a transaction sees all that it saw.
    Causal,
    /// The same, and all that commit before it.
    Prefix,
    /// Of two writers of a key one sees the other.
    ParallelSnapshot,
    /// The same, and who sees a transaction sees all that commit before it.
    Snapshot,
    /// Each transaction sees all that commit before it.
    Serializable,
}

/// Which guarantees of sessions are asked for together.
#[derive(Clone, Copy)]
pub struct Guarantees {
    pub monotonic_reads: bool,
    pub read_your_writes: bool,
    pub monotonic_writes: bool,
    pub writes_follow_reads: bool,
}

/// Which reads of its own transaction show a read their sources.
#[derive(Clone, Copy)]
pub enum Own {
    Nothing,
    /// Those of earlier operations, and the read itself.
    Earlier,
    All,
}

/// Whom a transaction sees by writes and by its turns.
#[derive(Clone, Copy)]
pub struct Links {
    /// The earlier writers of the keys that it writes.
    pub writers: bool,
    /// Those whose turns are before its own, in lanes where turns are seen.
    pub turns: bool,
    /// The sources of these.
    pub turn_reads: bool,
}

/// What a read sees.
#[derive(Clone, Copy)]
pub struct Rules {
    /// A read sees all that is before its transaction.
    pub whole: bool,
    /// What it sees by the reads of its transaction.
    pub own: Own,
    /// What its transaction sees in other ways.
    pub first: Links,
    /// What is seen shows its sources.
    pub causes: bool,
    /// What is seen shows all that is before it.
    pub prefix: bool,
    /// What is seen shows what it sees in other ways.
    pub next: Links,
}

/// Whom a transaction sees by writes and by its turns.
fn links_of(writers: bool, turns: bool, turn_reads: bool) -> Links
    ensures { result ≡ links writers turns turn_reads }
{
    Links {
        writers,
        turns,
        turn_reads,
    }
}

impl Level {
    /// The rules of the level.
    pub fn rules(self) -> Rules
        ensures { result ≡ rules_of self }
    {
        match self {
            Level::ReadCommitted => plain(false, Own::Nothing),
            Level::MonotonicView => plain(false, Own::Earlier),
            Level::ReadAtomic => Rules {
                whole: false,
                own: Own::All,
                first: links_of(false, true, false),
                causes: false,
                prefix: false,
                next: links_of(false, false, false),
            },
            Level::Causal => by_causes(false, false),
            Level::Prefix => by_causes(false, true),
            Level::ParallelSnapshot => by_causes(true, false),
            Level::Snapshot => by_causes(true, true),
            Level::Serializable => plain(true, Own::Nothing),
        }
    }
}

/// Rules with no links.
fn plain(whole: bool, own: Own) -> Rules
    ensures { result ≡ plain_rules whole own }
{
    Rules {
        whole,
        own,
        first: links_of(false, false, false),
        causes: false,
        prefix: false,
        next: links_of(false, false, false),
    }
}

/// Rules by which whoever sees a transaction sees what it saw: also by writes, where of two writers of a key one sees the other, and
/// also all that is before it.
fn by_causes(writers: bool, prefix: bool) -> Rules
    ensures { result ≡ cause_rules writers prefix }
{
    Rules {
        whole: false,
        own: Own::All,
        first: links_of(writers, true, false),
        causes: true,
        prefix,
        next: links_of(writers, true, false),
    }
}

impl Guarantees {
    /// The rules of these guarantees. The reads of a transaction go forward, as at the monotonic view.
    pub fn rules(self) -> Rules
        ensures { result ≡ rules_for self }
    {
        Rules {
            whole: false,
            own: Own::Earlier,
            first: links_of(false, self.read_your_writes, self.monotonic_reads),
            causes: self.writes_follow_reads,
            prefix: false,
            next: links_of(false, self.monotonic_writes, self.writes_follow_reads),
        }
    }
}

/// Which rules each transaction has.
#[derive(Drop)]
pub enum Asked {
    /// All have these.
    All(Rules),
    /// Each has its own, by its place; one that is not there has those of serializable.
    Own(Vec<Rules>),
}

impl Asked {
    /// The rules of t.
    pub fn of(&self, t: usize) -> Rules
        ensures { result ≡ asked_of self.now t }
    {
        match self {
            Asked::All(rules) => *rules,
            Asked::Own(list) => match list.get(t) {
                Some(rules) => *rules,
                None => plain(true, Own::Nothing),
            },
        }
    }
}
