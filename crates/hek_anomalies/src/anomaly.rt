//! The names of anomalies.

/// What keeps a log from a level.
#[derive(Clone, Copy, PartialEq, Eq)]
pub enum Anomaly {
    /// G0: a cycle of writes over each other.
    DirtyWrite,
    /// G1a: a transaction read what one that aborted wrote.
    AbortedRead,
    /// G1b: a transaction read what another wrote and then wrote over itself.
    IntermediateRead,
    /// A transaction read what nobody wrote.
    UnwrittenRead,
    /// A transaction read what only it wrote, and that later.
    LaterWriteRead,
    /// A transaction read what only one wrote whose own answers contradict each other.
    ReadOfContradiction,
    /// G1c: transactions read from each other, or wrote over what the next one wrote.
    CircularInformationFlow,
    /// Two transactions inserted one key, and both found it absent.
    InsertThatExists,
    /// Two transactions wrote one key, and one of them wrote over what the other had not seen.
    LostUpdate,
    /// G-single of two: a transaction read one row from before another's commit, and one from after it.
    ReadSkew,
    /// The writes of two transactions were seen in both orders.
    BothOrders,
    /// G-single: a cycle with one read that another transaction wrote over.
    SingleAntiDependency,
    /// G2-item of two: two transactions each read a row that the other wrote over.
    WriteSkew,
    /// G2-item of three: a transaction that only reads saw one of two others, and not the one before it.
    ReadOnlyAnomaly,
    /// G2: a scan missed a row that another inserted.
    Phantom,
    /// G-nonadjacent of four: two transactions that only read saw two others commit in either order.
    LongFork,
    /// G-nonadjacent: a cycle in which no two reads that were written over follow one another.
    Nonadjacent,
    /// G2-item: a cycle of rows that were read and written over.
    AntiDependencyCycle,
    /// A transaction read what was no longer so when it was invoked.
    StaleRead,
    /// The same, with several reads that were written over.
    RealTimeSkew,
    /// The answers go against real time.
    AgainstRealTime,
    /// A transaction read what was no longer so where its session was.
    SessionRead,
    /// The same, with several reads that were written over.
    SessionSkew,
    /// The answers go against a session.
    AgainstSession,
    /// A transaction found two values of a key that it had not written.
    NonRepeatableRead,
    /// A transaction found a key absent in a scan, and there at another time.
    PhantomWithin,
    /// A transaction found something else than what it had written.
    OwnWriteLost,
    /// A scan has a key twice, or one that it isn't of.
    OwnAnswers,
    /// Reads of a session go back: a transaction missed what one before it in its session had found.
    ReadsGoBack,
    /// A transaction missed what one before it in its session had written.
    OwnWriteMissed,
    /// Two writes of a session were seen the other way round.
    WritesApart,
    /// A write was seen without what its transaction had read.
    CauseMissed,
    /// Steps alone show that there is no order.
    NoOrder,
}

/// What the anomalies are called, in their order: each by its name, with its sign in the literature if it has one, and what one and several
/// are called in counts.
const NAMES: [&str; 33] = [
    "dirty write (G0)|dirty write|dirty writes",
    "aborted read (G1a)|aborted read|aborted reads",
    "intermediate read (G1b)|intermediate read|intermediate reads",
    "a value that nobody wrote|value that nobody wrote|values that nobody wrote",
    "read of its own later write|read of its own later write|reads of their own later writes",
    "a read of one that contradicts itself|read of one that contradicts itself|reads of those that contradict themselves",
    "circular information flow (G1c)|circular information flow|circular information flows",
    "insert that exists|insert that exists|inserts that exist",
    "lost update|lost update|lost updates",
    "read skew (G-single)|read skew|read skews",
    "writes seen in both orders|pair of writes seen in both orders|pairs of writes seen in both orders",
    "G-single|G-single|G-single",
    "write skew (G2-item)|write skew|write skews",
    "read-only anomaly (G2-item)|read-only anomaly|read-only anomalies",
    "phantom (G2)|phantom|phantoms",
    "long fork (G-nonadjacent)|long fork|long forks",
    "G-nonadjacent|G-nonadjacent|G-nonadjacent",
    "G2-item|G2-item|G2-item",
    "stale read (G-single-realtime)|stale read|stale reads",
    "against real time (G2-item-realtime)|cycle of reads against real time|cycles of reads against real time",
    "against real time (G1c-realtime)|cycle against real time|cycles against real time",
    "stale read in a session (G-single-process)|stale read in a session|stale reads in a session",
    "against a session (G2-item-process)|cycle of reads against a session|cycles of reads against a session",
    "against a session (G1c-process)|cycle against a session|cycles against a session",
    "non-repeatable read|non-repeatable read|non-repeatable reads",
    "phantom in one transaction|phantom in one transaction|phantoms in one transaction",
    "own write lost|own write lost|own writes lost",
    "the answers of one transaction contradict each other|scan at fault|scans at fault",
    "reads of a session go back|session whose reads go back|sessions whose reads go back",
    "own write of the session missed|own write of the session missed|own writes of the session missed",
    "writes of a session apart|pair of writes of a session apart|pairs of writes of a session apart",
    "cause without effect|cause without effect|causes without effect",
    "no order of transactions|contradiction by steps|contradictions by steps",
];

impl Anomaly {
    /// One of the three things that it is called.
    fn called(self, which: usize) -> &'static str {
        match NAMES.get(self as usize) {
            Some(names) => names.split('|').nth(which).unwrap_or(""),
            None => "",
        }
    }

    /// The name, with its sign in the literature if it has one.
    pub fn name(self) -> &'static str {
        self.called(0)
    }

    /// What so many are called in counts.
    pub fn counted(self, count: u64) -> &'static str {
        self.called(if count == 1 { 1 } else { 2 })
    }
}
