//! The table of replies: what each says in plain words, the definition that decides it, and when it comes. `docs/RULES.md` has the
//! same replies, definitions and conditions, and a page shows them.

/// A reply to an event. `name` is the event's word and the reply's; `printed` is the reply as `docs/RULES.md` has it, with N, T, V
/// and so on for its numbers. `sentence` has `*` around what matters, and names in braces for what a step fills in: `{me}`, the
/// transaction; `{a0}`, `{a1}`, the operands; `{r1}` and so on, the words of the reply; `{t1}` and so on, the transaction that
/// a word of the reply names; `{made}`, the version that the step made; `{end}`, the end time; `{snap}`, when a snapshot
/// transaction looks; `{rows}`, `{cycle}`, `{things}`, `{preparing}`, lists and counts of the reply. `definition` is a module of the
/// folder `specs` of hek_rules and a name there; `comes` says when the reply comes.
pub struct ReplyRule {
    pub name: &'static str,
    pub printed: &'static str,
    pub sentence: &'static str,
    pub definition: &'static str,
    pub comes: &'static str,
}

pub(crate) const BEGAN: &ReplyRule = &ReplyRule {
    name: "begin began",
    printed: "began T",
    sentence: "{me} begins, and draws its begin time *{r1}* from the clock.",
    definition: "Table.begin_rule",
    comes: "The transaction is Active, and T is its begin time.",
};

pub(crate) const FOUND: &ReplyRule = &ReplyRule {
    name: "read found",
    printed: "found V",
    sentence: "{me} reads key {a0} and finds *{r1}*{snap}.",
    definition: "Table.read_rule",
    comes: "The transaction sees a version of the key, and V is the value of the last one it sees.",
};

pub(crate) const READ_NONE: &ReplyRule = &ReplyRule {
    name: "read absent",
    printed: "absent",
    sentence: "{me} looks for key {a0}, and there is *none*{snap}.",
    definition: "Table.found",
    comes: "The transaction sees no version of the key, so there is nothing to read or change.",
};

pub(crate) const ROWS: &ReplyRule = &ReplyRule {
    name: "scan rows",
    printed: "rows KEY=VALUE ..",
    sentence: "{me} scans bucket {a0} and finds *{rows}*{snap}.",
    definition: "Table.scan_rule",
    comes: "The transaction sees these rows in the bucket, sorted by key; an empty bucket prints `rows` alone.",
};

pub(crate) const INSERTED: &ReplyRule = &ReplyRule {
    name: "insert done",
    printed: "done",
    sentence: "{me} inserts key {a0} with value *{a1}*: version {made} is made.",
    definition: "Table.after_insert",
    comes: "The write is made.",
};

pub(crate) const EXISTS: &ReplyRule = &ReplyRule {
    name: "insert exists",
    printed: "exists",
    sentence: "Key {a0} *exists* for {me}: nothing is inserted.",
    definition: "Table.after_insert",
    comes: "The transaction sees a version of the key already, so it inserts nothing.",
};

pub(crate) const UPDATED: &ReplyRule = &ReplyRule {
    name: "update done",
    printed: "done",
    sentence: "{me} writes *{a1}* over key {a0}: version {made} is made, and the old one stays.",
    definition: "Table.after_update",
    comes: "The write is made.",
};

pub(crate) const UPDATE_NONE: &ReplyRule = &ReplyRule {
    name: "update absent",
    printed: "absent",
    sentence: "{me} would write key {a0}, but for it there is *none*.",
    definition: "Table.after_update",
    comes: "The transaction sees no version of the key, so there is nothing to read or change.",
};

pub(crate) const DELETED: &ReplyRule = &ReplyRule {
    name: "delete done",
    printed: "done",
    sentence: "{me} deletes key {a0}: it becomes the writer of the version, and makes no new one.",
    definition: "Table.after_delete",
    comes: "The write is made.",
};

pub(crate) const DELETE_NONE: &ReplyRule = &ReplyRule {
    name: "delete absent",
    printed: "absent",
    sentence: "{me} would delete key {a0}, but for it there is *none*.",
    definition: "Table.after_delete",
    comes: "The transaction sees no version of the key, so there is nothing to read or change.",
};

pub(crate) const READY: &ReplyRule = &ReplyRule {
    name: "finish ready",
    printed: "ready",
    sentence: "{me} has no more reads and writes. From now on *nobody may make it wait for more*.",
    definition: "Table.finish_rule",
    comes: "The transaction has no more reads or writes to do, and nobody may make it wait for more.",
};

pub(crate) const WAITING: &ReplyRule = &ReplyRule {
    name: "precommit waiting",
    printed: "waiting N",
    sentence: "{me} may not precommit yet: it *waits for {things}*. It may ask again.",
    definition: "Table.precommit_rule",
    comes: "The transaction still waits for N things: versions it writes that others read-lock, and transactions whose WaitingTxnList it is in. Nothing changes; ask again later.",
};

pub(crate) const PRECOMMITTED: &ReplyRule = &ReplyRule {
    name: "precommit precommitted",
    printed: "precommitted T",
    sentence: "{me} waits for nobody: it draws its end time *{r1}*, and is *preparing*.",
    definition: "Table.prepare",
    comes: "The transaction waits for nobody: it is Preparing, and T is its end time, its place in the serial order.",
};

pub(crate) const RELEASED_READ: &ReplyRule = &ReplyRule {
    name: "release released read",
    printed: "released read V",
    sentence: "{me} gives back its *read lock on v{r2}*.",
    definition: "Table.release_read",
    comes: "The transaction gave up its read lock of version V.",
};

pub(crate) const RELEASED_LAST_READ: &ReplyRule = &ReplyRule {
    name: "release released read writer",
    printed: "released read V writer W",
    sentence: "{me} was the last reader of v{r2}: the *no-more-reads* flag is set, and {t4} waits for one thing less.",
    definition: "Table.drop_read",
    comes: "The transaction gave up its read lock of V, was its last reader, and W writes V: NoMoreReadLocks is set, and W waits for one thing less.",
};

pub(crate) const RELEASED_BUCKET: &ReplyRule = &ReplyRule {
    name: "release released bucket",
    printed: "released bucket B",
    sentence: "{me} gives back its lock on *bucket {r2}*.",
    definition: "Table.release_bucket",
    comes: "The transaction has no read lock left, and gave up its lock of bucket B.",
};

pub(crate) const RELEASED_WAITER: &ReplyRule = &ReplyRule {
    name: "release released waiter",
    printed: "released waiter U",
    sentence: "{me} lets {t2} go: it *waits for one thing less*.",
    definition: "Table.release_waiter",
    comes: "The transaction has no read lock and no bucket left; U no longer waits for it.",
};

pub(crate) const NOTHING_TO_RELEASE: &ReplyRule = &ReplyRule {
    name: "release nothing",
    printed: "nothing",
    sentence: "{me} has no lock and no waiter left to release.",
    definition: "Table.release_waiter",
    comes: "Nothing is left to release, or to stamp.",
};

pub(crate) const NOTHING_TO_STAMP: &ReplyRule = &ReplyRule {
    name: "stamp nothing",
    printed: "nothing",
    sentence: "{me} has no word left to stamp.",
    definition: "Table.stamp_rule",
    comes: "Nothing is left to release, or to stamp.",
};

pub(crate) const COMMITTED: &ReplyRule = &ReplyRule {
    name: "commit committed",
    printed: "committed",
    sentence: "{me} is *committed*, with end time {end}.",
    definition: "Table.commit_rule",
    comes: "The transaction depends on nobody that is undecided, and is Committed.",
};

pub(crate) const WAITING_COMMITS: &ReplyRule = &ReplyRule {
    name: "commit waiting commits",
    printed: "waiting commits N",
    sentence: "{me} may not commit yet: it *depends on {preparing}*.",
    definition: "Table.commit_rule",
    comes: "The transaction depends on N others that are still Preparing. Nothing changes; ask again later.",
};

pub(crate) const FAILED: &ReplyRule = &ReplyRule {
    name: "fail failed",
    printed: "failed",
    sentence: "{me} fails: it *aborts*, and all that depend on it must abort as well.",
    definition: "Table.fail_rule",
    comes: "The transaction asked to abort, and is Aborted, by the cause `asked`.",
};

pub(crate) const STAMPED_BEGIN: &ReplyRule = &ReplyRule {
    name: "stamp stamped begin",
    printed: "stamped begin V",
    sentence: "{me} puts its end time {end} into the *Begin of v{r2}*, in place of its name.",
    definition: "Table.stamp_committed",
    comes: "The Begin word of V, which the transaction made, has its end time, or infinity if the transaction is Aborted.",
};

pub(crate) const UNMADE_BEGIN: &ReplyRule = &ReplyRule {
    name: "stamp stamped begin aborted",
    printed: "stamped begin V",
    sentence: "{me} puts infinity into the *Begin of v{r2}*: nobody will ever see it.",
    definition: "Table.stamp_aborted",
    comes: "The Begin word of V, which the transaction made, has its end time, or infinity if the transaction is Aborted.",
};

pub(crate) const STAMPED_END: &ReplyRule = &ReplyRule {
    name: "stamp stamped end",
    printed: "stamped end V",
    sentence: "{me} puts its end time {end} into the *End of v{r2}*, in place of its name.",
    definition: "Table.stamp_committed",
    comes: "The End word of V, which the transaction wrote over, has its end time; if the transaction is Aborted, its name is taken out.",
};

pub(crate) const CLEARED_END: &ReplyRule = &ReplyRule {
    name: "stamp stamped end aborted",
    printed: "stamped end V",
    sentence: "{me} takes its name out of the *End of v{r2}*.",
    definition: "Table.stamp_aborted",
    comes: "The End word of V, which the transaction wrote over, has its end time; if the transaction is Aborted, its name is taken out.",
};

pub(crate) const LEFT: &ReplyRule = &ReplyRule {
    name: "stamp left",
    printed: "left V",
    sentence: "The End of v{r1} does not name {me} any more: it is left as it is.",
    definition: "Table.stamp_aborted",
    comes: "The transaction is Aborted, and a later lock already took its name out of the End word of V: the word stays as it is.",
};

pub(crate) const OVER: &ReplyRule = &ReplyRule {
    name: "end over",
    printed: "over",
    sentence: "{me} holds nothing any more: it is over.",
    definition: "Table.end_rule",
    comes: "The transaction holds nothing any more, and is Terminated.",
};

pub(crate) const VICTIM: &ReplyRule = &ReplyRule {
    name: "detect victim",
    printed: "victim T cycle T U ..",
    sentence: "*Deadlock*: {cycle}. The greatest number is the victim: {t1} *aborts*.",
    definition: "WaitGraph.victim",
    comes: "Finished transactions wait for one another in a cycle; T, the greatest ID on any cycle, is Aborted.",
};

pub(crate) const NO_CYCLE: &ReplyRule = &ReplyRule {
    name: "detect no cycle",
    printed: "no cycle",
    sentence: "The search finds *no cycle* of transactions that wait for one another.",
    definition: "Table.detect_rule",
    comes: "No finished transactions wait for one another in a cycle.",
};

pub(crate) const ABORTED_AGAIN: &ReplyRule = &ReplyRule {
    name: "aborted again",
    printed: "aborted CAUSE",
    sentence: "{me} has aborted before, and gets the cause again: *{r1}*.",
    definition: "Checks.repeats_cause",
    comes: "The transaction is Aborted, by this event or by an earlier one.",
};

pub(crate) const WRITE_CONFLICT: &ReplyRule = &ReplyRule {
    name: "aborted conflict",
    printed: "aborted conflict",
    sentence: "{me} *aborts*: what it sees is not the latest version of the key any more, or has another writer; it does not wait, it aborts at once.",
    definition: "Locks.write_refusal",
    comes: "writes over a version that is ended, or that has a writer which has not aborted",
};

pub(crate) const CLAIMED: &ReplyRule = &ReplyRule {
    name: "aborted conflict claimed",
    printed: "aborted conflict",
    sentence: "{me} *aborts*: another active transaction has made a version of the key; it does not wait, it aborts at once.",
    definition: "Table.is_claimed",
    comes: "sees no version of the key that it inserts, and another Active transaction has made one",
};

pub(crate) const MADE_LATER: &ReplyRule = &ReplyRule {
    name: "aborted conflict later",
    printed: "aborted conflict",
    sentence: "{me} *aborts*: a version of the key was made after it began, so it may not insert another.",
    definition: "Table.is_made_later",
    comes: "reads at the snapshot level, sees no version of the key that it inserts, and one was made after it began",
};

pub(crate) const NO_MORE_READS: &ReplyRule = &ReplyRule {
    name: "aborted no-more-reads",
    printed: "aborted no-more-reads",
    sentence: "{me} *aborts*: the writer counts on having no reader any more, so no read lock is given.",
    definition: "Locks.read_refusal",
    comes: "wants to read-lock a version with NoMoreReadLocks set: its last reader left under a writer",
};

pub(crate) const READERS_FULL: &ReplyRule = &ReplyRule {
    name: "aborted readers-full",
    printed: "aborted readers-full",
    sentence: "{me} *aborts*: the version has 255 readers, and its count is full.",
    definition: "Locks.read_refusal",
    comes: "wants to read-lock a version that 255 others read-lock",
};

pub(crate) const FIRST_READER: &ReplyRule = &ReplyRule {
    name: "aborted no-more-waits",
    printed: "aborted no-more-waits",
    sentence: "{me} *aborts*: the writer has finished, and nobody may make it wait any more.",
    definition: "Locks.read_refusal",
    comes: "would be the first reader of a version whose writer has finished",
};

pub(crate) const FINISHED_CREATOR: &ReplyRule = &ReplyRule {
    name: "aborted no-more-waits creator",
    printed: "aborted no-more-waits",
    sentence: "{me} *aborts*: the maker of a version that it meets has finished, and nobody may make it wait any more.",
    definition: "Walk.wait_judged",
    comes: "is serializable, and meets a version made by another Active transaction that has finished and does not wait for it yet",
};

pub(crate) const DEADLOCK: &ReplyRule = &ReplyRule {
    name: "aborted deadlock",
    printed: "aborted deadlock",
    sentence: "{me} has aborted before: it was the victim of a *deadlock*.",
    definition: "Table.detect_rule",
    comes: "was the victim of a `detect`",
};

pub(crate) const CASCADE: &ReplyRule = &ReplyRule {
    name: "aborted cascade",
    printed: "aborted cascade",
    sentence: "{me} *aborts*: it depended on a transaction that has aborted since.",
    definition: "Table.doom",
    comes: "depended on a Preparing transaction that has aborted since",
};

pub(crate) const ASKED: &ReplyRule = &ReplyRule {
    name: "aborted asked",
    printed: "aborted asked",
    sentence: "{me} has aborted before: it *asked* for it.",
    definition: "Table.fail_rule",
    comes: "was answered `failed` before",
};

pub(crate) const UNKNOWN_TXN: &ReplyRule = &ReplyRule {
    name: "refused UnknownTxn",
    printed: "refused 1 UnknownTxn",
    sentence: "The event is *refused* (UnknownTxn): nothing changes.",
    definition: "World.declared",
    comes: "is of an ID that is not declared; no step of a schedule is",
};

pub(crate) const NOT_BEGUN: &ReplyRule = &ReplyRule {
    name: "refused NotBegun",
    printed: "refused 2 NotBegun",
    sentence: "The event is *refused* (NotBegun): nothing changes.",
    definition: "World.is_not_begun",
    comes: "is not a `begin`, and its transaction has not begun",
};

pub(crate) const BEGUN_TWICE: &ReplyRule = &ReplyRule {
    name: "refused BegunTwice",
    printed: "refused 3 BegunTwice",
    sentence: "The event is *refused* (BegunTwice): nothing changes.",
    definition: "Checks.begins",
    comes: "is a `begin` of a transaction that has begun, even if it has ended since",
};

pub(crate) const ENDED: &ReplyRule = &ReplyRule {
    name: "refused Ended",
    printed: "refused 4 Ended",
    sentence: "The event is *refused* (Ended): nothing changes.",
    definition: "World.is_terminated",
    comes: "is not a `begin`, and its transaction is Terminated",
};

pub(crate) const WRONG_PHASE: &ReplyRule = &ReplyRule {
    name: "refused WrongPhase",
    printed: "refused 5 WrongPhase",
    sentence: "The event is *refused* (WrongPhase): nothing changes.",
    definition: "Checks.in_phase",
    comes: "comes out of turn: a `read` after `finish`, a `commit` before `precommit`, an `end` with something left to give back",
};

pub(crate) const SOMETHING_LEFT: &ReplyRule = &ReplyRule {
    name: "refused WrongPhase end",
    printed: "refused 5 WrongPhase",
    sentence: "The event is *refused* (WrongPhase): something is left to give back. Nothing changes.",
    definition: "Table.holds_nothing",
    comes: "comes out of turn: a `read` after `finish`, a `commit` before `precommit`, an `end` with something left to give back",
};

pub(crate) const CLOCK_FULL: &ReplyRule = &ReplyRule {
    name: "refused ClockFull",
    printed: "refused 6 ClockFull",
    sentence: "The event is *refused* (ClockFull): nothing changes.",
    definition: "Checks.draws",
    comes: "is a `begin` or `precommit`, and the clock is at its end, 2^63 - 2",
};

/// All replies.
pub const REPLY_RULES: &[&ReplyRule] = &[
    BEGAN,
    FOUND,
    READ_NONE,
    ROWS,
    INSERTED,
    EXISTS,
    UPDATED,
    UPDATE_NONE,
    DELETED,
    DELETE_NONE,
    READY,
    WAITING,
    PRECOMMITTED,
    RELEASED_READ,
    RELEASED_LAST_READ,
    RELEASED_BUCKET,
    RELEASED_WAITER,
    NOTHING_TO_RELEASE,
    NOTHING_TO_STAMP,
    COMMITTED,
    WAITING_COMMITS,
    FAILED,
    STAMPED_BEGIN,
    UNMADE_BEGIN,
    STAMPED_END,
    CLEARED_END,
    LEFT,
    OVER,
    VICTIM,
    NO_CYCLE,
    ABORTED_AGAIN,
    WRITE_CONFLICT,
    CLAIMED,
    MADE_LATER,
    NO_MORE_READS,
    READERS_FULL,
    FIRST_READER,
    FINISHED_CREATOR,
    DEADLOCK,
    CASCADE,
    ASKED,
    UNKNOWN_TXN,
    NOT_BEGUN,
    BEGUN_TWICE,
    ENDED,
    WRONG_PHASE,
    SOMETHING_LEFT,
    CLOCK_FULL,
];
