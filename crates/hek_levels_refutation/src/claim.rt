//! What a certificate of a failure is made of.
use hek_levels::{Asked, Log, Place, Writer};

/// What a step says of an explanation. Transactions that don't take place count as after all others, by their numbers.
#[derive(Clone, Copy)]
pub enum Claim {
    /// The first is before the second.
    Before {
        first: Writer,
        second: Writer,
    },
    /// It takes place.
    Occurs(usize),
    /// The reader takes place, and the source of its read has this number or a later one, below the end: the opening has 0, and
    /// the transaction x has x + 1.
    From {
        reader: usize,
        place: Place,
        number: usize,
        end: usize,
    },
    /// The reader takes place, and the writer is the source of its read.
    Source {
        reader: usize,
        place: Place,
        writer: Writer,
    },
    /// If the reader takes place, the writer is not the source of its read.
    Not {
        reader: usize,
        place: Place,
        writer: Writer,
    },
    /// The reader takes place, and its read sees the transaction.
    Visible {
        reader: usize,
        place: Place,
        transaction: usize,
    },
    Contradiction,
}

/// How a transaction sees another by writes or by its turns. A premise is the place of a claim.
#[derive(Clone, Copy)]
pub enum Link {
    /// Both write the key, and the premise says that the other is before.
    Writers {
        other: usize,
        key: u64,
        before: usize,
    },
    /// A turn of the other is before one of its own, and the premise says that it is before.
    Turn {
        other: usize,
        before: usize,
    },
    /// The same of one that reads from another, by the premise `source`.
    Reads {
        through: usize,
        before: usize,
        source: usize,
    },
}

/// A step of a certificate: by which rule its claim follows from the claims that hold then. A premise is the place of one of
/// these, from 0: a step adds one at the end, and a contradiction takes away those of the innermost case, and puts the
/// contrary of its assumption in their place. `taken` is the premise that a transaction takes place, and not needed where
/// it is known to have committed.
#[derive(Clone, Copy)]
pub enum Step {
    /// The opening is before each transaction.
    First {
        second: usize,
    },
    /// A transaction that is known to have committed takes place.
    Committed {
        transaction: usize,
    },
    /// Who is before one that takes place does so too.
    In {
        premise: usize,
        taken: Option<usize>,
    },
    /// The source of a read is among all writers.
    Start {
        reader: usize,
        place: Place,
        taken: Option<usize>,
    },
    /// No writer below the number is a candidate.
    Skip {
        from: usize,
        number: usize,
    },
    /// The first that is left is not the source.
    Drop {
        from: usize,
        not: usize,
    },
    /// No writer from the number on is a candidate.
    SkipBack {
        from: usize,
        number: usize,
    },
    /// The last that is left is not the source.
    DropBack {
        from: usize,
        not: usize,
    },
    /// The first that is left is the only candidate.
    Only {
        from: usize,
    },
    /// No candidate is left.
    Exhausted {
        from: usize,
    },
    /// The source is before its reader.
    Read {
        source: usize,
    },
    /// Turns are kept.
    Turn {
        first: usize,
        second: usize,
        first_taken: Option<usize>,
        second_taken: Option<usize>,
    },
    /// One before a second, and this one before a third.
    Chain {
        first: usize,
        second: usize,
    },
    /// A read sees the source of a read of its transaction.
    Own {
        source: usize,
        place: Place,
    },
    /// A read sees who is before its transaction.
    Whole {
        before: usize,
        place: Place,
        taken: Option<usize>,
    },
    /// A read sees what its transaction does by writes or by its turns.
    Linked {
        reader: usize,
        place: Place,
        taken: Option<usize>,
        link: Link,
    },
    /// What is seen shows who is before it.
    ShowsBefore {
        visible: usize,
        before: usize,
    },
    /// What is seen shows its source.
    Shows {
        visible: usize,
        source: usize,
    },
    /// What is seen shows what it sees by writes or by its turns.
    ShowsLinked {
        visible: usize,
        link: Link,
    },
    /// A writer of the key that is seen and is not the source is before the source.
    Newest {
        visible: usize,
        source: usize,
    },
    /// Who is after the reader is not the source.
    NotLater {
        place: Place,
        before: usize,
    },
    /// Who is before a writer of the key that is seen is not the source.
    NotOlder {
        visible: usize,
        before: usize,
    },
    /// One case of two: the first is before the second.
    AssumeBefore {
        first: Writer,
        second: Writer,
    },
    /// One case of two: the reader takes place, and the writer is the source of its read.
    AssumeSource {
        reader: usize,
        place: Place,
        writer: Writer,
    },
    /// A writer before itself, or before the opening.
    Contra {
        premise: usize,
    },
    /// One that takes place, and cannot.
    Impossible {
        transaction: usize,
        taken: Option<usize>,
    },
}

/// A claim, and its contrary if it is assumed.
#[derive(Clone, Copy)]
pub struct Shown {
    pub claim: Claim,
    pub contrary: Option<Claim>,
}

/// What a step of a certificate is judged in: the rules, the log, and what is shown so far.
#[derive(Clone, Copy)]
pub(crate) struct Context<'a> {
    pub asked: &'a Asked,
    pub log: &'a Log,
    pub shown: &'a [Shown],
}
