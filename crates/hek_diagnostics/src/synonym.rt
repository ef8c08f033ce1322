//! Words of other systems, and what there is here in their place.
use crate::finding::{Finding, Hint};

/// What there is in place of a word.
#[derive(Clone, Copy)]
enum Instead {
    /// This word means the same.
    Word(&'static str),
    /// What this sentence says.
    Sentence(&'static str),
}

const WRITES: Instead = Instead::Sentence(
    "`update KEY VALUE` changes a row, and `insert KEY VALUE` makes one",
);

const READS: Instead = Instead::Sentence(
    "`read KEY` reads a row, and `scan BUCKET` all rows of a bucket",
);

const LOCKS: Instead = Instead::Sentence("reads, scans and writes lock what they need");

const READ_COMMITTED: Instead = Instead::Sentence(
    "there is no level read committed: `repeatable` and `snapshot` are the weakest",
);

const EVENTS: &[(&str, Instead)] = &[
    ("write", WRITES),
    ("set", WRITES),
    ("put", WRITES),
    ("upsert", WRITES),
    ("select", READS),
    ("get", READS),
    ("abort", Instead::Word("fail")),
    ("rollback", Instead::Word("fail")),
    ("cancel", Instead::Word("fail")),
    ("remove", Instead::Word("delete")),
    ("start", Instead::Word("begin")),
    ("prepare", Instead::Word("precommit")),
    ("validate", Instead::Word("precommit")),
    ("lock", LOCKS),
    ("unlock", LOCKS),
    (
        "deadlock",
        Instead::Sentence("a line `detect` looks for a deadlock"),
    ),
];

const LEVELS: &[(&str, Instead)] = &[
    ("read-committed", READ_COMMITTED),
    ("read_committed", READ_COMMITTED),
    ("readcommitted", READ_COMMITTED),
    ("committed", READ_COMMITTED),
    ("read", READ_COMMITTED),
    ("rc", READ_COMMITTED),
    ("read-uncommitted", READ_COMMITTED),
    ("read_uncommitted", READ_COMMITTED),
    ("repeatable-read", Instead::Word("repeatable")),
    ("repeatable_read", Instead::Word("repeatable")),
    ("rr", Instead::Word("repeatable")),
    ("snapshot-isolation", Instead::Word("snapshot")),
    ("snapshot_isolation", Instead::Word("snapshot")),
    ("si", Instead::Word("snapshot")),
    ("serial", Instead::Word("serializable")),
];

/// Adds what there is in place of a word of other systems that names an event there; for another word, what else is meant.
pub(crate) fn meaning_event<'t>(finding: Finding<'t>, word: &[u8], otherwise: Hint) -> Finding<'t> {
    meaning(finding, EVENTS, word, otherwise)
}

/// The same of a word that names a level there.
pub(crate) fn meaning_level<'t>(finding: Finding<'t>, word: &[u8], otherwise: Hint) -> Finding<'t> {
    meaning(finding, LEVELS, word, otherwise)
}

fn meaning<'t>(
    finding: Finding<'t>,
    words: &[(&'static str, Instead)],
    word: &[u8],
    otherwise: Hint,
) -> Finding<'t> {
    match instead_of(words, word) {
        Some(Instead::Word(meant)) => finding.hinting(Hint::Word(meant)),
        Some(Instead::Sentence(sentence)) => finding.with_instead(sentence),
        None => finding.hinting(otherwise),
    }
}

/// What there is in place of a word, in small letters or capitals.
fn instead_of(words: &[(&'static str, Instead)], word: &[u8]) -> Option<Instead> {
    for row in words {
        if word.eq_ignore_ascii_case(row.0.as_bytes()) {
            return Some(row.1);
        }
    }
    None
}
