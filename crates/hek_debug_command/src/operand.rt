//! Mistakes in what is named after `break at`, `watch end`, `show txn` and the like.
use crate::condition::Comparison;
use crate::mistake::{Meant, Mistake, NUMBER, Wanted, Word, is_digits, nth_word, number_form};
use crate::reply_kind::kind_named;
use hek_diagnostics::Vocabulary;
use hek_rules::{EventKind, Schedule, number};

/// The words after `break`, in a session and in a file.
pub(crate) const BREAKS: Vocabulary = Vocabulary::These(&["at", "event", "txn", "reply", "if"]);

pub(crate) const FILE_BREAKS: Vocabulary = Vocabulary::These(&["at", "event", "txn"]);

pub(crate) const WATCHES: Vocabulary = Vocabulary::These(&["begin", "end", "waits"]);

pub(crate) const SHOWS: Vocabulary = Vocabulary::These(&[
    "txn", "version", "key", "bucket", "clock", "waits",
]);

/// What a condition compares.
pub(crate) const COUNTERS: Vocabulary = Vocabulary::These(&["waits"]);

/// How a condition compares.
const COMPARISONS: Vocabulary = Vocabulary::These(&["<", "<=", "=", "!=", ">=", ">"]);

/// The form of a condition.
const CONDITION: &str = "`% if waits NAME OP N`, OP one of < <= = != >= >";

/// What is named.
#[derive(Clone, Copy, PartialEq, Eq)]
pub(crate) enum Operand {
    Position,
    Event,
    Txn,
    Version,
    Key,
    Bucket,
    Reply,
}

const OPERANDS: &[(&str, &str, Operand)] = &[
    ("break", "at", Operand::Position),
    ("break", "event", Operand::Event),
    ("break", "txn", Operand::Txn),
    ("break", "reply", Operand::Reply),
    ("watch", "begin", Operand::Version),
    ("watch", "end", Operand::Version),
    ("watch", "waits", Operand::Txn),
    ("show", "txn", Operand::Txn),
    ("show", "version", Operand::Version),
    ("show", "key", Operand::Key),
    ("show", "bucket", Operand::Bucket),
];

/// What is named after two words, if something is.
fn operand_after(command: &str, second: &[u8]) -> Option<Operand> {
    for row in OPERANDS {
        if is_taken_as(command, row.0) && second == row.1.as_bytes() {
            return Some(row.2);
        }
    }
    None
}

/// Whether a command takes what another takes. `tbreak` and `until` take what `break` takes.
fn is_taken_as(command: &str, other: &str) -> bool {
    if command == "tbreak" || command == "until" {
        return other == "break";
    }
    command == other
}

/// What is wrong after two words that name something; None if they don't.
pub(crate) fn operand_mistake<'t>(
    schedule: &Schedule,
    line: &'t [u8],
    command: &'static str,
    second: Word<'t>,
) -> Option<Mistake<'t>> {
    let operand = operand_after(command, second.text)?;
    let Some(named) = nth_word(line, 2) else {
        let mistake = Mistake::new(second, command, operand.missing(), operand.whole());
        return Some(mistake.after(second.text));
    };
    if !operand.is_met(schedule, named.text) {
        return Some(operand.unmet(command, named));
    }
    let place = operand.most(line);
    let more = nth_word(line, place)?;
    let mistake = Mistake::new(more, command, operand.too_many(), operand.whole());
    Some(mistake.after(second.text))
}

impl Operand {
    /// Whether a word names this.
    pub(crate) fn is_met(self, schedule: &Schedule, word: &[u8]) -> bool {
        match self {
            Operand::Position | Operand::Version | Operand::Key | Operand::Bucket => {
                number(word).is_some()
            }
            Operand::Event => EventKind::named(word).is_some(),
            Operand::Txn => schedule.id_of(word).is_some(),
            Operand::Reply => kind_named(word, None).is_some(),
        }
    }

    /// How many words a line with this has at most. A kind of replies has a fourth word only if the third goes with it.
    fn most(self, line: &[u8]) -> usize {
        if self != Operand::Reply {
            return 3;
        }
        match (nth_word(line, 2), nth_word(line, 3)) {
            (Some(first), Some(second)) if kind_named(first.text, Some(second.text)).is_some() => 4,
            _ => 3,
        }
    }

    fn missing(self) -> &'static str {
        match self {
            Operand::Position => "`% ^` wants a number after it",
            Operand::Event => "`% ^` wants an event after it",
            Operand::Txn => "`% ^` wants a name after it",
            Operand::Version => "`% ^` wants a version after it",
            Operand::Key => "`% ^` wants a key after it",
            Operand::Bucket => "`% ^` wants a bucket after it",
            Operand::Reply => "`% ^` wants the first word of a reply after it",
        }
    }

    fn too_many(self) -> &'static str {
        match self {
            Operand::Position => "`% ^` takes one number, and @ is one word too many",
            Operand::Event => "`% ^` takes one event, and @ is one word too many",
            Operand::Txn => "`% ^` takes one name, and @ is one word too many",
            Operand::Version => "`% ^` takes one version, and @ is one word too many",
            Operand::Key => "`% ^` takes one key, and @ is one word too many",
            Operand::Bucket => "`% ^` takes one bucket, and @ is one word too many",
            Operand::Reply => "`% ^` takes a kind of replies, and @ is one word too many",
        }
    }

    /// The form of the whole command.
    fn whole(self) -> Wanted {
        match self {
            Operand::Position => Wanted::Form("`% ^ N`"),
            Operand::Event => Wanted::Among(Vocabulary::AllEvents),
            Operand::Txn => Wanted::Form("`% ^ NAME`"),
            Operand::Version => Wanted::Form("`% ^ V`"),
            Operand::Key => Wanted::Form("`% ^ K`"),
            Operand::Bucket => Wanted::Form("`% ^ B`"),
            Operand::Reply => Wanted::Form(
                "the first words of a reply, as in `% reply waiting` and `% reply aborted deadlock`",
            ),
        }
    }

    /// What is wrong with a word that doesn't name this.
    fn unmet<'t>(self, command: &'static str, word: Word<'t>) -> Mistake<'t> {
        match self {
            Operand::Position => {
                Mistake::new(word, command, number_form(word.text), Wanted::Form(NUMBER))
            }
            Operand::Version => {
                let form = "the version @ is not a number";
                Mistake::new(word, command, form, Wanted::Form("a version, from 0"))
            }
            Operand::Key => {
                let form = "the key @ is not a number";
                Mistake::new(word, command, form, Wanted::Form(NUMBER))
            }
            Operand::Bucket => {
                let form = "the bucket @ is not a number";
                Mistake::new(word, command, form, Wanted::Form("a bucket, from 0"))
            }
            Operand::Event => {
                let form = "no event is called @";
                Mistake::new(word, command, form, Wanted::Among(Vocabulary::AllEvents)).meaning(
                    Meant::Nearest,
                )
            }
            Operand::Reply => {
                let form = "no reply begins with @";
                Mistake::new(word, command, form, Wanted::Among(Vocabulary::Replies)).meaning(
                    Meant::Nearest,
                )
            }
            Operand::Txn => {
                Mistake::new(word, command, name_form(word.text), Wanted::Names).meaning(
                    Meant::Nearest,
                )
            }
        }
    }
}

/// What is said of a word in the place of a transaction's name.
fn name_form(word: &[u8]) -> &'static str {
    if is_digits(word) {
        return "no transaction is called @: transactions go by their names";
    }
    if word.iter().any(|byte| matches!(*byte, b'<' | b'>' | b'=')) {
        return "no transaction is called @: a comparison is a word by itself, as in `waits b > 0`";
    }
    "no transaction is called @"
}

/// What is wrong with the words after `break if`, and after `tbreak if` and `until if`.
pub(crate) fn condition_mistake<'t>(
    schedule: &Schedule,
    line: &'t [u8],
    command: &'static str,
    second: Word<'t>,
) -> Mistake<'t> {
    let Some(counter) = nth_word(line, 2) else {
        let form = "`% if` wants a condition after it";
        return Mistake::new(second, command, form, Wanted::Form(CONDITION));
    };
    if counter.text != b"waits".as_slice() {
        let form = "no counter is called @";
        return Mistake::new(counter, command, form, Wanted::Among(COUNTERS)).meaning(
            Meant::Nearest,
        );
    }
    let Some(name) = nth_word(line, 3) else {
        let form = "`waits` wants the name of a transaction after it";
        return Mistake::new(counter, command, form, Wanted::Form(CONDITION));
    };
    if schedule.id_of(name.text).is_none() {
        return Operand::Txn.unmet(command, name);
    }
    comparison_mistake(line, command, name)
}

/// What is wrong with the words after the name in a condition.
fn comparison_mistake<'t>(line: &'t [u8], command: &'static str, name: Word<'t>) -> Mistake<'t> {
    let Some(comparison) = nth_word(line, 4) else {
        let form = "a comparison is wanted after @";
        return Mistake::new(name, command, form, Wanted::Form(CONDITION));
    };
    if Comparison::named(comparison.text).is_none() {
        let form = "@ is not a comparison";
        return Mistake::new(comparison, command, form, Wanted::Among(COMPARISONS));
    }
    let Some(bound) = nth_word(line, 5) else {
        let form = "a number is wanted after @";
        return Mistake::new(comparison, command, form, Wanted::Form(CONDITION));
    };
    if number(bound.text).is_none() {
        return Mistake::new(
            bound,
            command,
            number_form(bound.text),
            Wanted::Form(NUMBER),
        );
    }
    let more = nth_word(line, 6).unwrap_or(bound);
    let form = "`% if` takes one condition, and @ is one word too many";
    Mistake::new(more, command, form, Wanted::Form(CONDITION))
}
