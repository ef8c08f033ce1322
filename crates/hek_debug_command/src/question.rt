//! What a session answers besides the debugger's commands.
use crate::name::{Meaning, Name, meant_by, name_of};
use hek_rules::{Schedule, TxnId, VersionId, next_word, number};

/// A question to a session. No question changes the debugger's position.
#[derive(Clone, Copy)]
pub(crate) enum Question {
    /// The whole state of the machine.
    State,
    Txn(TxnId),
    Version(VersionId),
    /// The versions of a key.
    Key(u64),
    /// The lock of a bucket.
    Bucket(u64),
    Clock,
    /// Who waits for whom, and whose commit depends on whose.
    Waits,
    /// Some steps.
    Steps(Listing),
    /// Why the last step has its reply.
    Why,
    /// What the last step changed.
    Changes,
    /// The breakpoints and watches.
    Marks,
    Help,
    /// The help of a command.
    HelpOn(Name),
    /// Ends the session.
    Quit,
}

/// The steps that are listed.
#[derive(Clone, Copy)]
pub(crate) enum Listing {
    /// Those around the position.
    Here,
    /// Those around a step, by its number.
    Around(u64),
    /// Those from a step to another, by their numbers.
    Between(u64, u64),
}

/// The question that a line is, with the names that a schedule gives, if it is one.
pub(crate) fn read_question(schedule: &Schedule, line: &[u8]) -> Option<Question> {
    let (word, rest) = next_word(line)?;
    if word == b"show".as_slice() {
        return shown(schedule, rest);
    }
    let Some((first, more)) = next_word(rest) else {
        return alone(word);
    };
    if word == b"list".as_slice() {
        return listed(number(first)?, more);
    }
    if word == b"help".as_slice() && next_word(more).is_none() {
        return help_on(first);
    }
    None
}

/// The question that is one word, if there is such a question.
fn alone(word: &[u8]) -> Option<Question> {
    match name_of(word)?.name {
        Name::List => Some(Question::Steps(Listing::Here)),
        Name::Why => Some(Question::Why),
        Name::Changes => Some(Question::Changes),
        Name::Marks => Some(Question::Marks),
        Name::Help => Some(Question::Help),
        Name::Quit => Some(Question::Quit),
        _ => None,
    }
}

/// The steps that the words after `list` name: the first number, and the words after it.
fn listed(first: u64, more: &[u8]) -> Option<Question> {
    let Some((last, rest)) = next_word(more) else {
        return Some(Question::Steps(Listing::Around(first)));
    };
    let last = number(last)?;
    if next_word(rest).is_some() || last < first {
        return None;
    }
    Some(Question::Steps(Listing::Between(first, last)))
}

/// The help of the command that a word is, or is short for.
fn help_on(word: &[u8]) -> Option<Question> {
    match meant_by(word) {
        Meaning::One(text) => Some(Question::HelpOn(text.name)),
        Meaning::Several | Meaning::None => None,
    }
}

/// What the words after `show` ask for.
fn shown(schedule: &Schedule, line: &[u8]) -> Option<Question> {
    let Some((what, rest)) = next_word(line) else {
        return Some(Question::State);
    };
    let Some((operand, rest)) = next_word(rest) else {
        return shown_alone(what);
    };
    if next_word(rest).is_some() {
        return None;
    }
    if what == b"txn".as_slice() {
        return Some(Question::Txn(schedule.id_of(operand)?));
    }
    shown_by_number(what, number(operand)?)
}

/// What a word after `show` asks for that takes nothing.
fn shown_alone(what: &[u8]) -> Option<Question> {
    if what == b"clock".as_slice() {
        return Some(Question::Clock);
    }
    if what == b"waits".as_slice() {
        return Some(Question::Waits);
    }
    None
}

/// What a word after `show` asks for that takes a number.
fn shown_by_number(what: &[u8], number: u64) -> Option<Question> {
    if what == b"version".as_slice() {
        return Some(Question::Version(VersionId::new(number)));
    }
    if what == b"key".as_slice() {
        return Some(Question::Key(number));
    }
    if what == b"bucket".as_slice() {
        return Some(Question::Bucket(number));
    }
    None
}
