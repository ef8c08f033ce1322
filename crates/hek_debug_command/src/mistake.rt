//! What is wrong with a line that is not a command.
use crate::elsewhere::said_of;
use crate::name::{Meaning, Name, NameText, Place, meant_by, name_of};
use crate::operand::{
    BREAKS, FILE_BREAKS, Operand, SHOWS, WATCHES, condition_mistake, operand_mistake,
};
use hek_diagnostics::Vocabulary;
use hek_rules::{EventKind, Schedule, next_word, number};

/// Where a line is.
#[derive(Clone, Copy, PartialEq, Eq)]
pub(crate) enum Medium {
    Session,
    File,
}

/// A word of a line, and the byte of the line at which it begins.
#[derive(Clone, Copy)]
pub(crate) struct Word<'t> {
    pub(crate) text: &'t [u8],
    pub(crate) start: usize,
}

/// What is wanted at the place of a mistake.
#[derive(Clone, Copy)]
pub(crate) enum Wanted {
    /// A form, in which letters stand for words as in the sentence.
    Form(&'static str),
    /// One of these words.
    Among(Vocabulary),
    /// The name of a transaction.
    Names,
    /// The first word of a command.
    Commands(Medium),
    /// A longer beginning of a command's word.
    Longer,
}

/// What is meant by the word at fault.
#[derive(Clone, Copy)]
pub(crate) enum Meant {
    Nothing,
    /// A form, in which letters stand for words as in the sentence.
    Form(&'static str),
    /// The nearest of what is wanted.
    Nearest,
}

/// A mistake of a line. In its forms `@` stands for the word at fault between back-ticks, `~` for the word without
/// them, `$` for that without its first character, `%` for the command's word, and `^` for the word after that.
#[derive(Clone, Copy)]
pub(crate) struct Mistake<'t> {
    pub(crate) word: Word<'t>,
    pub(crate) command: &'static str,
    pub(crate) second: &'t [u8],
    pub(crate) form: &'static str,
    pub(crate) wanted: Wanted,
    pub(crate) meant: Meant,
}

impl<'t> Mistake<'t> {
    pub(crate) fn new(
        word: Word<'t>,
        command: &'static str,
        form: &'static str,
        wanted: Wanted,
    ) -> Mistake<'t> {
        Mistake {
            word,
            command,
            second: b"",
            form,
            wanted,
            meant: Meant::Nothing,
        }
    }

    pub(crate) fn meaning(mut self, meant: Meant) -> Mistake<'t> {
        self.meant = meant;
        self
    }

    pub(crate) fn after(mut self, second: &'t [u8]) -> Mistake<'t> {
        self.second = second;
        self
    }
}

/// What a number is.
pub(crate) const NUMBER: &str = "a number: 1 to 20 decimal digits, at most 18446744073709551615";

/// The word of a line that comes after so many others.
pub(crate) fn nth_word(line: &[u8], place: usize) -> Option<Word<'_>> {
    let mut rest = line;
    for _ in 0..place {
        let Some((_, after)) = next_word(rest) else {
            return None;
        };
        rest = after;
    }
    let (text, after) = next_word(rest)?;
    let end = line.len().saturating_sub(after.len());
    Some(Word {
        text,
        start: end.saturating_sub(text.len()),
    })
}

/// What is wrong with a line, if it has words.
pub(crate) fn mistake_of<'t>(
    schedule: &Schedule,
    line: &'t [u8],
    medium: Medium,
) -> Option<Mistake<'t>> {
    let word = nth_word(line, 0)?;
    let named = match medium {
        Medium::Session => meant_by(word.text),
        Medium::File => in_file(word.text),
    };
    let Meaning::One(text) = named else {
        return Some(no_name(schedule, word, medium));
    };
    if medium == Medium::File && text.place != Place::Files {
        return Some(Mistake::new(
            word,
            text.word,
            for_sessions(text.place),
            Wanted::Commands(medium),
        ));
    }
    after_name(schedule, line, word, text.name, text.word, medium)
}

/// The name with exactly this word.
fn in_file(word: &[u8]) -> Meaning {
    match name_of(word) {
        Some(text) => Meaning::One(text),
        None => Meaning::None,
    }
}

/// What is said in a file of a command that only sessions have.
fn for_sessions(place: Place) -> &'static str {
    if place == Place::Questions {
        return "@ is a question, and only a session without a file of commands answers it";
    }
    "only a session without a file of commands has @"
}

/// What is wrong with a first word that is no command's.
fn no_name<'t>(schedule: &Schedule, word: Word<'t>, medium: Medium) -> Mistake<'t> {
    let commands = Wanted::Commands(medium);
    let short = meant_by(word.text);
    if medium == Medium::File {
        if let Meaning::One(text) = short {
            return short_in_file(word, text);
        }
    }
    if matches!(short, Meaning::Several) {
        return Mistake::new(word, "", "several commands begin with @", Wanted::Longer);
    }
    if schedule.id_of(word.text).is_some() {
        let form = "no command is called @: steps are typed in `hek drive`";
        return Mistake::new(word, "", form, commands);
    }
    if medium == Medium::File {
        return Mistake::new(word, "", unknown_in_file(word.text), commands).meaning(Meant::Nearest);
    }
    if let Some(other) = said_of(word.text) {
        return Mistake::new(word, "", other.form, commands).meaning(other.meant);
    }
    if EventKind::named(word.text).is_some() {
        let form = "no command is called @: `until event ~` goes to such a step";
        return Mistake::new(word, "", form, commands).meaning(Meant::Form("until event ~"));
    }
    Mistake::new(word, "", unknown(word.text), commands).meaning(Meant::Nearest)
}

/// What is wrong with a word in a file that is short for a command in a session.
fn short_in_file<'t>(word: Word<'t>, text: NameText) -> Mistake<'t> {
    let form = "@ means `%` only in a session without a file of commands";
    let mistake = Mistake::new(word, text.word, form, Wanted::Commands(Medium::File));
    if text.place == Place::Files {
        return mistake.meaning(Meant::Form("%"));
    }
    mistake
}

/// What is said in a file of a first word that is no command's.
fn unknown_in_file(word: &[u8]) -> &'static str {
    if word == b"buckets".as_slice() {
        return "this looks like a schedule, and commands are wanted here";
    }
    if is_digits(word) {
        return "this looks like a trace, and commands are wanted here";
    }
    unknown(word)
}

fn unknown(word: &[u8]) -> &'static str {
    if word.iter().any(|byte| byte.is_ascii_uppercase()) {
        return "no command is called @: commands are in lower case";
    }
    "no command is called @"
}

/// What is wrong with the words after a command's, or with how many there are.
fn after_name<'t>(
    schedule: &Schedule,
    line: &'t [u8],
    word: Word<'t>,
    name: Name,
    command: &'static str,
    medium: Medium,
) -> Option<Mistake<'t>> {
    match name {
        Name::Step | Name::Back | Name::Goto | Name::Delete => {
            Some(on_number(line, word, name, command))
        }
        Name::Break | Name::Tbreak | Name::Until => {
            Some(on_break(schedule, line, word, command, medium))
        }
        Name::Watch => Some(on_watch(schedule, line, word)),
        Name::Show => on_show(schedule, line),
        Name::List => on_list(line),
        Name::Help => on_help(line),
        Name::Source => Some(on_source(line, word)),
        _ => on_alone(line, name, command),
    }
}

/// What is wrong after a command that takes nothing.
fn on_alone<'t>(line: &'t [u8], name: Name, command: &'static str) -> Option<Mistake<'t>> {
    let word = nth_word(line, 1)?;
    let form = "`%` takes nothing after it, and @ is one word too many";
    let mistake = Mistake::new(word, command, form, Wanted::Form("`%` alone"));
    if name == Name::Clear && number(word.text).is_some() {
        return Some(mistake.meaning(Meant::Form("delete ~")));
    }
    Some(mistake)
}

/// What is wrong after a command that takes a number.
fn on_number<'t>(line: &'t [u8], word: Word<'t>, name: Name, command: &'static str) -> Mistake<'t> {
    let wanted = Wanted::Form("`% N`");
    let Some(operand) = nth_word(line, 1) else {
        return Mistake::new(word, command, "`%` wants a number after it", wanted);
    };
    if number(operand.text).is_none() {
        return no_number(operand, name, command);
    }
    match nth_word(line, 2) {
        Some(more) => {
            let form = "`%` takes one number, and @ is one word too many";
            Mistake::new(more, command, form, wanted)
        }
        None => {
            let form = "no breakpoint or watch has the index @";
            Mistake::new(
                operand,
                command,
                form,
                Wanted::Form("an index that `marks` prints"),
            )
        }
    }
}

/// What is wrong with a word in the place of a number.
fn no_number<'t>(word: Word<'t>, name: Name, command: &'static str) -> Mistake<'t> {
    let form = if name == Name::Step && word.text.starts_with(b"-") {
        "@ is not a number: `back $` goes back"
    } else {
        number_form(word.text)
    };
    Mistake::new(word, command, form, Wanted::Form(NUMBER))
}

/// What is said of a word in the place of a number.
pub(crate) fn number_form(word: &[u8]) -> &'static str {
    if is_digits(word) {
        return "@ is too large for a number";
    }
    "@ is not a number"
}

pub(crate) fn is_digits(word: &[u8]) -> bool {
    word.iter().all(|byte| byte.is_ascii_digit())
}

/// What is wrong after `break`, `tbreak` and `until`.
fn on_break<'t>(
    schedule: &Schedule,
    line: &'t [u8],
    word: Word<'t>,
    command: &'static str,
    medium: Medium,
) -> Mistake<'t> {
    let (kinds, after, before) = match medium {
        Medium::Session => (
            BREAKS,
            "`%` wants a number, `at`, `event`, `txn`, `reply` or `if` after it",
            "`%` wants `at`, `event`, `txn`, `reply` or `if` before @",
        ),
        Medium::File => (
            FILE_BREAKS,
            "`%` wants `at`, `event` or `txn` after it",
            "`%` wants `at`, `event` or `txn` before @",
        ),
    };
    let Some(second) = nth_word(line, 1) else {
        return Mistake::new(word, command, after, Wanted::Among(kinds));
    };
    if let Some(mistake) = own_break_mistake(schedule, line, command, second, medium) {
        return mistake;
    }
    if let Some(mistake) = operand_mistake(schedule, line, command, second) {
        return mistake;
    }
    match nth_word(line, 2) {
        Some(more) if medium == Medium::Session && number(second.text).is_some() => {
            let form = "`%` takes one number, and @ is one word too many";
            Mistake::new(more, command, form, Wanted::Form("`% N`"))
        }
        _ => Mistake::new(second, command, before, Wanted::Among(kinds)).meaning(meant_break(
            schedule,
            second.text,
            medium,
        )),
    }
}

/// What is wrong after `break` with words that only a session has there.
fn own_break_mistake<'t>(
    schedule: &Schedule,
    line: &'t [u8],
    command: &'static str,
    second: Word<'t>,
    medium: Medium,
) -> Option<Mistake<'t>> {
    let is_reply = second.text == b"reply".as_slice();
    let is_if = second.text == b"if".as_slice();
    if medium == Medium::Session {
        return match is_if {
            true => Some(condition_mistake(schedule, line, command, second)),
            false => None,
        };
    }
    let form = match (is_reply, is_if) {
        (true, _) => "only a session without a file of commands has `% reply`",
        (_, true) => "only a session without a file of commands has `% if`",
        _ => return None,
    };
    Some(Mistake::new(second, command, form, Wanted::Among(FILE_BREAKS)))
}

/// The breakpoint that is meant by a word right after `break`.
fn meant_break(schedule: &Schedule, word: &[u8], medium: Medium) -> Meant {
    if number(word).is_some() {
        return Meant::Form("% at ~");
    }
    if EventKind::named(word).is_some() {
        return Meant::Form("% event ~");
    }
    if schedule.id_of(word).is_some() {
        return Meant::Form("% txn ~");
    }
    if medium == Medium::Session && is_reply(schedule, word) {
        return Meant::Form("% reply ~");
    }
    Meant::Nearest
}

fn is_reply(schedule: &Schedule, word: &[u8]) -> bool {
    Operand::Reply.is_met(schedule, word)
}

/// What is wrong after `watch`.
fn on_watch<'t>(schedule: &Schedule, line: &'t [u8], word: Word<'t>) -> Mistake<'t> {
    let Some(second) = nth_word(line, 1) else {
        let form = "`watch` wants `begin`, `end` or `waits` after it";
        return Mistake::new(word, "watch", form, Wanted::Among(WATCHES));
    };
    match operand_mistake(schedule, line, "watch", second) {
        Some(mistake) => mistake,
        None => {
            let form = "nothing is watched as @";
            Mistake::new(second, "watch", form, Wanted::Among(WATCHES)).meaning(Meant::Nearest)
        }
    }
}

/// What is wrong after `show`.
fn on_show<'t>(schedule: &Schedule, line: &'t [u8]) -> Option<Mistake<'t>> {
    let second = nth_word(line, 1)?;
    match operand_mistake(schedule, line, "show", second) {
        Some(mistake) => Some(mistake),
        None if is_shown_alone(second.text) => {
            let more = nth_word(line, 2)?;
            let form = "`show ^` takes nothing after it, and @ is one word too many";
            let mistake = Mistake::new(more, "show", form, Wanted::Form("`show ^` alone"));
            Some(mistake.after(second.text))
        }
        None => {
            let form = "nothing is shown as @";
            Some(Mistake::new(second, "show", form, Wanted::Among(SHOWS)).meaning(Meant::Nearest))
        }
    }
}

/// Whether `show` takes nothing after this word.
fn is_shown_alone(word: &[u8]) -> bool {
    word == b"clock".as_slice() || word == b"waits".as_slice()
}

/// What is wrong after `list`.
fn on_list<'t>(line: &'t [u8]) -> Option<Mistake<'t>> {
    let wanted = Wanted::Form("`list`, `list N` or `list N M`, M not less than N");
    let first = nth_word(line, 1)?;
    if number(first.text).is_none() {
        return Some(Mistake::new(first, "list", number_form(first.text), wanted));
    }
    let last = nth_word(line, 2)?;
    if number(last.text).is_none() {
        return Some(Mistake::new(last, "list", number_form(last.text), wanted));
    }
    match nth_word(line, 3) {
        Some(more) => {
            let form = "`list` takes two numbers, and @ is one word too many";
            Some(Mistake::new(more, "list", form, wanted))
        }
        None => {
            let form = "@ is less than the number before it";
            Some(Mistake::new(last, "list", form, wanted))
        }
    }
}

/// What is wrong after `help`.
fn on_help<'t>(line: &'t [u8]) -> Option<Mistake<'t>> {
    let word = nth_word(line, 1)?;
    if let Some(more) = nth_word(line, 2) {
        let form = "`help` takes one command, and @ is one word too many";
        return Some(Mistake::new(more, "help", form, Wanted::Form("`help COMMAND`")));
    }
    let commands = Wanted::Commands(Medium::Session);
    match meant_by(word.text) {
        Meaning::Several => {
            Some(Mistake::new(
                word,
                "help",
                "several commands begin with @",
                Wanted::Longer,
            ))
        }
        _ => match said_of(word.text) {
            Some(other) => {
                Some(Mistake::new(word, "help", other.form, commands).meaning(other.meant))
            }
            None => {
                Some(Mistake::new(word, "help", unknown(word.text), commands).meaning(
                    Meant::Nearest,
                ))
            }
        },
    }
}

/// What is wrong after `source`, or with the place of the line.
fn on_source<'t>(line: &'t [u8], word: Word<'t>) -> Mistake<'t> {
    let wanted = Wanted::Form("`source FILE`");
    if nth_word(line, 1).is_none() {
        let form = "`source` wants the name of a file after it";
        return Mistake::new(word, "source", form, wanted);
    }
    match nth_word(line, 2) {
        Some(more) => {
            let form = "`source` takes one name, and @ is one word too many";
            Mistake::new(more, "source", form, wanted)
        }
        None => {
            let form = "a file whose lines @ answers has no `source` itself";
            Mistake::new(word, "source", form, Wanted::Form("the lines of that file"))
        }
    }
}
