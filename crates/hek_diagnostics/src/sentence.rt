//! Sentences with words and numbers of a text in them.
use crate::choice::Choice;
use crate::vocabulary::Vocabulary;
use std::fmt::{Display, Formatter};
use std::{fmt, str};

/// How many characters of a word a sentence shows.
const SHOWN: usize = 60;

/// What a sentence lists.
#[derive(Clone, Copy)]
pub(crate) enum Listed {
    Nothing,
    Word(&'static str),
    Words(Vocabulary),
    OneOf(Choice),
}

impl Display for Listed {
    fn fmt<W: fmt::Write>(&self, f: &mut Formatter<W>) -> fmt::Result {
        match *self {
            Listed::Nothing => f.write_char('^'),
            Listed::Word(word) => f.write_str(word),
            Listed::Words(words) => write!(f, "{words}"),
            Listed::OneOf(choice) => write!(f, "{choice}"),
        }
    }
}

/// A sentence. In its form `@` stands for a word between back-ticks, `~` for the same word without them, `&` for another
/// word, `$`, `%` and `*` for numbers, and `^` for what the sentence lists; where it lists nothing, `^` is itself.
#[derive(Clone, Copy)]
pub struct Sentence<'t> {
    form: &'static str,
    pub(crate) word: &'t [u8],
    pub(crate) other: &'t [u8],
    pub(crate) number: u64,
    pub(crate) more: u64,
    pub(crate) third: u64,
    pub(crate) listed: Listed,
}

impl<'t> Sentence<'t> {
    pub(crate) fn new(form: &'static str, word: &'t [u8]) -> Sentence<'t> {
        Sentence {
            form,
            word,
            other: b"",
            number: 0,
            more: 0,
            third: 0,
            listed: Listed::Nothing,
        }
    }

    /// Whether nothing is said.
    pub(crate) fn is_empty(&self) -> bool {
        self.form.is_empty()
    }
}

impl Display for Sentence<'_> {
    fn fmt<W: fmt::Write>(&self, f: &mut Formatter<W>) -> fmt::Result {
        for mark in self.form.chars() {
            match mark {
                '@' => write_quoted(f, self.word)?,
                '~' => write_word(f, self.word)?,
                '&' => write_quoted(f, self.other)?,
                '$' => write_number(f, self.number)?,
                '%' => write_number(f, self.more)?,
                '*' => write_number(f, self.third)?,
                '^' => write_listed(f, self.listed)?,
                _ => f.write_char(mark)?,
            }
        }
        Ok(())
    }
}

fn write_number<W: fmt::Write>(f: &mut Formatter<W>, number: u64) -> fmt::Result {
    write!(f, "{number}")
}

fn write_listed<W: fmt::Write>(f: &mut Formatter<W>, listed: Listed) -> fmt::Result {
    write!(f, "{listed}")
}

fn write_quoted<W: fmt::Write>(f: &mut Formatter<W>, word: &[u8]) -> fmt::Result {
    f.write_char('`')?;
    write_word(f, word)?;
    f.write_char('`')
}

/// Writes the first characters of a word.
fn write_word<W: fmt::Write>(f: &mut Formatter<W>, word: &[u8]) -> fmt::Result {
    let text = str::from_utf8(word).unwrap_or("?");
    for (place, mark) in text.chars().enumerate() {
        if place == SHOWN {
            f.write_str("..")?;
            break;
        }
        write_visible(f, mark)?;
    }
    Ok(())
}

/// Writes a character, and a control character as its escape.
fn write_visible<W: fmt::Write>(f: &mut Formatter<W>, mark: char) -> fmt::Result {
    match mark {
        '\0' => f.write_str("\\0"),
        '\t' => f.write_str("\\t"),
        '\n' => f.write_str("\\n"),
        '\r' => f.write_str("\\r"),
        '\x0C' => f.write_str("\\f"),
        _ if mark.is_control() => {
            let code = u32::from(mark);
            write!(f, "\\x{code:02X}")
        }
        _ => f.write_char(mark),
    }
}
