//! What is found wrong with a line, before it is put into words for a reader.
use crate::sentence::{Listed, Sentence};
use crate::vocabulary::Vocabulary;
use crate::words::Word;

/// What is wrong with bytes of a line.
#[derive(Clone, Copy)]
pub(crate) struct Finding<'t> {
    pub(crate) start: usize,
    pub(crate) end: usize,
    pub(crate) sentence: Sentence<'t>,
    pub(crate) wanted: Wanted<'t>,
    pub(crate) hint: Hint,
    /// Whether the first line with words is one of a schedule, but not that with the buckets.
    pub(crate) is_plain: bool,
    /// What to do instead.
    pub(crate) instead: Sentence<'t>,
}

/// What is valid at the place.
#[derive(Clone, Copy)]
pub(crate) enum Wanted<'t> {
    Form(Sentence<'t>),
    /// The names of the transactions.
    Names,
    /// What a line may begin with here.
    Starts,
}

/// Where the word that is meant is looked for.
#[derive(Clone, Copy)]
pub(crate) enum Hint {
    None,
    Word(&'static str),
    Among(Vocabulary),
    Names,
    Starts,
    /// The number that the bytes mean.
    Number,
    /// The number itself.
    Count(u64),
    /// The name that the bytes mean.
    Name,
    /// The pair `KEY=VALUE` that the bytes mean.
    Pair,
}

impl<'t> Finding<'t> {
    /// A finding at a word, which its sentence has as `@`.
    pub(crate) fn at(word: Word<'t>, form: &'static str) -> Finding<'t> {
        Finding {
            start: word.start,
            end: word.end(),
            sentence: Sentence::new(form, word.text),
            wanted: Wanted::Form(Sentence::new("", b"")),
            hint: Hint::None,
            is_plain: false,
            instead: Sentence::new("", b""),
        }
    }

    pub(crate) fn wanting(mut self, form: &'static str) -> Finding<'t> {
        self.wanted = Wanted::Form(Sentence::new(form, self.sentence.word));
        self
    }

    /// The same with a number in what is wanted.
    pub(crate) fn wanting_number(mut self, form: &'static str, number: u64) -> Finding<'t> {
        let mut sentence = Sentence::new(form, self.sentence.word);
        sentence.number = number;
        self.wanted = Wanted::Form(sentence);
        self
    }

    /// The same with what the form of what is wanted lists.
    pub(crate) fn wanting_listed(mut self, form: &'static str, listed: Listed) -> Finding<'t> {
        let mut sentence = Sentence::new(form, self.sentence.word);
        sentence.listed = listed;
        self.wanted = Wanted::Form(sentence);
        self
    }

    /// One of these words is wanted.
    pub(crate) fn wanting_words(self, words: Vocabulary) -> Finding<'t> {
        self.wanting_listed("^", Listed::Words(words))
    }

    pub(crate) fn wanting_names(mut self) -> Finding<'t> {
        self.wanted = Wanted::Names;
        self.hint = Hint::Names;
        self
    }

    pub(crate) fn wanting_starts(mut self) -> Finding<'t> {
        self.wanted = Wanted::Starts;
        self.hint = Hint::Starts;
        self
    }

    pub(crate) fn hinting(mut self, hint: Hint) -> Finding<'t> {
        self.hint = hint;
        self
    }

    /// The same where nothing is known yet of what is wanted.
    pub(crate) fn or_wanting(self, form: &'static str, listed: Listed) -> Finding<'t> {
        if self.is_wanting() {
            self
        } else {
            self.wanting_listed(form, listed)
        }
    }

    pub(crate) fn is_wanting(&self) -> bool {
        match self.wanted {
            Wanted::Form(form) => !form.is_empty(),
            Wanted::Names | Wanted::Starts => true,
        }
    }

    /// The same with another sentence about the word.
    pub(crate) fn saying(mut self, form: &'static str) -> Finding<'t> {
        self.sentence = Sentence::new(form, self.sentence.word);
        self
    }

    /// The number that the sentence has as `$`.
    pub(crate) fn with_number(mut self, number: u64) -> Finding<'t> {
        self.sentence.number = number;
        self
    }

    /// The word that the sentence has as `^`.
    pub(crate) fn with_known(mut self, word: &'static str) -> Finding<'t> {
        let mut sentence = self.sentence;
        sentence.listed = Listed::Word(word);
        self.sentence = sentence;
        self
    }

    /// The number that the sentence has as `%`.
    pub(crate) fn with_more(mut self, number: u64) -> Finding<'t> {
        self.sentence.more = number;
        self
    }

    /// The word that the sentence has as `&`.
    pub(crate) fn with_other(mut self, other: &'t [u8]) -> Finding<'t> {
        let mut sentence = self.sentence;
        sentence.other = other;
        self.sentence = sentence;
        self
    }

    pub(crate) fn with_instead(mut self, form: &'static str) -> Finding<'t> {
        self.instead = Sentence::new(form, self.sentence.word);
        self
    }
}
