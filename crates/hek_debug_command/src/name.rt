//! The words with which the lines of a session begin, and what they are short for.

/// What the first word of a line asks for.
#[derive(Clone, Copy, PartialEq, Eq)]
pub(crate) enum Name {
    Step,
    Run,
    Until,
    Back,
    Goto,
    Reverse,
    Break,
    Tbreak,
    Watch,
    Delete,
    Clear,
    Marks,
    Show,
    List,
    Why,
    Changes,
    Source,
    Help,
    Quit,
}

/// Where a name may be used.
#[derive(Clone, Copy, PartialEq, Eq)]
pub(crate) enum Place {
    /// In sessions and in files of commands.
    Files,
    Sessions,
    /// In sessions, where it is a question.
    Questions,
}

/// A name, its word, and where it may be used.
#[derive(Clone, Copy)]
pub(crate) struct NameText {
    pub(crate) name: Name,
    pub(crate) word: &'static str,
    pub(crate) place: Place,
}

pub(crate) const NAMES: &[NameText] = &[
    NameText {
        name: Name::Step,
        word: "step",
        place: Place::Files,
    },
    NameText {
        name: Name::Run,
        word: "run",
        place: Place::Files,
    },
    NameText {
        name: Name::Until,
        word: "until",
        place: Place::Sessions,
    },
    NameText {
        name: Name::Back,
        word: "back",
        place: Place::Files,
    },
    NameText {
        name: Name::Goto,
        word: "goto",
        place: Place::Sessions,
    },
    NameText {
        name: Name::Reverse,
        word: "reverse",
        place: Place::Sessions,
    },
    NameText {
        name: Name::Break,
        word: "break",
        place: Place::Files,
    },
    NameText {
        name: Name::Tbreak,
        word: "tbreak",
        place: Place::Sessions,
    },
    NameText {
        name: Name::Watch,
        word: "watch",
        place: Place::Files,
    },
    NameText {
        name: Name::Delete,
        word: "delete",
        place: Place::Sessions,
    },
    NameText {
        name: Name::Clear,
        word: "clear",
        place: Place::Files,
    },
    NameText {
        name: Name::Marks,
        word: "marks",
        place: Place::Questions,
    },
    NameText {
        name: Name::Show,
        word: "show",
        place: Place::Questions,
    },
    NameText {
        name: Name::List,
        word: "list",
        place: Place::Questions,
    },
    NameText {
        name: Name::Why,
        word: "why",
        place: Place::Questions,
    },
    NameText {
        name: Name::Changes,
        word: "changes",
        place: Place::Questions,
    },
    NameText {
        name: Name::Source,
        word: "source",
        place: Place::Sessions,
    },
    NameText {
        name: Name::Help,
        word: "help",
        place: Place::Questions,
    },
    NameText {
        name: Name::Quit,
        word: "quit",
        place: Place::Questions,
    },
];

/// Words that are used in other debuggers, each with the word that it means here. They come before the beginnings of
/// words: `s` is `step`, though `show` begins with it.
const HABITS: &[(&str, &str)] = &[
    ("s", "step"),
    ("n", "step"),
    ("next", "step"),
    ("r", "run"),
    ("c", "run"),
    ("cont", "run"),
    ("continue", "run"),
    ("b", "break"),
];

/// What a first word is.
#[derive(Clone, Copy)]
pub(crate) enum Meaning {
    One(NameText),
    /// Several words begin so.
    Several,
    None,
}

/// The name with exactly this word.
pub(crate) fn name_of(word: &[u8]) -> Option<NameText> {
    for text in NAMES {
        if word == text.word.as_bytes() {
            return Some(*text);
        }
    }
    None
}

/// The name that a first word of a session's line is, or is short for.
pub(crate) fn meant_by(word: &[u8]) -> Meaning {
    if let Some(text) = name_of(habit(word)) {
        return Meaning::One(text);
    }
    let mut found = Meaning::None;
    for text in NAMES {
        if text.word.as_bytes().starts_with(word) {
            found = match found {
                Meaning::None => Meaning::One(*text),
                _ => Meaning::Several,
            };
        }
    }
    found
}

/// The word that is meant where another debugger's word is used; other words are themselves.
fn habit(word: &[u8]) -> &[u8] {
    for pair in HABITS {
        if word == pair.0.as_bytes() {
            return pair.1.as_bytes();
        }
    }
    word
}
