//! The words of the commands for words and files, and of those for a shell.
use crate::rows::{
    ANY, Asks, EXPLAIN, FILE, Form, IMAGE, JSON, Others, Row, TEXT, Times, Value, given,
};

const RELEASE: &Row = &Row {
    name: "release",
    about: "Gives up one read lock of an End word",
    example: r"Example:
  hek release 8040000000000002 1
The word is write-locked by transaction 2 and has one reader, for which 2 waits. It prints
  C000000000000002 0",
    arguments: &[
        given!("WORD" => Form::Placed(Times::One, Value::Text), "an End word, as 16 hexadecimal digits"),
        given!("WAITS" => Form::Placed(Times::One, Value::Text), "how many things the word's writer waits for"),
    ],
    rivals: &[],
    needs: &[],
    asks: Asks::Never,
};

pub fn release_row() -> &'static Row {
    RELEASE
}

const WORD: &Row = &Row {
    name: "word",
    about: "Explains lock words, as Begin and as End words",
    example: r"Example:
  hek word 8040000000000002 0000000000000007
prints
  end lock readers 1 writer 2 no-more-reads clear
  begin time 7; end time 7",
    arguments: &[
        given!("WORD" => Form::Placed(Times::Several, Value::Text), "a word, as 16 hexadecimal digits, or - for standard input, one word a line"),
        given!("changes" => Form::Flag, "reads exchanges, lines OLD NEW TXN or WORD OLD NEW TXN, and names the change that leads from OLD to NEW, or what is wrong with it; lines over TXN say which transactions have ended"),
        given!("clock" => Form::Valued("N", Value::Number("a time", 0, ANY)), "refuses times from N on"),
        given!("txns" => Form::Valued("N", Value::Number("a number of transactions", 0, ANY)), "refuses transactions past N"),
        given!("readers" => Form::Valued("N", Value::Number("a number of readers", 0, ANY)), "refuses more than N readers"),
        JSON,
    ],
    rivals: &[
        Others("clock", &["changes"]),
        Others("txns", &["changes"]),
        Others("readers", &["changes"]),
    ],
    needs: &[],
    asks: Asks::WithFlag("changes"),
};

pub fn word_row() -> &'static Row {
    WORD
}

const ASM: &Row = &Row {
    name: "asm",
    about: "Makes the image of a schedule text",
    example: r"Example:
  hek asm first.hek first.img
Where first.hek has the line `buckets 1`, first.img gets the 22 bytes of its image.",
    arguments: &[
        given!("FILE" => Form::Placed(Times::One, Value::File), "a schedule text, or - for standard input"),
        given!("OUT" => Form::Placed(Times::One, Value::File), "the image that is written, or - for standard output"),
        EXPLAIN,
    ],
    rivals: &[],
    needs: &[],
    asks: Asks::Never,
};

pub fn asm_row() -> &'static Row {
    ASM
}

const DIS: &Row = &Row {
    name: "dis",
    about: "Prints the canonical text of a schedule",
    example: r"Example:
  hek dis first.img
Where first.img is the image of a schedule with one bucket and nothing else, it prints
  buckets 1",
    arguments: &[FILE, TEXT, IMAGE, EXPLAIN],
    rivals: &[],
    needs: &[],
    asks: Asks::Never,
};

pub fn dis_row() -> &'static Row {
    DIS
}

const COMPLETIONS: &Row = &Row {
    name: "completions",
    about: "Prints what a shell reads to complete the words of a command line",
    example: r"Example:
  source <(hek completions bash)
completes the commands, options and files of hek in this shell; zsh too, or `hek completions zsh` goes into a file _hek in a folder of $fpath. For fish, `hek completions fish` into ~/.config/fish/completions/hek.fish. `hek completions words` prints the words of a session of hek debug, a line each, for rlwrap -f.",
    arguments: &[
        given!("SHELL" => Form::Placed(Times::One, Value::OneOf(COMPLETED)), "the shell; words for the words of a session of hek debug"),
    ],
    rivals: &[],
    needs: &[],
    asks: Asks::Never,
};

pub fn completions_row() -> &'static Row {
    COMPLETIONS
}

/// What is completed: the command line in a shell, and the words of a session.
const COMPLETED: &[&str] = &["bash", "zsh", "fish", "words"];

const MAN: &Row = &Row {
    name: "man",
    about: "Prints the manual page",
    example: r"Example:
  hek man | man -l -
shows the page in a pager.",
    arguments: &[],
    rivals: &[],
    needs: &[],
    asks: Asks::Never,
};

pub fn man_row() -> &'static Row {
    MAN
}
