//! Words of other debuggers, and what there is here in their place.
use crate::mistake::Meant;

/// What is said of a word of another debugger, and what is meant by it.
#[derive(Clone, Copy)]
pub(crate) struct Elsewhere {
    pub(crate) form: &'static str,
    pub(crate) meant: Meant,
}

const END: &str = "no command is called @: a session ends with `quit`";

const NONE: &str = "no command is called @";

const SHOW: &str =
    "no command is called @: `show` prints the state, and `show version V` a version";

const DISPLAY: &str =
    "no command is called @: a watch prints its word after each command, as `watch end 0`";

const INFO: &str =
    "no command is called @: `marks` prints breakpoints and watches, and `show` the state";

const LIST: &str =
    "no command is called @: there are no calls, and `list` prints the steps round the position";

const DISABLE: &str = "no command is called @: `delete` takes one breakpoint away, and `clear` all";

const ASSIGN: &str =
    "no command is called @: a session goes over the steps of FILE, and changes nothing";

/// Words of other debuggers, what is said of each, and the command that it means here; empty where it means none.
const WORDS: &[(&str, &str, &str)] = &[
    ("exit", END, "quit"),
    ("restart", NONE, "goto 0"),
    ("start", NONE, "goto 0"),
    ("jump", NONE, "goto"),
    ("j", NONE, "goto"),
    ("undo", NONE, "back"),
    ("reverse-step", NONE, "back"),
    ("reverse-stepi", NONE, "back"),
    ("reverse-next", NONE, "back"),
    ("rs", NONE, "back"),
    ("rn", NONE, "back"),
    ("reverse-continue", NONE, "reverse"),
    ("rc", NONE, "reverse"),
    ("stepi", NONE, "step"),
    ("si", NONE, "step"),
    ("nexti", NONE, "step"),
    ("ni", NONE, "step"),
    ("advance", NONE, "until"),
    ("print", SHOW, ""),
    ("p", SHOW, ""),
    ("x", SHOW, ""),
    ("display", DISPLAY, ""),
    ("info", INFO, ""),
    ("i", INFO, ""),
    ("backtrace", LIST, ""),
    ("bt", LIST, ""),
    ("where", LIST, ""),
    ("frame", LIST, ""),
    ("up", LIST, ""),
    ("down", LIST, ""),
    ("disable", DISABLE, ""),
    ("enable", DISABLE, ""),
    ("ignore", DISABLE, ""),
    ("set", ASSIGN, ""),
    ("call", ASSIGN, ""),
];

/// What is said of a word of another debugger, if it is one.
pub(crate) fn said_of(word: &[u8]) -> Option<Elsewhere> {
    for row in WORDS {
        if word == row.0.as_bytes() {
            return Some(Elsewhere {
                form: row.1,
                meant: meant(row.2),
            });
        }
    }
    None
}

fn meant(command: &'static str) -> Meant {
    if command.is_empty() {
        return Meant::Nothing;
    }
    Meant::Form(command)
}
