//! The words of the commands that draw.
use crate::rows::{
    ANY, AUTO, Asks, EXPLAIN, FILE, Form, GRAIN, IMAGE, LEVEL, Others, Row, TEXT, Value, given,
};

/// The number of a step, the first being 1.
const A_STEP: Value = Value::Number("a step, the first being 1", 1, ANY);

const PAGE: &Row = &Row {
    name: "page",
    about: "Writes a schedule's run, or a log, as a page for a browser",
    example: r"Example:
  hek page first.hek -o first.html
The page tells the run: each read, write, wait and end, the rows, what is to hold, and the verdict; and shows for each step its reply, the versions, waits and lock words. It needs no network and no other file. If FILE is a log, whose name ends in .jsonl, the page tells its transactions, with the cycle that hek history names. Comments of a schedule text are shown: those above its first line at the start, those above a step at that step. A line `#? ..` above a step is a question, which is asked where replies are guessed. A page has at most 2000 steps; of a longer schedule --from and --to say which.",
    arguments: &[
        FILE,
        TEXT,
        IMAGE,
        EXPLAIN,
        LEVEL,
        AUTO,
        given!("output" => Form::Output, "writes the page to a file; - is standard output, also where that is a terminal"),
        given!("from" => Form::Valued("N", A_STEP), "begins at step N, by default the first"),
        given!("to" => Form::Valued("N", A_STEP), "ends at step N, by default the last"),
        given!("title" => Form::Valued("TEXT", Value::Text), "the page's title, by default the name of FILE"),
        given!("lesson" => Form::Valued("N", Value::Number("a number", 0, ANY)), "the number before the title"),
        given!("previous" => Form::Valued("ADDRESS", Value::Text), "the address of the page before this one"),
        given!("next" => Form::Valued("ADDRESS", Value::Text), "the address of the page after this one"),
        given!("orders" => Form::Flag, "makes the explorer of every order of the moves, as hek permute plays them"),
        given!("levels" => Form::Flag, "makes the explorers of all levels, with their outcomes side by side"),
        given!("split" => Form::Flag, "with --orders or --levels: makes finish and precommit a separate move"),
        GRAIN,
        given!("limit" => Form::Valued("N", Value::Number("how many at most", 0, ANY)), "with --orders or --levels: writes nothing if there are more than N nodes (5000)"),
        given!("machine" => Form::Flag, "shows the machine alone, without the story"),
        given!("json" => Form::Flag, "writes the page's data alone, one object of JSON, and then the plays of its story, an object each"),
    ],
    rivals: &[
        Others("grain", &["split"]),
        Others("orders", &["from", "to", "auto"]),
        Others("levels", &["from", "to", "auto", "level", "orders"]),
    ],
    needs: &[
        Others("split", &["orders"]),
        Others("grain", &["orders"]),
        Others("limit", &["orders"]),
    ],
    asks: Asks::Never,
};

pub fn page_row() -> &'static Row {
    PAGE
}
