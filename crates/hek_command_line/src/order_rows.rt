//! The words of the commands that play orders, and of those that judge.
use crate::rows::{
    ALWAYS_AUTO, ANY, Asks, EXPLAIN, FILE, Form, GRAIN, IMAGE, JSON, LEVEL, Others, Row, TEXT,
    THOUSAND, Times, Value, given,
};
use hek_history_command::Extent;
use hek_ladder::Promise;

const PERMUTE: &Row = &Row {
    name: "permute",
    about: "Plays every order of a schedule's moves, and counts the outcomes",
    example: r#"A transaction's moves are its reads and writes, in the order of the file, and one last move that ends it. Each order of the moves of all transactions is run from the start. In a program, values and conditions are of what the transaction saw, as in `a update 10 @10+5 if @11 > 0`, and `always @10 = 100+5*a` is to hold at the end.

Example:
  hek permute two.hek
Where two.hek has the lines
  buckets 1
  row 10 100
  txn a repeatable
  txn b repeatable
  a update 10 1
  b update 10 2
it prints
  orders 6 outcomes 4
  2 a committed; b aborted conflict; rows 10=1; serializable; waited 0; first a b a b
  2 a aborted conflict; b committed; rows 10=2; serializable; waited 0; first b a a b
  1 a committed; b committed; rows 10=2; serializable; waited 0; first a a b b
  1 a committed; b committed; rows 10=1; serializable; waited 0; first b b a a
The verdict takes all transactions as serializable: `serializable` by end time, `serializable in another order`, or `not serializable`. `hek permute two.hek --order "a b a b"` prints the events of that order as a schedule."#,
    arguments: &[
        FILE,
        TEXT,
        IMAGE,
        EXPLAIN,
        ALWAYS_AUTO,
        LEVEL,
        given!("split" => Form::Flag, "makes finish and precommit a separate move"),
        GRAIN,
        given!("limit" => Form::Valued("N", Value::Number("how many at most", 0, ANY)), "counts nothing if there are more than N states (1000000); with --each, --part or --find of a reply, more than N orders (100000)"),
        given!("part" => Form::Valued("K/N", Value::Part), "plays the Kth of N equal parts of the orders"),
        given!("jobs" => Form::Valued("N", Value::Number("a number of threads", 1, THOUSAND)), "counts outcomes with N threads, 1 to 1000"),
        given!("each" => Form::Flag, "prints a line for each order"),
        given!("order" => Form::Valued("NAMES", Value::Text), "prints the events of one order as a schedule: a name for each move"),
        given!("levels" => Form::Flag, "prints the outcomes at each level, side by side"),
        given!("find" => Form::Valued("TEXT", Value::Text), "prints the shortest beginning of an order in which this comes: `a aborted deadlock`, `aborted`, `waiting`, `not serializable`, `serializable in another order`, `breaks`"),
        given!("stats" => Form::Flag, "says on standard error how many states the orders lead to"),
        given!("add" => Form::Flag, "prints the sum of the tables FILE and TABLE.., which --part printed with --json"),
        given!("TABLE" => Form::Placed(Times::Any, Value::File), "with --add: more tables"),
        JSON,
    ],
    rivals: &[
        Others("order", &["each", "part"]),
        Others("find", &["each", "levels", "part", "order"]),
        Others("grain", &["split"]),
        Others("levels", &["each", "level"]),
        Others("jobs", &["each", "order", "find"]),
        Others("stats", &["each", "order", "find", "part"]),
        Others(
            "add",
            &[
                "text", "image", "auto", "level", "split", "grain", "limit", "part", "jobs",
                "each", "order", "levels", "find", "stats", "json",
            ],
        ),
    ],
    needs: &[Others("TABLE", &["add"])],
    asks: Asks::WithValue("find"),
};

pub fn permute_row() -> &'static Row {
    PERMUTE
}

const CHECK: &Row = &Row {
    name: "check",
    about: "Says whether each transaction of a trace got what its level promises",
    example: r"Example:
  hek check first.img trace.txt
It prints `serial` if each committed transaction got what its own level promises, by end time, and otherwise
  not serial 2
with the number of the first event at fault, and status 1. A serializable transaction is judged by all its replies; a repeatable one by the values and pairs that it found, so phantoms pass; a snapshot one by its reads as of its begin, so write skew passes. `--level serializable` judges all as serializable, by end time; `--summary` says whether they can follow one another, in whatever order.",
    arguments: &[
        FILE,
        given!("TRACE" => Form::Placed(Times::One, Value::File), "a trace over its transactions, or - for standard input"),
        TEXT,
        IMAGE,
        EXPLAIN,
        ALWAYS_AUTO,
        LEVEL,
        given!("why" => Form::Flag, "prints the reply that the first event at fault should have had"),
        given!("summary" => Form::Flag, "also prints how many transactions have committed, how many events are judged, and whether the transactions can follow one another"),
        given!("all" => Form::Flag, "also prints each event at fault, its serial reply, and who wrote what was read"),
        JSON,
    ],
    rivals: &[],
    needs: &[],
    asks: Asks::Never,
};

pub fn check_row() -> &'static Row {
    CHECK
}

const HISTORY: &Row = &Row {
    name: "history",
    about: "Says whether a log of transactions is serializable, at which levels it holds, and if not, why not",
    example: r#"A log has a line of JSON for each transaction, and a first line for the rows that were there. Its keys and values are numbers or texts.

Example:
  hek history skew.jsonl
Where skew.jsonl has the lines
  {"rows":[["x",1],["y",1]]}
  {"txn":"a","ops":[["read","x",1],["update","y",0,true]]}
  {"txn":"b","ops":[["read","y",1],["update","x",0,true]]}
it prints
  not serializable: write skew (G2-item)
    a read x = 1, which b overwrote with 0    a before b
    b read y = 1, which a overwrote with 0    b before a
  holds at snapshot
All transactions are asked for as if they were at one level. The order of the versions of each key binds where the log has it, by the ends of its transactions or the numbers of its writes, and so do its sessions.
The status is 0 if the log is serializable, or all that is asked for holds, 1 if not, 3 if that is not known or there is nothing to judge, and 4 after a fault of the log."#,
    arguments: &[
        given!("FILE" => Form::Placed(Times::One, Value::File), "a log, or - for standard input"),
        EXPLAIN,
        given!("level" => Form::Valued("L", Value::Words("level", Promise::WORDS, &[])), "asks for one level: serializable, repeatable, snapshot, parallel-snapshot, prefix, causal, read-atomic, monotonic-view, read-committed or read-uncommitted; or own, each transaction at the level of its line; or for a guarantee of sessions: monotonic-reads, read-your-writes, monotonic-writes, writes-follow-reads, or guarantees for all four"),
        given!("levels" => Form::Flag, "prints a line for each level, from serializable to read-uncommitted"),
        given!("sessions" => Form::Flag, "has sessions bind, as they do where the log has some: a transaction comes after those before it in its session, and sees them from read-atomic on"),
        given!("no-sessions" => Form::Flag, "has sessions not bind"),
        given!("guarantees" => Form::Flag, "prints a line for each guarantee of sessions; after the levels, if they are asked for too"),
        given!("order" => Form::Valued("KIND", Value::Words("order", &["any", "versions", "real", "versions,real"], &[])), "says which order binds: any, versions, real, or versions,real; without it versions, where the log knows them"),
        given!("effort" => Form::Valued("N", Value::Number("how many repairs at most", 1, ANY)), "tries up to N repairs of an order before it gives up; without it 20000, and 12 for each transaction"),
        given!("all" => Form::Choice(Extent::WORDS), "goes on after an anomaly, without the answers on which it rests, and counts them by name; =counts prints the counts alone"),
        given!("order-out" => Form::Valued("OUT", Value::File), "writes the order that was found, a line for each transaction; - is standard output, after the verdict"),
        given!("json" => Form::Flag, "writes the verdict as JSON, one object on each line"),
    ],
    rivals: &[
        Others("levels", &["level"]),
        Others("guarantees", &["level", "all", "order-out", "no-sessions"]),
        Others("sessions", &["no-sessions"]),
    ],
    needs: &[],
    asks: Asks::Always,
};

pub fn history_row() -> &'static Row {
    HISTORY
}
