//! The words of the commands that run a schedule.
use crate::rows::{
    ALWAYS_AUTO, ANY, AUTO, Asks, CHANGES, COLOR, EXPLAIN, FILE, Form, IMAGE, JSON, LEVEL, MILLION,
    Others, Row, TEXT, Times, Value, WHY, given,
};

const RUN: &Row = &Row {
    name: "run",
    about: "Runs the steps of a schedule, and prints each with its reply",
    example: r"Example:
  hek run first.hek
Where first.hek has the lines
  buckets 1
  row 10 100
  txn a serializable
  a begin
  a read 10
it prints
  1 a begin -> began 1
  2 a read 10 -> found 100
--state also prints the clock, the versions, the transactions and the locked buckets. --why prints the reasons of each reply under its line, --changes what the step changed, each after two spaces.",
    arguments: &[
        FILE,
        TEXT,
        IMAGE,
        EXPLAIN,
        COLOR,
        given!("state" => Form::Flag, "prints the state of the machine after the trace"),
        given!("state-at" => Form::Valued("N", Value::Number("a number of steps", 0, ANY)), "stops after N steps, and prints the state there"),
        WHY,
        CHANGES,
        given!("history" => Form::Flag, "prints the run as a log for hek history, in place of its trace"),
        given!("moves" => Form::Flag, "prints the run as its transactions see it, in place of its trace: a line for each read, write, wait and end; with --why its reason"),
        AUTO,
        LEVEL,
        JSON,
    ],
    rivals: &[
        Others("history", &["state", "state-at", "why", "changes", "json"]),
        Others("moves", &["state", "state-at", "changes", "history"]),
    ],
    needs: &[],
    asks: Asks::Never,
};

pub fn run_row() -> &'static Row {
    RUN
}

const DEBUG: &Row = &Row {
    name: "debug",
    about: "Runs a schedule step by step, to breakpoints and watches, and back",
    example: r"Commands, one a line:
  step N             N steps
  run                steps until a breakpoint or a watch fits
  back N             N steps back
  break at N         stops after step N
  break event EVENT  stops after each event of a kind, as update
  break txn NAME     stops after each event of a transaction
  watch begin V      stops where the Begin word of version V changes
  watch end V        stops where the End word of version V changes
  watch waits NAME   stops where the number that a transaction waits for changes
  clear              forgets all breakpoints and watches
Without COMMANDS, and with -, they are read from standard input, and each is answered at once; there `help` lists them, with the commands and questions that only such a session has. At a terminal `rlwrap -f <(hek completions words) hek debug FILE` adds arrow keys, a history and completion.

Example:
  hek debug first.hek
Where first.hek has the lines
  buckets 1
  row 10 100
  txn a serializable
  a begin
  a read 10
the commands
  watch end 0
  run
are answered with
  at 0 set 1
  1 end 0 7FFFFFFFFFFFFFFF
  at 2 break 1 -> found 100
  1 end 0 807FFFFFFFFFFFFF",
    arguments: &[
        FILE,
        given!("COMMANDS" => Form::Placed(Times::Maybe, Value::File), "a text of these commands; - is standard input, where they are those of a session"),
        TEXT,
        IMAGE,
        EXPLAIN,
        COLOR,
        AUTO,
        LEVEL,
    ],
    rivals: &[],
    needs: &[],
    asks: Asks::Never,
};

pub fn debug_row() -> &'static Row {
    DEBUG
}

const DRIVE: &Row = &Row {
    name: "drive",
    about: "Runs events as they are typed, one a line, and answers each at once",
    example: r"Each line is an event, written as a step of a schedule: `a read 10`. The rows and transactions are those of FILE; its own steps are not run. A line that is not an event is answered with `? line 2: 2 BadWord`, and changes nothing.

Example:
  hek drive first.hek
Where first.hek has the lines
  buckets 1
  row 10 100
  txn a serializable
the lines
  a begin
  a read 10
are answered with
  1 a begin -> began 1
  2 a read 10 -> found 100",
    arguments: &[
        FILE,
        TEXT,
        IMAGE,
        EXPLAIN,
        COLOR,
        WHY,
        CHANGES,
        given!("state" => Form::Flag, "prints the state of the machine after each answer"),
        given!("ends" => Form::Flag, "ends what is printed for each line with an empty line"),
        ALWAYS_AUTO,
        LEVEL,
        JSON,
    ],
    rivals: &[],
    needs: &[],
    asks: Asks::Never,
};

pub fn drive_row() -> &'static Row {
    DRIVE
}

const THREADS: &Row = &Row {
    name: "threads",
    about: "Runs each transaction of a schedule in its own thread, and prints the history",
    example: r"Example:
  hek threads first.hek --turns 5
Where first.hek has the lines
  buckets 1
  row 10 100
  txn a repeatable
  a read 10
it prints the trace of a whole run of a, from begin to end. What it prints is a trace for hek check. With --repeat 100 it runs 100 times, and prints how many different outcomes there were, and each with how often it was seen.",
    arguments: &[
        FILE,
        TEXT,
        IMAGE,
        EXPLAIN,
        given!("turns" => Form::Needed("N", Value::Number("a number of turns", 0, MILLION)), "how many times a waiting transaction tries again, 0 to 1000000"),
        given!("repeat" => Form::Valued("N", Value::Number("a number of runs", 1, MILLION)), "runs N times, 1 to 1000000, and prints the outcomes"),
        given!("seed" => Form::Valued("N", Value::Number("a number", 0, ANY)), "draws by this number whose turn it is, so that a run can be repeated"),
        ALWAYS_AUTO,
        LEVEL,
        JSON,
    ],
    rivals: &[],
    needs: &[],
    asks: Asks::Never,
};

pub fn threads_row() -> &'static Row {
    THREADS
}
