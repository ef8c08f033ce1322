//! The help of a session: all commands and questions, and each by itself.
use crate::name::Name;

pub(crate) const HELP: &str = "moves:
  step [N]            N steps on, 1 if no N is given; an empty line does it again
  run                 on until a breakpoint or a watch fits, or to the end
  until N             as run, and to the position after step N at the latest; also what follows break below
  back [N]            N steps back, 1 if no N is given
  goto N              to the position after step N
  reverse             back until a breakpoint or a watch fits, or to the start
breakpoints and watches, at which run and reverse stop:
  break N             after step N; also break at N
  break event EVENT   after each event of a kind, as in break event update
  break txn NAME      after each event of a transaction, as in break txn b
  break reply REPLY   after each step whose reply begins so, as in break reply waiting
  break if CONDITION  after each step that makes it true, as in break if waits b > 0
  tbreak ..           as break, and goes away once a run stops at it
  watch begin V       where the Begin word of a version changes, as in watch begin 1
  watch end V         where the End word of a version changes, as in watch end 0
  watch waits NAME    where the number that a transaction waits for changes, as in watch waits b
  marks               all of them, each after its index
  delete I            takes one away, as in delete 2
  clear               takes all away
questions:
  list                the steps round the position, the next one marked with =>; list N: round step N; list N M: from N to M
  why                 the last step, and the reasons of its reply
  changes             the last step, and what it changed
  show                the whole state: the clock, versions, transactions and locked buckets
  show txn NAME       a transaction; also show version V, show key K, show bucket B, show clock
  show waits          who waits for whom, and whose commit depends on whose
source FILE           answers the lines of a file
help [COMMAND], quit
The first word may be cut short, as in ba 3; s and n are step, r and c run, b is break
";

const PAGES: &[(Name, &str)] = &[
    (
        Name::Step,
        "step [N], also s, n, next: N steps on, or those that are left; 1 if no N is given
Breakpoints and watches do not stop it. At a terminal an empty line does the last step again.
  step 3
",
    ),
    (
        Name::Run,
        "run, also r, c, cont, continue: on until a breakpoint or a watch fits after a step, or to the end
The answer names the least index that fits, as in: at 6 break 1 -> waiting 1
",
    ),
    (
        Name::Until,
        "until N, until event EVENT, until txn NAME, until reply REPLY, until if CONDITION:
as run, and also stops where break with these words would; that breakpoint is not kept
  until 12
  until reply waiting
  until if waits b > 0
",
    ),
    (
        Name::Back,
        "back [N]: N steps back, or to the start; 1 if no N is given. Breakpoints and watches stay
  back 2
",
    ),
    (
        Name::Goto,
        "goto N: to the position after step N, forward or back; to the end if there are fewer steps
  goto 0
",
    ),
    (
        Name::Reverse,
        "reverse: back to the last position at which a breakpoint or a watch fits, or to the start
",
    ),
    (
        Name::Break,
        "break N, break at N: stops after step N
break event EVENT: after each event of a kind, `detect` too
break txn NAME: after each event of a transaction
break reply REPLY: after each step whose reply begins with these words
break if waits NAME OP N: after each step that makes it true; OP is one of < <= = != >= >
Also b. The words of a reply are those that run prints, one or two of them.
  break event update
  break reply aborted deadlock
  break if waits b > 0
",
    ),
    (
        Name::Tbreak,
        "tbreak ..: as break, and goes away once a run or reverse stops at it
  tbreak reply aborted
",
    ),
    (
        Name::Watch,
        "watch begin V, watch end V: stops after each step that changes a word of version V, or makes the version
watch waits NAME: after each step that changes the number that a transaction waits for
Each answer then has a line for each watch, with its word or number.
  watch end 0
",
    ),
    (
        Name::Delete,
        "delete I: takes the breakpoint or watch with index I away; the others keep their indexes
  delete 2
",
    ),
    (
        Name::Clear,
        "clear: takes all breakpoints and watches away
",
    ),
    (
        Name::Marks,
        "marks: all breakpoints and watches, each with its index and the words that set it
",
    ),
    (
        Name::Show,
        "show: the whole state: the clock, versions, transactions and locked buckets
show txn NAME, show version V, show key K, show bucket B, show clock: a part of it
show waits: who waits for whom, and whose commit depends on whose
  show txn b
",
    ),
    (
        Name::List,
        "list: five steps before the position and five after it; => is before the next one
list N: those round step N
list N M: those from N to M
  list 1 20
",
    ),
    (
        Name::Why,
        "why: the last step that was done, with its reply and the reasons of that reply
",
    ),
    (
        Name::Changes,
        "changes: the last step that was done, with its reply and what it changed
",
    ),
    (
        Name::Source,
        "source FILE: answers the lines of a file as if they were typed; such a file has no source itself
  source marks.txt
",
    ),
    (
        Name::Help,
        "help: all commands; help COMMAND: one of them
  help break
",
    ),
    (
        Name::Quit,
        "quit: ends the session, as the end of the input (Ctrl-D) does
",
    ),
];

/// The help of a command.
pub(crate) fn help_on(name: Name) -> &'static str {
    for page in PAGES {
        if page.0 == name {
            return page.1;
        }
    }
    ""
}
