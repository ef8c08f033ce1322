//! Which word is wrong in what `permute --find` is to look for.
use crate::said::Said;
use hek_diagnostics::nearest_word;
use hek_report::is_named;
use hek_rules::{Cause, NoMemory, ReplyForm, ReplyOperands, Schedule, TxnId};
use std::alloc::Global;

/// What is wrong with a word.
#[derive(Clone, Copy)]
enum Wrong {
    /// It is no transaction and begins no reply.
    NoBeginning,
    /// It stands after a transaction and begins no reply.
    NoReply,
    /// It is no cause of an abort.
    NoCause,
    /// No reply goes on with it.
    NoOther,
    /// Nothing stands after the name of a transaction.
    NoMore,
}

/// The place of the word that is wrong, among the words of the text.
#[derive(Clone, Copy)]
struct Fault {
    place: usize,
    wrong: Wrong,
}

/// Says which word of a text is wrong that is neither a reply nor the beginning of one.
pub fn advise_sought(text: &str, schedule: Option<&Schedule>, said: &mut Said) {
    let fault = fault_of(text, schedule);
    put_place(text, fault.place, said);
    let word = text.split(' ').nth(fault.place).unwrap_or("");
    match fault.wrong {
        Wrong::NoBeginning => {
            said.message(
                "`@` is no transaction, and no reply begins with it",
                &[word],
            );
        }
        Wrong::NoReply => said.message("no reply begins with `@`", &[word]),
        Wrong::NoCause => said.message("no cause is called `@`", &[word]),
        Wrong::NoOther => said.message("no reply goes on with `@` here", &[word]),
        Wrong::NoMore => said.message("a reply is wanted after the name", &[]),
    }
    said.wanted(
        "a reply as a trace has it, or its first words, maybe after the name of a transaction; or a verdict: `serializable`, `serializable in another order`, `not serializable`",
        &[],
    );
    if let Ok(Some(meant)) = meant_instead(said.alloc, text, word, fault.wrong, schedule) {
        said.meant("@", &[meant]);
    }
}

/// What is meant by a text with a word that is wrong: a verdict that the text is nearly, or else another word.
fn meant_instead<'s>(
    alloc: Global,
    text: &str,
    word: &str,
    wrong: Wrong,
    schedule: Option<&'s Schedule>,
) -> Result<Option<&'s str>, NoMemory> {
    match meant_verdict(alloc, text) {
        Some(verdict) => Ok(Some(verdict)),
        None => meant_by(alloc, word, wrong, schedule),
    }
}

/// Words for a verdict, and the verdict that can be looked for.
const VERDICTS: [(&str, &str); 6] = [
    ("serializable", "serializable"),
    ("serial", "serializable"),
    ("not serializable", "not serializable"),
    ("not serial", "not serializable"),
    (
        "serializable in another order",
        "serializable in another order",
    ),
    ("another order", "serializable in another order"),
];

/// The verdict for which a text has words, or nearly so.
fn meant_verdict(alloc: Global, text: &str) -> Option<&'static str> {
    for (words, verdict) in VERDICTS {
        if nearest_word(alloc, text, &[words]).is_some() {
            return Some(verdict);
        }
    }
    None
}

/// The first word that is wrong.
fn fault_of(text: &str, schedule: Option<&Schedule>) -> Fault {
    let first = text.split(' ').next().unwrap_or("");
    if begins_reply(first) {
        return Fault {
            place: 1,
            wrong: wrong_after(first),
        };
    }
    if !is_name(schedule, first) {
        return Fault {
            place: 0,
            wrong: Wrong::NoBeginning,
        };
    }
    match text.split(' ').nth(1) {
        None => Fault {
            place: 0,
            wrong: Wrong::NoMore,
        },
        Some(second) if begins_reply(second) => Fault {
            place: 2,
            wrong: wrong_after(second),
        },
        Some(_) => Fault {
            place: 1,
            wrong: Wrong::NoReply,
        },
    }
}

/// Whether a reply begins with a word.
fn begins_reply(word: &str) -> bool {
    ReplyForm::ALL.iter().any(|form| form.first_word() == word)
}

/// What is wrong with the word after the first one of a reply.
fn wrong_after(first: &str) -> Wrong {
    for form in ReplyForm::ALL {
        if form.first_word() == first && form.operands() == ReplyOperands::Cause {
            return Wrong::NoCause;
        }
    }
    Wrong::NoOther
}

/// Whether a word is the name of a transaction.
fn is_name(schedule: Option<&Schedule>, word: &str) -> bool {
    match schedule {
        Some(schedule) => schedule.id_of(word.as_bytes()).is_some(),
        None => false,
    }
}

/// The option with its value, and carets under a word of it, or after the last one.
fn put_place(text: &str, place: usize, said: &mut Said) {
    let mut before = "--find ".len();
    let mut count = 1;
    for (index, word) in text.split(' ').enumerate() {
        let length = word.chars().count();
        if index < place {
            before = before.saturating_add(length).saturating_add(1);
        } else if index == place {
            count = length;
        }
    }
    said.carets("--find @", &[text], before, count);
}

/// The word that is meant by one that is wrong, if one is near.
fn meant_by<'s>(
    alloc: Global,
    word: &str,
    wrong: Wrong,
    schedule: Option<&'s Schedule>,
) -> Result<Option<&'s str>, NoMemory> {
    let mut words: Vec<&'s str> = Vec::new(alloc);
    match wrong {
        Wrong::NoMore | Wrong::NoOther => return Ok(None),
        Wrong::NoCause => push_causes(&mut words)?,
        Wrong::NoReply => push_forms(&mut words)?,
        Wrong::NoBeginning => {
            push_forms(&mut words)?;
            if let Some(schedule) = schedule {
                push_names(schedule, &mut words)?;
            }
        }
    }
    Ok(nearest_word(alloc, word, words.as_slice()))
}

fn push_causes(words: &mut Vec<&str>) -> Result<(), NoMemory> {
    for cause in Cause::ALL {
        words.push(cause.word())?;
    }
    Ok(())
}

/// Adds the first words of replies, each once.
fn push_forms(words: &mut Vec<&str>) -> Result<(), NoMemory> {
    for form in ReplyForm::ALL {
        let word = form.first_word();
        if words.last() != Some(&word) {
            words.push(word)?;
        }
    }
    Ok(())
}

fn push_names<'s>(schedule: &'s Schedule, words: &mut Vec<&'s str>) -> Result<(), NoMemory> {
    for number in 1..=schedule.txn_count() as u64 {
        let txn = TxnId::new(number);
        if is_named(schedule, txn) {
            words.push(schedule.name_of(txn))?;
        }
    }
    Ok(())
}
