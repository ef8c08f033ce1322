//! Things of which one is wanted, as a sentence lists them: `A, B or C`.
use crate::vocabulary::level_at;
use hek_rules::{Level, Refusal, ReplyForm, ReplyOperands};
use std::fmt;
use std::fmt::{Display, Formatter};

#[derive(Clone, Copy)]
pub(crate) enum Choice {
    Levels,
    /// The first levels, as many as this, each after its byte in an image.
    LevelBytes(usize),
    /// The refusals, each after its number.
    Refusals,
    /// The replies with their operands.
    Replies,
}

/// The forms of replies as they are listed. One with `released` and one with `stamped` stand for all of them.
const LISTED: [ReplyForm; 21] = [
    ReplyForm::Began,
    ReplyForm::Found,
    ReplyForm::Absent,
    ReplyForm::Rows,
    ReplyForm::Done,
    ReplyForm::Exists,
    ReplyForm::Ready,
    ReplyForm::Waiting,
    ReplyForm::Precommitted,
    ReplyForm::ReleasedRead,
    ReplyForm::Nothing,
    ReplyForm::Committed,
    ReplyForm::WaitingCommits,
    ReplyForm::Failed,
    ReplyForm::StampedBegin,
    ReplyForm::Left,
    ReplyForm::Over,
    ReplyForm::NoCycle,
    ReplyForm::Victim,
    ReplyForm::Aborted,
    ReplyForm::Refused,
];

impl Choice {
    fn count(self) -> usize {
        match self {
            Choice::Levels => Level::ALL.len(),
            Choice::LevelBytes(count) => count,
            Choice::Refusals => Refusal::ALL.len(),
            Choice::Replies => LISTED.len(),
        }
    }

    /// Writes what is at a place.
    fn write_item<W: fmt::Write>(self, f: &mut Formatter<W>, place: usize) -> fmt::Result {
        match self {
            Choice::Levels => f.write_str(level_at(place).unwrap_or("")),
            Choice::LevelBytes(_) => {
                let byte = place.saturating_add(1);
                let level = level_at(place).unwrap_or("");
                write!(f, "{byte} {level}")
            }
            Choice::Refusals => match Refusal::ALL.get(place) {
                Some(refusal) => write_refusal(f, *refusal),
                None => Ok(()),
            },
            Choice::Replies => match LISTED.get(place) {
                Some(form) => write_form(f, *form),
                None => Ok(()),
            },
        }
    }
}

fn write_refusal<W: fmt::Write>(f: &mut Formatter<W>, refusal: Refusal) -> fmt::Result {
    let number = refusal.number();
    let name = refusal.name();
    write!(f, "{number} {name}")
}

fn write_form<W: fmt::Write>(f: &mut Formatter<W>, form: ReplyForm) -> fmt::Result {
    match form {
        ReplyForm::ReleasedRead | ReplyForm::StampedBegin => {
            f.write_str(form.first_word())?;
            f.write_str(" ..")
        }
        _ => {
            f.write_str(form.text())?;
            f.write_str(operand_letters(form.operands()))
        }
    }
}

/// What stands for the operands of a reply, with a space before it.
fn operand_letters(operands: ReplyOperands) -> &'static str {
    match operands {
        ReplyOperands::Nothing => "",
        ReplyOperands::Time | ReplyOperands::Txn => " T",
        ReplyOperands::Value | ReplyOperands::Version => " V",
        ReplyOperands::Count | ReplyOperands::Bucket => " N",
        ReplyOperands::Cause => " CAUSE",
        ReplyOperands::Refusal => " N NAME",
        ReplyOperands::VersionAndWriter => " V writer T",
        ReplyOperands::TxnAndCycle => " T cycle U..",
        ReplyOperands::Pairs => " KEY=VALUE..",
    }
}

impl Display for Choice {
    fn fmt<W: fmt::Write>(&self, f: &mut Formatter<W>) -> fmt::Result {
        let choice = *self;
        let count = choice.count();
        for place in 0..count {
            if place > 0 {
                f.write_str(if place + 1 == count { " or " } else { ", " })?;
            }
            choice.write_item(f, place)?;
        }
        Ok(())
    }
}
