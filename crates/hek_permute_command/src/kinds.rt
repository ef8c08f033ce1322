//! The shortest beginning of an order in which a reply of a kind comes: one that begins with some words.
use crate::given::Given;
use crate::progress::Progress;
use hek_asm::put_reply;
use hek_permute::{Form, Moves, OrderFault, Pace, first_order, moves_of, next_order, play_order};
use hek_rules::{Cause, NoMemory, ReplyForm, ReplyOperands, Schedule, TxnId};
use hek_worker::Entry;
use std::alloc::Global;
use std::io::Write;

/// Replies that begin with some words, of one transaction or of any.
#[derive(Drop)]
pub(crate) struct Beginning {
    pub(crate) who: Option<TxnId>,
    pub(crate) words: String,
}

/// Whether replies begin with these words: with the first word of a form, or with both of its words, or with `aborted` and
/// a cause.
pub(crate) fn begins_replies(words: &str) -> bool {
    let (first, second) = match words.split_once(' ') {
        Some((first, second)) => (first, Some(second)),
        None => (words, None),
    };
    for form in ReplyForm::ALL {
        if form.first_word() == first && goes_on(form, second) {
            return true;
        }
    }
    false
}

/// Whether a reply of a form may go on with a word after its first, if one is given.
fn goes_on(form: ReplyForm, second: Option<&str>) -> bool {
    let Some(second) = second else {
        return true;
    };
    if form.operands() == ReplyOperands::Cause {
        return Cause::named(second.as_bytes()).is_some();
    }
    form.second_word() == Some(second)
}

impl Beginning {
    /// Whether an entry of a history has such a reply.
    pub(crate) fn is_of(&self, alloc: Global, entry: &Entry) -> Result<bool, NoMemory> {
        match self.who {
            Some(txn) if entry.worker != txn => return Ok(false),
            _ => {}
        }
        let mut reply = Vec::new(alloc);
        put_reply(&entry.reply, &mut reply)?;
        match reply.as_slice().strip_prefix(self.words.as_bytes()) {
            Some([]) | Some([b' ', ..]) => Ok(true),
            _ => Ok(false),
        }
    }
}

/// The moves of a schedule's transactions after which such a reply has come: the shortest beginning of an order, and of
/// equally long ones the first. None if no order has one.
pub(crate) fn find_kind<E: Write>(
    alloc: Global,
    given: &Given<'_>,
    form: Form,
    sought: &Beginning,
    progress: &mut Progress<'_, E>,
) -> Result<Option<Vec<TxnId>>, OrderFault> {
    let moves = moves_of(alloc, given.schedule, given.rules)?;
    let most = first_order(alloc, moves.as_slice(), form)?.len();
    for less in 0..most {
        let count = less.saturating_add(1);
        let found = find_at(
            alloc,
            given.schedule,
            moves.as_slice(),
            form,
            sought,
            count,
            progress,
        )?;
        if found.is_some() {
            return Ok(found);
        }
    }
    Ok(None)
}

/// The first order that has such a reply in its first `count` moves: these moves.
fn find_at<E: Write>(
    alloc: Global,
    schedule: &Schedule,
    moves: &[Moves],
    form: Form,
    sought: &Beginning,
    count: usize,
    progress: &mut Progress<'_, E>,
) -> Result<Option<Vec<TxnId>>, OrderFault> {
    let mut order = first_order(alloc, moves, form)?;
    let mut tried: Vec<TxnId> = Vec::new(alloc);
    for _ in 0..u64::MAX {
        let front = order.as_slice().get(..count).unwrap_or(&[]);
        if tried.as_slice() != front {
            tried = Vec::from_slice(alloc, front)?;
            progress.count_play();
            if comes_in(alloc, schedule, moves, form, sought, tried.as_slice())? {
                return Ok(Some(tried));
            }
        }
        if !next_order(order.as_mut_slice()) {
            return Ok(None);
        }
    }
    Err(OrderFault::TooMany)
}

/// Whether a play of moves has such a reply.
fn comes_in(
    alloc: Global,
    schedule: &Schedule,
    moves: &[Moves],
    form: Form,
    sought: &Beginning,
    front: &[TxnId],
) -> Result<bool, OrderFault> {
    let play = play_order(alloc, schedule, moves, form, front)?;
    for entry in play.history.as_slice() {
        if sought.is_of(alloc, entry)? {
            return Ok(true);
        }
    }
    Ok(false)
}
