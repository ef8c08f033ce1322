//! Where transactions are expected: guesses from which a search begins.
use hek_history::{History, Status};
use hek_history_log::{Label, Log};
use hek_levels::Turn;
use hek_levels_search::{Guess, Hint};
use hek_rules::NoMemory;
use std::alloc::Global;
use std::collections::HashMap;

/// The lane of the turns that a guess of sessions assumes, and that of those who have none.
const ASSUMED: usize = 1 << 50;

const NOBODY: usize = 1 << 49;

/// All guesses of a log, the likeliest first: by its times, by its lines, by the numbers that are the names of its transactions, and by its
/// sessions side by side.
pub(crate) fn guesses_of(alloc: Global, log: &Log) -> Result<Vec<Guess>, NoMemory> {
    let mut guesses = Vec::new(alloc);
    if let Some(hints) = by_times(alloc, &log.history)? {
        guesses.push(plain(alloc, hints))?;
    }
    guesses.push(plain(alloc, by_lines(alloc, &log.history)?))?;
    if let Some(hints) = by_names(alloc, log)? {
        guesses.push(plain(alloc, hints))?;
    }
    if log.has_sessions() {
        guesses.push(Guess {
            hints: by_sessions(alloc, log)?,
            turns: session_turns(alloc, log)?,
        })?;
    }
    Ok(guesses)
}

fn plain(alloc: Global, hints: Vec<Hint>) -> Guess {
    Guess {
        hints,
        turns: Vec::new(alloc),
    }
}

/// The place of a line among the guesses.
fn place_of(t: usize) -> u64 {
    (t as u64) << 20
}

fn at_point(commit: u64) -> Hint {
    Hint {
        begin: commit,
        commit,
    }
}

/// By ends, or else by when transactions were answered, if all who committed have such times.
fn by_times(alloc: Global, history: &History) -> Result<Option<Vec<Hint>>, NoMemory> {
    let mut hints = Vec::new(alloc);
    let has_ends = have_all(history, true);
    if !has_ends && !have_all(history, false) {
        return Ok(None);
    }
    for transaction in &history.transactions {
        let (first, last) = if has_ends {
            (transaction.begin, transaction.end)
        } else {
            (transaction.invoked, transaction.answered)
        };
        let commit = last.unwrap_or(u64::MAX);
        hints.push(Hint {
            begin: first.unwrap_or(commit),
            commit,
        })?;
    }
    Ok(Some(hints))
}

/// Whether all who committed have an end, or were answered at a time.
fn have_all(history: &History, ends: bool) -> bool {
    for one in &history.transactions {
        let time = if ends { one.end } else { one.answered };
        if one.status == Status::Committed && time.is_none() {
            return false;
        }
    }
    true
}

/// By the lines.
fn by_lines(alloc: Global, history: &History) -> Result<Vec<Hint>, NoMemory> {
    let mut hints = Vec::new(alloc);
    for t in 0..history.transactions.len() {
        hints.push(at_point(place_of(t)))?;
    }
    Ok(hints)
}

/// By names, if they are numbers, and don't rise with the lines.
fn by_names(alloc: Global, log: &Log) -> Result<Option<Vec<Hint>>, NoMemory> {
    let mut hints = Vec::new(alloc);
    let mut before = 0;
    let mut rises = true;
    for t in 0..log.history.transactions.len() {
        let Label::Number(number) = log.name(t) else {
            return Ok(None);
        };
        rises = rises && number >= before;
        before = number;
        hints.push(at_point(number))?;
    }
    if rises {
        return Ok(None);
    }
    Ok(Some(hints))
}

/// By sessions: the transactions of each evenly over the log, each as far as its place is among those of its session.
fn by_sessions(alloc: Global, log: &Log) -> Result<Vec<Hint>, NoMemory> {
    let mut counts = HashMap::new(alloc);
    for t in 0..log.history.transactions.len() {
        if let Some(turn) = log.turn(t) {
            let count = counts.get(&turn.session).copied().unwrap_or(0u64);
            let _before = counts.insert(turn.session, count.saturating_add(1))?;
        }
    }
    let mut passed = HashMap::new(alloc);
    let mut hints = Vec::new(alloc);
    for t in 0..log.history.transactions.len() {
        let mut place = place_of(t);
        if let Some(turn) = log.turn(t) {
            let count = counts.get(&turn.session).copied().unwrap_or(1u64);
            let before = passed.get(&turn.session).copied().unwrap_or(0u64);
            let _before = passed.insert(turn.session, before.saturating_add(1))?;
            place = before
                .saturating_mul(1 << 32)
                .checked_div(count)
                .unwrap_or(0);
        }
        hints.push(at_point(place))?;
    }
    Ok(hints)
}

/// The turn of each transaction in its session.
fn session_turns(alloc: Global, log: &Log) -> Result<Vec<Turn>, NoMemory> {
    let mut turns = Vec::new(alloc);
    for t in 0..log.history.transactions.len() {
        turns.push(match log.turn(t) {
            Some(turn) => Turn {
                lane: ASSUMED.saturating_add(turn.session as usize),
                first: turn.number,
                last: turn.number,
                seen: true,
            },
            None => Turn {
                lane: NOBODY,
                first: 0,
                last: u64::MAX,
                seen: false,
            },
        })?;
    }
    Ok(turns)
}
