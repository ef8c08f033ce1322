//! The log of a history.
ghost use Rattle.std.specs.Prelude.{◌≡◌, length, IfOk};
ghost use Rattle.hek_history_levels.specs.Steps.{turns_at as turns_there, AreSeen, IsLogOf};

use crate::transaction::seen;
use hek_history::History;
use hek_levels::{Log, Turn};
use hek_rules::NoMemory;
use std::alloc::Global;

/// The turns of t, if they are given.
fn turns_at(turns: &[Vec<Turn>], t: usize) -> &[Turn]
    ensures { result.now ≡ turns_there turns.now t }
{
    match turns.get(t) {
        Some(list) => list.as_slice(),
        None => &[],
    }
}

/// All transactions as levels see them.
fn all_seen(
    alloc: Global,
    turns: &[Vec<Turn>],
    history: &History,
) -> Result<Vec<hek_levels::Transaction>, NoMemory>
    ensures count { IfOk result (λ found. length found.items ≡ length history.now.transactions.items) }
    ensures seen { IfOk result (λ found. AreSeen turns.now history.now found.items) }
{
    let mut found = Vec::with_capacity(alloc, history.transactions.len())?;
    for t in 0..history.transactions.len() {
        let own = turns_at(turns, t);
        found.push(seen(alloc, own, &history.transactions[t])?)?;
    }
    Ok(found)
}

/// The log of a history, as levels see it. `turns` has the turns of each transaction, by its place: one that is not there has none.
pub fn log_of(alloc: Global, history: &History, turns: &[Vec<Turn>]) -> Result<Log, NoMemory>
    ensures { IfOk result (λ log. IsLogOf history.now turns.now log) }
{
    Ok(Log {
        rows: Vec::from_slice(alloc, history.rows.as_slice())?,
        transactions: all_seen(alloc, turns, history)?,
    })
}
