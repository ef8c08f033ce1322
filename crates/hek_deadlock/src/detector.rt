//! The search for the victim among transactions that wait for one another.
ghost use Rattle.std.specs.Prelude.{◌≡◌, ◌≤◌, length, IfOk, IfSome};
ghost use Rattle.hek_deadlock.specs.Edges.{is_edge, victim_in, IsWaiting};
ghost use Rattle.hek_deadlock.specs.Victims.{IsVictimOrNone};

use crate::graph::wait_graph;
use crate::nodes::{answer_at, nodes};
use crate::search::find_victim;
use hek_rules::{Members, NoMemory, TxnId};
use hek_store::Store;
use hek_txn::Txns;
use std::alloc::Global;

/// The fewest members of a cycle, since no transaction waits for itself.
const SHORTEST_CYCLE: usize = 2;

/// The victim among the finished transactions that wait, with its cycle: the greatest ID on any cycle, and the shortest
/// cycle from it, with the least next member at each place (section 4 of the paper: deadlock detection). The search
/// looks at each transaction once, and stops if fewer than two wait. The graph takes time linear in the read sets and
/// waiting lists of those that wait, and a binary search for each edge; the cycle takes at most nodes times edges.
pub fn detect(
    alloc: Global,
    store: &Store,
    txns: &Txns,
) -> Result<Option<(TxnId, Members)>, NoMemory>
    ensures victim { IfOk result (λ answer. answer ≡ victim_in store.now txns.now) }
    ensures walks { IfOk result (IsVictimOrNone (is_edge store.now txns.now)) }
    ensures waiting { IfOk result (λ answer. IfSome answer (λ a. IsWaiting txns.now a.0)) }
    ensures short { IfOk result (λ answer. IfSome answer (λ a. length a.1 ≤ length txns.now.cores)) }
{
    let ids = nodes(alloc, txns)?;
    if ids.len() < SHORTEST_CYCLE {
        return Ok(None);
    }
    let rows = wait_graph(alloc, store, txns, &ids)?;
    let found = find_victim(alloc, &rows)?;
    answer_at(alloc, &ids, found)
}
