//! Whether the committed transactions of a transcript can follow one another.
ghost use Rattle.std.specs.Prelude.{◌≡◌, ◌<◌, ℕ, List, length, map, IfOk, MatchOption};
ghost use Rattle.std.specs.List.{zip};
ghost use Rattle.hek_serial.specs.SerialOrders.{IsSerialOrder, IsSerializability};

use crate::ends::end_times;
use crate::faults::first_fault;
use crate::links::Links;
use crate::order::serial_order;
use crate::serial_orders::search;
use crate::verdict::{check_at, load};
use hek_rules::{Event, Level, NoMemory, Reply, Time, Transcript, TxnId, Verdict};
use std::alloc::Global;

/// Whether the committed transactions, all taken as serializable, can follow one another: from the rows at the beginning,
/// each alone, with the replies that it got, and those that write one key in the order of their end times.
#[derive(Clone, Copy, Debug, PartialEq, Eq)]
pub enum Serializability {
    /// In the order of their end times.
    ByEndTime,
    /// Not in the order of their end times, but in some other order.
    InAnotherOrder,
    /// In no order.
    NotSerial,
}

/// The transactions of an order by end time.
fn transactions(alloc: Global, order: &[(Time, TxnId)]) -> Result<Vec<TxnId>, NoMemory>
    ensures { IfOk result (λ ts. ts.items ≡ map (λ (x : ℕ × ℕ). x.1) order.now) }
{
    Ok(order.iter().map(|pair| pair.1).collect(alloc)?)
}

/// An order in which the committed transactions of a history follow one another, if there is one.
fn order_of_history(
    alloc: Global,
    buckets: u64,
    pairs: &[(u64, u64)],
    levels: &[Level],
    events: &[Event],
    replies: &[Reply],
) -> Result<Option<Vec<TxnId>>, NoMemory>
    requires same { length replies.now ≡ length events.now }
    requires some { 0 < buckets }
    ensures { IfOk result (λ found. MatchOption found ((order : List ℕ) → IsSerialOrder (record { buckets = buckets; rows = pairs.now; levels = levels.now; history = zip events.now replies.now }) order → ⊥) (λ order. IsSerialOrder (record { buckets = buckets; rows = pairs.now; levels = levels.now; history = zip events.now replies.now }) order.items)) }
{
    let plain = first_fault(alloc, levels, events, replies)?;
    if plain < events.len() {
        return Ok(None);
    }
    let ends = end_times(alloc, events, replies)?;
    let order = serial_order(alloc, ends, events, replies)?;
    let left = transactions(alloc, &order)?;
    let links = Links::new(alloc, levels.len() + 1, events)?;
    let mut rows = load(alloc, buckets, pairs)?;
    let found = search(alloc, &left, &mut rows, &links, events, replies)?;
    Ok(found)
}

/// An order in which the committed transactions follow one another, all taken as serializable, if there is one: of those
/// there are the first, where orders are compared from their beginning and transactions by end time. Tries all orders if
/// it must, so it is meant for some ten transactions that meet.
pub fn find_serial_order(
    alloc: Global,
    transcript: &Transcript,
) -> Result<Option<Vec<TxnId>>, NoMemory>
    ensures { IfOk result (λ found. MatchOption found ((order : List ℕ) → IsSerialOrder transcript.now order → ⊥) (λ order. IsSerialOrder transcript.now order.items)) }
{
    let found = order_of_history(
        alloc,
        transcript.buckets(),
        transcript.rows(),
        transcript.levels(),
        transcript.events(),
        transcript.replies(),
    )?;
    Ok(found)
}

/// Whether the committed transactions can follow one another, all taken as serializable. Where the order of their end
/// times won't do, it tries all orders if it must, as `find_serial_order` does.
pub fn serializability_of(
    alloc: Global,
    transcript: &Transcript,
) -> Result<Serializability, NoMemory>
    ensures { IfOk result (λ s. IsSerializability transcript.now s) }
{
    match check_at(alloc, transcript, Level::Serializable)? {
        Verdict::Serial => Ok(Serializability::ByEndTime),
        Verdict::NotSerial(_) => match find_serial_order(alloc, transcript)? {
            Some(_) => Ok(Serializability::InAnotherOrder),
            None => Ok(Serializability::NotSerial),
        },
    }
}
