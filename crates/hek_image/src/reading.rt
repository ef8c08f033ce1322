//! Items of an image, read from a source one after another, and judged with each piece that comes.
ghost use Rattle.std.specs.Prelude.{◌≡◌, ◌+◌, ◌*◌, ◌^◌, ◌<◌, ◌≤◌, length, false, IsTrue, OnOk, IfOk};
ghost use Rattle.hek_rules.specs.Plan.{max_txns};
ghost use Rattle.std.specs.Int.{w8};
ghost use Rattle.hek_image.specs.Loading.{number_within, txn_at, times};
ghost use Rattle.hek_image.specs.Gives.{AnswerFits};
ghost use Rattle.hek_image.specs.Taking.{Takes, item_at, item_size, ItemsFit, HasGrown, HasMore};

use crate::fault::LoadFault;
use crate::fields::u8_within;
use crate::item::{Item, item_size};
use crate::items::{item_at, level_coded};
use crate::pieces::{ROOM, is_short, take_more};
use crate::place::Place;
use hek_rules::{Schedule, Source};

// Reads the item at an offset and adds it to the schedule. Answers the offset of the next one.
fn next_item<S: Source>(
    item: Item,
    schedule: &mut Schedule,
    at: u64,
    source: &mut S,
) -> Result<u64, LoadFault>
    requires works { S.failed source.old ≡ false }
    requires fits { ItemsFit item 1 schedule.old }
    requires size { (0 < item_size item) × (item_size item ≤ 32) }
    requires at { at < 2 ^ 32 }
    ensures takes { IsTrue (S.tells source.old) → Takes (λ n. (schedule.new, n)) (item_at item schedule.old) at (item_size item) result (S.left source.old) (S.left source.new) }
    ensures grown { OnOk result (HasGrown item 1 schedule.old schedule.new) }
    ensures at { IfOk result (λ n. n ≤ at + 32) }
    ensures tells { IsTrue (S.tells source.old) → IsTrue (S.tells source.new) }
    ensures fails { AnswerFits result (S.failed source.new) }
{
    let mut buffer = [0u8; ROOM];
    let mut held = 0;
    loop {
        let (bytes, _) = buffer.split_at(held);
        match item_at(item, schedule, Place { at, rest: bytes }) {
            Ok(after) => return Ok(after.at),
            Err(fault) => {
                if !is_short(fault) {
                    return Err(fault);
                }
            }
        }
        match take_more(source, &mut buffer, held, item_size(item)) {
            Ok(count) => held = count,
            Err(fault) => return Err(fault),
        }
    }
}

// Reads several items of one kind: rows or steps.
pub(crate) fn next_items<S: Source>(
    item: Item,
    count: u32,
    schedule: &mut Schedule,
    at: u64,
    source: &mut S,
) -> Result<u64, LoadFault>
    requires works { S.failed source.old ≡ false }
    requires fits { ItemsFit item count schedule.old }
    requires size { (0 < item_size item) × (item_size item ≤ 32) }
    requires at { at + count * 32 < 2 ^ 32 }
    ensures takes { IsTrue (S.tells source.old) → Takes (λ n. (schedule.new, n)) (times count (item_at item) schedule.old) at (count * item_size item) result (S.left source.old) (S.left source.new) }
    ensures grown { OnOk result (HasGrown item count schedule.old schedule.new) }
    ensures at { IfOk result (λ n. n ≤ at + count * 32) }
    ensures tells { IsTrue (S.tells source.old) → IsTrue (S.tells source.new) }
    ensures fails { AnswerFits result (S.failed source.new) }
{
    let mut next = at;
    for _ in 0..count {
        match next_item(item, schedule, next, source) {
            Ok(after) => next = after,
            Err(fault) => return Err(fault),
        }
    }
    Ok(next)
}

// Reads a byte that is a number in a range.
fn next_u8<S: Source>(low: u8, high: u8, at: u64, source: &mut S) -> Result<u8, LoadFault>
    requires works { S.failed source.old ≡ false }
    requires at { at < 2 ^ 32 }
    ensures takes { IsTrue (S.tells source.old) → Takes (λ n. (n, at + 1)) (number_within low high w8) at 1 result (S.left source.old) (S.left source.new) }
    ensures within { IfOk result (λ n. (low ≤ n) × (n ≤ high)) }
    ensures tells { IsTrue (S.tells source.old) → IsTrue (S.tells source.new) }
    ensures fails { AnswerFits result (S.failed source.new) }
{
    let mut byte = [0u8; 1];
    take_more(source, &mut byte, 0, 1)?;
    let (number, _) = u8_within(low, high, Place { at, rest: &byte })?;
    Ok(number)
}

// Reads a transaction of an image of this version and adds it to the schedule.
fn next_txn<S: Source>(
    version: u8,
    schedule: &mut Schedule,
    at: u64,
    source: &mut S,
) -> Result<u64, LoadFault>
    requires works { S.failed source.old ≡ false }
    requires known { version ≤ 2 }
    requires room { length schedule.old.txns < max_txns }
    requires at { at + 2 < 2 ^ 32 }
    ensures takes { IsTrue (S.tells source.old) → Takes (λ n. (schedule.new, n)) (txn_at version schedule.old) at 34 result (S.left source.old) (S.left source.new) }
    ensures grown { OnOk result (HasMore 0 1 0 schedule.old schedule.new) }
    ensures at { IfOk result (λ n. n ≤ at + 34) }
    ensures tells { IsTrue (S.tells source.old) → IsTrue (S.tells source.new) }
    ensures fails { AnswerFits result (S.failed source.new) }
{
    let level = next_u8(1, version + 1, at, source)?;
    let len = next_u8(1, 32, at + 1, source)?;
    next_item(
        Item::Name(level_coded(level), len),
        schedule,
        at + 2,
        source,
    )
}

// Reads several transactions.
pub(crate) fn next_txns<S: Source>(
    version: u8,
    count: u32,
    schedule: &mut Schedule,
    at: u64,
    source: &mut S,
) -> Result<u64, LoadFault>
    requires works { S.failed source.old ≡ false }
    requires known { version ≤ 2 }
    requires room { length schedule.old.txns + count ≤ max_txns }
    requires at { at + count * 34 < 2 ^ 32 }
    ensures takes { IsTrue (S.tells source.old) → Takes (λ n. (schedule.new, n)) (times count (txn_at version) schedule.old) at (count * 34) result (S.left source.old) (S.left source.new) }
    ensures grown { OnOk result (HasMore 0 count 0 schedule.old schedule.new) }
    ensures at { IfOk result (λ n. n ≤ at + count * 34) }
    ensures tells { IsTrue (S.tells source.old) → IsTrue (S.tells source.new) }
    ensures fails { AnswerFits result (S.failed source.new) }
{
    let mut next = at;
    for _ in 0..count {
        match next_txn(version, schedule, next, source) {
            Ok(after) => next = after,
            Err(fault) => return Err(fault),
        }
    }
    Ok(next)
}
