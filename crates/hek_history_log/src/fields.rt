//! The fields of a line.
ghost use Rattle.std.specs.Prelude.{◌≡◌, ◌<◌, ◌^◌, ◌++◌, ℕ, List, All, Some, None, Ok, Option, option_map, map, codes, true, false, get_or, length, []};
ghost use Rattle.std.specs.List.{list_any};
ghost use Rattle.std.specs.Str.{bytes_eq};
ghost use Rattle.json.specs.Json.{string};
ghost use Rattle.json.specs.Find.{get};
ghost use Rattle.json.specs.Value.{value_view};
ghost use Rattle.hek_history.specs.declared.history.Level.{Level as SpecLevel};
ghost use Rattle.hek_history.specs.declared.history.Status.{Status as SpecStatus};
ghost use Rattle.hek_history_log.specs.Gives.{Gives};
ghost use Rattle.hek_history_log.specs.Kept.{KeepsLabels};
ghost use Rattle.hek_history_log.specs.LogText.{number_json, number_or_null, pair_json, pairs_json, level_word, status_word, interval_json};
ghost use Rattle.hek_history_log.specs.MemberNames.{IsKnown, AreMembers};
ghost use Rattle.hek_history_log.specs.Readable.{IsOwnPair, IsTime, AreInOrder};
ghost use Rattle.hek_history_log.specs.declared.shown.Label.TheVariants.{Number};

use crate::fault::{LogFault, Wanted};
use crate::log_line::LogLine;
use crate::logged::Turn;
use crate::numbering::Labels;
use crate::shown::Label;
use crate::spot::Spot;
use crate::symbols::{Symbols, items_of, label_of, number_in};
use hek_history::{Level, Status};
use json::Value;
use std::alloc::Global;

/// The members of the opening line, and of a transaction's line. `note`, and a name that begins with `x-`, may stand beside
/// them.
pub const OPENING_MEMBERS: [&str; 3] = ["rows", "buckets", "note"];

pub const MEMBERS: [&str; 9] = [
    "txn", "level", "status", "begin", "end", "at", "session", "ops", "note",
];

/// How the name of a member begins that a log may have beside the others.
const OWN: &str = "x-";

/// Refuses members that a line can't have, and members that are there twice.
pub(crate) fn check_members(
    line: LogLine<'_>,
    members: &[(&str, Value<'_>)],
    known: &[&str],
    wanted: Wanted,
) -> Result<(), LogFault>
    ensures { AreMembers known.now (map (λ m. m.0.now) members.now) → result ≡ Ok tt }
{
    for place in 0..members.len() {
        let member = &members[place];
        let name = member.0;
        if is_known(name, known) {
            if is_among(name, members, place) {
                return Err(line.wants(Spot::Member(place), Wanted::Once));
            }
        } else if !name.starts_with(OWN) {
            return Err(line.wants(Spot::Member(place), wanted));
        }
    }
    Ok(())
}

fn is_known(name: &str, known: &[&str]) -> bool
    ensures { IsKnown known.now name.now → result ≡ true }
{
    for it in known {
        if *it == name {
            return true;
        }
    }
    false
}

/// Whether one of the first members has a name.
fn is_among(name: &str, members: &[(&str, Value<'_>)], count: usize) -> bool
    ensures { ((k : ℕ) → k < count → k < length members.now
        → bytes_eq (get_or (map (λ m. m.0.now) members.now) k []) name.now ≡ false)
        → result ≡ false }
{
    for place in 0..members.len() {
        if place >= count {
            return false;
        }
        let member = &members[place];
        if member.0 == name {
            return true;
        }
    }
    false
}

/// The name of a transaction.
pub(crate) fn name_of<'a>(line: LogLine<'_>, object: &Value<'a>) -> Result<Label<'a>, LogFault>
    ensures { (name : ℕ) → name < 2 ^ 64
        → get (codes "txn") (value_view object.now) ≡ Some (number_json name)
        → result ≡ Ok (Number name) }
{
    match object.get("txn") {
        Some(value) => match label_of(value) {
            Some(label) => Ok(label),
            None => Err(line.wants(Spot::Field("txn"), Wanted::Name)),
        },
        None => Err(line.wants(Spot::Line, Wanted::Transaction)),
    }
}

/// The level of a transaction: serializable, if it is not given.
pub(crate) fn level_of(line: LogLine<'_>, object: &Value<'_>) -> Result<Level, LogFault>
    ensures { (level : SpecLevel)
        → get (codes "level") (value_view object.now) ≡ Some (string (level_word level))
        → result ≡ Ok level }
{
    let Some(value) = object.get("level") else {
        return Ok(Level::Serializable);
    };
    match level_named(value.as_str().unwrap_or("")) {
        Some(level) => Ok(level),
        None => Err(line.wants(Spot::Field("level"), Wanted::Level)),
    }
}

fn level_named(word: &str) -> Option<Level>
    ensures { (level : SpecLevel) → word.now ≡ level_word level → result ≡ Some level }
{
    match word {
        "serializable" => Some(Level::Serializable),
        "snapshot" => Some(Level::Snapshot),
        "repeatable" => Some(Level::Repeatable),
        _ => None,
    }
}

/// The status of a transaction: committed, if it is not given.
pub(crate) fn status_of(line: LogLine<'_>, object: &Value<'_>) -> Result<Status, LogFault>
    ensures { (status : SpecStatus)
        → get (codes "status") (value_view object.now) ≡ Some (string (status_word status))
        → result ≡ Ok status }
{
    let Some(value) = object.get("status") else {
        return Ok(Status::Committed);
    };
    match status_named(value.as_str().unwrap_or("")) {
        Some(status) => Ok(status),
        None => Err(line.wants(Spot::Field("status"), Wanted::Status)),
    }
}

fn status_named(word: &str) -> Option<Status>
    ensures { (status : SpecStatus) → word.now ≡ status_word status → result ≡ Some status }
{
    match word {
        "committed" => Some(Status::Committed),
        "aborted" => Some(Status::Aborted),
        "unknown" => Some(Status::Unknown),
        _ => None,
    }
}

/// A time, if it is given and not null.
fn time_of(
    line: LogLine<'_>,
    object: &Value<'_>,
    name: &'static str,
) -> Result<Option<u64>, LogFault>
    ensures { (time : Option ℕ) → IsTime time
        → get name.now (value_view object.now) ≡ option_map number_json time
        → result ≡ Ok time }
{
    match object.get(name) {
        None => Ok(None),
        Some(value) => match time_in(value) {
            Some(time) => Ok(time),
            None => Err(line.wants(Spot::Field(name), Wanted::Time)),
        },
    }
}

/// A number, or nothing for null.
fn time_in(value: &Value<'_>) -> Option<Option<u64>>
    ensures { (time : Option ℕ) → IsTime time → value_view value.now ≡ number_or_null time
        → result ≡ Some time }
{
    if value.is_null() {
        return Some(None);
    }
    match number_in(value) {
        Some(time) => Some(Some(time)),
        None => None,
    }
}

/// When a transaction began, and when it ended.
pub(crate) fn times_of(
    line: LogLine<'_>,
    object: &Value<'_>,
) -> Result<(Option<u64>, Option<u64>), LogFault>
    ensures { (begin end : Option ℕ) → IsTime begin → IsTime end → AreInOrder begin end
        → get (codes "begin") (value_view object.now) ≡ option_map number_json begin
        → get (codes "end") (value_view object.now) ≡ option_map number_json end
        → result ≡ Ok (begin, end) }
{
    let begin = time_of(line, object, "begin")?;
    let end = time_of(line, object, "end")?;
    if are_reversed(begin, end) {
        return Err(line.wants(Spot::Field("end"), Wanted::EndAfterBegin));
    }
    Ok((begin, end))
}

/// Whether the second of two times is before the first, if both are known.
fn are_reversed(first: Option<u64>, second: Option<u64>) -> bool
    ensures { AreInOrder first second → result ≡ false }
{
    match (first, second) {
        (Some(first), Some(second)) => second < first,
        _ => false,
    }
}

/// When a transaction was invoked, and when it was answered.
pub(crate) fn interval_of(
    line: LogLine<'_>,
    object: &Value<'_>,
) -> Result<(Option<u64>, Option<u64>), LogFault>
    ensures none { get (codes "at") (value_view object.now) ≡ None → result ≡ Ok (None, None) }
    ensures some { (invoked answered : Option ℕ) → IsTime invoked → IsTime answered
        → AreInOrder invoked answered
        → get (codes "at") (value_view object.now) ≡ Some (interval_json invoked answered)
        → result ≡ Ok (invoked, answered) }
{
    let Some(value) = object.get("at") else {
        return Ok((None, None));
    };
    let Some((invoked, answered)) = interval_in(value) else {
        return Err(line.wants(Spot::Field("at"), Wanted::Interval));
    };
    if are_reversed(invoked, answered) {
        return Err(line.wants(Spot::Field("at"), Wanted::AnsweredAfterInvoked));
    }
    Ok((invoked, answered))
}

/// Two times, each a number or null.
fn interval_in(value: &Value<'_>) -> Option<(Option<u64>, Option<u64>)>
    ensures { (invoked answered : Option ℕ) → IsTime invoked → IsTime answered
        → value_view value.now ≡ interval_json invoked answered
        → result ≡ Some (invoked, answered) }
{
    let items = items_of(value)?;
    let [invoked, answered] = items else {
        return None;
    };
    Some((time_in(invoked)?, time_in(answered)?))
}

/// The turn of a transaction in its session, if it is of one: without a number that of its line.
pub(crate) fn turn_of(
    alloc: Global,
    line: LogLine<'_>,
    object: &Value<'_>,
    sessions: &mut Labels,
) -> Result<Option<Turn>, LogFault>
    ensures { get (codes "session") (value_view object.now) ≡ None → result ≡ Ok None }
{
    let Some(value) = object.get("session") else {
        return Ok(None);
    };
    match turn_in(line.number, value) {
        Some((name, number)) => Ok(Some(Turn {
            session: sessions.number_of(alloc, name)?,
            number,
        })),
        None => Err(line.wants(Spot::Field("session"), Wanted::Session)),
    }
}

/// The name of a session, and a number in it: one that is given, or else this one.
fn turn_in<'a>(number: u64, value: &Value<'a>) -> Option<(Label<'a>, u64)> {
    if let Value::Array(items) = value {
        let [name, number] = items.as_slice() else {
            return None;
        };
        return Some((label_of(name)?, number.as_u64()?));
    }
    Some((label_of(value)?, number))
}

/// The number of buckets, if it is given.
pub(crate) fn buckets_of(line: LogLine<'_>, object: &Value<'_>) -> Result<Option<u64>, LogFault>
    ensures { (buckets : ℕ) → 0 < buckets → buckets < 2 ^ 64
        → get (codes "buckets") (value_view object.now) ≡ Some (number_json buckets)
        → result ≡ Ok (Some buckets) }
{
    let Some(value) = object.get("buckets") else {
        return Ok(None);
    };
    let buckets = number_in(value).unwrap_or(0);
    if buckets == 0 {
        return Err(line.wants(Spot::Field("buckets"), Wanted::Buckets));
    }
    Ok(Some(buckets))
}

/// Reads the opening rows: none, if they are not given.
pub(crate) fn read_rows(
    alloc: Global,
    line: LogLine<'_>,
    object: &Value<'_>,
    symbols: &mut Symbols,
    rows: &mut Vec<(u64, u64)>,
) -> Result<(), LogFault>
    ensures { (ps : List (ℕ × ℕ)) → All IsOwnPair ps
        → get (codes "rows") (value_view object.now) ≡ Some (pairs_json ps)
        → Gives result LogFault.NoMemory (λ _. KeepsLabels symbols.old symbols.new
        × (rows.new.items ≡ rows.old.items ++ ps)) }
{
    let Some(value) = object.get("rows") else {
        return Ok(());
    };
    match items_of(value) {
        Some(items) => add_rows(alloc, line, items, symbols, rows),
        None => Err(line.wants(Spot::Field("rows"), Wanted::Rows)),
    }
}

fn add_rows(
    alloc: Global,
    line: LogLine<'_>,
    items: &[Value<'_>],
    symbols: &mut Symbols,
    rows: &mut Vec<(u64, u64)>,
) -> Result<(), LogFault>
    ensures { (ps : List (ℕ × ℕ)) → All IsOwnPair ps → map value_view items.now ≡ map pair_json ps
        → Gives result LogFault.NoMemory (λ _. KeepsLabels symbols.old symbols.new
        × (rows.new.items ≡ rows.old.items ++ ps)) }
{
    for place in 0..items.len() {
        let item = &items[place];
        match symbols.pair(alloc, item, Wanted::Row) {
            Ok(row) => rows.push(row)?,
            Err(misfit) => return Err(line.fault(Spot::Item("rows", place), misfit)),
        }
    }
    Ok(())
}
