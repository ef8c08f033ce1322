//! The lines of a table, as `hek permute --json` prints them.
use hek_report::put;
use hek_rules::{NoMemory, number};
use std::alloc::Global;
use std::io::Write;
use std::str::Split;

/// The line of an outcome: how many orders have it; how each transaction ended, the rows and the verdict, as the line has
/// them; what is said of the first order's verdict; in how many orders a transaction waited; the first order.
#[derive(Clone, Copy)]
pub(crate) struct Row<'t> {
    pub(crate) orders: u64,
    pub(crate) outcome: &'t str,
    pub(crate) details: &'t str,
    pub(crate) waited: u64,
    pub(crate) first: &'t str,
}

impl<'t> Row<'t> {
    /// The names of its first order, one for each move.
    pub(crate) fn movers(self) -> Split<'t, char> {
        self.first.split(',')
    }
}

/// How many orders and outcomes a table has, by its first line.
pub(crate) fn head_of(line: &str) -> Option<(u64, u64)> {
    let counts = between(line, "{\"orders\":", "}")?;
    let (orders, outcomes) = counts.split_once(",\"outcomes\":")?;
    Some((number(orders.as_bytes())?, number(outcomes.as_bytes())?))
}

/// What is between a front and an end of a line.
fn between<'t>(line: &'t str, front: &str, end: &str) -> Option<&'t str> {
    line.strip_prefix(front)?.strip_suffix(end)
}

/// The outcome of a line: `{"orders":C,"ends":..,"rows":..,"verdict":"..",..,"waited":W,"first":[..]}`.
pub(crate) fn row_of<'t>(line: &'t str) -> Option<Row<'t>> {
    let (orders, rest) = between(line, "{\"orders\":", "]}")?.split_once(",")?;
    let (rest, first) = rest.rsplit_once(",\"first\":[")?;
    let (told, waited) = rest.rsplit_once(",\"waited\":")?;
    let (outcome, details) = told_in(told)?;
    Some(Row {
        orders: number(orders.as_bytes())?,
        outcome,
        details,
        waited: number(waited.as_bytes())?,
        first,
    })
}

/// The members up to the verdict, and those after it.
fn told_in<'t>(told: &'t str) -> Option<(&'t str, &'t str)> {
    let start = told.find("\"verdict\":\"")?;
    let (_, after) = told.split_at_checked(start.checked_add(11)?)?;
    let length = after.find('"')?;
    told.split_at_checked(start.checked_add(12)?.checked_add(length)?)
}

/// The names of the transactions, in the order of the declarations.
pub(crate) fn names_of<'t>(alloc: Global, row: Row<'t>) -> Result<Vec<&'t str>, NoMemory> {
    let mut names = Vec::new(alloc);
    for part in row.outcome.split("{\"txn\":") {
        if let Some((name, _)) = part.split_once(",\"end\":") {
            names.push(name)?;
        }
    }
    Ok(names)
}

/// Appends the first line of a table.
pub(crate) fn put_head(orders: u64, outcomes: usize, lines: &mut Vec<u8>) -> Result<(), NoMemory> {
    put(writeln!(lines, "{{\"orders\":{orders},\"outcomes\":{outcomes}}}"))
}

/// Appends the line of an outcome.
pub(crate) fn put_row(row: Row<'_>, lines: &mut Vec<u8>) -> Result<(), NoMemory> {
    let Row {
        orders,
        outcome,
        details,
        waited,
        first,
    } = row;
    put(writeln!(
        lines,
        "{{\"orders\":{orders},{outcome}{details},\"waited\":{waited},\"first\":[{first}]}}"
    ))
}
