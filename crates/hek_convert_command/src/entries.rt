//! The lines of a log of exchanges.
ghost use Rattle.std.specs.Prelude.{◌≡◌, IfOk, OnOk};
ghost use Rattle.std.specs.List.{list_any};
ghost use Rattle.hek_convert_command.specs.declared.entries.Listed.{Listed as SpecListed};
ghost use Rattle.hek_convert_command.specs.Logged.{AddsLine, IsRead, says_over};

use crate::entry::{Entry, entry_of};
use crate::words::line_fault;
use hek_report::HekFault;
use std::alloc::Global;
use std::io::BufRead;

/// A line that isn't blank.
#[derive(Clone, Copy)]
pub(crate) struct Listed {
    /// Its number, from 1.
    pub number: u64,
    /// None if the line has another form.
    pub entry: Option<Entry>,
}

/// All lines that aren't blank, in their order.
pub(crate) fn read_entries<'a, B: BufRead + Drop>(
    alloc: Global,
    lines: B,
) -> Result<Vec<Listed>, HekFault<'a>>
    ensures { IfOk result (λ listed. IsRead (B.remaining lines) listed.items) }
{
    let mut listed = Vec::new(alloc);
    let mut number = 0u64;
    for line in lines.lines(alloc) {
        let line = line.map_err(|error| line_fault(error.kind()))?;
        number = number.saturating_add(1);
        push_line(&mut listed, number, line.as_str().trim())?;
    }
    Ok(listed)
}

/// Adds a line, unless it is blank.
fn push_line<'a>(listed: &mut Vec<Listed>, number: u64, line: &str) -> Result<(), HekFault<'a>>
    ensures { OnOk result (AddsLine number line.now listed.old.items listed.new.items) }
{
    if line.is_empty() {
        return Ok(());
    }
    let entry = entry_of(line);
    if listed.push(Listed { number, entry }).is_err() {
        return Err(HekFault::NoMemory);
    }
    Ok(())
}

/// Whether a line says that a transaction is over.
pub(crate) fn has_over(listed: &[Listed]) -> bool
    ensures { result ≡ list_any (λ (line : SpecListed). says_over line.entry) listed.now }
{
    listed.iter().any(|line| is_over_line(line))
}

fn is_over_line(line: &Listed) -> bool
    ensures { result ≡ says_over line.now.entry }
{
    matches!(line.entry, Some(Entry::Over(_)))
}
