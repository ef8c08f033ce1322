//! Texts, numbers and lists that are appended to lines.
ghost use Rattle.std.specs.Prelude.{◌≡◌, ◌<◌, ◌++◌, ◌∷◌, [], codes, map, OnOk};
ghost use Rattle.std.specs.Fmt.{decimal};
ghost use Rattle.hek_rules.specs.Lines.{spaced};
ghost use Rattle.hek_step_report.specs.StateText.{none_text, list_field, entry_text, hex_digit, hex_text, word_text};

use hek_rules::{NoMemory, TxnId, VersionId, WriteEntry};
use std::io::Write;

pub(crate) fn put_text(text: &str, lines: &mut Vec<u8>) -> Result<(), NoMemory>
    ensures { OnOk result (lines.new.items ≡ lines.old.items ++ text.now) }
{
    lines.extend_from_slice(text.as_bytes())?;
    Ok(())
}

pub(crate) fn put_number(number: u64, lines: &mut Vec<u8>) -> Result<(), NoMemory>
    ensures { OnOk result (lines.new.items ≡ lines.old.items ++ decimal number) }
{
    match write!(lines, "{number}") {
        Ok(()) => Ok(()),
        Err(_) => Err(NoMemory),
    }
}

/// The number of a word, in hexadecimal.
pub(crate) fn put_bits(bits: u64, lines: &mut Vec<u8>) -> Result<(), NoMemory>
    ensures { OnOk result (lines.new.items ≡ lines.old.items ++ word_text bits) }
{
    put_hex(16, bits, lines)
}

// The last `count` digits of a number in upper-case hexadecimal.
fn put_hex(count: u64, number: u64, lines: &mut Vec<u8>) -> Result<(), NoMemory>
    ensures { OnOk result (lines.new.items ≡ lines.old.items ++ hex_text count number) }
{
    if count == 0 {
        return Ok(());
    }
    put_hex(count - 1, number / 16, lines)?;
    lines.push(hex_digit((number % 16) as u8))?;
    Ok(())
}

fn hex_digit(digit: u8) -> u8
    requires { digit < 16 }
    ensures { result ≡ hex_digit digit }
{
    if digit < 10 {
        b'0' + digit
    } else {
        b'A' - 10 + digit
    }
}

/// A field with versions, by their places.
pub(crate) fn put_versions(
    label: &str,
    versions: &[VersionId],
    lines: &mut Vec<u8>,
) -> Result<(), NoMemory>
    ensures { OnOk result (lines.new.items ≡ lines.old.items ++ list_field decimal label.now versions.now) }
{
    put_label(label, versions.len(), lines)?;
    put_version_members(versions, lines)
}

/// A field with transactions, by their IDs.
pub(crate) fn put_txns(label: &str, txns: &[TxnId], lines: &mut Vec<u8>) -> Result<(), NoMemory>
    ensures { OnOk result (lines.new.items ≡ lines.old.items ++ list_field decimal label.now txns.now) }
{
    put_label(label, txns.len(), lines)?;
    put_txn_members(txns, lines)
}

/// A field with numbers.
pub(crate) fn put_numbers(label: &str, numbers: &[u64], lines: &mut Vec<u8>) -> Result<(), NoMemory>
    ensures { OnOk result (lines.new.items ≡ lines.old.items ++ list_field decimal label.now numbers.now) }
{
    put_label(label, numbers.len(), lines)?;
    put_number_members(numbers, lines)
}

/// A field with words of a write set.
pub(crate) fn put_entries(
    label: &str,
    entries: &[WriteEntry],
    lines: &mut Vec<u8>,
) -> Result<(), NoMemory>
    ensures { OnOk result (lines.new.items ≡ lines.old.items ++ list_field entry_text label.now entries.now) }
{
    put_label(label, entries.len(), lines)?;
    put_entry_members(entries, lines)
}

// The label of a list that has so many members; `none` follows it if there are none.
fn put_label(label: &str, count: usize, lines: &mut Vec<u8>) -> Result<(), NoMemory>
    ensures { OnOk result (lines.new.items ≡ lines.old.items ++ (codes "; " ++ (label.now ++ none_text count))) }
{
    put_text("; ", lines)?;
    put_text(label, lines)?;
    put_text(none_word(count), lines)
}

fn none_word(count: usize) -> &'static str
    ensures { result.now ≡ none_text count }
{
    match count {
        0 => " none",
        _ => "",
    }
}

// A member of a list: a space, and its number.
fn put_item(number: u64, lines: &mut Vec<u8>) -> Result<(), NoMemory>
    ensures { OnOk result (lines.new.items ≡ lines.old.items ++ spaced (decimal number ∷ [])) }
{
    put_text(" ", lines)?;
    put_number(number, lines)
}

fn put_version_members(versions: &[VersionId], lines: &mut Vec<u8>) -> Result<(), NoMemory>
    ensures { OnOk result (lines.new.items ≡ lines.old.items ++ spaced (map decimal versions.now)) }
{
    for v in versions {
        put_item(v.index(), lines)?;
    }
    Ok(())
}

fn put_txn_members(txns: &[TxnId], lines: &mut Vec<u8>) -> Result<(), NoMemory>
    ensures { OnOk result (lines.new.items ≡ lines.old.items ++ spaced (map decimal txns.now)) }
{
    for t in txns {
        put_item(t.number(), lines)?;
    }
    Ok(())
}

fn put_number_members(numbers: &[u64], lines: &mut Vec<u8>) -> Result<(), NoMemory>
    ensures { OnOk result (lines.new.items ≡ lines.old.items ++ spaced (map decimal numbers.now)) }
{
    for number in numbers {
        put_item(*number, lines)?;
    }
    Ok(())
}

fn put_entry_members(entries: &[WriteEntry], lines: &mut Vec<u8>) -> Result<(), NoMemory>
    ensures { OnOk result (lines.new.items ≡ lines.old.items ++ spaced (map entry_text entries.now)) }
{
    for entry in entries {
        put_entry(*entry, lines)?;
    }
    Ok(())
}

fn put_entry(entry: WriteEntry, lines: &mut Vec<u8>) -> Result<(), NoMemory>
    ensures { OnOk result (lines.new.items ≡ lines.old.items ++ spaced (entry_text entry ∷ [])) }
{
    match entry {
        WriteEntry::BeginOf(v) => {
            put_text(" begin-", lines)?;
            put_number(v.index(), lines)
        }
        WriteEntry::EndOf(v) => {
            put_text(" end-", lines)?;
            put_number(v.index(), lines)
        }
    }
}
