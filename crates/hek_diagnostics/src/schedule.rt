//! The faults of a schedule text.
ghost use Rattle.std.specs.Prelude.{◌≡◌, IfOk, IfSome};

use crate::diagnostic::{Diagnostic, Diagnostics, diagnose};
use crate::finding::Finding;
use crate::known::Known;
use crate::line::judge;
use crate::numbers::has_byte;
use crate::place::{Lines, Place};
use crate::words::Word;
use hek_asm::AsmKind;
use hek_rules::{NoMemory, next_word, same_bytes};
use std::alloc::Global;

/// The most faults that are shown beside the first.
const MOST: usize = 9;

/// The faults of a schedule text, whose first is in this line and of this kind, as `assemble_text` says; `name` is that of
/// the file. None if the text has no such line. A fault that only follows from another is not among them.
pub fn explain_text<'t>(
    alloc: Global,
    name: &'t str,
    text: &'t [u8],
    line: u64,
    kind: AsmKind,
) -> Result<Option<Diagnostics<'t>>, NoMemory>
    ensures { IfOk result (λ found. IfSome found (λ d. d.first.place.number ≡ line)) }
{
    let mut known = Known::new(alloc);
    let mut lines = Lines::new(text);
    let mut words = Vec::new(alloc);
    let Some(place) = reach(&mut known, &mut lines, &mut words, line)? else {
        return Ok(None);
    };
    let finding = match judge(&mut known, &mut words, place.line, place.number)? {
        Some(finding) => late_buckets(finding, text, kind),
        None => unexplained(&mut known, words.as_slice(), text, kind),
    };
    let mut found = Diagnostics {
        first: diagnosed(&known, name, place, finding)?,
        others: Vec::new(alloc),
        more: 0,
    };
    find_others(&mut known, &mut lines, &mut words, name, &mut found)?;
    if found.first.place.number != line {
        return Ok(None);
    }
    Ok(Some(found))
}

/// The finding of a text that doesn't begin with `buckets`, with the line that does so later, if there is one.
fn late_buckets<'t>(finding: Finding<'t>, text: &'t [u8], kind: AsmKind) -> Finding<'t> {
    if kind != AsmKind::NoBuckets || !finding.is_plain {
        return finding;
    }
    let mut lines = Lines::new(text);
    for _ in 0..u64::MAX {
        let Some(place) = lines.next() else {
            break;
        };
        if begins_with_buckets(place.line) {
            let sentence = "the text begins with @, and `buckets` in line $ comes too late";
            return finding.saying(sentence).with_number(place.number);
        }
    }
    finding
}

fn begins_with_buckets(line: &[u8]) -> bool {
    match next_word(line) {
        Some((word, _)) => same_bytes(word, b"buckets"),
        None => false,
    }
}

/// The line of this number, after all lines before it.
fn reach<'t>(
    known: &mut Known<'t>,
    lines: &mut Lines<'t>,
    words: &mut Vec<Word<'t>>,
    line: u64,
) -> Result<Option<Place<'t>>, NoMemory> {
    for _ in 0..line {
        let Some(place) = lines.next() else {
            return Ok(None);
        };
        if place.number == line {
            return Ok(Some(place));
        }
        judge(known, words, place.line, place.number)?;
    }
    Ok(None)
}

/// Finds the faults of the lines that are left.
fn find_others<'t>(
    known: &mut Known<'t>,
    lines: &mut Lines<'t>,
    words: &mut Vec<Word<'t>>,
    name: &'t str,
    found: &mut Diagnostics<'t>,
) -> Result<(), NoMemory> {
    for _ in 0..u64::MAX {
        if known.is_over {
            return Ok(());
        }
        let Some(place) = lines.next() else {
            return Ok(());
        };
        if let Some(finding) = judge(known, words, place.line, place.number)? {
            add(known, name, place, finding, found)?;
        }
    }
    Ok(())
}

/// Adds a fault, or counts it where enough are shown.
fn add<'t>(
    known: &Known<'t>,
    name: &'t str,
    place: Place<'t>,
    finding: Finding<'t>,
    found: &mut Diagnostics<'t>,
) -> Result<(), NoMemory> {
    if found.others.len() >= MOST {
        found.more = found.more.saturating_add(1);
        return Ok(());
    }
    let diagnostic = diagnosed(known, name, place, finding)?;
    found.others.push(diagnostic)?;
    Ok(())
}

pub(crate) fn diagnosed<'t>(
    known: &Known<'t>,
    name: &'t str,
    place: Place<'t>,
    finding: Finding<'t>,
) -> Result<Diagnostic<'t>, NoMemory>
    ensures number { IfOk result (λ d. d.place.number ≡ place.entry.number) }
    ensures text { IfOk result (λ d. d.place.text.now ≡ place.entry.text.now) }
{
    let starts = starts(known)?;
    diagnose(
        known.alloc,
        name,
        known.list.as_slice(),
        starts.as_slice(),
        place,
        finding,
    )
}

/// The words with which a line may begin.
fn starts<'t>(known: &Known<'t>) -> Result<Vec<&'t [u8]>, NoMemory> {
    let mut starts: Vec<&'t [u8]> = Vec::new(known.alloc);
    for name in &known.list {
        starts.push(*name)?;
    }
    if known.first_txn == 0 && known.first_step == 0 {
        starts.push(b"row")?;
    }
    if known.first_step == 0 {
        starts.push(b"txn")?;
    }
    starts.push(b"detect")?;
    Ok(starts)
}

/// What is said of a line in which nothing was found: one of a text without words, or one of a fault of this kind.
fn unexplained<'t>(
    known: &mut Known<'t>,
    words: &[Word<'t>],
    text: &[u8],
    kind: AsmKind,
) -> Finding<'t> {
    if kind == AsmKind::NoBuckets {
        known.is_over = true;
        return Finding::at(Word::new(b"", 0), wordless(text)).wanting("buckets");
    }
    let first = words.first().copied().unwrap_or(Word::new(b"", 0));
    Finding::at(first, form_of(kind))
}

/// What is said of a text without words.
fn wordless(text: &[u8]) -> &'static str {
    if text.is_empty() {
        return "the text is empty, and its first line gives the number of buckets";
    }
    if has_byte(text, b'#') {
        return "the text has only comments, and its first line gives the number of buckets";
    }
    "the text has only blanks, and its first line gives the number of buckets"
}

fn form_of(kind: AsmKind) -> &'static str {
    match kind {
        AsmKind::NoBuckets | AsmKind::BadWord => "this line is not one of a schedule",
        AsmKind::BadNumber => "a word of this line is not a number",
        AsmKind::UnknownName => "no transaction is called @",
        AsmKind::NameTwice => "the name is declared twice",
        AsmKind::KeyTwice => "the key is loaded twice",
        AsmKind::TooMany => "a schedule cannot have so many of these",
        AsmKind::BadBucket => "there is no such bucket",
        AsmKind::NotAscii => "a character of this line is not ASCII",
    }
}
