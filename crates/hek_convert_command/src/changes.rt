//! `word --changes`: which change leads from one word to the next, and who holds each word by that.
ghost use Rattle.std.specs.Prelude.{◌≡◌, ◌++◌, ℕ, List, Option, Some, None, IfOk, OnOk, if◌then◌else◌};
ghost use Rattle.hek_changes.specs.declared.change.EndChange.{EndChange as SpecChange};
ghost use Rattle.hek_changes.specs.Changes.{EndMoves, IsEndChange};
ghost use Rattle.hek_convert_command.specs.declared.entry.Entry.TheVariants.{Exchange as ExchangeOf};
ghost use Rattle.hek_convert_command.specs.Answering.{Answering, IsAnswered, IsReply};
ghost use Rattle.hek_convert_command.specs.Book.{knowledge_of};
ghost use Rattle.hek_convert_command.specs.Changed.{AnswersAll, HasAnswers, IsJudged, IsOfSide, in_chain, nothing_known, standing_in};

use crate::answer::Answer;
use crate::book::Book;
use crate::entries::{Listed, has_over, read_entries};
use crate::entry::{Entry, Exchange, Side, WordName};
use crate::held::{end_text, has_leak};
use hek_changes::{EndChange, Standing, begin_change, end_change, holder_fault};
use hek_report::{HekFault, INPUT, Printing, buffered, send};
use hek_rules::TxnId;
use hek_word::EndWord;
use std::alloc::Global;
use std::io::{Read, Write};

/// Reads a log of exchanges to its end, one on each line of the input, with lines `over TXN` between them, and writes for each
/// line what it comes to: for an exchange the change that leads from the old word to the new one, or what it does wrong by the
/// rules or by who holds the word. Then it writes who still holds a word. `words` must be `-` alone. Answers the exit status: 0
/// without a fault, 4 if a line has another form, otherwise 1.
pub fn changes_command<'a, I: Read + Drop, W: Write>(
    alloc: Global,
    words: &[&'a str],
    input: I,
    printing: Printing,
    out: &mut W,
) -> Result<u8, HekFault<'a>>
    ensures { IfOk result (HasAnswers printing (I.remaining input) (W.contents out.old) (W.contents out.new)) }
{
    if words.len() != 1 || words[0] != INPUT {
        return Err(HekFault::BadArgument);
    }
    let listed = read_entries(alloc, buffered(alloc, input)?)?;
    let status = answer_all(alloc, listed.as_slice(), printing, out)?;
    Ok(status)
}

/// Answers each line, and says who holds a word at the end.
fn answer_all<'a, W: Write>(
    alloc: Global,
    listed: &[Listed],
    printing: Printing,
    out: &mut W,
) -> Result<u8, HekFault<'a>>
    ensures { IfOk result (AnswersAll printing listed.now (W.contents out.old) (W.contents out.new)) }
{
    let mut book = Book::new(alloc);
    answer_with(alloc, listed, &mut book, printing, out)
}

fn answer_with<'a, W: Write>(
    alloc: Global,
    listed: &[Listed],
    book: &mut Book,
    printing: Printing,
    out: &mut W,
) -> Result<u8, HekFault<'a>>
    requires { knowledge_of book.old ≡ nothing_known }
    ensures { IfOk result (AnswersAll printing listed.now (W.contents out.old) (W.contents out.new)) }
{
    let followed = has_over(listed);
    let status = answer_lines(alloc, listed, followed, book, printing, out)?;
    let leaks = has_leak(book);
    let mut text = end_text(alloc, book, printing)?;
    send(&mut text, out)?;
    Ok(leak_status(leaks).max(status))
}

/// The least status, given whether a transaction that is over holds a word.
fn leak_status(leaks: bool) -> u8
    ensures { result ≡ (if leaks then 1 else 0) }
{
    if leaks { 1 } else { 0 }
}

/// Writes what each line comes to. Answers the greatest status that one asks for.
fn answer_lines<'a, W: Write>(
    alloc: Global,
    listed: &[Listed],
    followed: bool,
    book: &mut Book,
    printing: Printing,
    out: &mut W,
) -> Result<u8, HekFault<'a>>
    requires { knowledge_of book.old ≡ nothing_known }
    ensures { IfOk result (Answering printing followed listed.now book.new (W.contents out.old) (W.contents out.new)) }
{
    let mut status = 0;
    for line in listed {
        let asked = answer_line(alloc, line, followed, book, printing, out)?;
        status = asked.max(status);
    }
    Ok(status)
}

/// Writes what a line comes to. Answers the status that it asks for.
fn answer_line<'a, W: Write>(
    alloc: Global,
    line: &Listed,
    followed: bool,
    book: &mut Book,
    printing: Printing,
    out: &mut W,
) -> Result<u8, HekFault<'a>>
    ensures { IfOk result (IsAnswered printing followed line.now book.old book.new (W.contents out.old) (W.contents out.new)) }
{
    let answer = answer_to(line, followed, book)?;
    let mut text = answer.text(alloc, printing, line, book)?;
    send(&mut text, out)?;
    Ok(answer.status())
}

/// The answer to a line. The book notes what it says.
fn answer_to<'a>(line: &Listed, followed: bool, book: &mut Book) -> Result<Answer, HekFault<'a>>
    ensures { IfOk result (IsReply followed line.now book.old book.new) }
{
    let Some(entry) = line.entry else {
        return Ok(Answer::NotAChange);
    };
    match entry {
        Entry::Over(txn) => {
            book.note_over(txn, line.number)?;
            Ok(Answer::Over)
        }
        Entry::Exchange(exchange) => {
            let answer = answer_exchange(line, &exchange, followed, book)?;
            Ok(answer)
        }
    }
}

/// The answer to an exchange.
fn answer_exchange<'a>(
    line: &Listed,
    exchange: &Exchange,
    followed: bool,
    book: &mut Book,
) -> Result<Answer, HekFault<'a>>
    requires { line.now.entry ≡ Some (ExchangeOf exchange.now) }
    ensures { IfOk result (IsReply followed line.now book.old book.new) }
{
    let txn = exchange.txn;
    let change = end_change(exchange.old, exchange.new, txn);
    let Some(word) = exchange.word else {
        let begin = begin_change(exchange.old, exchange.new, txn);
        return Ok(Answer::Changes(begin, change));
    };
    let own = answer_side(exchange, word, change, followed, book);
    let last = book.note_left(word, exchange.new)?;
    book.note_reader(word, txn, change)?;
    Ok(after(last, exchange.old, own))
}

/// The answer to an exchange of a word, if the exchange before it left this number.
fn after(last: Option<u64>, old: u64, own: Answer) -> Answer
    ensures { result ≡ in_chain last old own }
{
    match last {
        Some(last) if last != old => Answer::Broken(last),
        _ => own,
    }
}

/// The answer to an exchange of a word, without what the exchange before it left.
fn answer_side(
    exchange: &Exchange,
    word: WordName,
    change: Option<EndChange>,
    followed: bool,
    book: &Book,
) -> Answer
    requires { IsEndChange exchange.now.txn exchange.now.old exchange.now.new change }
    ensures { IsOfSide (knowledge_of book.now) followed exchange.now word.side word.version change result }
{
    match (word.side, change) {
        (Side::Begin, _) => {
            let txn = exchange.txn;
            let begin = begin_change(exchange.old, exchange.new, txn);
            Answer::Changes(begin, None)
        }
        (Side::End, None) => Answer::Changes(None, None),
        (Side::End, Some(change)) => judge(exchange, word.version, change, followed, book),
    }
}

/// The answer to a change of an End word, in the light of who holds it.
fn judge(
    exchange: &Exchange,
    version: u64,
    change: EndChange,
    followed: bool,
    book: &Book,
) -> Answer
    requires { EndMoves exchange.now.txn exchange.now.old exchange.now.new change }
    ensures { IsJudged (knowledge_of book.now) followed exchange.now version change result }
{
    let Some(before) = EndWord::read(exchange.old) else {
        return Answer::NotAChange;
    };
    let txn = exchange.txn;
    let standing = standing(before, txn, followed, book);
    let counted = u64::from(before.readers());
    match holder_fault(change, counted, book.readers(version), txn, standing) {
        None => Answer::Changes(None, Some(change)),
        Some(fault) => Answer::Held(fault),
    }
}

/// How a transaction that exchanges a word stands to its writer, and whether it is over.
fn standing(before: EndWord, txn: TxnId, followed: bool, book: &Book) -> Standing
    ensures { result ≡ standing_in (knowledge_of book.now) followed txn before }
{
    let writer_lives = match before.writer() {
        None => false,
        Some(writer) => writer.number() != txn.number() && book.over_line(writer).is_none(),
    };
    Standing {
        writer_lives: followed && writer_lives,
        is_over: book.over_line(txn).is_some(),
    }
}
