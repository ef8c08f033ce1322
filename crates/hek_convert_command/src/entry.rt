//! A line of a log of exchanges.
ghost use Rattle.std.specs.Option.{option_map};
ghost use Rattle.std.specs.Prelude.{◌≡◌, ◌↔◌, ℕ, List, ◌∷◌, [], Option, Some};
ghost use Rattle.hek_convert_command.specs.Lines.{AreExchangeWords, AreNumbersOf, AreOverWords, AreWordsOf, IsEntryOn, IsNameOf, spaced};
ghost use Rattle.hek_convert_command.specs.declared.entry.WordName.{WordName as SpecName};
ghost use Rattle.hek_convert_command.specs.declared.entry.Entry.{Entry as SpecEntry};
ghost use Rattle.hek_convert_command.specs.declared.entry.Entry.TheVariants.{Exchange as ExchangeOf, Over};
ghost use Rattle.hek_convert_command.specs.declared.entry.Exchange.{Exchange as SpecExchange};

use crate::release::hex_number;
use hek_rules::{TxnId, number};

/// Which of a version's two words.
#[derive(Clone, Copy)]
pub enum Side {
    Begin,
    End,
}

/// A word of a version, by the version's index: `begin-3` or `end-3`.
#[derive(Clone, Copy)]
pub struct WordName {
    pub side: Side,
    pub version: u64,
}

/// A word that a transaction has exchanged, and the numbers before and after it.
#[derive(Clone, Copy)]
pub struct Exchange {
    /// None if the line doesn't name the word.
    pub word: Option<WordName>,
    pub old: u64,
    pub new: u64,
    pub txn: TxnId,
}

/// What a line of a log says.
#[derive(Clone, Copy)]
pub enum Entry {
    Exchange(Exchange),
    /// This transaction has committed or aborted.
    Over(TxnId),
}

/// The entry of a line `OLD NEW TXN`, `WORD OLD NEW TXN` or `over TXN`; None of any other line.
pub fn entry_of(line: &str) -> Option<Entry>
    ensures on_line { IsEntryOn line.now result }
    ensures only { (found : Option SpecEntry) → IsEntryOn line.now found → found ≡ result }
    ensures written { (e : SpecEntry) (words : List (List ℕ)) → AreWordsOf e words → line.now ≡ spaced words → result ≡ Some e }
{
    entry_by_words(line)
}

/// The entry that the words of a line are, if they are one.
fn entry_by_words(line: &str) -> Option<Entry>
    ensures { IsEntryOn line.now result }
{
    let mut words = line.split_whitespace();
    let first = words.next()?;
    let second = words.next()?;
    let Some(third) = words.next() else {
        return over_entry(over(first, second));
    };
    let Some(fourth) = words.next() else {
        return exchange_entry(unnamed(first, second, third));
    };
    if words.next().is_some() {
        return None;
    }
    exchange_entry(named(first, second, third, fourth))
}

/// An exchange as an entry.
fn exchange_entry(found: Option<Exchange>) -> Option<Entry>
    ensures { result ≡ option_map ExchangeOf found }
{
    match found {
        Some(exchange) => Some(Entry::Exchange(exchange)),
        None => None,
    }
}

/// A transaction that is over, as an entry.
fn over_entry(found: Option<TxnId>) -> Option<Entry>
    ensures { result ≡ option_map Over found }
{
    match found {
        Some(txn) => Some(Entry::Over(txn)),
        None => None,
    }
}

/// The transaction of the words `over TXN`.
fn over(word: &str, txn: &str) -> Option<TxnId>
    ensures { (t : ℕ) → (result ≡ Some t) ↔ AreOverWords t (word.now ∷ txn.now ∷ []) }
{
    if word != "over" {
        return None;
    }
    let number = number(txn.as_bytes())?;
    Some(TxnId::new(number))
}

/// The exchange of the words `OLD NEW TXN`.
fn unnamed(old: &str, new: &str, txn: &str) -> Option<Exchange>
    ensures { (e : SpecExchange) → (result ≡ Some e) ↔ AreExchangeWords e (old.now ∷ new.now ∷ txn.now ∷ []) }
{
    exchange_from(None, old, new, txn)
}

/// The exchange of the words `WORD OLD NEW TXN`.
fn named(name: &str, old: &str, new: &str, txn: &str) -> Option<Exchange>
    ensures { (e : SpecExchange) → (result ≡ Some e) ↔ AreExchangeWords e (name.now ∷ old.now ∷ new.now ∷ txn.now ∷ []) }
{
    let word = word_name(name)?;
    exchange_from(Some(word), old, new, txn)
}

/// An exchange of this word, by its numbers and its transaction.
fn exchange_from(word: Option<WordName>, old: &str, new: &str, txn: &str) -> Option<Exchange>
    ensures { (e : SpecExchange) → (result ≡ Some e) ↔ ((e.word ≡ word) × AreNumbersOf e old.now new.now txn.now) }
{
    Some(Exchange {
        word,
        old: hex_number(old)?,
        new: hex_number(new)?,
        txn: TxnId::new(number(txn.as_bytes())?),
    })
}

/// The word that a text names.
fn word_name(text: &str) -> Option<WordName>
    ensures { (word : SpecName) → (result ≡ Some word) ↔ IsNameOf word text.now }
{
    if let Some(version) = text.strip_prefix("begin-") {
        return Some(WordName {
            side: Side::Begin,
            version: number(version.as_bytes())?,
        });
    }
    let version = text.strip_prefix("end-")?;
    Some(WordName {
        side: Side::End,
        version: number(version.as_bytes())?,
    })
}
