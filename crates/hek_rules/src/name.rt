//! Names of transactions.
ghost use Rattle.std.specs.Prelude.{◌≡◌, MatchOption, IsTrue, false};
ghost use Rattle.std.specs.List.{list_all};
ghost use Rattle.hek_rules.specs.Name.{is_letter, is_name_byte, is_reserved, is_name};

use crate::text::same_bytes;
use std::str;

fn is_letter(byte: u8) -> bool
    ensures { result ≡ is_letter byte }
{
    byte >= b'a' && byte <= b'z'
}

fn is_name_byte(byte: u8) -> bool
    ensures { result ≡ is_name_byte byte }
{
    is_letter(byte) || (byte >= b'0' && byte <= b'9') || byte == b'_'
}

fn is_reserved(word: &[u8]) -> bool
    ensures { result ≡ is_reserved word.now }
{
    same_bytes(word, b"buckets")
        || same_bytes(word, b"row")
        || same_bytes(word, b"txn")
        || same_bytes(word, b"detect")
}

fn all_name_bytes(word: &[u8]) -> bool
    ensures { result ≡ list_all is_name_byte word.now }
{
    for byte in word {
        if !is_name_byte(*byte) {
            return false;
        }
    }
    true
}

/// Whether a word is a name: 1 to 32 lower-case letters, digits and `_`, a letter first, and none of the words
/// `buckets`, `row`, `txn` and `detect`.
pub fn name_ok(word: &[u8]) -> bool
    ensures { result ≡ is_name word.now }
{
    let [first, ..] = word else { return false };
    if !is_letter(*first) || word.len() > 32 || is_reserved(word) {
        return false;
    }
    all_name_bytes(word)
}

/// The word as a text, or None if it is not a name.
pub fn name_text(word: &[u8]) -> Option<&str>
    ensures { MatchOption result (is_name word.now ≡ false) (λ name. (name.now ≡ word.now) × IsTrue (is_name word.now)) }
{
    if !name_ok(word) {
        return None;
    }
    match str::from_utf8(word) {
        Ok(name) => Some(name),
        Err(_) => None,
    }
}
