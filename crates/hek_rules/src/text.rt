//! Reading texts: lines, words and numbers.
ghost use Rattle.std.specs.Prelude.{◌≡◌, ◌<◌, ◌≤◌, [], ◌∷◌, length, MatchOption, IfSome};
ghost use Rattle.std.specs.List.{position_or_len, prefix_len};
ghost use Rattle.std.specs.Str.{bytes_eq};
ghost use Rattle.hek_rules.specs.Text.{lines_of, words_of, is_line_end, is_blank, ends_word, number_of};

// The length of the line at the front.
fn line_len(text: &[u8]) -> usize
    ensures { result ≡ position_or_len is_line_end text.now }
{
    for (i, byte) in text.iter().enumerate() {
        if *byte == b'\n' {
            return i;
        }
    }
    text.len()
}

/// The first line of a text without its LF, and what follows that LF, or None if no line is left. The last line needs
/// no LF.
pub fn next_line(text: &[u8]) -> Option<(&[u8], &[u8])>
    ensures line { MatchOption result (lines_of text.now ≡ []) (λ r. lines_of text.now ≡ r.0.now ∷ lines_of r.1.now) }
    ensures shorter { IfSome result (λ r. length r.1.now < length text.now) }
{
    if text.is_empty() {
        return None;
    }
    let len = line_len(text);
    if len < text.len() {
        Some((&text[..len], &text[len + 1..]))
    } else {
        Some((text, &text[text.len()..]))
    }
}

fn is_blank(byte: u8) -> bool
    ensures { result ≡ is_blank byte }
{
    byte == b' ' || byte == b'\t' || byte == b'\r'
}

fn ends_word(byte: u8) -> bool
    ensures { result ≡ ends_word byte }
{
    is_blank(byte) || byte == b'#'
}

// How many blanks are at the front.
fn blanks_len(line: &[u8]) -> usize
    ensures len { result ≡ prefix_len is_blank line.now }
    ensures within { result ≤ length line.now }
{
    for (i, byte) in line.iter().enumerate() {
        if !is_blank(*byte) {
            return i;
        }
    }
    line.len()
}

// The length of the word at the front.
fn word_len(line: &[u8]) -> usize
    ensures len { result ≡ position_or_len ends_word line.now }
    ensures within { result ≤ length line.now }
{
    for (i, byte) in line.iter().enumerate() {
        if ends_word(*byte) {
            return i;
        }
    }
    line.len()
}

/// The first word of a line and what follows the word, or None if no word is left. Space, tab and CR separate words,
/// and `#` begins a comment, which has no words.
pub fn next_word(line: &[u8]) -> Option<(&[u8], &[u8])>
    ensures word { MatchOption result (words_of line.now ≡ []) (λ r. words_of line.now ≡ r.0.now ∷ words_of r.1.now) }
    ensures shorter { IfSome result (λ r. length r.1.now < length line.now) }
{
    let start = blanks_len(line);
    let line = &line[start..];
    let len = word_len(line);
    if len == 0 {
        return None;
    }
    Some(line.split_at(len))
}

/// Whether the bytes are equal. Each call is inlined, so that a comparison with a literal compiles without a loop.
#[inline(always)]
pub fn same_bytes(bytes: &[u8], other: &[u8]) -> bool
    ensures { result ≡ bytes_eq bytes.now other.now }
{
    if bytes.len() != other.len() {
        return false;
    }
    for (i, byte) in other.iter().enumerate() {
        if bytes[i] != *byte {
            return false;
        }
    }
    true
}

/// The value of 1 to 20 decimal digits, or None from 2^64 on. Leading zeros are accepted, signs and blanks are not.
pub fn number(word: &[u8]) -> Option<u64>
    ensures { result ≡ number_of word.now }
{
    if word.is_empty() || word.len() > 20 {
        return None;
    }
    let mut value: u128 = 0;
    for &byte in word {
        if !byte.is_ascii_digit() {
            return None;
        }
        value = value * 10 + u128::from(byte - b'0');
    }
    u64::try_from(value).ok()
}
