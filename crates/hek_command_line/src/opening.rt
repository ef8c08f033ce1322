//! The front of a file, up to its first word, which says whether it is a schedule text.
use hek_rules::NoMemory;
use std::alloc::Global;
use std::io::{ErrorKind, Read};

/// The byte order mark, with which an editor may begin a text.
pub const BYTE_ORDER_MARK: &[u8] = b"\xEF\xBB\xBF";

/// The bytes of a text, without a byte order mark before them.
pub fn without_mark(bytes: &[u8]) -> &[u8] {
    match bytes.strip_prefix(BYTE_ORDER_MARK) {
        Some(text) => text,
        None => bytes,
    }
}

/// The words that begin the lines before the steps of a schedule text.
const FIRST_WORDS: [&str; 3] = ["buckets", "row", "txn"];

/// How many bytes are read at a time.
const PIECE: usize = 4_096;

/// The front of a file as far as it was read, and whether its first word is one of a schedule text.
#[derive(Drop)]
pub struct Opening {
    pub front: Vec<u8>,
    pub is_text: bool,
}

/// What is known of the first word: the place of its first byte, or of the next byte to look at.
#[derive(Clone, Copy)]
struct Looked {
    at: usize,
    is_comment: bool,
}

/// Reads a file until its first word is known. A read that fails ends the front; the next one fails again.
pub fn read_opening<R: Read>(alloc: Global, file: &mut R) -> Result<Opening, NoMemory> {
    let mut front = Vec::new(alloc);
    let mut looked = Looked {
        at: 0,
        is_comment: false,
    };
    for _ in 0..u64::MAX {
        let is_whole = !read_piece(file, &mut front)?;
        if let Some(is_text) = looked.judge(front.as_slice(), is_whole) {
            return Ok(Opening { front, is_text });
        }
    }
    Ok(Opening {
        front,
        is_text: false,
    })
}

/// Appends the next bytes of a file; answers whether there were some. Where a read fails there are none.
fn read_piece<R: Read>(file: &mut R, front: &mut Vec<u8>) -> Result<bool, NoMemory> {
    let mut piece = [0; PIECE];
    let count = match file.read(&mut piece) {
        Ok(count) => count.min(PIECE),
        Err(error) => match error.kind() {
            ErrorKind::OutOfMemory => return Err(NoMemory),
            ErrorKind::Interrupted => return Ok(true),
            _ => 0,
        },
    };
    front.extend_from_slice(piece.as_slice().get(..count).unwrap_or(&[]))?;
    Ok(count > 0)
}

impl Looked {
    /// Whether a front begins with a word of a schedule text, if that is known. Nothing follows a front that is whole.
    fn judge(&mut self, front: &[u8], is_whole: bool) -> Option<bool> {
        if self.at == 0 && !is_whole && is_front_of(front, BYTE_ORDER_MARK) {
            return None;
        }
        self.skip(front);
        let rest = front.get(self.at..).unwrap_or(&[]);
        if rest.is_empty() {
            return if is_whole { Some(false) } else { None };
        }
        for word in FIRST_WORDS {
            let word = word.as_bytes();
            if let Some(after) = rest.strip_prefix(word) {
                return match after.first() {
                    Some(byte) => Some(is_end(*byte)),
                    None if is_whole => Some(true),
                    None => None,
                };
            }
            if !is_whole && is_front_of(rest, word) {
                return None;
            }
        }
        Some(false)
    }

    /// Goes over a byte order mark, blanks and comments.
    fn skip(&mut self, front: &[u8]) {
        if self.at == 0 && front.starts_with(BYTE_ORDER_MARK) {
            self.at = BYTE_ORDER_MARK.len();
        }
        for place in self.at..front.len() {
            let byte = front[place];
            if byte == b'\n' {
                self.is_comment = false;
            } else if byte == b'#' {
                self.is_comment = true;
            } else if !self.is_comment && !is_blank(byte) {
                self.at = place;
                return;
            }
        }
        self.at = front.len();
    }
}

/// Whether bytes are the front of a word that has more.
fn is_front_of(bytes: &[u8], word: &[u8]) -> bool {
    bytes.len() < word.len() && word.starts_with(bytes)
}

/// Whether a byte parts words.
fn is_blank(byte: u8) -> bool {
    matches!(byte, b' ' | b'\t' | b'\r' | b'\n')
}

/// Whether a word ends before a byte.
fn is_end(byte: u8) -> bool {
    is_blank(byte) || byte == b'#'
}
