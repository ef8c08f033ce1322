//! The fields of a schedule image, found by their offsets.
use crate::place::part;

/// What a field holds.
#[derive(Clone, Copy, PartialEq, Eq)]
pub(crate) enum Kind {
    Magic,
    Version,
    Buckets,
    RowCount,
    TxnCount,
    StepCount,
    Key,
    Value,
    Level,
    NameLength,
    Name,
    Opcode,
    Txn,
    First,
    /// The first operand of a scan.
    Bucket,
    Second,
    End,
}

/// A field: what it holds, of which row, transaction or step (from 1), where it begins and how many bytes it has.
#[derive(Clone, Copy)]
pub(crate) struct Field {
    pub(crate) kind: Kind,
    pub(crate) item: u64,
    pub(crate) at: usize,
    pub(crate) size: usize,
}

/// The fields of the header with their sizes.
const HEADER: &[(Kind, usize)] = &[
    (Kind::Magic, 4),
    (Kind::Version, 2),
    (Kind::Buckets, 4),
    (Kind::RowCount, 4),
    (Kind::TxnCount, 4),
    (Kind::StepCount, 4),
];

const ROW: &[(Kind, usize)] = &[(Kind::Key, 8), (Kind::Value, 8)];

const TXN: &[(Kind, usize)] = &[(Kind::Level, 1), (Kind::NameLength, 1)];

const STEP: &[(Kind, usize)] = &[
    (Kind::Opcode, 1),
    (Kind::Txn, 4),
    (Kind::First, 8),
    (Kind::Second, 8),
];

/// How many bytes the header, a row and a step have.
const HEADER_SIZE: usize = 22;

const ROW_SIZE: usize = 16;

const STEP_SIZE: usize = 21;

/// The number that the bytes write, the high byte first; of more than eight bytes the last count.
pub(crate) fn number_in(bytes: &[u8]) -> u64 {
    let mut value = 0u64;
    for byte in bytes {
        value = value.wrapping_mul(256).wrapping_add(u64::from(*byte));
    }
    value
}

impl Field {
    /// The bytes of the field, as far as an image has them.
    pub(crate) fn bytes<'t>(&self, image: &'t [u8]) -> &'t [u8] {
        part(image, self.at, self.at.saturating_add(self.size))
    }
}

/// The number in the header at an offset.
pub(crate) fn header_number(image: &[u8], at: usize) -> u64 {
    number_in(part(image, at, at.saturating_add(4)))
}

/// The field of these that has a byte; `front` is where the first begins.
fn among(fields: &[(Kind, usize)], item: u64, front: usize, byte: usize) -> Option<Field> {
    let mut at = front;
    for (kind, size) in fields {
        let end = at.saturating_add(*size);
        if byte < end {
            return Some(Field {
                kind: *kind,
                item,
                at,
                size: *size,
            });
        }
        at = end;
    }
    None
}

/// The field of an image that has the byte at an offset, or would have it in a longer image.
pub(crate) fn field_at(image: &[u8], byte: usize) -> Field {
    if let Some(field) = among(HEADER, 0, 0, byte) {
        return field;
    }
    let after_rows = after_rows(image);
    if byte < after_rows {
        return repeated(ROW, ROW_SIZE, HEADER_SIZE, byte);
    }
    after_rows_at(image, after_rows, byte)
}

/// A field of items that all have one size.
fn repeated(fields: &[(Kind, usize)], size: usize, front: usize, byte: usize) -> Field {
    let place = byte.saturating_sub(front) / size.max(1);
    let at = front.saturating_add(place.saturating_mul(size));
    among(fields, (place as u64).saturating_add(1), at, byte).unwrap_or(Field {
        kind: Kind::End,
        item: 0,
        at: byte,
        size: 1,
    })
}

/// A field of a transaction or of a step.
fn after_rows_at(image: &[u8], front: usize, byte: usize) -> Field {
    let mut at = front;
    for item in 0..header_number(image, 14) {
        if let Some(field) = among(TXN, item + 1, at, byte) {
            return field;
        }
        let name = at.saturating_add(2);
        at = after_name(image, at);
        if byte < at {
            return Field {
                kind: Kind::Name,
                item: item + 1,
                at: name,
                size: at.saturating_sub(name),
            };
        }
    }
    if byte < after_steps(image, at) {
        return repeated(STEP, STEP_SIZE, at, byte);
    }
    Field {
        kind: Kind::End,
        item: 0,
        at: byte,
        size: 1,
    }
}

/// Where a transaction ends that begins at an offset.
fn after_name(image: &[u8], at: usize) -> usize {
    let name = at.saturating_add(2);
    let size = part(image, at.saturating_add(1), name).first().copied();
    name.saturating_add(usize::from(size.unwrap_or(0)))
}

/// Where the steps end that begin at an offset.
fn after_steps(image: &[u8], at: usize) -> usize {
    let steps = header_number(image, 18) as usize;
    at.saturating_add(steps.saturating_mul(STEP_SIZE))
}

/// Where the rows end.
fn after_rows(image: &[u8]) -> usize {
    let rows = header_number(image, 10) as usize;
    HEADER_SIZE.saturating_add(rows.saturating_mul(ROW_SIZE))
}

/// Where the last step ends.
pub(crate) fn end_of_steps(image: &[u8]) -> usize {
    let mut at = after_rows(image);
    for _ in 0..header_number(image, 14) {
        at = after_name(image, at);
    }
    after_steps(image, at)
}

/// The row before this one (from 1) that has the same key, if there is one.
pub(crate) fn row_with_key(image: &[u8], key: &[u8], before: u64) -> Option<u64> {
    for item in 1..before {
        let at = HEADER_SIZE.saturating_add(
            (item as usize).saturating_sub(1).saturating_mul(ROW_SIZE),
        );
        if part(image, at, at.saturating_add(8)) == key {
            return Some(item);
        }
    }
    None
}

/// The transaction before this one (from 1) that has the same name, if there is one.
pub(crate) fn txn_with_name(image: &[u8], name: &[u8], before: u64) -> Option<u64> {
    let mut at = after_rows(image);
    for item in 1..before {
        let front = at.saturating_add(2);
        let end = after_name(image, at);
        if part(image, front, end) == name {
            return Some(item);
        }
        at = end;
    }
    None
}
