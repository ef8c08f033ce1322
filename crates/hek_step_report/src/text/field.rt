//! Fields as a line of the state has them: a number, a flag, or the members of a list, each after a space, or ` none`.
use hek_report::{Hole, Text};
use hek_rules::{Time, TxnId, VersionId, WriteEntry};

/// A field of a state line.
pub(crate) trait Field {
    fn put_value(&self, text: &mut Text<'_>);
}

fn put_number(number: u64, text: &mut Text<'_>) {
    text.form(" @", &[Hole::Number(number)]);
}

impl Field for u64 {
    fn put_value(&self, text: &mut Text<'_>) {
        put_number(*self, text);
    }
}

/// A time, or `none` for 0: drawn times begin at 1.
impl Field for Time {
    fn put_value(&self, text: &mut Text<'_>) {
        match self.number() {
            0 => text.put(" none"),
            ticks => put_number(ticks, text),
        }
    }
}

/// A flag.
impl Field for bool {
    fn put_value(&self, text: &mut Text<'_>) {
        text.put(if *self { " set" } else { " clear" });
    }
}

fn put_none(is_empty: bool, text: &mut Text<'_>) {
    if is_empty {
        text.put(" none");
    }
}

impl Field for &[VersionId] {
    fn put_value(&self, text: &mut Text<'_>) {
        put_none(self.is_empty(), text);
        for v in *self {
            put_number(v.index(), text);
        }
    }
}

impl Field for &[TxnId] {
    fn put_value(&self, text: &mut Text<'_>) {
        put_none(self.is_empty(), text);
        for t in *self {
            put_number(t.number(), text);
        }
    }
}

impl Field for &[u64] {
    fn put_value(&self, text: &mut Text<'_>) {
        put_none(self.is_empty(), text);
        for number in *self {
            put_number(*number, text);
        }
    }
}

impl Field for &[WriteEntry] {
    fn put_value(&self, text: &mut Text<'_>) {
        put_none(self.is_empty(), text);
        for entry in *self {
            match entry {
                WriteEntry::BeginOf(v) => text.form(" begin-@", &[Hole::Number(v.index())]),
                WriteEntry::EndOf(v) => text.form(" end-@", &[Hole::Number(v.index())]),
            }
        }
    }
}
