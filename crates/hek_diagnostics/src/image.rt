//! The fault of a schedule image: the field with its bytes, what is wrong and what is wanted.
use crate::choice::Choice;
use crate::image_field::{
    Field, Kind, end_of_steps, field_at, header_number, number_in, row_with_key, txn_with_name,
};
use crate::looks::other_form;
use crate::names::RESERVED;
use crate::place::part;
use crate::sentence::{Listed, Sentence};
use crate::words::{Word, is_one_of};
use hek_image::LoadFault;
use hek_rules::{EventKind, Level, next_line, next_word};
use std::fmt;
use std::fmt::{Display, Formatter};

/// A fault of an image. It prints as lines, each with its end: the file and the field, the bytes, and under them what is
/// wrong, what is wanted and what to do instead, as far as these are known.
#[derive(Clone, Copy)]
pub struct ImageDiagnostic<'t> {
    name: &'t str,
    field: Field,
    found: &'t [u8],
    problem: Problem<'t>,
}

/// What is wrong with a field, what is wanted in its place, and what to do instead.
#[derive(Clone, Copy)]
struct Problem<'t> {
    sentence: Sentence<'t>,
    wanted: Sentence<'t>,
    instead: &'static str,
}

impl<'t> Problem<'t> {
    fn new(form: &'static str, wanted: &'static str) -> Problem<'t> {
        Problem {
            sentence: Sentence::new(form, b""),
            wanted: Sentence::new(wanted, b""),
            instead: "",
        }
    }

    /// The numbers that the sentence has as `$` and `%`.
    fn numbers(mut self, number: u64, more: u64) -> Problem<'t> {
        self.sentence.number = number;
        self.sentence.more = more;
        self
    }

    /// The number that the sentence has as `*`.
    fn third(mut self, number: u64) -> Problem<'t> {
        self.sentence.third = number;
        self
    }

    /// The word that the sentence has as `@`.
    fn word(mut self, word: &'t [u8]) -> Problem<'t> {
        let mut sentence = self.sentence;
        sentence.word = word;
        self.sentence = sentence;
        self
    }

    /// The choice that what is wanted has as `^`, with the word of the sentence.
    fn choice(mut self, choice: Choice) -> Problem<'t> {
        let mut wanted = self.wanted;
        wanted.listed = Listed::OneOf(choice);
        wanted.word = self.sentence.word;
        self.wanted = wanted;
        self
    }

    /// The number that what is wanted has as `$`.
    fn up_to(mut self, number: u64) -> Problem<'t> {
        self.wanted.number = number;
        self
    }
}

/// The fault of an image, as `load_image` says; `name` is that of the file. None if it isn't one of the bytes.
pub fn explain_image<'t>(
    name: &'t str,
    image: &'t [u8],
    fault: LoadFault,
) -> Option<ImageDiagnostic<'t>> {
    let at = match fault {
        LoadFault::BadMagic => 0,
        LoadFault::BadVersion => 4,
        LoadFault::Short => image.len(),
        LoadFault::Trailing => end_of_steps(image),
        LoadFault::BadField(at) => usize::try_from(at).unwrap_or(0),
        LoadFault::Read | LoadFault::NoMemory => return None,
    };
    let field = with_bucket(field_at(image, at), image);
    let found = field.bytes(image);
    let problem = match fault {
        LoadFault::BadMagic => no_magic(image),
        LoadFault::BadVersion => no_version(found),
        LoadFault::Short => cut(field, image),
        LoadFault::Trailing => {
            Problem::new(
                "a byte follows the last step",
                "nothing after the last step",
            )
        }
        _ => bad_field(field, image, found),
    };
    Some(ImageDiagnostic {
        name,
        field,
        found,
        problem,
    })
}

/// A field, with the first operand of a scan as its bucket.
fn with_bucket(mut field: Field, image: &[u8]) -> Field {
    if field.kind == Kind::First && kind_of(field, image) == Some(EventKind::Scan) {
        field.kind = Kind::Bucket;
    }
    field
}

/// An image that doesn't begin as one.
fn no_magic<'t>(image: &'t [u8]) -> Problem<'t> {
    let front = part(image, 0, 64);
    if front.iter().all(|byte| is_text(*byte)) {
        return text_for_image(image);
    }
    Problem::new(
        "the first four bytes are not those of a schedule image",
        MAGIC,
    )
}

/// The bytes with which an image begins.
const MAGIC: &str = "48 4B 53 43, which is HKSC";

/// The words with which a schedule text begins, so that it is taken for one.
const FIRST_WORDS: &[&str] = &["buckets", "row", "txn"];

/// A text where an image is read: a schedule, of which `--image` says that it is an image, or another text.
fn text_for_image<'t>(text: &'t [u8]) -> Problem<'t> {
    let Some((first, line)) = first_line(text) else {
        return Problem::new("the file has no word, as a schedule has", MAGIC);
    };
    if first.is_one_of(FIRST_WORDS) {
        let form = "this looks like a schedule text, and `--image` wants an image";
        let mut problem = Problem::new(form, MAGIC);
        problem.instead = "leave out `--image`";
        return problem;
    }
    let wanted = "an image, or a text whose first word is `buckets`";
    match other_form(first, line) {
        Some(form) => Problem::new(form, wanted),
        None => {
            let form = "this looks like a text that begins with @, and no schedule does";
            let mut problem = Problem::new(form, wanted).word(first.text);
            problem.instead = "`--text` says what is wrong with the text";
            problem
        }
    }
}

/// The first word of a text, and its line.
fn first_line(text: &[u8]) -> Option<(Word<'_>, &[u8])> {
    let mut rest = text.strip_prefix(b"\xEF\xBB\xBF").unwrap_or(text);
    for _ in 0..u64::MAX {
        let (line, after) = next_line(rest)?;
        if let Some((word, _)) = next_word(line) {
            return Some((Word::new(word, 0), line));
        }
        rest = after;
    }
    None
}

/// Whether a text may have the byte.
fn is_text(byte: u8) -> bool {
    byte >= 0x20 || byte == b'\n' || byte == b'\r' || byte == b'\t'
}

fn no_version<'t>(found: &[u8]) -> Problem<'t> {
    let version = number_in(found);
    if version == 256 || version == 512 {
        return Problem::new(
            "the image has version `$`, which is % with its bytes swapped",
            "version 1 or 2, its high byte first",
        )
        .numbers(version, version / 256);
    }
    Problem::new(
        "the image has version `$`, and versions 1 and 2 are read",
        "version 1 or 2",
    )
    .numbers(version, 0)
}

/// An image that ends inside a field.
fn cut<'t>(field: Field, image: &[u8]) -> Problem<'t> {
    if image.is_empty() {
        return Problem::new("the image is empty", "48 4B 53 43, which is HKSC");
    }
    if field.kind == Kind::Magic {
        return Problem::new("the image ends inside its first four bytes", "4 bytes");
    }
    Problem::new(cut_form(field.kind), "$ bytes")
        .numbers(field.item, 0)
        .up_to(field.size as u64)
}

/// What is said of an image that ends inside a field.
fn cut_form(kind: Kind) -> &'static str {
    match kind {
        Kind::Magic => "the image ends inside its first four bytes",
        Kind::Version => "the image ends inside the version",
        Kind::Buckets => "the image ends inside the number of buckets",
        Kind::RowCount => "the image ends inside the number of rows",
        Kind::TxnCount => "the image ends inside the number of transactions",
        Kind::StepCount => "the image ends inside the number of steps",
        Kind::Key => "the image ends inside the key of row $",
        Kind::Value => "the image ends inside the value of row $",
        Kind::Level => "the image ends before the level of transaction $",
        Kind::NameLength => "the image ends before the length of the name of transaction $",
        Kind::Name => "the image ends inside the name of transaction $",
        Kind::Opcode => "the image ends before the opcode of step $",
        Kind::Txn => "the image ends inside the transaction of step $",
        Kind::Bucket => "the image ends inside the bucket of step $",
        Kind::First => "the image ends inside the first operand of step $",
        Kind::Second => "the image ends inside the second operand of step $",
        Kind::End => "the image ends too early",
    }
}

/// A field with a value that it may not have.
fn bad_field<'t>(field: Field, image: &'t [u8], found: &'t [u8]) -> Problem<'t> {
    let value = number_in(found);
    match field.kind {
        Kind::Buckets => few_or_many(
            value == 0,
            "the number of buckets is `$`, and a schedule has at least 1",
            "the number of buckets is `$`, and a schedule has at most 1024",
            "1 to 1024",
        )
        .numbers(value, 0),
        Kind::RowCount => Problem::new(
            "the number of rows is `$`, and a schedule has at most 65536",
            "0 to 65536",
        )
        .numbers(value, 0),
        Kind::TxnCount => Problem::new(
            "the number of transactions is `$`, and a schedule has at most 1024",
            "0 to 1024",
        )
        .numbers(value, 0),
        Kind::StepCount => Problem::new(
            "the number of steps is `$`, and a schedule has at most 1000000",
            "0 to 1000000",
        )
        .numbers(value, 0),
        Kind::Key => bad_key(field, image, found),
        Kind::Level => bad_level(field, image, value),
        Kind::NameLength => few_or_many(
            value == 0,
            "the name of transaction % is empty",
            "the name of transaction % has `$` characters, and a name has at most 32",
            "1 to 32",
        )
        .numbers(value, field.item),
        Kind::Name => bad_name(field, image, found),
        _ => bad_step(field, image, value),
    }
}

/// One of two sentences.
fn few_or_many<'t>(
    is_few: bool,
    few: &'static str,
    many: &'static str,
    wanted: &'static str,
) -> Problem<'t> {
    Problem::new(if is_few { few } else { many }, wanted)
}

fn bad_key<'t>(field: Field, image: &[u8], found: &[u8]) -> Problem<'t> {
    let other = row_with_key(image, found, field.item).unwrap_or(0);
    Problem::new(
        "the key `$` of row % is also that of row *",
        "a key that no earlier row has",
    )
    .numbers(number_in(found), field.item)
    .third(other)
}

fn bad_level<'t>(field: Field, image: &[u8], value: u64) -> Problem<'t> {
    let is_first = number_in(part(image, 4, 6)) == 1;
    let snapshot = Level::Snapshot.word();
    if is_first && value == 3 {
        return Problem::new(
            "transaction % is at level ~, which version 1 does not have",
            "^, and in version 2 also 3 ~",
        )
        .numbers(value, field.item)
        .word(snapshot.as_bytes())
        .choice(Choice::LevelBytes(2));
    }
    let count = if is_first { 2 } else { 3 };
    Problem::new(
        "transaction % is at level `$`, and no level has that byte",
        "^",
    )
    .numbers(value, field.item)
    .choice(Choice::LevelBytes(count))
}

fn bad_name<'t>(field: Field, image: &[u8], found: &'t [u8]) -> Problem<'t> {
    let problem = if let Some(other) = txn_with_name(image, found, field.item) {
        return Problem::new(
            "the name @ of transaction % is also that of transaction $",
            "a name that no earlier transaction has",
        )
        .numbers(other, field.item)
        .word(found);
    } else if is_one_of(found, RESERVED) {
        Problem::new(
            "transaction % has the name @, which lines begin with",
            "a name other than buckets, row, txn and detect",
        )
    } else if found.iter().any(|byte| byte.is_ascii_uppercase()) {
        Problem::new(
            "the name @ of transaction % has a capital letter in it",
            NAME,
        )
    } else {
        Problem::new("the name @ of transaction % is not a name", NAME)
    };
    problem.numbers(0, field.item).word(found)
}

/// What a name is.
const NAME: &str = "lower-case letters, digits and `_`, a letter first";

/// The opcode of the step that a field is of.
fn kind_of(field: Field, image: &[u8]) -> Option<EventKind> {
    let back = match field.kind {
        Kind::Txn => 1,
        Kind::First | Kind::Bucket => 5,
        _ => 13,
    };
    let at = field.at.saturating_sub(back);
    let code = part(image, at, at.saturating_add(1)).first().copied()?;
    EventKind::coded(code)
}

/// A field of a step.
fn bad_step<'t>(field: Field, image: &[u8], value: u64) -> Problem<'t> {
    if field.kind == Kind::Opcode {
        let form = "step % has the opcode `$`, and no event has that byte";
        return Problem::new(form, "1 to 14").numbers(value, field.item);
    }
    let Some(kind) = kind_of(field, image) else {
        return Problem::new("a field of step % has the value `$`", "").numbers(value, field.item);
    };
    if field.kind == Kind::Txn {
        return bad_txn(field, image, kind, value);
    }
    if field.kind == Kind::Bucket {
        return bad_bucket(field, image, value);
    }
    let form = if field.kind == Kind::First {
        "step % is a @, whose first operand is always 0"
    } else {
        "step % is a @, whose second operand is always 0"
    };
    Problem::new(form, "0")
        .numbers(value, field.item)
        .word(kind.word().as_bytes())
}

fn bad_txn<'t>(field: Field, image: &[u8], kind: EventKind, value: u64) -> Problem<'t> {
    let txns = header_number(image, 14);
    let problem = if kind.is_detect() {
        Problem::new("step % is `detect`, which has no transaction", "0")
    } else if txns == 1 {
        Problem::new(
            "step % is of transaction `$`, and only one is declared",
            "1, as one transaction is declared",
        )
    } else {
        Problem::new(
            "step % is of transaction `$`, and no such one is declared",
            "1 to $",
        )
        .up_to(txns)
    };
    problem.numbers(value, field.item)
}

fn bad_bucket<'t>(field: Field, image: &[u8], value: u64) -> Problem<'t> {
    let buckets = header_number(image, 6);
    let form = match buckets {
        1 => "step % scans bucket `$`, and the only bucket is 0",
        _ => "step % scans bucket `$`, and there are * buckets",
    };
    Problem::new(form, "0 to $")
        .numbers(value, field.item)
        .third(buckets)
        .up_to(buckets.saturating_sub(1))
}

/// The most bytes of a field that are shown.
const SHOWN: usize = 32;

impl ImageDiagnostic<'_> {
    /// Writes the name of the field.
    fn write_field<W: fmt::Write>(&self, f: &mut Formatter<W>) -> fmt::Result {
        f.write_str(field_name(self.field.kind))?;
        let item = self.field.item;
        match item {
            0 => Ok(()),
            _ => write!(f, "{item}"),
        }
    }

    /// Writes the bytes and the carets under them, as far as the image has the field.
    fn write_found<W: fmt::Write>(&self, f: &mut Formatter<W>) -> fmt::Result {
        let shown = part(self.found, 0, SHOWN);
        f.write_str("  |")?;
        for byte in shown {
            let byte = *byte;
            write!(f, " {byte:02X}")?;
        }
        f.write_str("\n  | ")?;
        let carets = shown.len().saturating_mul(3).saturating_sub(1);
        for _ in 0..carets.max(1) {
            f.write_char('^')?;
        }
        Ok(())
    }
}

/// The name of a field, up to the number of its row, transaction or step.
fn field_name(kind: Kind) -> &'static str {
    match kind {
        Kind::Magic => "magic",
        Kind::Version => "version",
        Kind::Buckets => "number of buckets",
        Kind::RowCount => "number of rows",
        Kind::TxnCount => "number of transactions",
        Kind::StepCount => "number of steps",
        Kind::Key => "key of row ",
        Kind::Value => "value of row ",
        Kind::Level => "level of transaction ",
        Kind::NameLength => "length of the name of transaction ",
        Kind::Name => "name of transaction ",
        Kind::Opcode => "opcode of step ",
        Kind::Txn => "transaction of step ",
        Kind::First => "first operand of step ",
        Kind::Bucket => "bucket of step ",
        Kind::Second => "second operand of step ",
        Kind::End => "end",
    }
}

impl Display for ImageDiagnostic<'_> {
    fn fmt<W: fmt::Write>(&self, f: &mut Formatter<W>) -> fmt::Result {
        let name = self.name;
        write!(f, "  {name}: ")?;
        self.write_field(f)?;
        f.write_str("\n")?;
        self.write_found(f)?;
        let sentence = self.problem.sentence;
        let wanted = self.problem.wanted;
        writeln!(f, " {sentence}")?;
        if !wanted.is_empty() {
            writeln!(f, "  | wanted: {wanted}")?;
        }
        let instead = self.problem.instead;
        match instead {
            "" => Ok(()),
            _ => writeln!(f, "  | instead: {instead}"),
        }
    }
}
