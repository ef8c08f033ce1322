//! The operations of a transaction.
ghost use Rattle.std.specs.Prelude.{◌≡◌, ◌<◌, ◌≤◌, ◌^◌, ℕ, List, [], ◌∷◌, ◌++◌, All, Some, None, Ok, Option, IsOkAnd, length, map, codes, false, ⊤};
ghost use Rattle.std.specs.Prelude as prelude;
ghost use Rattle.json.specs.Json.{Json, boolean, string};
ghost use Rattle.json.specs.Find.{get};
ghost use Rattle.json.specs.Value.{value_view};
ghost use Rattle.hek_history_log.specs.Contents.{content};
ghost use Rattle.hek_history.specs.declared.history.Operation.{Operation as SpecOperation};
ghost use Rattle.hek_history.specs.declared.history.Operation.TheVariants.{Read, Put, Insert, Update, Delete, Scan};
ghost use Rattle.hek_history.specs.declared.history.Scope.{Scope as SpecScope};
ghost use Rattle.std.specs.Global.{Vec};
ghost use Rattle.hek_history.specs.declared.history.Scope.TheVariants.{Range, Bucket};
ghost use Rattle.hek_history_log.specs.Kinds.{kind_of, IsPlain, answers, Adds};
ghost use Rattle.hek_history_log.specs.Gives.{Gives};
ghost use Rattle.hek_history_log.specs.declared.shown.Label.TheVariants.{Number};
ghost use Rattle.hek_history_log.specs.Kept.{KeepsLabels};
ghost use Rattle.hek_history_log.specs.LogText.{number_json, number_or_null, pairs_json, parts_of, operation_json, array_json};
ghost use Rattle.hek_history_log.specs.Readable.{IsOwn, IsOwnFound, IsReadable, ArePairs};

use crate::fault::{LogFault, Wanted};
use crate::log_line::{LogLine, Misfit};
use crate::logged::Version;
use crate::numbering::Labels;
use crate::shown::Label;
use crate::spot::Spot;
use crate::symbols::{Symbols, items_in, items_of, number_in};
use hek_history::{Operation, Scope};
use json::Value;
use std::alloc::Global;

/// What an operation does, by its first word.
#[derive(Clone, Copy, PartialEq, Eq)]
enum Kind {
    Read,
    Write,
    Insert,
    Update,
    Delete,
    Scan,
    Range,
}

/// The first words of operations.
pub const OPERATIONS: [&str; 7] = [
    "read", "write", "insert", "update", "delete", "scan", "range",
];

/// Whether the last operation of a transaction is a write without an answer.
pub(crate) fn lacks_answer(object: &Value<'_>) -> bool
    ensures { (ops : List SpecOperation)
        → get (codes "ops") (value_view object.now) ≡ Some (array_json (map operation_json ops))
        → result ≡ false }
{
    let Some(items) = items_in(object, "ops") else {
        return false;
    };
    match items.last() {
        Some(item) => is_unanswered(item),
        None => false,
    }
}

/// Whether an operation is a write without an answer.
fn is_unanswered(item: &Value<'_>) -> bool
    ensures { (op : SpecOperation) → value_view item.now ≡ operation_json op → result ≡ false }
{
    let Ok((kind, parts)) = parts_in(item) else {
        return false;
    };
    if has_answer(kind) {
        return ends_in_null(parts);
    }
    false
}

/// Whether it is a write that answers whether it was done.
fn has_answer(kind: Kind) -> bool
    ensures { (op : SpecOperation) → kind ≡ kind_of op → result ≡ answers op }
{
    matches!(kind, Kind::Insert | Kind::Update | Kind::Delete)
}

fn ends_in_null(parts: &[Value<'_>]) -> bool
    ensures { (js : List Json) (done : prelude.Bool)
        → map value_view parts.now ≡ js ++ boolean done ∷ [] → result ≡ false }
{
    match parts.last() {
        Some(part) => part.is_null(),
        None => false,
    }
}

/// The operations of a transaction, in order. With `lacking` the last one may have no answer: then a scan is left out, and
/// a write has this answer.
pub(crate) fn read_operations(
    alloc: Global,
    line: LogLine<'_>,
    object: &Value<'_>,
    lacking: Option<bool>,
    symbols: &mut Symbols,
) -> Result<Vec<Operation>, LogFault>
    ensures { (buckets : ℕ) (ops : List SpecOperation) → All (IsReadable buckets) ops
        → symbols.old.buckets ≡ Some buckets
        → get (codes "ops") (value_view object.now) ≡ Some (array_json (map operation_json ops))
        → Gives result LogFault.NoMemory (λ v. KeepsLabels symbols.old symbols.new
        × (map content v.items ≡ map content ops)) }
{
    let Some(items) = items_in(object, "ops") else {
        return Err(line.wants(Spot::Field("ops"), Wanted::Operations));
    };
    let mut operations = Vec::with_capacity(alloc, items.len())?;
    add_operations(alloc, line, items, lacking, symbols, &mut operations)?;
    Ok(operations)
}

fn add_operations(
    alloc: Global,
    line: LogLine<'_>,
    items: &[Value<'_>],
    lacking: Option<bool>,
    symbols: &mut Symbols,
    operations: &mut Vec<Operation>,
) -> Result<(), LogFault>
    ensures { (buckets : ℕ) (ops : List SpecOperation) → All (IsReadable buckets) ops
        → symbols.old.buckets ≡ Some buckets → map value_view items.now ≡ map operation_json ops
        → Gives result LogFault.NoMemory (λ _. KeepsLabels symbols.old symbols.new
        × (map content operations.new.items
        ≡ map content operations.old.items ++ map content ops)) }
{
    for place in 0..items.len() {
        let is_last = place + 1 == items.len();
        let lacking = if is_last { lacking } else { None };
        let item = &items[place];
        match add_operation(alloc, line.number, item, lacking, symbols, operations) {
            Ok(()) => {}
            Err(misfit) => return Err(line.fault(Spot::Item("ops", place), misfit)),
        }
    }
    Ok(())
}

/// Adds an operation; a scan without an answer says nothing.
fn add_operation(
    alloc: Global,
    line: u64,
    item: &Value<'_>,
    lacking: Option<bool>,
    symbols: &mut Symbols,
    operations: &mut Vec<Operation>,
) -> Result<(), Misfit>
    ensures { (buckets : ℕ) (op : SpecOperation) → IsReadable buckets op
        → symbols.old.buckets ≡ Some buckets → value_view item.now ≡ operation_json op
        → Gives result Misfit.NoMemory (λ _. KeepsLabels symbols.old symbols.new
        × Adds operations.old.items operations.new.items op) }
{
    let (kind, parts) = parts_in(item)?;
    if let Kind::Scan | Kind::Range = kind {
        let may_lack = lacking.is_some();
        return add_scan(alloc, line, kind, parts, may_lack, symbols, operations);
    }
    let operation = operation_of(alloc, kind, parts, lacking, symbols)?;
    add(operation, operations)
}

/// What an operation does, and its parts.
fn parts_in<'v, 'a>(item: &'v Value<'a>) -> Result<(Kind, &'v [Value<'a>]), Misfit>
    ensures { (op : SpecOperation) → value_view item.now ≡ operation_json op
        → IsOkAnd result (λ r. (r.0 ≡ kind_of op) × (map value_view r.1.now ≡ parts_of op)) }
{
    let Some(parts) = items_of(item) else {
        return Err(Misfit::Wanted(Wanted::Operation));
    };
    let Some(kind) = kind_of(parts) else {
        return Err(Misfit::Wanted(Wanted::Operation));
    };
    Ok((kind, without_facts(kind, parts)))
}

/// How many parts an operation of a kind has without what is known beside it.
fn plain_count(kind: Kind) -> usize
    ensures { (op : SpecOperation) → kind ≡ kind_of op → result ≡ length (parts_of op) }
{
    match kind {
        Kind::Read | Kind::Write | Kind::Delete | Kind::Scan => 3,
        Kind::Insert | Kind::Update | Kind::Range => 4,
    }
}

/// The parts of an operation without the object that a write may have at its end.
fn without_facts<'v, 'a>(kind: Kind, parts: &'v [Value<'a>]) -> &'v [Value<'a>]
    ensures { (op : SpecOperation) → kind ≡ kind_of op → map value_view parts.now ≡ parts_of op
        → map value_view result.now ≡ parts_of op }
{
    let is_write = has_answer(kind) || kind == Kind::Write;
    if parts.len() == plain_count(kind) || !is_write {
        return parts;
    }
    match parts {
        [others @ .., Value::Object(_)] => others,
        _ => parts,
    }
}

/// The version number of an operation of a list, if it has one.
fn version_in(item: &Value<'_>) -> Result<Option<u64>, Misfit>
    ensures { (op : SpecOperation) → value_view item.now ≡ operation_json op → result ≡ Ok None }
{
    let (kind, parts) = parts_in(item)?;
    let Some(all) = items_of(item) else {
        return Ok(None);
    };
    if all.len() == plain_count(kind) {
        return Ok(None);
    }
    version_at_end(kind, parts, all)
}

/// The version number at the end of an operation that has more parts than others of its kind, if it is a write.
fn version_at_end(
    kind: Kind,
    parts: &[Value<'_>],
    all: &[Value<'_>],
) -> Result<Option<u64>, Misfit> {
    let is_write = has_answer(kind) || kind == Kind::Write;
    match all.last() {
        Some(Value::Object(members)) if is_write && !parts.is_empty() => {
            match members.as_slice() {
                [(name, value)] if *name == "version" => match number_in(value) {
                    Some(number) => Ok(Some(number)),
                    None => Err(Misfit::Wanted(Wanted::Version)),
                },
                _ => Err(Misfit::Wanted(Wanted::Version)),
            }
        }
        _ => Ok(None),
    }
}

/// Adds the version numbers of the writes of a transaction, each with the place of its operation.
pub(crate) fn read_versions(
    line: LogLine<'_>,
    object: &Value<'_>,
    transaction: usize,
    versions: &mut Vec<Version>,
) -> Result<(), LogFault>
    ensures { (ops : List SpecOperation)
        → get (codes "ops") (value_view object.now) ≡ Some (array_json (map operation_json ops))
        → Gives result LogFault.NoMemory (λ _. ⊤) }
{
    let Some(items) = items_in(object, "ops") else {
        return Ok(());
    };
    for place in 0..items.len() {
        match version_in(&items[place]) {
            Ok(Some(number)) => versions.push(Version {
                transaction,
                key: place as u64,
                number,
            })?,
            Ok(None) => {}
            Err(misfit) => return Err(line.fault(Spot::Item("ops", place), misfit)),
        }
    }
    Ok(())
}

fn add(operation: Operation, operations: &mut Vec<Operation>) -> Result<(), Misfit>
    ensures { Gives result Misfit.NoMemory
        (λ _. Adds operations.old.items operations.new.items operation) }
{
    operations.push(operation)?;
    Ok(())
}

/// An operation that is no scan.
fn operation_of(
    alloc: Global,
    kind: Kind,
    parts: &[Value<'_>],
    lacking: Option<bool>,
    symbols: &mut Symbols,
) -> Result<Operation, Misfit>
    ensures { (buckets : ℕ) (op : SpecOperation) → IsPlain op → IsReadable buckets op
        → kind ≡ kind_of op → map value_view parts.now ≡ parts_of op
        → (result ≡ Ok op) × KeepsLabels symbols.old symbols.new }
{
    match kind {
        Kind::Read => read_of(alloc, parts, symbols),
        Kind::Write => write_of(alloc, parts, symbols),
        Kind::Insert => insert_of(alloc, parts, lacking, symbols),
        Kind::Update => update_of(alloc, parts, lacking, symbols),
        Kind::Delete => delete_of(alloc, parts, lacking, symbols),
        Kind::Scan | Kind::Range => Err(Misfit::Wanted(Wanted::Operation)),
    }
}

fn kind_of(parts: &[Value<'_>]) -> Option<Kind>
    ensures { (op : SpecOperation) → map value_view parts.now ≡ parts_of op
        → result ≡ Some (kind_of op) }
{
    kind_named(parts.first()?.as_str()?)
}

/// What an operation does whose first word this is.
fn kind_named(word: &str) -> Option<Kind>
    ensures read { word.now ≡ codes "read" → result ≡ Some Kind.Read }
    ensures write { word.now ≡ codes "write" → result ≡ Some Kind.Write }
    ensures insert { word.now ≡ codes "insert" → result ≡ Some Kind.Insert }
    ensures update { word.now ≡ codes "update" → result ≡ Some Kind.Update }
    ensures delete { word.now ≡ codes "delete" → result ≡ Some Kind.Delete }
    ensures scan { word.now ≡ codes "scan" → result ≡ Some Kind.Scan }
    ensures range { word.now ≡ codes "range" → result ≡ Some Kind.Range }
{
    match word {
        "read" => Some(Kind::Read),
        "write" => Some(Kind::Write),
        "insert" => Some(Kind::Insert),
        "update" => Some(Kind::Update),
        "delete" => Some(Kind::Delete),
        "scan" => Some(Kind::Scan),
        "range" => Some(Kind::Range),
        _ => None,
    }
}

fn read_of(alloc: Global, parts: &[Value<'_>], symbols: &mut Symbols) -> Result<Operation, Misfit>
    ensures { (word : Json) (key : ℕ) (found : Option ℕ) → IsOwn key → IsOwnFound found
        → map value_view parts.now ≡ word ∷ number_json key ∷ number_or_null found ∷ []
        → (result ≡ Ok (Read key found)) × KeepsLabels symbols.old symbols.new }
{
    let [_, key, value] = parts else {
        return Err(Misfit::Wanted(Wanted::Read));
    };
    let key = symbols.key(alloc, key, Wanted::Read)?;
    let found = symbols.found(alloc, value, Wanted::Read)?;
    Ok(Operation::Read(key, found))
}

fn write_of(alloc: Global, parts: &[Value<'_>], symbols: &mut Symbols) -> Result<Operation, Misfit>
    ensures { (word : Json) (key value : ℕ) → IsOwn key → IsOwn value
        → map value_view parts.now ≡ word ∷ number_json key ∷ number_json value ∷ []
        → (result ≡ Ok (Put key value)) × KeepsLabels symbols.old symbols.new }
{
    let [_, key, value] = parts else {
        return Err(Misfit::Wanted(Wanted::Write));
    };
    let key = symbols.key(alloc, key, Wanted::Write)?;
    let value = symbols.value(alloc, value, Wanted::Write)?;
    Ok(Operation::Put(key, value))
}

fn insert_of(
    alloc: Global,
    parts: &[Value<'_>],
    lacking: Option<bool>,
    symbols: &mut Symbols,
) -> Result<Operation, Misfit>
    ensures { (word : Json) (key value : ℕ) (done : prelude.Bool) → IsOwn key → IsOwn value
        → map value_view parts.now ≡ word ∷ number_json key ∷ number_json value ∷ boolean done ∷ []
        → (result ≡ Ok (Insert key value done)) × KeepsLabels symbols.old symbols.new }
{
    let [_, key, value, done] = parts else {
        return Err(Misfit::Wanted(Wanted::Insert));
    };
    let key = symbols.key(alloc, key, Wanted::Insert)?;
    let value = symbols.value(alloc, value, Wanted::Insert)?;
    let done = answer_of(done, lacking, Wanted::Insert)?;
    Ok(Operation::Insert(key, value, done))
}

fn update_of(
    alloc: Global,
    parts: &[Value<'_>],
    lacking: Option<bool>,
    symbols: &mut Symbols,
) -> Result<Operation, Misfit>
    ensures { (word : Json) (key value : ℕ) (done : prelude.Bool) → IsOwn key → IsOwn value
        → map value_view parts.now ≡ word ∷ number_json key ∷ number_json value ∷ boolean done ∷ []
        → (result ≡ Ok (Update key value done)) × KeepsLabels symbols.old symbols.new }
{
    let [_, key, value, done] = parts else {
        return Err(Misfit::Wanted(Wanted::Update));
    };
    let key = symbols.key(alloc, key, Wanted::Update)?;
    let value = symbols.value(alloc, value, Wanted::Update)?;
    let done = answer_of(done, lacking, Wanted::Update)?;
    Ok(Operation::Update(key, value, done))
}

fn delete_of(
    alloc: Global,
    parts: &[Value<'_>],
    lacking: Option<bool>,
    symbols: &mut Symbols,
) -> Result<Operation, Misfit>
    ensures { (word : Json) (key : ℕ) (done : prelude.Bool) → IsOwn key
        → map value_view parts.now ≡ word ∷ number_json key ∷ boolean done ∷ []
        → (result ≡ Ok (Delete key done)) × KeepsLabels symbols.old symbols.new }
{
    let [_, key, done] = parts else {
        return Err(Misfit::Wanted(Wanted::Delete));
    };
    let key = symbols.key(alloc, key, Wanted::Delete)?;
    let done = answer_of(done, lacking, Wanted::Delete)?;
    Ok(Operation::Delete(key, done))
}

/// The answer of a write: true or false, or for null the one of `lacking`.
fn answer_of(value: &Value<'_>, lacking: Option<bool>, wanted: Wanted) -> Result<bool, Misfit>
    ensures { (done : prelude.Bool) → value_view value.now ≡ boolean done → result ≡ Ok done }
{
    let answer = if value.is_null() {
        lacking
    } else {
        value.as_bool()
    };
    match answer {
        Some(done) => Ok(done),
        None => Err(Misfit::Wanted(wanted)),
    }
}

/// Adds a scan, if it has an answer.
fn add_scan(
    alloc: Global,
    line: u64,
    kind: Kind,
    parts: &[Value<'_>],
    may_lack: bool,
    symbols: &mut Symbols,
    operations: &mut Vec<Operation>,
) -> Result<(), Misfit>
    ensures { (buckets : ℕ) (scope : SpecScope) (pairs : Vec (ℕ × ℕ))
        → IsReadable buckets (Scan scope pairs) → symbols.old.buckets ≡ Some buckets
        → kind ≡ kind_of (Scan scope pairs)
        → map value_view parts.now ≡ parts_of (Scan scope pairs)
        → Gives result Misfit.NoMemory (λ _. KeepsLabels symbols.old symbols.new
        × Adds operations.old.items operations.new.items (Scan scope pairs)) }
{
    let (scope, answer) = scope_in(alloc, line, kind, parts, symbols)?;
    if may_lack && answer.is_null() {
        return Ok(());
    }
    let pairs = symbols.pairs(alloc, answer, scan_wanted(kind))?;
    add(Operation::Scan(scope, pairs), operations)
}

/// What a scan has to be.
fn scan_wanted(kind: Kind) -> Wanted {
    match kind {
        Kind::Scan => Wanted::Scan,
        _ => Wanted::Range,
    }
}

/// The scope of a scan, and its answer.
fn scope_in<'v, 'a>(
    alloc: Global,
    line: u64,
    kind: Kind,
    parts: &'v [Value<'a>],
    symbols: &mut Symbols,
) -> Result<(Scope, &'v Value<'a>), Misfit>
    ensures { (buckets : ℕ) (scope : SpecScope) (pairs : Vec (ℕ × ℕ))
        → IsReadable buckets (Scan scope pairs) → symbols.old.buckets ≡ Some buckets
        → kind ≡ kind_of (Scan scope pairs)
        → map value_view parts.now ≡ parts_of (Scan scope pairs)
        → IsOkAnd result (λ r. (r.0 ≡ scope) × (value_view r.1.now ≡ pairs_json pairs.items))
        × KeepsLabels symbols.old symbols.new }
{
    match (kind, parts) {
        (Kind::Scan, [_, bucket, answer]) => Ok((bucket_of(line, bucket, symbols)?, answer)),
        (Kind::Range, [_, low, high, answer]) => {
            Ok((range_of(alloc, low, high, symbols)?, answer))
        }
        _ => Err(Misfit::Wanted(scan_wanted(kind))),
    }
}

/// The keys of a bucket.
fn bucket_of(line: u64, bucket: &Value<'_>, symbols: &mut Symbols) -> Result<Scope, Misfit>
    ensures { (b n : ℕ) → b < n → n < 2 ^ 64 → symbols.old.buckets ≡ Some n
        → value_view bucket.now ≡ number_json b
        → (result ≡ Ok (Bucket n b)) × KeepsLabels symbols.old symbols.new }
{
    let bucket = number_in(bucket).ok_or(Wanted::Scan)?;
    let buckets = symbols.buckets.ok_or(Wanted::BucketCount)?;
    if bucket >= buckets {
        return Err(Misfit::Wanted(Wanted::Bucket));
    }
    symbols.bucket_line = symbols.bucket_line.or(Some(line));
    Ok(Scope::Bucket(buckets, bucket))
}

/// The keys from one on and below another, both numbers or both texts.
fn range_of(
    alloc: Global,
    low: &Value<'_>,
    high: &Value<'_>,
    symbols: &mut Symbols,
) -> Result<Scope, Misfit>
    ensures { (l h : ℕ) → l ≤ h → IsOwn h → value_view low.now ≡ number_json l
        → value_view high.now ≡ number_json h
        → (result ≡ Ok (Range l h)) × KeepsLabels symbols.old symbols.new }
{
    let low = symbols.key(alloc, low, Wanted::Range)?;
    let high = symbols.key(alloc, high, Wanted::Range)?;
    if Labels::is_text(low) != Labels::is_text(high) {
        return Err(Misfit::Wanted(Wanted::Ends));
    }
    if is_below(symbols.keys.label(high), symbols.keys.label(low)) {
        return Err(Misfit::Wanted(Wanted::EndsInOrder));
    }
    Ok(Scope::Range(low, high))
}

/// Whether a key is below another of its kind: numbers by their size, texts by their bytes.
fn is_below(key: Label<'_>, other: Label<'_>) -> bool
    ensures { (k n : ℕ) → key.entry ≡ Number k → other.entry ≡ Number n → n ≤ k
        → result ≡ false }
{
    match (key, other) {
        (Label::Number(key), Label::Number(other)) => key < other,
        (Label::Text(key), Label::Text(other)) => key < other,
        _ => false,
    }
}
