//! Reading a log.
ghost use Rattle.std.specs.Prelude.{◌≡◌, ◌≢◌, ◌<◌, ◌^◌, ◌++◌, ◌∷◌, [], ℕ, suc, length, List, Some, None, Ok, Err, IfErr, MatchResult, map, codes, true, false, nat_eq};
ghost use Rattle.std.specs.Str.{IsUtf8};
ghost use Rattle.indexmap.specs.IndexSet.{contains};
ghost use Rattle.json.specs.Json.{Json, Members, object, document};
ghost use Rattle.json.specs.Find.{as_object, get};
ghost use Rattle.json.specs.Value.{value_view};
ghost use Rattle.hek_history.specs.declared.history.History.{History as SpecHistory};
ghost use Rattle.hek_history.specs.declared.history.Transaction.{Transaction as SpecTransaction};
ghost use Rattle.hek_history_log.specs.Contents.{SameTransaction, SaysSame};
ghost use Rattle.hek_history_log.specs.Ends.{IsEnd};
ghost use Rattle.hek_history_log.specs.Gives.{Gives};
ghost use Rattle.hek_history_log.specs.HasRead.{IsFresh, HasRead};
ghost use Rattle.hek_history_log.specs.Kept.{KeepsLabels, AddsName, AddsTransaction};
ghost use Rattle.hek_history_log.specs.LogText.{transaction_json, opening_json, text_of, log_text};
ghost use Rattle.hek_history_log.specs.MemberNames.{names_of};
ghost use Rattle.hek_history_log.specs.Readable.{IsOwn, ArePairs, IsReadableTransaction, IsReadableLog};
ghost use Rattle.hek_history_log.specs.declared.fault.LogFault.{LogFault as SpecFault};
ghost use Rattle.hek_history_log.specs.declared.shown.Label.TheVariants.{Number};

use crate::fault::{LogFault, Wanted};
use crate::fields::{
    MEMBERS, OPENING_MEMBERS, buckets_of, check_members, interval_of, level_of, name_of, read_rows,
    status_of, times_of, turn_of,
};
use crate::finish::finish;
use crate::input::read_line;
use crate::log_line::LogLine;
use crate::logged::{Identity, Log, Names, Version};
use crate::operations::{lacks_answer, read_operations, read_versions};
use crate::shown::Label;
use crate::spot::{Spot, column_of};
use crate::symbols::Symbols;
use hek_history::{History, Status, Transaction};
use indexmap::IndexSet;
use json::{Scratch, Value};
use std::alloc::Global;
use std::io::BufRead;

/// What was read so far: the log, whose keys and values have the numbers of `symbols` until its end. `seen` has the
/// numbers of the names, and `lines` where each was read; `rows_line` is the number of the opening line, or 0.
#[derive(Drop)]
pub(crate) struct Draft {
    pub history: History,
    pub names: Names,
    pub seen: IndexSet<u64>,
    pub lines: Vec<u64>,
    pub symbols: Symbols,
    pub rows_line: u64,
    /// The version numbers of writes, each with the place of its operation for its key.
    pub versions: Vec<Version>,
}

impl Draft {
    fn new(alloc: Global) -> Draft
        ensures { IsFresh result }
    {
        Draft {
            history: History {
                rows: Vec::new(alloc),
                transactions: Vec::new(alloc),
            },
            names: Names::new(alloc),
            seen: IndexSet::new(alloc),
            lines: Vec::new(alloc),
            symbols: Symbols::new(alloc),
            rows_line: 0,
            versions: Vec::new(alloc),
        }
    }

    /// Whether nothing was read yet.
    pub(crate) fn is_empty(&self) -> bool
        ensures fresh { IsFresh self.now → result ≡ true }
        ensures opened { self.now.rows_line ≢ 0 → result ≡ false }
    {
        self.rows_line == 0 && self.history.transactions.is_empty()
    }
}

/// Sees the faults of a log while it is read.
pub trait FaultWatch {
    /// Sees a fault, and the bytes of its line without the line feed. Answers whether the lines after it are read too.
    fn see(&mut self, line: &[u8], fault: &LogFault) -> bool;
}

/// A watch that ends at the first fault.
#[derive(Drop)]
struct FirstFault;

impl FaultWatch for FirstFault {
    fn see(&mut self, _line: &[u8], _fault: &LogFault) -> bool {
        false
    }
}

/// Reads a log to its end, one line at a time. No line is kept.
pub fn read_log<B: BufRead>(alloc: Global, input: &mut B) -> Result<Log, LogFault>
    ensures { (buckets : ℕ) (h : SpecHistory) → IsReadableLog buckets h
        → B.remaining input.old ≡ Some (log_text buckets h)
        → MatchResult result (λ log. SaysSame log.history h.rows.items h.transactions.items) IsEnd }
{
    read_log_watching(alloc, input, &mut FirstFault)
}

/// Reads a log as `read_log` does. The watch sees the faults of its lines, and the first one is the answer.
pub fn read_log_watching<B: BufRead, F: FaultWatch>(
    alloc: Global,
    input: &mut B,
    watch: &mut F,
) -> Result<Log, LogFault>
    ensures { (buckets : ℕ) (h : SpecHistory) → IsReadableLog buckets h
        → B.remaining input.old ≡ Some (log_text buckets h)
        → MatchResult result (λ log. SaysSame log.history h.rows.items h.transactions.items) IsEnd }
{
    let mut draft = Draft::new(alloc);
    match read_lines(alloc, input, watch, &mut draft) {
        Ok(()) => finish(alloc, draft),
        Err(fault) => Err(fault),
    }
}

fn read_lines<B: BufRead, F: FaultWatch>(
    alloc: Global,
    input: &mut B,
    watch: &mut F,
    draft: &mut Draft,
) -> Result<(), LogFault>
    ensures { (buckets : ℕ) (h : SpecHistory) → IsReadableLog buckets h
        → B.remaining input.old ≡ Some (log_text buckets h) → IsFresh draft.old
        → MatchResult result
        (λ _. HasRead buckets h.rows.items h.transactions.items draft.new) IsEnd }
{
    let mut scratch = Scratch::new(alloc);
    let mut bytes = Vec::new(alloc);
    let mut first = None;
    for number in 1..u64::MAX {
        if let Err(fault) = read_line(input, number, &mut bytes) {
            return Err(first.unwrap_or(fault));
        }
        if bytes.is_empty() {
            return answer_of(first);
        }
        let line = LogLine::new(number, bytes.as_slice());
        let added = add_line(alloc, line, &mut scratch, draft);
        if !goes_on(added, line.bytes, watch, &mut first) {
            return answer_of(first);
        }
    }
    answer_of(first)
}

/// Whether the lines after one are read too. A fault of the line is shown to the watch, and the first one is kept.
fn goes_on<F: FaultWatch>(
    added: Result<(), LogFault>,
    line: &[u8],
    watch: &mut F,
    first: &mut Option<LogFault>,
) -> bool
    ensures added { added ≡ Ok tt → (result ≡ true) × (first.new ≡ first.old) }
    ensures ended { first.old ≡ None
        → IfErr added (λ fault. IsEnd fault → (result ≡ false) × (first.new ≡ Some fault)) }
{
    let Err(fault) = added else {
        return true;
    };
    let goes_on = !fault.is_end() && watch.see(line, &fault);
    if first.is_none() {
        *first = Some(fault);
    }
    goes_on
}

/// The answer of a reader whose first fault this is.
fn answer_of(first: Option<LogFault>) -> Result<(), LogFault>
    ensures none { first ≡ None → result ≡ Ok tt }
    ensures some { (fault : SpecFault) → first ≡ Some fault → result ≡ Err fault }
{
    match first {
        Some(fault) => Err(fault),
        None => Ok(()),
    }
}

/// Adds what a line says; a blank line says nothing.
fn add_line(
    alloc: Global,
    line: LogLine<'_>,
    scratch: &mut Scratch,
    draft: &mut Draft,
) -> Result<(), LogFault>
    ensures opening { (buckets : ℕ) (rows : List (ℕ × ℕ)) → 0 < buckets → buckets < 2 ^ 64
        → ArePairs rows → IsFresh draft.old
        → line.entry.bytes.now ≡ text_of (opening_json buckets rows) → line.entry.number ≢ 0
        → Gives result LogFault.NoMemory (λ _. HasRead buckets rows [] draft.new) }
    ensures next { (buckets : ℕ) (rows : List (ℕ × ℕ)) (ts : List SpecTransaction) (t : SpecTransaction)
        → HasRead buckets rows ts draft.old → IsReadableTransaction buckets t
        → suc (length ts) < 2 ^ 63
        → line.entry.bytes.now ≡ text_of (transaction_json (suc (length ts)) t)
        → Gives result LogFault.NoMemory (λ _. HasRead buckets rows (ts ++ t ∷ []) draft.new) }
{
    if line.is_blank() {
        return Ok(());
    }
    let object = object_in(alloc, line, scratch)?;
    add_object(alloc, line, &object, draft)
}

/// The members of an object, each with its name.
fn members_of<'v, 'a>(object: &'v Value<'a>) -> &'v [(&'a str, Value<'a>)]
    ensures { (ms : Members) → as_object (value_view object.now) ≡ Some ms
        → map (λ m. m.0.now) result.now ≡ names_of ms }
{
    match object {
        Value::Object(members) => members.as_slice(),
        _ => &[],
    }
}

fn add_object(
    alloc: Global,
    line: LogLine<'_>,
    object: &Value<'_>,
    draft: &mut Draft,
) -> Result<(), LogFault>
    ensures opening { (buckets : ℕ) (rows : List (ℕ × ℕ)) → 0 < buckets → buckets < 2 ^ 64
        → ArePairs rows → IsFresh draft.old → value_view object.now ≡ opening_json buckets rows
        → line.entry.number ≢ 0
        → Gives result LogFault.NoMemory (λ _. HasRead buckets rows [] draft.new) }
    ensures next { (buckets : ℕ) (rows : List (ℕ × ℕ)) (ts : List SpecTransaction) (t : SpecTransaction)
        → HasRead buckets rows ts draft.old → IsReadableTransaction buckets t
        → suc (length ts) < 2 ^ 63
        → value_view object.now ≡ transaction_json (suc (length ts)) t
        → Gives result LogFault.NoMemory (λ _. HasRead buckets rows (ts ++ t ∷ []) draft.new) }
{
    if is_opening(object, draft) {
        return add_opening(alloc, line, object, draft);
    }
    add_next(alloc, line, object, draft)
}

/// Whether a line is the opening one.
fn is_opening(object: &Value<'_>, draft: &Draft) -> bool
    ensures opening { IsFresh draft.now → get (codes "txn") (value_view object.now) ≡ None
        → result ≡ true }
    ensures next { draft.now.rows_line ≢ 0 → result ≡ false }
{
    draft.is_empty() && object.get("txn").is_none()
}

/// Adds the transaction that a line says.
fn add_next(
    alloc: Global,
    line: LogLine<'_>,
    object: &Value<'_>,
    draft: &mut Draft,
) -> Result<(), LogFault>
    ensures { (buckets : ℕ) (rows : List (ℕ × ℕ)) (ts : List SpecTransaction) (t : SpecTransaction)
        → HasRead buckets rows ts draft.old → IsReadableTransaction buckets t
        → suc (length ts) < 2 ^ 63
        → value_view object.now ≡ transaction_json (suc (length ts)) t
        → Gives result LogFault.NoMemory (λ _. HasRead buckets rows (ts ++ t ∷ []) draft.new) }
{
    let label = name_of(line, object)?;
    check_members(line, members_of(object), &MEMBERS, Wanted::Member)?;
    let name = add_name(alloc, line, label, draft)?;
    let turn = turn_of(alloc, line, object, &mut draft.names.sessions)?;
    add_transaction(alloc, line, object, Identity { name, turn }, draft)
}

/// The object that a line is.
fn object_in<'a>(
    alloc: Global,
    line: LogLine<'a>,
    scratch: &'a mut Scratch,
) -> Result<Value<'a>, LogFault>
    ensures { (j : Json) (ms : Members) → j ≡ object ms → IsUtf8 line.entry.bytes.now
        → document line.entry.bytes.now ≡ Some j
        → Gives result LogFault.NoMemory (λ v. value_view v ≡ j) }
{
    match Value::from_slice(alloc, line.bytes, scratch) {
        Ok(Value::Object(members)) => Ok(Value::Object(members)),
        Ok(_) => Err(line.wants(Spot::Line, Wanted::Object)),
        Err(json::Error::OutOfMemory) => Err(LogFault::NoMemory),
        Err(_) => Err(broken(alloc, line)),
    }
}

/// The fault of a line that is not JSON. Its column is where serde_json stops.
fn broken(alloc: Global, line: LogLine<'_>) -> LogFault {
    let column = match serde_json::Value::from_slice(alloc, line.bytes) {
        Ok(_) => 1,
        Err(error) => {
            if error.is_memory() {
                return LogFault::NoMemory;
            }
            error.column() as u64
        }
    };
    LogFault::Json {
        line: line.number,
        column,
    }
}

fn add_opening(
    alloc: Global,
    line: LogLine<'_>,
    object: &Value<'_>,
    draft: &mut Draft,
) -> Result<(), LogFault>
    ensures { (buckets : ℕ) (rows : List (ℕ × ℕ)) → 0 < buckets → buckets < 2 ^ 64
        → ArePairs rows → IsFresh draft.old → value_view object.now ≡ opening_json buckets rows
        → line.entry.number ≢ 0
        → Gives result LogFault.NoMemory (λ _. HasRead buckets rows [] draft.new) }
{
    let members = members_of(object);
    check_members(line, members, &OPENING_MEMBERS, Wanted::OpeningMember)?;
    let buckets = buckets_of(line, object)?;
    draft.symbols.buckets = buckets;
    let rows = &mut draft.history.rows;
    read_rows(alloc, line, object, &mut draft.symbols, rows)?;
    draft.rows_line = line.number;
    Ok(())
}

/// Keeps the name of a transaction that is not in the log yet, and answers its number.
fn add_name(
    alloc: Global,
    line: LogLine<'_>,
    name: Label<'_>,
    draft: &mut Draft,
) -> Result<u64, LogFault>
    ensures { (n : ℕ) → IsOwn n → name.entry ≡ Number n → contains nat_eq draft.old.seen n ≡ false
        → Gives result LogFault.NoMemory
        (λ number. (number ≡ n) × AddsName draft.old draft.new n) }
{
    let number = draft.names.labels.number_of(alloc, name)?;
    let (place, is_new) = draft.seen.insert_full(number)?;
    if is_new {
        draft.lines.push(line.number)?;
        return Ok(number);
    }
    Err(LogFault::Duplicate {
        line: line.number,
        column: column_of(line.bytes, Spot::Field("txn")),
        name: format!(in alloc; "{name}")?,
        before: draft.lines.get(place).copied().unwrap_or(0),
    })
}

/// Adds a transaction. One of unknown status whose last write has no answer becomes two, one for each answer, of which at
/// most one takes place.
fn add_transaction(
    alloc: Global,
    line: LogLine<'_>,
    object: &Value<'_>,
    who: Identity,
    draft: &mut Draft,
) -> Result<(), LogFault>
    ensures { (buckets name : ℕ) (t : SpecTransaction) → IsReadableTransaction buckets t
        → draft.old.symbols.buckets ≡ Some buckets → who.turn ≡ None
        → value_view object.now ≡ transaction_json name t
        → Gives result LogFault.NoMemory (λ _. AddsTransaction draft.old draft.new t) }
{
    let status = status_of(line, object)?;
    let is_unknown = status == Status::Unknown;
    let lacking = if is_unknown { Some(true) } else { None };
    add_one(alloc, line, object, lacking, who, draft)?;
    if !is_unknown || !lacks_answer(object) {
        return Ok(());
    }
    let place = draft.history.transactions.len();
    add_one(alloc, line, object, Some(false), who, draft)?;
    draft.names.twins.push((place.saturating_sub(1), place))?;
    Ok(())
}

fn add_one(
    alloc: Global,
    line: LogLine<'_>,
    object: &Value<'_>,
    lacking: Option<bool>,
    who: Identity,
    draft: &mut Draft,
) -> Result<(), LogFault>
    ensures { (buckets name : ℕ) (t : SpecTransaction) → IsReadableTransaction buckets t
        → draft.old.symbols.buckets ≡ Some buckets → who.turn ≡ None
        → value_view object.now ≡ transaction_json name t
        → Gives result LogFault.NoMemory (λ _. AddsTransaction draft.old draft.new t) }
{
    let transaction = transaction_in(alloc, line, object, lacking, &mut draft.symbols)?;
    let place = draft.history.transactions.len();
    read_versions(line, object, place, &mut draft.versions)?;
    draft.history.transactions.push(transaction)?;
    Ok(draft.names.add(who)?)
}

fn transaction_in(
    alloc: Global,
    line: LogLine<'_>,
    object: &Value<'_>,
    lacking: Option<bool>,
    symbols: &mut Symbols,
) -> Result<Transaction, LogFault>
    ensures { (buckets name : ℕ) (t : SpecTransaction) → IsReadableTransaction buckets t
        → symbols.old.buckets ≡ Some buckets → value_view object.now ≡ transaction_json name t
        → Gives result LogFault.NoMemory
        (λ u. KeepsLabels symbols.old symbols.new × SameTransaction u t) }
{
    let (invoked, answered) = interval_of(line, object)?;
    let level = level_of(line, object)?;
    let status = status_of(line, object)?;
    let (begin, end) = times_of(line, object)?;
    Ok(Transaction {
        level,
        status,
        begin,
        end,
        invoked,
        answered,
        operations: read_operations(alloc, line, object, lacking, symbols)?,
    })
}
