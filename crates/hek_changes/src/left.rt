//! What a change of an End word leaves, or what it lacks.
ghost use Rattle.std.specs.Prelude.{◌≡◌, ◌≢◌, ℕ, ◌<◌, ◌↔◌, Ok, Some, IfErr, IsTrue};
ghost use Rattle.hek_rules.specs.Words.{IsEnd, IsTxn, CanAdd, CanTakeWriter, readers_of, writer_of, with_reader, without_reader, with_writer, without_writer};
ghost use Rattle.hek_rules.specs.declared.word.EndRecord.{EndRecord as SpecRecord};
ghost use Rattle.hek_changes.specs.declared.change.EndChange.TheVariants as on_end;
ghost use Rattle.hek_changes.specs.Changes.{EndLeads, IsAnothers, IsNotWriter};
ghost use Rattle.hek_changes.specs.Lacks.{IsSo};

use crate::change::EndChange;
use crate::lack::Lack;
use hek_rules::TxnId;
use hek_word::EndWord;

/// The first number that is no ID of a transaction.
const NO_TXN: u64 = (1 << 54) - 1;

/// The word that a change by this transaction leaves, or what it lacks. A stamp is not among these changes, since it leaves
/// any time.
pub(crate) fn left_by(change: EndChange, before: EndWord, txn: TxnId) -> Result<EndWord, Lack>
    requires { change ≢ on_end.Stamped }
    ensures leads { (w : SpecRecord) → IsEnd w → (result ≡ Ok w) ↔ EndLeads txn change before w }
    ensures lacks { IfErr result (λ lack. IsSo lack before txn) }
{
    match change {
        EndChange::ReaderCame => reader_came(before, txn),
        EndChange::ReaderWent => reader_went(before, txn),
        EndChange::WriterCame => writer_came(before, txn),
        EndChange::WriterWent => writer_went(before, txn),
        EndChange::Cleared => cleared(before, txn),
        EndChange::Stamped => unreachable!(),
        EndChange::ClearedThenRead => cleared_then_read(before, txn),
        EndChange::ClearedThenWritten => cleared_then_written(before, txn),
        EndChange::ReaderBecameWriter => reader_became_writer(before, txn),
        EndChange::ClearedThenReaderBecameWriter => cleared_then_became(before, txn),
    }
}

fn reader_came(before: EndWord, txn: TxnId) -> Result<EndWord, Lack>
    ensures leads { (w : SpecRecord) → IsEnd w → (result ≡ Ok w) ↔ (IsNotWriter txn before × CanAdd before × (w ≡ with_reader before)) }
    ensures lacks { IfErr result (λ lack. IsSo lack before txn) }
{
    if is_writer(before, txn) {
        Err(Lack::IsWriter)
    } else if before.can_add() {
        Ok(before.add_reader())
    } else if before.no_more() {
        Err(Lack::NoMoreReads)
    } else if before.time().is_some() {
        Err(Lack::HasEnded)
    } else {
        Err(Lack::IsFull)
    }
}

fn reader_went(before: EndWord, txn: TxnId) -> Result<EndWord, Lack>
    ensures leads { (w : SpecRecord) → IsEnd w → (result ≡ Ok w) ↔ (IsNotWriter txn before × (0 < readers_of before) × (w ≡ without_reader before)) }
    ensures lacks { IfErr result (λ lack. IsSo lack before txn) }
{
    if is_writer(before, txn) {
        Err(Lack::IsWriter)
    } else if before.readers() == 0 {
        Err(Lack::HasNoReader)
    } else {
        Ok(before.drop_reader().0)
    }
}

fn writer_came(before: EndWord, txn: TxnId) -> Result<EndWord, Lack>
    ensures leads { (w : SpecRecord) → IsEnd w → (result ≡ Ok w) ↔ (CanTakeWriter before × (w ≡ with_writer before txn)) }
    ensures lacks { IfErr result (λ lack. IsSo lack before txn) }
{
    if !is_id(txn) {
        Err(Lack::IsNoTxn)
    } else if before.can_take_writer() {
        Ok(before.take_writer(txn))
    } else if before.time().is_some() {
        Err(Lack::HasEnded)
    } else {
        Err(Lack::HasWriter)
    }
}

fn writer_went(before: EndWord, txn: TxnId) -> Result<EndWord, Lack>
    ensures leads { (w : SpecRecord) → IsEnd w → (result ≡ Ok w) ↔ ((writer_of before ≡ Some txn) × (w ≡ without_writer before)) }
    ensures lacks { IfErr result (λ lack. IsSo lack before txn) }
{
    if is_writer(before, txn) {
        Ok(before.clear_writer())
    } else {
        Err(Lack::IsNotWriter)
    }
}

fn reader_became_writer(before: EndWord, txn: TxnId) -> Result<EndWord, Lack>
    ensures leads { (w : SpecRecord) → IsEnd w → (result ≡ Ok w) ↔ (CanTakeWriter before × (0 < readers_of before) × (w ≡ with_writer (without_reader before) txn)) }
    ensures lacks { IfErr result (λ lack. IsSo lack before txn) }
{
    if !is_id(txn) {
        Err(Lack::IsNoTxn)
    } else if before.readers() == 0 {
        Err(Lack::HasNoReader)
    } else if before.can_take_writer() {
        Ok(before.drop_reader().0.take_writer(txn))
    } else {
        Err(Lack::HasWriter)
    }
}

/// The name of another writer is taken out.
fn cleared(before: EndWord, txn: TxnId) -> Result<EndWord, Lack>
    ensures leads { (w : SpecRecord) → IsEnd w → (result ≡ Ok w) ↔ (IsAnothers txn before × (w ≡ without_writer before)) }
    ensures lacks { IfErr result (λ lack. IsSo lack before txn) }
{
    if is_anothers(before, txn) {
        Ok(before.clear_writer())
    } else {
        Err(not_anothers(before, txn))
    }
}

/// The name of another writer is taken out, and then a reader comes.
fn cleared_then_read(before: EndWord, txn: TxnId) -> Result<EndWord, Lack>
    ensures leads { (w : SpecRecord) → IsEnd w → (result ≡ Ok w) ↔ (IsAnothers txn before × CanAdd (without_writer before) × (w ≡ with_reader (without_writer before))) }
    ensures lacks { IfErr result (λ lack. IsSo lack before txn) }
{
    if !is_anothers(before, txn) {
        return Err(not_anothers(before, txn));
    }
    let free = before.clear_writer();
    if free.can_add() {
        Ok(free.add_reader())
    } else {
        Err(Lack::IsFull)
    }
}

/// The name of another writer is taken out, and then a writer comes.
fn cleared_then_written(before: EndWord, txn: TxnId) -> Result<EndWord, Lack>
    ensures leads { (w : SpecRecord) → IsEnd w → (result ≡ Ok w) ↔ (IsAnothers txn before × (w ≡ with_writer (without_writer before) txn)) }
    ensures lacks { IfErr result (λ lack. IsSo lack before txn) }
{
    if !is_anothers(before, txn) {
        Err(not_anothers(before, txn))
    } else if !is_id(txn) {
        Err(Lack::IsNoTxn)
    } else {
        Ok(before.clear_writer().take_writer(txn))
    }
}

/// The name of another writer is taken out, and then a reader becomes the writer.
fn cleared_then_became(before: EndWord, txn: TxnId) -> Result<EndWord, Lack>
    ensures leads { (w : SpecRecord) → IsEnd w → (result ≡ Ok w) ↔ (IsAnothers txn before × (0 < readers_of before) × (w ≡ with_writer (without_reader (without_writer before)) txn)) }
    ensures lacks { IfErr result (λ lack. IsSo lack before txn) }
{
    if !is_anothers(before, txn) {
        Err(not_anothers(before, txn))
    } else if !is_id(txn) {
        Err(Lack::IsNoTxn)
    } else if before.readers() == 0 {
        Err(Lack::HasNoReader)
    } else {
        Ok(before.clear_writer().drop_reader().0.take_writer(txn))
    }
}

/// What keeps a transaction from a stamp: of a time, nothing else can.
pub(crate) fn stamp_lack(before: EndWord, txn: TxnId) -> Lack
    ensures { IsSo result before txn }
{
    if !is_writer(before, txn) {
        Lack::IsNotWriter
    } else if before.readers() > 0 {
        Lack::HasReaders
    } else {
        Lack::IsNotDrawn
    }
}

fn is_writer(before: EndWord, txn: TxnId) -> bool
    ensures { IsTrue result ↔ (writer_of before ≡ Some txn) }
{
    match before.writer() {
        Some(writer) => writer.number() == txn.number(),
        None => false,
    }
}

fn is_anothers(before: EndWord, txn: TxnId) -> bool
    ensures { IsTrue result ↔ IsAnothers txn before }
{
    match before.writer() {
        Some(writer) => writer.number() != txn.number(),
        None => false,
    }
}

/// Why the word's writer isn't another transaction.
fn not_anothers(before: EndWord, txn: TxnId) -> Lack
    requires { ¬ (IsAnothers txn before) }
    ensures { IsSo result before txn }
{
    match before.writer() {
        Some(_) => Lack::IsWriter,
        None => Lack::HasNoWriter,
    }
}

/// Whether a word can name the transaction.
fn is_id(txn: TxnId) -> bool
    ensures { IsTrue result ↔ IsTxn txn }
{
    txn.number() > 0 && txn.number() < NO_TXN
}
