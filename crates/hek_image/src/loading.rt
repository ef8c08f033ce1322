//! A schedule from one of its images.
ghost use Rattle.std.specs.Prelude.{◌≡◌, ◌+◌, ◌≤◌, ◌⊎◌, [], length, false, OnOk, IfOk, IfErr, IsTrue, Err};
ghost use Rattle.hek_rules.specs.Plan.{max_rows, max_steps, max_txns};
ghost use Rattle.hek_image.specs.Loading.{magic_at, image_version, header_at, loading};
ghost use Rattle.hek_image.specs.Gives.{FieldFails, FieldGives, LoadFails, LoadGives, AnswerFits, IsOpen, given_between};
ghost use Rattle.hek_image.specs.Places.{place_seen, header_of};
ghost use Rattle.hek_image.specs.Taking.{Takes, body_at};
ghost use Rattle.hek_image.specs.declared.fault.LoadFault.TheVariants as load;

use crate::fault::LoadFault;
use crate::fields::{bytes_at, u16_at, u32_within};
use crate::item::Item;
use crate::pieces::{ROOM, is_short, take_more};
use crate::place::Place;
use crate::reading::{next_items, next_txns};
use hek_rules::{MAX_BUCKETS, MAX_ROWS, MAX_STEPS, MAX_TXNS, Schedule, Source};
use std::alloc::Global;

/// How many bytes the header has.
const HEADER: usize = 22;

// The version, and the numbers of rows, transactions and steps.
#[derive(Clone, Copy)]
struct Header {
    version: u8,
    rows: u32,
    txns: u32,
    steps: u32,
}

#[tactic(auto, unfolding(crate::specs::Loading::magic_at, crate::specs::Loading::required))]
fn magic_at(place: Place<'_>) -> Result<(&[u8], Place<'_>), LoadFault>
    ensures { FieldGives (λ x. (x.0.now, place_seen x.1)) result (magic_at (place_seen place.entry)) }
{
    let (magic, place) = bytes_at(4, place)?;
    if magic != b"HKSC".as_slice() {
        return Err(LoadFault::BadMagic);
    }
    Ok((magic, place))
}

#[tactic(auto, unfolding(crate::specs::Loading::image_version, crate::specs::Loading::required))]
fn version_at(place: Place<'_>) -> Result<(u16, Place<'_>), LoadFault>
    ensures gives { FieldGives (λ x. (x.0, place_seen x.1)) result (image_version (place_seen place.entry)) }
    ensures known { IfOk result (λ x. x.0 ≤ 2) }
{
    let (version, place) = u16_at(place)?;
    if version < 1 || version > 2 {
        return Err(LoadFault::BadVersion);
    }
    Ok((version, place))
}

#[tactic(auto, unfolding(crate::specs::Loading::header_at, crate::specs::Loading::both))]
fn header_at(alloc: Global, place: Place<'_>) -> Result<(Schedule, Header, Place<'_>), LoadFault>
    ensures gives { FieldGives (λ x. ((x.0, header_of x.1), place_seen x.2)) result (header_at (place_seen place.entry)) }
    ensures known { IfOk result (λ x. x.1.version ≤ 2) }
    ensures rows { IfOk result (λ x. (length x.0.rows ≡ 0) × (x.1.rows ≤ max_rows)) }
    ensures txns { IfOk result (λ x. (length x.0.txns ≡ 0) × (x.1.txns ≤ max_txns)) }
    ensures steps { IfOk result (λ x. (length x.0.steps ≡ 0) × (x.1.steps ≤ max_steps)) }
{
    let (_, place) = magic_at(place)?;
    let (version, place) = version_at(place)?;
    let (buckets, place) = u32_within(1, MAX_BUCKETS as u32, place)?;
    let (rows, place) = u32_within(0, MAX_ROWS as u32, place)?;
    let (txns, place) = u32_within(0, MAX_TXNS as u32, place)?;
    let (steps, place) = u32_within(0, MAX_STEPS as u32, place)?;
    let schedule = Schedule::new(alloc, u64::from(buckets));
    let header = Header {
        version: version as u8,
        rows,
        txns,
        steps,
    };
    Ok((schedule, header, place))
}

// Reads the header of a source, and judges it with each piece that comes.
fn next_header<S: Source>(alloc: Global, source: &mut S) -> Result<(Schedule, Header), LoadFault>
    requires { S.failed source.old ≡ false }
    ensures takes { IsTrue (S.tells source.old) → Takes (λ x. ((x.0, header_of x.1), 22)) header_at 0 22 result (S.left source.old) (S.left source.new) }
    ensures known { IfOk result (λ x. x.1.version ≤ 2) }
    ensures rows { IfOk result (λ x. (length x.0.rows ≡ 0) × (x.1.rows ≤ max_rows)) }
    ensures txns { IfOk result (λ x. (length x.0.txns ≡ 0) × (x.1.txns ≤ max_txns)) }
    ensures steps { IfOk result (λ x. (length x.0.steps ≡ 0) × (x.1.steps ≤ max_steps)) }
    ensures tells { IsTrue (S.tells source.old) → IsTrue (S.tells source.new) }
    ensures fails { AnswerFits result (S.failed source.new) }
{
    let mut buffer = [0u8; ROOM];
    let mut held = 0;
    loop {
        let (bytes, _) = buffer.split_at(held);
        match header_at(alloc, Place { at: 0, rest: bytes }) {
            Ok((schedule, header, _)) => return Ok((schedule, header)),
            Err(fault) => {
                if !is_short(fault) {
                    return Err(fault);
                }
            }
        }
        match take_more(source, &mut buffer, held, HEADER) {
            Ok(count) => held = count,
            Err(fault) => return Err(fault),
        }
    }
}

// Reads all items that the header counts. Answers the offset where they end.
fn next_body<S: Source>(
    header: Header,
    schedule: &mut Schedule,
    source: &mut S,
) -> Result<u64, LoadFault>
    requires works { S.failed source.old ≡ false }
    requires known { header.version ≤ 2 }
    requires rows { length schedule.old.rows + header.rows ≤ max_rows }
    requires txns { length schedule.old.txns + header.txns ≤ max_txns }
    requires steps { length schedule.old.steps + header.steps ≤ max_steps }
    ensures takes { IsTrue (S.tells source.old) → Takes (λ n. (schedule.new, n)) (body_at (schedule.old, header_of header)) 22 22083392 result (S.left source.old) (S.left source.new) }
    ensures tells { IsTrue (S.tells source.old) → IsTrue (S.tells source.new) }
    ensures fails { AnswerFits result (S.failed source.new) }
{
    let at = next_items(Item::Row, header.rows, schedule, HEADER as u64, source)?;
    let at = next_txns(header.version, header.txns, schedule, at, source)?;
    next_items(Item::Step, header.steps, schedule, at, source)
}

// Checks that the source has no more bytes.
fn at_end<S: Source>(source: &mut S) -> Result<(), LoadFault>
    requires { S.failed source.old ≡ false }
    ensures end { OnOk result (IsTrue (S.tells source.old) → S.left source.old ≡ []) }
    ensures trailing { result ≡ Err load.Trailing → IsTrue (S.tells source.old) → length (S.left source.old) ≡ 1 + length (S.left source.new) }
    ensures read { result ≡ Err load.Read → IsTrue (S.tells source.old) → S.left source.old ≡ S.left source.new }
    ensures fault { IfErr result (λ e. (e ≡ load.Trailing) ⊎ (e ≡ load.Read)) }
    ensures fails { AnswerFits result (S.failed source.new) }
{
    match take_more(source, &mut [0u8; 1], 0, 1) {
        Ok(_) => Err(LoadFault::Trailing),
        Err(LoadFault::Short) => Ok(()),
        Err(fault) => Err(fault),
    }
}

/// The schedule whose version 2 or version 1 image the bytes of a source are, to their end; otherwise the first fault.
/// Takes at most one byte more than the longest image has: `taken` counts bytes by what the source has left, so it
/// applies to sources that report their bytes. If the source fails, a fault of the bytes that it gave before comes first;
/// the fault is Read only if those bytes have no fault, except that they may end too early.
pub fn load_image<S: Source>(alloc: Global, source: &mut S) -> Result<Schedule, LoadFault>
    requires { S.failed source.old ≡ false }
    ensures gives { IsTrue (S.tells source.old) → LoadGives (λ s. s) result (loading (S.left source.old)) }
    ensures taken { IsTrue (S.tells source.old) → length (S.left source.old) ≤ 22083415 + length (S.left source.new) }
    ensures fits { AnswerFits result (S.failed source.new) }
    ensures read { IsTrue (S.tells source.old) → result ≡ Err load.Read → IsOpen (loading (given_between (S.left source.old) (S.left source.new))) }
{
    let (mut schedule, header) = next_header(alloc, source)?;
    next_body(header, &mut schedule, source)?;
    at_end(source)?;
    Ok(schedule)
}
