//! Rows, names and steps of an image, each added to a schedule.
ghost use Rattle.std.specs.Prelude.{◌≡◌, ◌+◌, ◌<◌, ◌≤◌, length, OnOk, OnErr, IfOk, IsTrue};
ghost use Rattle.hek_rules.specs.Plan.{max_rows, max_steps, max_txns};
ghost use Rattle.hek_image.specs.Loading.{row_at, step_at, kind_at, level_coded, step_txn_fits, first_fits, second_fits, checked_read, number_at};
ghost use Rattle.std.specs.Int.{w32, w64};
ghost use Rattle.hek_image.specs.Gives.{FieldFails, FieldGives};
ghost use Rattle.hek_image.specs.Places.{place_seen};
ghost use Rattle.hek_image.specs.Taking.{named_txn_at, item_at, ItemsFit, HasGrown};

use crate::fault::LoadFault;
use crate::fields::{bytes_at, u8_at, u32_at, u64_at};
use crate::item::Item;
use crate::place::Place;
use hek_rules::{EventKind, Level, Schedule, TxnId, name_text};

// Reads a row and adds it to the schedule. Answers the place after it.
#[tactic(auto, unfolding(crate::specs::Loading::row_at, crate::specs::Loading::checked_read, crate::specs::Loading::both))]
fn row_at<'a>(schedule: &mut Schedule, place: Place<'a>) -> Result<Place<'a>, LoadFault>
    requires { length schedule.old.rows < max_rows }
    ensures gives { FieldGives (λ p. (schedule.new, place_seen p)) result (row_at schedule.old (place_seen place.entry)) }
    ensures len { OnOk result (length schedule.new.rows ≡ length schedule.old.rows + 1) }
    ensures txns { OnOk result (schedule.new.txns ≡ schedule.old.txns) }
    ensures steps { OnOk result (schedule.new.steps ≡ schedule.old.steps) }
    ensures err { OnErr result (schedule.new ≡ schedule.old) }
{
    let (key, after) = u64_at(place)?;
    if !schedule.row_fits(key) {
        return Err(LoadFault::BadField(place.at));
    }
    let (value, after) = u64_at(after)?;
    schedule.add_row(key, value)?;
    Ok(after)
}

pub(crate) fn level_coded(byte: u8) -> Level
    ensures { result ≡ level_coded byte }
{
    match byte {
        1 => Level::Serializable,
        2 => Level::Repeatable,
        _ => Level::Snapshot,
    }
}

// Reads the name of a transaction of this level and adds the transaction. Answers the place after it.
#[tactic(auto, unfolding(crate::specs::Loading::checked_read, crate::specs::Loading::both))]
fn name_at<'a>(
    level: Level,
    len: u8,
    schedule: &mut Schedule,
    place: Place<'a>,
) -> Result<Place<'a>, LoadFault>
    requires { length schedule.old.txns < max_txns }
    ensures gives { FieldGives (λ p. (schedule.new, place_seen p)) result (named_txn_at level len schedule.old (place_seen place.entry)) }
    ensures len { OnOk result (length schedule.new.txns ≡ length schedule.old.txns + 1) }
    ensures rows { OnOk result (schedule.new.rows ≡ schedule.old.rows) }
    ensures steps { OnOk result (schedule.new.steps ≡ schedule.old.steps) }
    ensures err { OnErr result (schedule.new ≡ schedule.old) }
{
    let (name, after) = bytes_at(len as usize, place)?;
    let Some(name) = name_text(name) else {
        return Err(LoadFault::BadField(place.at));
    };
    if !schedule.txn_fits(name) {
        return Err(LoadFault::BadField(place.at));
    }
    schedule.add_txn(name, level)?;
    Ok(after)
}

#[tactic(auto, unfolding(crate::specs::Loading::kind_at, crate::specs::Loading::checked_read, crate::specs::Loading::both))]
fn kind_at(place: Place<'_>) -> Result<(EventKind, Place<'_>), LoadFault>
    ensures { FieldGives (λ x. (x.0, place_seen x.1)) result (kind_at (place_seen place.entry)) }
{
    let (opcode, after) = u8_at(place)?;
    match EventKind::coded(opcode) {
        Some(kind) => Ok((kind, after)),
        None => Err(LoadFault::BadField(place.at)),
    }
}

fn txn_fits(schedule: &Schedule, kind: EventKind, txn: u32) -> bool
    ensures { result ≡ step_txn_fits schedule.now kind txn }
{
    if kind.is_detect() {
        return txn == 0;
    }
    txn > 0 && txn as usize <= schedule.txn_count()
}

fn first_fits(schedule: &Schedule, kind: EventKind, first: u64) -> bool
    ensures { result ≡ first_fits schedule.now kind first }
{
    if kind.operand_count() == 0 {
        return first == 0;
    }
    !kind.is_scan() || first < schedule.buckets()
}

fn second_fits(kind: EventKind, second: u64) -> bool
    ensures { result ≡ second_fits kind second }
{
    kind.operand_count() == 2 || second == 0
}

#[tactic(auto, unfolding(crate::specs::Loading::checked_read))]
fn txn_number_at<'a>(
    schedule: &Schedule,
    kind: EventKind,
    place: Place<'a>,
) -> Result<(u32, Place<'a>), LoadFault>
    ensures gives { FieldGives (λ x. (x.0, place_seen x.1)) result (checked_read (number_at w32) (step_txn_fits schedule.now kind) (place_seen place.entry)) }
    ensures fits { IfOk result (λ x. IsTrue (step_txn_fits schedule.now kind x.0)) }
{
    let (txn, after) = u32_at(place)?;
    if !txn_fits(schedule, kind, txn) {
        return Err(LoadFault::BadField(place.at));
    }
    Ok((txn, after))
}

#[tactic(auto, unfolding(crate::specs::Loading::checked_read))]
fn first_at<'a>(
    schedule: &Schedule,
    kind: EventKind,
    place: Place<'a>,
) -> Result<(u64, Place<'a>), LoadFault>
    ensures gives { FieldGives (λ x. (x.0, place_seen x.1)) result (checked_read (number_at w64) (first_fits schedule.now kind) (place_seen place.entry)) }
    ensures fits { IfOk result (λ x. IsTrue (first_fits schedule.now kind x.0)) }
{
    let (first, after) = u64_at(place)?;
    if !first_fits(schedule, kind, first) {
        return Err(LoadFault::BadField(place.at));
    }
    Ok((first, after))
}

#[tactic(auto, unfolding(crate::specs::Loading::checked_read))]
fn second_at(kind: EventKind, place: Place<'_>) -> Result<(u64, Place<'_>), LoadFault>
    ensures { FieldGives (λ x. (x.0, place_seen x.1)) result (checked_read (number_at w64) (second_fits kind) (place_seen place.entry)) }
{
    let (second, after) = u64_at(place)?;
    if !second_fits(kind, second) {
        return Err(LoadFault::BadField(place.at));
    }
    Ok((second, after))
}

// Reads a step and adds it to the schedule. Answers the place after it.
#[tactic(auto, unfolding(crate::specs::Loading::step_at, crate::specs::Loading::both), using(crate::proofs::StepLemmas::coded_step))]
fn step_at<'a>(schedule: &mut Schedule, place: Place<'a>) -> Result<Place<'a>, LoadFault>
    requires { length schedule.old.steps < max_steps }
    ensures gives { FieldGives (λ p. (schedule.new, place_seen p)) result (step_at schedule.old (place_seen place.entry)) }
    ensures len { OnOk result (length schedule.new.steps ≡ length schedule.old.steps + 1) }
    ensures rows { OnOk result (schedule.new.rows ≡ schedule.old.rows) }
    ensures txns { OnOk result (schedule.new.txns ≡ schedule.old.txns) }
    ensures err { OnErr result (schedule.new ≡ schedule.old) }
{
    let (kind, after) = kind_at(place)?;
    let (txn, after) = txn_number_at(schedule, kind, after)?;
    let (first, after) = first_at(schedule, kind, after)?;
    let (second, after) = second_at(kind, after)?;
    let txn = TxnId::new(u64::from(txn));
    schedule.add_step(kind.event(txn, first, second))?;
    Ok(after)
}

// Reads an item and adds it to the schedule. Answers the place after it.
pub(crate) fn item_at<'a>(
    item: Item,
    schedule: &mut Schedule,
    place: Place<'a>,
) -> Result<Place<'a>, LoadFault>
    requires { ItemsFit item 1 schedule.old }
    ensures gives { FieldGives (λ p. (schedule.new, place_seen p)) result (item_at item schedule.old (place_seen place.entry)) }
    ensures grown { OnOk result (HasGrown item 1 schedule.old schedule.new) }
    ensures err { OnErr result (schedule.new ≡ schedule.old) }
{
    match item {
        Item::Row => row_at(schedule, place),
        Item::Name(level, len) => name_at(level, len, schedule, place),
        Item::Step => step_at(schedule, place),
    }
}
