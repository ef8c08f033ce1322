//! The image of a schedule, in the newest version of the format.
ghost use Rattle.std.specs.Prelude.{◌≡◌, ◌++◌, ◌<◌, ◌≤◌, ◌^◌, false, length, IsTrue, OnOk, is_err, unwrap_or, IfSome};
ghost use Rattle.std.specs.List.{flat_map, AllByRecursion};
ghost use Rattle.hek_rules.specs.Plan.{IsPlan, names_of};
ghost use Rattle.hek_rules.specs.Events.{txn_of};
ghost use Rattle.hek_image.specs.Schedules.{front_bytes, count_bytes, row_bytes, level_byte, txn_bytes, step_bytes, image};

use arrayvec::ArrayVec;
use hek_rules::{Event, Level, Schedule, Sink, TxnId, WriteFault, put_all};

/// How many bytes go out at once: 48 steps of 21 bytes. Putting each field alone costs more than its bytes.
const BLOCK: usize = 1008;

// Adds bytes to the block. If the block has no room for them, it goes out first.
fn gather<S: Sink>(
    bytes: &[u8],
    block: &mut ArrayVec<u8, BLOCK>,
    sink: &mut S,
) -> Result<(), WriteFault>
    requires works { S.failed sink.old ≡ false }
    requires short { length bytes.now ≤ BLOCK }
    ensures ok { OnOk result (IsTrue (S.tells sink.old) → S.holds sink.new ++ block.new.items ≡ (S.holds sink.old ++ block.old.items) ++ bytes.now) }
    ensures tells { IsTrue (S.tells sink.old) → IsTrue (S.tells sink.new) }
    ensures fails { S.failed sink.new ≡ is_err result }
{
    if block.remaining_capacity() < bytes.len() {
        put_all(sink, block.as_slice())?;
        block.clear();
    }
    // The block has room now.
    let _ = block.try_extend_from_slice(bytes);
    Ok(())
}

// The bytes before the rows.
fn header_bytes(schedule: &Schedule) -> [u8; 22]
    requires { IsPlan schedule.now }
    ensures { result ≡ front_bytes 2 schedule.now.buckets ++ count_bytes schedule.now }
{
    let [b0, b1, b2, b3] = (schedule.buckets() as u32).to_be_bytes();
    let [r0, r1, r2, r3] = (schedule.row_count() as u32).to_be_bytes();
    let [t0, t1, t2, t3] = (schedule.txn_count() as u32).to_be_bytes();
    let [s0, s1, s2, s3] = (schedule.steps().len() as u32).to_be_bytes();
    [
        b'H', b'K', b'S', b'C', 0, 2, b0, b1, b2, b3, r0, r1, r2, r3, t0, t1, t2, t3, s0, s1, s2,
        s3,
    ]
}

fn gather_rows<S: Sink>(
    schedule: &Schedule,
    block: &mut ArrayVec<u8, BLOCK>,
    sink: &mut S,
) -> Result<(), WriteFault>
    requires { S.failed sink.old ≡ false }
    ensures ok { OnOk result (IsTrue (S.tells sink.old) → S.holds sink.new ++ block.new.items ≡ (S.holds sink.old ++ block.old.items) ++ flat_map row_bytes schedule.now.rows) }
    ensures tells { IsTrue (S.tells sink.old) → IsTrue (S.tells sink.new) }
    ensures fails { S.failed sink.new ≡ is_err result }
{
    for place in 0..schedule.row_count() {
        let (key, value) = schedule.row(place);
        gather(key.to_be_bytes().as_slice(), block, sink)?;
        gather(value.to_be_bytes().as_slice(), block, sink)?;
    }
    Ok(())
}

fn level_byte(level: Level) -> u8
    ensures { result ≡ level_byte level }
{
    match level {
        Level::Serializable => 1,
        Level::Repeatable => 2,
        Level::Snapshot => 3,
    }
}

fn gather_txns<S: Sink>(
    schedule: &Schedule,
    block: &mut ArrayVec<u8, BLOCK>,
    sink: &mut S,
) -> Result<(), WriteFault>
    requires works { S.failed sink.old ≡ false }
    requires short { AllByRecursion (λ name. length name < 256) (names_of schedule.now) }
    ensures ok { OnOk result (IsTrue (S.tells sink.old) → S.holds sink.new ++ block.new.items ≡ (S.holds sink.old ++ block.old.items) ++ flat_map txn_bytes schedule.now.txns) }
    ensures tells { IsTrue (S.tells sink.old) → IsTrue (S.tells sink.new) }
    ensures fails { S.failed sink.new ≡ is_err result }
{
    for place in 0..schedule.txn_count() {
        let txn = TxnId::new(place as u64 + 1);
        let name = schedule.name_of(txn);
        let level = level_byte(schedule.level_of(txn));
        gather([level, name.len() as u8].as_slice(), block, sink)?;
        gather(name.as_bytes(), block, sink)?;
    }
    Ok(())
}

fn txn_number(txn: Option<TxnId>) -> u32
    requires { IfSome txn (λ t. t < 2 ^ 32) }
    ensures { result ≡ unwrap_or txn 0 }
{
    match txn {
        Some(txn) => txn.number() as u32,
        None => 0,
    }
}

// The bytes of a step.
fn step_bytes(event: &Event) -> [u8; 21]
    requires short { IfSome (txn_of event.now) (λ t. t < 2 ^ 32) }
    ensures { result ≡ step_bytes event.now }
{
    let opcode = event.kind().opcode();
    let [t0, t1, t2, t3] = txn_number(event.txn()).to_be_bytes();
    let [a0, a1, a2, a3, a4, a5, a6, a7] = event.first().to_be_bytes();
    let [b0, b1, b2, b3, b4, b5, b6, b7] = event.second().to_be_bytes();
    [
        opcode, t0, t1, t2, t3, a0, a1, a2, a3, a4, a5, a6, a7, b0, b1, b2, b3, b4, b5, b6, b7,
    ]
}

fn gather_steps<S: Sink>(
    schedule: &Schedule,
    block: &mut ArrayVec<u8, BLOCK>,
    sink: &mut S,
) -> Result<(), WriteFault>
    requires works { S.failed sink.old ≡ false }
    requires short { AllByRecursion (λ e. IfSome (txn_of e) (λ t. t < 2 ^ 32)) schedule.now.steps }
    ensures ok { OnOk result (IsTrue (S.tells sink.old) → S.holds sink.new ++ block.new.items ≡ (S.holds sink.old ++ block.old.items) ++ flat_map step_bytes schedule.now.steps) }
    ensures tells { IsTrue (S.tells sink.old) → IsTrue (S.tells sink.new) }
    ensures fails { S.failed sink.new ≡ is_err result }
{
    for event in schedule.steps() {
        gather(step_bytes(event).as_slice(), block, sink)?;
    }
    Ok(())
}

/// Writes the version 2 image of a schedule. After a fault it is unknown how many bytes went out.
#[tactic(auto, using(crate::proofs::StepLemmas::short_names, crate::proofs::StepLemmas::short_txns))]
pub fn write_image<S: Sink>(schedule: &Schedule, sink: &mut S) -> Result<(), WriteFault>
    requires { S.failed sink.old ≡ false }
    ensures ok { OnOk result (IsTrue (S.tells sink.old) → S.holds sink.new ≡ S.holds sink.old ++ image schedule.now) }
    ensures tells { IsTrue (S.tells sink.old) → IsTrue (S.tells sink.new) }
    ensures fails { S.failed sink.new ≡ is_err result }
{
    let _buckets = schedule.buckets();
    let mut block = ArrayVec::new();
    gather(header_bytes(schedule).as_slice(), &mut block, sink)?;
    gather_rows(schedule, &mut block, sink)?;
    gather_txns(schedule, &mut block, sink)?;
    gather_steps(schedule, &mut block, sink)?;
    put_all(sink, block.as_slice())
}
