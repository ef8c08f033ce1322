//! The code of a key: what the key has, one after another, as bytes. A list is its length and its items.
ghost use Rattle.std.specs.Prelude.{◌≡◌, ◌++◌, ◌∷◌, ◌<◌, OnOk};
ghost use Rattle.hek_explore.specs.Codes.{begin_code, cause_number, digits, end_code, ending_number, entry_code, event_code, flag, level_number, listed, number, optional, pair, place_code, reply_code, reply_kind, reply_members, reply_number, reply_pairs, reply_writer, stage_kind, stage_step, state_number};

use hek_permute::{Ending, OrderFault, Place};
use hek_rules::{
    BeginRecord, Cause, EndRecord, Event, Level, Reply, State, TxnId, VersionId, WriteEntry,
};
use hek_worker::Stage;

/// What can be written at the end of a code, as bytes that end where no other value's go on.
pub(crate) trait Coded {
    ghost use Rattle.std.specs.Prelude.{ℕ, List};

    // The bytes of a value.
    ghost bytes: { Self → List ℕ };

    /// Writes the value at the end of a code.
    fn put(&self, code: &mut Vec<u8>) -> Result<(), OrderFault>
        ensures { OnOk result (code.new.items ≡ code.old.items ++ bytes self.now) };
}

/// How many bytes a number takes before its last one, at most.
const MOST_BYTES: usize = 9;

/// Writes a number: seven bits in each byte, the lowest first, and the highest bit where more bytes follow.
pub(crate) fn put_number(code: &mut Vec<u8>, value: u64) -> Result<(), OrderFault>
    ensures { OnOk result (code.new.items ≡ code.old.items ++ number value) }
{
    let mut rest = value;
    for _ in 0..MOST_BYTES {
        if rest < 128 {
            code.push(rest as u8)?;
            return Ok(());
        }
        code.push(128 + (rest % 128) as u8)?;
        rest /= 128;
    }
    let Ok(last) = u8::try_from(rest) else {
        return Err(OrderFault::Mismatch);
    };
    code.push(last)?;
    Ok(())
}

/// Writes a list: how many items it has, and each.
pub(crate) fn put_list<T: Coded>(code: &mut Vec<u8>, items: &[T]) -> Result<(), OrderFault>
    ensures { OnOk result (code.new.items ≡ code.old.items ++ listed T.bytes items.now) }
{
    put_number(code, items.len() as u64)?;
    for item in items {
        item.put(code)?;
    }
    Ok(())
}

/// Writes whether there is a value, and the value.
pub(crate) fn put_option<T: Coded>(code: &mut Vec<u8>, value: &Option<T>) -> Result<(), OrderFault>
    ensures { OnOk result (code.new.items ≡ code.old.items ++ optional T.bytes value.now) }
{
    match value {
        Some(value) => {
            code.push(1)?;
            value.put(code)?;
        }
        None => code.push(0)?,
    }
    Ok(())
}

impl Coded for u64 {
    ghost bytes = { number };

    fn put(&self, code: &mut Vec<u8>) -> Result<(), OrderFault> {
        put_number(code, *self)
    }
}

impl Coded for TxnId {
    ghost bytes = { number };

    fn put(&self, code: &mut Vec<u8>) -> Result<(), OrderFault> {
        put_number(code, self.number())
    }
}

impl Coded for VersionId {
    ghost bytes = { number };

    fn put(&self, code: &mut Vec<u8>) -> Result<(), OrderFault> {
        put_number(code, self.index())
    }
}

impl Coded for bool {
    ghost bytes = { flag };

    fn put(&self, code: &mut Vec<u8>) -> Result<(), OrderFault> {
        code.push(if *self { 1 } else { 0 })?;
        Ok(())
    }
}

impl<A: Coded, B: Coded> Coded for (A, B) {
    ghost bytes = { pair A.bytes B.bytes };

    fn put(&self, code: &mut Vec<u8>) -> Result<(), OrderFault> {
        self.0.put(code)?;
        self.1.put(code)
    }
}

/// Writes a byte that says of which kind a value is, and a number that it has.
fn put_tagged(code: &mut Vec<u8>, tag: u8, value: u64) -> Result<(), OrderFault>
    ensures { OnOk result (code.new.items ≡ code.old.items ++ tag ∷ number value) }
{
    code.push(tag)?;
    put_number(code, value)
}

impl Coded for BeginRecord {
    ghost bytes = { begin_code };

    fn put(&self, code: &mut Vec<u8>) -> Result<(), OrderFault> {
        match self {
            BeginRecord::At(time) => put_tagged(code, 0, time.number()),
            BeginRecord::By(txn) => put_tagged(code, 1, txn.number()),
        }
    }
}

impl Coded for EndRecord {
    ghost bytes = { end_code };

    fn put(&self, code: &mut Vec<u8>) -> Result<(), OrderFault> {
        match self {
            EndRecord::Until(time) => put_tagged(code, 0, time.number()),
            EndRecord::Lock {
                readers,
                writer,
                no_more,
            } => {
                put_tagged(code, 1, u64::from(*readers))?;
                put_option(code, writer)?;
                no_more.put(code)
            }
        }
    }
}

pub(crate) fn cause_number(cause: Cause) -> u8
    ensures same { result ≡ cause_number cause }
    ensures few { result < 7 }
{
    match cause {
        Cause::Cascade => 0,
        Cause::Conflict => 1,
        Cause::NoMoreReads => 2,
        Cause::ReadersFull => 3,
        Cause::NoMoreWaits => 4,
        Cause::Deadlock => 5,
        Cause::Asked => 6,
    }
}

impl Coded for Event {
    ghost bytes = { event_code };

    fn put(&self, code: &mut Vec<u8>) -> Result<(), OrderFault> {
        code.push(self.kind().opcode())?;
        put_option(code, &self.txn())?;
        put_number(code, self.first())?;
        put_number(code, self.second())
    }
}

fn reply_kind(reply: &Reply) -> u8
    ensures { result ≡ reply_kind reply.now }
{
    match reply {
        Reply::Began(_) => 0,
        Reply::Found(_) => 1,
        Reply::Absent => 2,
        Reply::Rows(_) => 3,
        Reply::Done => 4,
        Reply::Exists => 5,
        Reply::Ready => 6,
        Reply::Waiting(_) => 7,
        Reply::Precommitted(_) => 8,
        Reply::ReleasedRead(_, _) => 9,
        Reply::ReleasedBucket(_) => 10,
        Reply::ReleasedWaiter(_) => 11,
        Reply::Nothing => 12,
        Reply::Committed => 13,
        Reply::WaitingCommits(_) => 14,
        Reply::Failed => 15,
        Reply::StampedBegin(_) => 16,
        Reply::StampedEnd(_) => 17,
        Reply::Left(_) => 18,
        Reply::Over => 19,
        Reply::NoCycle => 20,
        Reply::Victim(_, _) => 21,
        Reply::Aborted(_) => 22,
        Reply::Refused(_) => 23,
    }
}

/// The number that a reply has; 0 if it has none.
fn reply_number(reply: &Reply) -> u64
    ensures { result ≡ reply_number reply.now }
{
    match reply {
        Reply::Found(number)
        | Reply::Waiting(number)
        | Reply::ReleasedBucket(number)
        | Reply::WaitingCommits(number) => *number,
        Reply::Began(time) | Reply::Precommitted(time) => time.number(),
        Reply::ReleasedRead(version, _)
        | Reply::StampedBegin(version)
        | Reply::StampedEnd(version)
        | Reply::Left(version) => version.index(),
        Reply::ReleasedWaiter(txn) | Reply::Victim(txn, _) => txn.number(),
        Reply::Aborted(cause) => u64::from(cause_number(*cause)),
        Reply::Refused(refusal) => refusal.number(),
        _ => 0,
    }
}

fn put_pairs(code: &mut Vec<u8>, reply: &Reply) -> Result<(), OrderFault>
    ensures { OnOk result (code.new.items ≡ code.old.items ++ listed (pair number number) (reply_pairs reply.now)) }
{
    match reply {
        Reply::Rows(pairs) => put_list(code, pairs.items()),
        _ => put_number(code, 0),
    }
}

fn put_members(code: &mut Vec<u8>, reply: &Reply) -> Result<(), OrderFault>
    ensures { OnOk result (code.new.items ≡ code.old.items ++ listed number (reply_members reply.now)) }
{
    match reply {
        Reply::Victim(_, members) => put_list(code, members.items()),
        _ => put_number(code, 0),
    }
}

fn writer_in(reply: &Reply) -> Option<TxnId>
    ensures { result ≡ reply_writer reply.now }
{
    match reply {
        Reply::ReleasedRead(_, writer) => *writer,
        _ => None,
    }
}

impl Coded for Reply {
    ghost bytes = { reply_code };

    fn put(&self, code: &mut Vec<u8>) -> Result<(), OrderFault> {
        put_tagged(code, reply_kind(self), reply_number(self))?;
        put_pairs(code, self)?;
        put_members(code, self)?;
        put_option(code, &writer_in(self))
    }
}

pub(crate) fn level_number(level: Level) -> u8
    ensures { result ≡ level_number level }
{
    match level {
        Level::Serializable => 0,
        Level::Repeatable => 1,
        Level::Snapshot => 2,
    }
}

pub(crate) fn state_number(state: State) -> u8
    ensures { result ≡ state_number state }
{
    match state {
        State::NotBegun => 0,
        State::Active => 1,
        State::Preparing => 2,
        State::Committed => 3,
        State::Terminated => 4,
        State::Aborted(cause) => 5 + cause_number(cause),
    }
}

pub(crate) fn ending_number(ending: Ending) -> u8
    ensures { result ≡ ending_number ending }
{
    match ending {
        Ending::Committed => 0,
        Ending::Unended => 1,
        Ending::Aborted(cause) => 2 + cause_number(cause),
    }
}

impl Coded for WriteEntry {
    ghost bytes = { entry_code };

    fn put(&self, code: &mut Vec<u8>) -> Result<(), OrderFault> {
        match self {
            WriteEntry::BeginOf(version) => put_tagged(code, 0, version.index()),
            WriteEntry::EndOf(version) => put_tagged(code, 1, version.index()),
        }
    }
}

fn stage_kind(stage: Stage) -> u8
    ensures { result ≡ stage_kind stage }
{
    match stage {
        Stage::Start => 0,
        Stage::Working(_) => 1,
        Stage::Preparing => 2,
        Stage::Looking => 3,
        Stage::GivingUp => 4,
        Stage::Releasing(aborted) => { if aborted { 5 } else { 6 } }
        Stage::Committing => 7,
        Stage::Stamping(aborted) => { if aborted { 8 } else { 9 } }
        Stage::Ending => 10,
        Stage::Ended => 11,
    }
}

/// The step at which a transaction is; 0 if it is at none.
fn stage_step(stage: Stage) -> usize
    ensures { result ≡ stage_step stage }
{
    match stage {
        Stage::Working(place) => place,
        _ => 0,
    }
}

impl Coded for Place {
    ghost bytes = { place_code };

    fn put(&self, code: &mut Vec<u8>) -> Result<(), OrderFault> {
        put_tagged(code, stage_kind(self.stage), stage_step(self.stage) as u64)?;
        put_number(code, self.moves as u64)?;
        self.waits.put(code)
    }
}
