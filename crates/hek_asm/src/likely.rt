//! The one event and the one reply that the words of a trace line can be of. Writing them shows if the line is theirs.
ghost use Rattle.std.specs.Prelude.{◌≡◌, ◌≤◌, map, drop, length, IfOk, IfSome, Some, option_copied};
ghost use Rattle.std.specs.List.{position_or_len};
ghost use Rattle.hek_rules.specs.declared.form.ReplyForm.TheVariants as form;
ghost use Rattle.hek_rules.specs.Forms.{all_forms, form_words};
ghost use Rattle.hek_asm.specs.Likely.{number_else_zero, first_value, is_equals, pair_of, has_second, begins, form_among, is_waiting, writer_at, cause_at, refusal_at, plain_reply, reply_from, likely_reply, step_named, likely_event, step_len};
ghost use Rattle.hek_asm.specs.Trace.{NamesDeclared};

use hek_rules::{
    Cause, Event, EventKind, Members, NoMemory, Pairs, Refusal, Reply, ReplyForm, Schedule, Time,
    TxnId, VersionId, number, same_bytes,
};
use std::alloc::Global;

fn value(word: &[u8]) -> u64
    ensures { result ≡ number_else_zero word.now }
{
    number(word).unwrap_or(0)
}

fn first_value(words: &[&[u8]]) -> u64
    ensures { result ≡ first_value (map (λ w. w.now) words.now) }
{
    match words {
        [] => 0,
        [word, ..] => value(word),
    }
}

// The words after the first `count`.
pub(crate) fn behind<'w, 't>(words: &'w [&'t [u8]], count: usize) -> &'w [&'t [u8]]
    ensures { map (λ w. w.now) result.now ≡ drop count (map (λ w. w.now) words.now) }
{
    words.split_at(count.min(words.len())).1
}

// The place of the first '=', or the length.
fn equals_place(word: &[u8]) -> usize
    ensures place { result ≡ position_or_len is_equals word.now }
    ensures within { result ≤ length word.now }
{
    for (i, byte) in word.iter().enumerate() {
        if *byte == b'=' {
            return i;
        }
    }
    word.len()
}

fn pair(word: &[u8]) -> (u64, u64)
    ensures { result ≡ pair_of word.now }
{
    let (key, rest) = word.split_at(equals_place(word));
    match rest {
        [] => (value(key), value(rest)),
        [_, behind @ ..] => (value(key), value(behind)),
    }
}

fn pairs(alloc: Global, words: &[&[u8]]) -> Result<Vec<(u64, u64)>, NoMemory>
    ensures { IfOk result (λ v. v.items ≡ map pair_of (map (λ w. w.now) words.now)) }
{
    let mut pairs = Vec::with_capacity(alloc, words.len())?;
    for word in words {
        pairs.push(pair(word))?;
    }
    Ok(pairs)
}

fn members(alloc: Global, words: &[&[u8]]) -> Result<Vec<TxnId>, NoMemory>
    ensures { IfOk result (λ v. v.items ≡ map number_else_zero (map (λ w. w.now) words.now)) }
{
    let mut members = Vec::new(alloc);
    for word in words {
        members.push(TxnId::new(value(word)))?;
    }
    Ok(members)
}

fn has_second(second: Option<&str>, words: &[&[u8]]) -> bool
    ensures { result ≡ has_second (option_copied second.entry) (map (λ w. w.now) words.now) }
{
    match second {
        None => true,
        Some(second) => match words {
            [] => false,
            [word, ..] => same_bytes(word, second.as_bytes()),
        },
    }
}

// Whether words begin with those of a form.
fn begins(form: ReplyForm, words: &[&[u8]]) -> bool
    ensures { result ≡ begins form (map (λ w. w.now) words.now) }
{
    let [word, rest @ ..] = words else {
        return false;
    };
    same_bytes(word, form.first_word().as_bytes()) && has_second(form.second_word(), rest)
}

// The first of the forms whose words these begin with.
fn form_among(forms: &[ReplyForm], words: &[&[u8]]) -> Option<ReplyForm>
    ensures { result ≡ form_among forms.now (map (λ w. w.now) words.now) }
{
    for form in forms {
        if begins(*form, words) {
            return Some(*form);
        }
    }
    None
}

/// A form that a word tells by its first and its third letter, if they tell one: one of those that begin with that word.
pub(crate) fn form_by_letters(word: &[u8]) -> Option<ReplyForm> {
    let [first, _, third, ..] = word else {
        return None;
    };
    match (*first, *third) {
        (b'a', b's') => Some(ReplyForm::Absent),
        (b'a', _) => Some(ReplyForm::Aborted),
        (b'b', _) => Some(ReplyForm::Began),
        (b'c', _) => Some(ReplyForm::Committed),
        (b'd', _) => Some(ReplyForm::Done),
        (b'e', _) => Some(ReplyForm::Exists),
        (b'f', b'u') => Some(ReplyForm::Found),
        (b'f', _) => Some(ReplyForm::Failed),
        (b'l', _) => Some(ReplyForm::Left),
        (b'n', _) => Some(ReplyForm::Nothing),
        (b'o', _) => Some(ReplyForm::Over),
        (b'p', _) => Some(ReplyForm::Precommitted),
        (b'r', b'a') => Some(ReplyForm::Ready),
        (b'r', b'f') => Some(ReplyForm::Refused),
        (b'r', b'l') => Some(ReplyForm::ReleasedRead),
        (b'r', _) => Some(ReplyForm::Rows),
        (b's', _) => Some(ReplyForm::StampedEnd),
        (b'v', _) => Some(ReplyForm::Victim),
        (b'w', _) => Some(ReplyForm::Waiting),
        _ => None,
    }
}

/// The same with the first letter of the word after.
pub(crate) fn form_by_second(form: ReplyForm, letter: u8) -> ReplyForm {
    match (form, letter) {
        (ReplyForm::ReleasedRead, b'b') => ReplyForm::ReleasedBucket,
        (ReplyForm::ReleasedRead, b'w') => ReplyForm::ReleasedWaiter,
        (ReplyForm::StampedEnd, b'b') => ReplyForm::StampedBegin,
        (ReplyForm::Waiting, b'c') => ReplyForm::WaitingCommits,
        _ => form,
    }
}

// The form that the letters of words tell, if the words begin with those of the form, and no other form comes first.
#[tactic(auto, using(crate::proofs::FormsFirst::form_first))]
fn form_told(words: &[&[u8]]) -> Option<ReplyForm>
    ensures { IfSome result (λ f. form_among all_forms (map (λ w. w.now) words.now) ≡ Some f) }
{
    let [word, rest @ ..] = words else {
        return None;
    };
    let form = form_by_letters(word)?;
    let told = match rest {
        [[letter, ..], ..] => form_by_second(form, *letter),
        _ => form,
    };
    if !is_waiting(told) && begins(told, words) {
        return Some(told);
    }
    None
}

// Whether a form is that of `waiting`, with which the words of another form begin.
fn is_waiting(form: ReplyForm) -> bool
    ensures { result ≡ is_waiting form }
{
    matches!(form, ReplyForm::Waiting)
}

// The first form whose words these begin with.
fn form_at(words: &[&[u8]]) -> Option<ReplyForm>
    ensures { result ≡ form_among all_forms (map (λ w. w.now) words.now) }
{
    if let Some(form) = form_told(words) {
        return Some(form);
    }
    form_among(&ReplyForm::ALL, words)
}

// How many words a form has.
fn form_len(form: ReplyForm) -> usize
    ensures { result ≡ length (form_words form) }
{
    match form.second_word() {
        None => 1,
        Some(_) => 2,
    }
}

fn writer_at(words: &[&[u8]]) -> Option<TxnId>
    ensures { result ≡ writer_at (map (λ w. w.now) words.now) }
{
    match words {
        [_, txn, ..] => Some(TxnId::new(value(txn))),
        _ => None,
    }
}

fn cause_at(words: &[&[u8]]) -> Cause
    ensures { result ≡ cause_at (map (λ w. w.now) words.now) }
{
    match words {
        [] => Cause::Asked,
        [word, ..] => Cause::named(word).unwrap_or(Cause::Asked),
    }
}

fn refusal_at(words: &[&[u8]]) -> Refusal
    ensures { result ≡ refusal_at (map (λ w. w.now) words.now) }
{
    match words {
        [_, name, ..] => Refusal::named(name).unwrap_or(Refusal::ClockFull),
        _ => Refusal::ClockFull,
    }
}

/// The reply of a form with one number or none; of another form any.
pub(crate) fn plain_reply(form: ReplyForm, number: u64) -> Reply
    ensures { result ≡ plain_reply form number }
{
    match form {
        ReplyForm::Began => Reply::Began(Time::new(number)),
        ReplyForm::Found => Reply::Found(number),
        ReplyForm::Done => Reply::Done,
        ReplyForm::Exists => Reply::Exists,
        ReplyForm::Ready => Reply::Ready,
        ReplyForm::Waiting => Reply::Waiting(number),
        ReplyForm::WaitingCommits => Reply::WaitingCommits(number),
        ReplyForm::Precommitted => Reply::Precommitted(Time::new(number)),
        ReplyForm::ReleasedRead => Reply::ReleasedRead(VersionId::new(number), None),
        ReplyForm::ReleasedBucket => Reply::ReleasedBucket(number),
        ReplyForm::ReleasedWaiter => Reply::ReleasedWaiter(TxnId::new(number)),
        ReplyForm::Nothing => Reply::Nothing,
        ReplyForm::Committed => Reply::Committed,
        ReplyForm::Failed => Reply::Failed,
        ReplyForm::StampedBegin => Reply::StampedBegin(VersionId::new(number)),
        ReplyForm::StampedEnd => Reply::StampedEnd(VersionId::new(number)),
        ReplyForm::Left => Reply::Left(VersionId::new(number)),
        ReplyForm::Over => Reply::Over,
        ReplyForm::NoCycle => Reply::NoCycle,
        ReplyForm::Absent
        | ReplyForm::Rows
        | ReplyForm::Victim
        | ReplyForm::Aborted
        | ReplyForm::Refused => Reply::Absent,
    }
}

fn victim(alloc: Global, words: &[&[u8]]) -> Result<Reply, NoMemory>
    ensures { IfOk result (λ r. r ≡ reply_from form.Victim (map (λ w. w.now) words.now)) }
{
    let txn = TxnId::new(first_value(words));
    let members = members(alloc, behind(words, 2))?;
    Ok(Reply::Victim(txn, Members::new(Box::new(alloc, members)?)))
}

// The reply of a form with these words after those of the form.
fn reply_from(alloc: Global, form: ReplyForm, words: &[&[u8]]) -> Result<Reply, NoMemory>
    ensures { IfOk result (λ r. r ≡ reply_from form (map (λ w. w.now) words.now)) }
{
    match form {
        ReplyForm::Rows => Ok(Reply::Rows(Pairs::new(pairs(alloc, words)?))),
        ReplyForm::Victim => victim(alloc, words),
        ReplyForm::ReleasedRead => {
            let version = VersionId::new(first_value(words));
            Ok(Reply::ReleasedRead(version, writer_at(behind(words, 1))))
        }
        ReplyForm::Aborted => Ok(Reply::Aborted(cause_at(words))),
        ReplyForm::Refused => Ok(Reply::Refused(refusal_at(words))),
        _ => Ok(plain_reply(form, first_value(words))),
    }
}

/// The only reply that these words can be.
#[tactic(auto, unfolding(crate::specs::Likely::likely_reply))]
pub(crate) fn likely_reply(alloc: Global, words: &[&[u8]]) -> Result<Reply, NoMemory>
    ensures { IfOk result (λ r. r ≡ likely_reply (map (λ w. w.now) words.now)) }
{
    match form_at(words) {
        None => Ok(Reply::Absent),
        Some(form) => reply_from(alloc, form, behind(words, form_len(form))),
    }
}

#[tactic(auto, unfolding(crate::specs::Likely::step_named))]
fn step_named(schedule: &Schedule, name: &[u8], words: &[&[u8]]) -> Option<Event>
    ensures value { result ≡ step_named schedule.now name.now (map (λ w. w.now) words.now) }
    ensures declared { IfSome result (NamesDeclared (length schedule.now.txns)) }
{
    let [word, rest @ ..] = words else {
        return None;
    };
    let Some(kind) = EventKind::named(word) else {
        return None;
    };
    let Some(txn) = schedule.id_of(name) else {
        return None;
    };
    let first = first_value(rest);
    let second = first_value(behind(rest, 1));
    Some(kind.event(txn, first, second))
}

/// The only event that the words can begin with.
#[tactic(auto, unfolding(crate::specs::Likely::likely_event))]
pub(crate) fn likely_event(schedule: &Schedule, words: &[&[u8]]) -> Option<Event>
    ensures value { result ≡ likely_event schedule.now (map (λ w. w.now) words.now) }
    ensures declared { IfSome result (NamesDeclared (length schedule.now.txns)) }
{
    let [word, rest @ ..] = words else {
        return None;
    };
    if same_bytes(word, b"detect") {
        return Some(Event::Detect);
    }
    step_named(schedule, word, rest)
}

/// How many words a step has.
pub(crate) fn step_len(event: &Event) -> usize
    ensures { result ≡ step_len event.now }
{
    let kind = event.kind();
    match event.txn() {
        None => 1 + kind.operand_count(),
        Some(_) => 2 + kind.operand_count(),
    }
}
