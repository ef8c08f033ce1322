//! A run of the machine as a log.
use hek_history::Status;
use hek_rules::{Event, Level, NoMemory, Reply, Schedule, Transcript, TxnId};
use json::Writer;
use std::alloc::Global;
use std::mem;

/// What a run says of a transaction: how it ended, its times, and the places of its events.
#[derive(Drop)]
struct Course {
    status: Status,
    begin: Option<u64>,
    end: Option<u64>,
    places: Vec<usize>,
}

/// Appends the log of a run: the opening line, and a line for each transaction that began, in the order of the
/// schedule. A transaction that has neither committed nor aborted is unknown. An operation that was refused, or that
/// aborted its transaction, is left out. After NoMemory nothing is said of the lines.
pub fn write_run(
    alloc: Global,
    schedule: &Schedule,
    transcript: &Transcript,
    lines: &mut Vec<u8>,
) -> Result<(), NoMemory> {
    let courses = courses_of(alloc, transcript)?;
    put_opening(alloc, transcript, lines)?;
    for (place, course) in courses.iter().enumerate() {
        if course.begin.is_some() {
            let txn = TxnId::new((place as u64).saturating_add(1));
            put_transaction(alloc, schedule, transcript, txn, course, lines)?;
        }
    }
    Ok(())
}

fn courses_of(alloc: Global, transcript: &Transcript) -> Result<Vec<Course>, NoMemory> {
    let mut courses = Vec::with_capacity(alloc, transcript.txn_count())?;
    for _ in 0..transcript.txn_count() {
        courses.push(Course {
            status: Status::Unknown,
            begin: None,
            end: None,
            places: Vec::new(alloc),
        })?;
    }
    let events = transcript.events();
    for (place, reply) in transcript.replies().iter().enumerate() {
        if let Some(event) = events.get(place) {
            note(&mut courses, place, *event, reply)?;
        }
    }
    Ok(courses)
}

/// Notes an event with its reply.
fn note(
    courses: &mut Vec<Course>,
    place: usize,
    event: Event,
    reply: &Reply,
) -> Result<(), NoMemory> {
    if let Reply::Victim(txn, _) = reply {
        if let Some(course) = course_of(courses, *txn) {
            course.status = Status::Aborted;
        }
    }
    let Some(txn) = event.txn() else {
        return Ok(());
    };
    match course_of(courses, txn) {
        Some(course) => note_own(course, place, reply),
        None => Ok(()),
    }
}

fn note_own(course: &mut Course, place: usize, reply: &Reply) -> Result<(), NoMemory> {
    match reply {
        Reply::Began(time) => course.begin = Some(time.number()),
        Reply::Precommitted(time) => course.end = Some(time.number()),
        Reply::Committed => course.status = Status::Committed,
        Reply::Aborted(_) | Reply::Failed => course.status = Status::Aborted,
        Reply::Found(_) | Reply::Absent | Reply::Rows(_) | Reply::Done | Reply::Exists => {
            course.places.push(place)?;
        }
        _ => {}
    }
    Ok(())
}

fn course_of(courses: &mut Vec<Course>, txn: TxnId) -> Option<&mut Course> {
    let place = txn.number().checked_sub(1)?;
    courses.get_mut(place as usize)
}

/// Appends the opening line: how many buckets there are, and the loaded rows.
fn put_opening(
    alloc: Global,
    transcript: &Transcript,
    lines: &mut Vec<u8>,
) -> Result<(), NoMemory> {
    let mut line = Writer::new(mem::replace(lines, Vec::new(alloc)));
    line.begin_object()?;
    line.key("buckets")?;
    line.u64(transcript.buckets())?;
    line.key("rows")?;
    put_pairs(transcript.rows(), &mut line)?;
    line.end_object()?;
    *lines = line.into_inner();
    lines.push(b'\n')?;
    Ok(())
}

/// Appends the line of a transaction.
fn put_transaction(
    alloc: Global,
    schedule: &Schedule,
    transcript: &Transcript,
    txn: TxnId,
    course: &Course,
    lines: &mut Vec<u8>,
) -> Result<(), NoMemory> {
    let mut line = Writer::new(mem::replace(lines, Vec::new(alloc)));
    line.begin_object()?;
    put_course(schedule, txn, course, &mut line)?;
    line.key("ops")?;
    put_operations(transcript, course.places.as_slice(), &mut line)?;
    line.end_object()?;
    *lines = line.into_inner();
    lines.push(b'\n')?;
    Ok(())
}

/// The name, level, status and times of a transaction.
fn put_course(
    schedule: &Schedule,
    txn: TxnId,
    course: &Course,
    line: &mut Writer,
) -> Result<(), NoMemory> {
    let (name, level) = declared(schedule, txn);
    put_text("txn", name, line)?;
    put_text("level", level.word(), line)?;
    put_text("status", status_word(course.status), line)?;
    put_time("begin", course.begin, line)?;
    put_time("end", course.end, line)
}

/// The name and level of a transaction, if the schedule declares it.
fn declared(schedule: &Schedule, txn: TxnId) -> (&str, Level) {
    if txn.number() > 0 && txn.number() <= schedule.txn_count() as u64 {
        (schedule.name_of(txn), schedule.level_of(txn))
    } else {
        ("", Level::Serializable)
    }
}

fn status_word(status: Status) -> &'static str {
    match status {
        Status::Committed => "committed",
        Status::Aborted => "aborted",
        Status::Unknown => "unknown",
    }
}

fn put_text(name: &str, text: &str, line: &mut Writer) -> Result<(), NoMemory> {
    line.key(name)?;
    line.string(text)?;
    Ok(())
}

fn put_time(name: &str, time: Option<u64>, line: &mut Writer) -> Result<(), NoMemory> {
    if let Some(time) = time {
        line.key(name)?;
        line.u64(time)?;
    }
    Ok(())
}

fn put_operations(
    transcript: &Transcript,
    places: &[usize],
    line: &mut Writer,
) -> Result<(), NoMemory> {
    line.begin_array()?;
    for place in places {
        let event = transcript.events().get(*place);
        let reply = transcript.replies().get(*place);
        if let (Some(event), Some(reply)) = (event, reply) {
            put_operation(*event, reply, line)?;
        }
    }
    line.end_array()?;
    Ok(())
}

fn put_operation(event: Event, reply: &Reply, line: &mut Writer) -> Result<(), NoMemory> {
    let done = matches!(reply, Reply::Done);
    match event {
        Event::Read(_, key) => put_read(key, reply, line),
        Event::Scan(_, bucket) => put_scan(bucket, reply, line),
        Event::Insert(_, key, value) | Event::Update(_, key, value) => {
            put_write(event.kind().word(), key, Some(value), done, line)
        }
        Event::Delete(_, key) => put_write(event.kind().word(), key, None, done, line),
        Event::Begin(_)
        | Event::Finish(_)
        | Event::Precommit(_)
        | Event::Release(_)
        | Event::Commit(_)
        | Event::Fail(_)
        | Event::Stamp(_)
        | Event::End(_)
        | Event::Detect => Ok(()),
    }
}

/// `["update",KEY,VALUE,true]`, or without a value.
fn put_write(
    kind: &str,
    key: u64,
    value: Option<u64>,
    done: bool,
    line: &mut Writer,
) -> Result<(), NoMemory> {
    line.begin_array()?;
    line.string(kind)?;
    line.u64(key)?;
    if let Some(value) = value {
        line.u64(value)?;
    }
    line.boolean(done)?;
    line.end_array()?;
    Ok(())
}

/// `["read",KEY,VALUE]`, the value null if the key is absent.
fn put_read(key: u64, reply: &Reply, line: &mut Writer) -> Result<(), NoMemory> {
    line.begin_array()?;
    line.string("read")?;
    line.u64(key)?;
    match reply {
        Reply::Found(value) => line.u64(*value)?,
        _ => line.null()?,
    }
    line.end_array()?;
    Ok(())
}

/// `["scan",BUCKET,[[KEY,VALUE],..]]`.
fn put_scan(bucket: u64, reply: &Reply, line: &mut Writer) -> Result<(), NoMemory> {
    line.begin_array()?;
    line.string("scan")?;
    line.u64(bucket)?;
    match reply {
        Reply::Rows(pairs) => put_pairs(pairs.items(), line)?,
        _ => put_pairs(&[], line)?,
    }
    line.end_array()?;
    Ok(())
}

fn put_pairs(pairs: &[(u64, u64)], line: &mut Writer) -> Result<(), NoMemory> {
    line.begin_array()?;
    for (key, value) in pairs {
        line.begin_array()?;
        line.u64(*key)?;
        line.u64(*value)?;
        line.end_array()?;
    }
    line.end_array()?;
    Ok(())
}
