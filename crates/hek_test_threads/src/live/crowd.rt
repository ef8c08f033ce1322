//! Eight threads on 16 words.
ghost use Rattle.std.specs.Prelude.{◌≡◌, ◌<◌, true};
ghost use Rattle.hek_live.specs.Ends.{word_count_of, table_id_of, seat_table, view_of};

use crate::live::support::{is, made};
use crate::live::worker::{WORDS, Worker, start};
use hek_live::{LiveWords, Seat};
use hek_rules::TxnId;
use hek_word::EndWord;
use std::alloc::{AllocError, Global};
use std::process::Abort;
use std::test::Fail;
use std::thread::map_vec;

const WORKERS: u64 = 8;

/// How often each worker takes tokens.
const TURNS: usize = 100_000;

// A try fails only where another thread has changed the word, and all others together make fewer changes than this: two
// tokens taken and given up at each of their turns. So a worker that tries so often wins, whatever the schedule.
const TRIES: u32 = 3_000_000;

// A worker for each ID from 1.
fn workers<'a>(
    alloc: Global,
    words: &'a LiveWords,
    maker: &mut Seat,
) -> Result<Vec<Worker<'a>>, AllocError>
    requires own { seat_table maker.old ≡ table_id_of words.now }
    requires words { word_count_of words.now ≡ 16 }
    requires makes { (view_of maker.old).makes ≡ true }
    ensures { seat_table maker.new ≡ seat_table maker.old }
{
    let mut all = Vec::new(alloc);
    for id in 1..=WORKERS {
        let seat = words.split(maker);
        all.push(start(words, seat, TxnId::new(id)))?;
    }
    Ok(all)
}

// Takes tokens and gives them up again, turn after turn.
fn takes_and_gives_up(mut worker: Worker<'_>) -> bool {
    let shift = (worker.id().number() % 16) as usize;
    for turn in 0..TURNS {
        let read = (7 * turn + shift) % WORDS;
        let write = (5 * turn + 3 * shift) % WORDS;
        worker.read(read);
        worker.write(write);
        if !(worker.free(read, TRIES) && worker.free(write, TRIES)) {
            return false;
        }
    }
    true
}

// Each word is infinity.
fn assert_free(rt: &impl Abort, words: &LiveWords, seat: &mut Seat)
    requires own { seat_table seat.old ≡ table_id_of words.now }
    requires words { word_count_of words.now ≡ 16 }
    ensures { seat_table seat.new ≡ seat_table seat.old }
{
    for word in 0..WORDS {
        is(rt, words.look(seat, word), EndWord::infinity());
    }
}

#[test]
fn eight_threads_leave_every_word_free(rt: HostRuntime) -> Result<(), Fail> {
    let (words, mut maker) = made(&rt, rt.alloc(), WORDS);
    let workers = workers(rt.alloc(), &words, &mut maker)?;
    let all_free = map_vec(&rt, workers, &|worker| takes_and_gives_up(worker))?;
    is(&rt, all_free.len(), 8);
    for free in &all_free {
        assert!(rt; *free);
    }
    assert_free(&rt, &words, &mut maker);
    Ok(())
}

// Takes what tokens it gets, and gives up the read tokens of every third word.
fn takes_some(mut worker: Worker<'_>) -> Worker<'_> {
    for word in 0..WORDS {
        worker.read(word);
        worker.write(word);
        if word % 3 == 0 {
            worker.drop_read(word);
        }
    }
    worker
}

fn gives_all_up(mut worker: Worker<'_>) -> bool {
    for word in 0..WORDS {
        if !worker.free(word, TRIES) {
            return false;
        }
    }
    true
}

// How many of the workers hold the read token of the word.
fn readers(workers: &[Worker<'_>], word: usize) -> u64
    requires { word < 16 }
{
    let mut readers: u64 = 0;
    for worker in workers {
        if worker.reads(word) {
            readers = readers.wrapping_add(1);
        }
    }
    readers
}

// The last of the workers who holds the write token of the word.
fn writer(workers: &[Worker<'_>], word: usize) -> Option<TxnId>
    requires { word < 16 }
{
    let mut writer = None;
    for worker in workers {
        if worker.writes(word) {
            writer = Some(worker.id());
        }
    }
    writer
}

// Each word says who holds its tokens.
fn assert_counted(rt: &impl Abort, words: &LiveWords, seat: &mut Seat, workers: &[Worker<'_>])
    requires own { seat_table seat.old ≡ table_id_of words.now }
    requires words { word_count_of words.now ≡ 16 }
    ensures { seat_table seat.new ≡ seat_table seat.old }
{
    for word in 0..WORDS {
        let found = words.look(seat, word);
        is(rt, u64::from(found.readers()), readers(workers, word));
        is(rt, found.writer(), writer(workers, word));
    }
}

// The tokens that the workers hold once all have taken theirs, counted.
#[test]
fn words_count_the_tokens_held(rt: HostRuntime) -> Result<(), Fail> {
    let (words, mut maker) = made(&rt, rt.alloc(), WORDS);
    let workers = workers(rt.alloc(), &words, &mut maker)?;
    let workers = map_vec(&rt, workers, &|worker| takes_some(worker))?;
    assert_counted(&rt, &words, &mut maker, workers.as_slice());
    let all_free = map_vec(&rt, workers, &|worker| gives_all_up(worker))?;
    for free in &all_free {
        assert!(rt; *free);
    }
    assert_free(&rt, &words, &mut maker);
    Ok(())
}
