//! Two threads, each of which meets the other's writer.
ghost use Rattle.std.specs.Prelude.{◌≡◌, ◌≢◌, ◌<◌};
ghost use Rattle.hek_rules.specs.Words.{IsTxn};
ghost use Rattle.hek_live.specs.Tokens.{newcomer};
ghost use Rattle.hek_live.specs.Ends.{word_count_of, table_id_of, seat_table, view_of};

use crate::live::support::{is, made};
use hek_live::{DropWrite, LiveWords, Seat, TryWrite};
use hek_rules::TxnId;
use hek_word::EndWord;
use std::sync::{Barrier, Wait};
use std::thread::{Threads, join};

// What a thread was answered: to its own word, to the other's, and as it gave its own up.
type Answers = (TryWrite, TryWrite, Option<DropWrite>);

// Takes the write token of `mine` under `id`, finds the other's, and gives its own up.
fn crosses<R: Wait>(
    rt: &R,
    words: &LiveWords,
    mut seat: Seat,
    barrier: &Barrier,
    mine: usize,
    other: usize,
    id: TxnId,
) -> Answers
    requires own { (seat_table seat ≡ table_id_of words.now) × (view_of seat ≡ newcomer) }
    requires words { (mine < word_count_of words.now) × (other < word_count_of words.now) × (mine ≢ other) }
    requires id { IsTxn id }
{
    let taken = words.try_write(&mut seat, mine, id);
    barrier.wait(rt);
    let TryWrite::Written(_) = taken else {
        barrier.wait(rt);
        let again = taken;
        return (taken, again, None);
    };
    let found = words.try_write(&mut seat, other, id);
    barrier.wait(rt);
    let TryWrite::Writer(_) = found else {
        return (taken, found, None);
    };
    let dropped = words.drop_write(&mut seat, mine);
    (taken, found, Some(dropped))
}

fn both_cross<R: Threads + Wait + Sync>(
    rt: &R,
    words: &LiveWords,
    one: Seat,
    two: Seat,
) -> (Answers, Answers)
    requires one { (seat_table one ≡ table_id_of words.now) × (view_of one ≡ newcomer) }
    requires two { (seat_table two ≡ table_id_of words.now) × (view_of two ≡ newcomer) }
    requires words { word_count_of words.now ≡ 2 }
{
    let barrier = Barrier::new(2);
    let (first, second) = (TxnId::new(1), TxnId::new(2));
    join(
        rt,
        || crosses(rt, words, one, &barrier, 0, 1, first),
        || crosses(rt, words, two, &barrier, 1, 0, second),
    )
}

// The answers to a thread that meets this writer.
fn crossed(writer: u64) -> Answers {
    let met = TryWrite::Writer(TxnId::new(writer));
    (TryWrite::Written(0), met, Some(DropWrite::Dropped))
}

#[test]
fn two_threads_meet(rt: HostRuntime) {
    let (words, mut looks) = made(&rt, rt.alloc(), 2);
    let one = words.split(&mut looks);
    let two = words.split(&mut looks);
    let (first, second) = both_cross(&rt, &words, one, two);
    is(&rt, first, crossed(2));
    is(&rt, second, crossed(1));
    is(&rt, words.look(&mut looks, 0), EndWord::infinity());
    is(&rt, words.look(&mut looks, 1), EndWord::infinity());
}
