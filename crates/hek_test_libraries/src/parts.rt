//! Orders that several threads play.
use crate::asserts::{holds, is};
use hek_asm::assemble_text;
use hek_explore::{Key, Survey, explore_in_threads, key_after};
use hek_permute::{Form, Outcome, Tally, Watch, moves_of, play_all, play_parts};
use hek_rules::{Schedule, TxnId};
use std::alloc::Global;
use std::process::Abort;
use std::test::Fail;
use std::thread::Threads;

/// Each transaction has three moves and the one that ends it, so that there are 8! / (4! 4!) = 70 orders.
const WRITE_SKEW: &str = "buckets 2
row 10 1
row 11 1
txn a repeatable
txn b repeatable
a read 10
a read 11
a update 10 0
b read 10
b read 11
b update 11 0
";

#[derive(Drop)]
struct Unwatched;

impl Watch for Unwatched {
    fn see(&mut self, _order: &[TxnId], _outcome: &Outcome) -> bool {
        true
    }
}

fn of_one(rt: &impl Abort, alloc: Global, schedule: &Schedule, from: u64, to: u64) -> Tally {
    play_all(alloc, schedule, &[], Form::Whole, from, to, &mut Unwatched).expect(rt, "a tally")
}

fn of_jobs<R: Abort + Threads + Sync>(
    rt: &R,
    alloc: Global,
    schedule: &Schedule,
    from: u64,
    to: u64,
    jobs: u64,
) -> Tally {
    play_parts(rt, alloc, schedule, &[], Form::Whole, from, to, jobs).expect(rt, "a tally")
}

/// Is told how far an exploration has come, and forgets it.
#[derive(Drop)]
struct Untold;

impl Survey for Untold {
    fn begin(&mut self, _moves: u64) {}

    fn count_play(&mut self) {}

    fn end_layer(&mut self, _states: usize) {}
}

fn of_states<R: Abort + Threads + Sync>(
    rt: &R,
    alloc: Global,
    schedule: &Schedule,
    jobs: u64,
) -> Tally {
    explore_in_threads(
        rt,
        jobs,
        alloc,
        schedule,
        &[],
        Form::Whole,
        1_000,
        &mut Untold,
    )
    .expect(rt, "a count")
    .expect(rt, "few states")
}

fn orders_in(tally: &Tally) -> u64 {
    let mut count = 0u64;
    for row in tally.rows() {
        count = count.saturating_add(row.orders());
    }
    count
}

// The two have the same rows.
fn assert_equal(rt: &impl Abort, got: &Tally, want: &Tally) {
    is(rt, got.rows().len(), want.rows().len());
    for (row, other) in got.rows().iter().zip(want.rows()) {
        holds(rt, row.outcome().same(other.outcome()));
        is(
            rt,
            (row.orders(), row.waited()),
            (other.orders(), other.waited()),
        );
        is(rt, row.first(), other.first());
    }
}

#[test]
fn three_jobs_count_as_one(rt: HostRuntime) {
    let schedule = assemble_text(rt.alloc(), WRITE_SKEW).expect(&rt, "a schedule");
    let want = of_one(&rt, rt.alloc(), &schedule, 0, 70);
    is(&rt, orders_in(&want), 70);
    for jobs in [0, 1, 2, 3, 100] {
        let got = of_jobs(&rt, rt.alloc(), &schedule, 0, 70, jobs);
        assert_equal(&rt, &got, &want);
    }
}

#[test]
fn three_jobs_count_states_as_one_plays_orders(rt: HostRuntime) {
    let schedule = assemble_text(rt.alloc(), WRITE_SKEW).expect(&rt, "a schedule");
    let want = of_one(&rt, rt.alloc(), &schedule, 0, 70);
    for jobs in [0, 1, 2, 3, 100] {
        let got = of_states(&rt, rt.alloc(), &schedule, jobs);
        assert_equal(&rt, &got, &want);
    }
}

#[test]
fn three_jobs_play_a_part(rt: HostRuntime) {
    let schedule = assemble_text(rt.alloc(), WRITE_SKEW).expect(&rt, "a schedule");
    for (from, to) in [(3, 50), (50, 3), (60, 90)] {
        let want = of_one(&rt, rt.alloc(), &schedule, from, to);
        let got = of_jobs(&rt, rt.alloc(), &schedule, from, to, 3);
        assert_equal(&rt, &got, &want);
    }
}

fn key_of(rt: &impl Abort, alloc: Global, schedule: &Schedule, numbers: &[u64]) -> Key {
    let moves = moves_of(alloc, schedule, &[]).expect(rt, "moves");
    let mut order = Vec::new(alloc);
    for number in numbers {
        holds(rt, order.push(TxnId::new(*number)).is_ok());
    }
    key_after(
        alloc,
        schedule,
        moves.as_slice(),
        Form::Whole,
        order.as_slice(),
    )
    .expect(rt, "a key")
}

#[test]
fn reads_lead_to_one_state_in_either_order(rt: HostRuntime) {
    let alloc = rt.alloc();
    let schedule = assemble_text(alloc, WRITE_SKEW).expect(&rt, "a schedule");
    let first = key_of(&rt, alloc, &schedule, &[1, 2]);
    holds(&rt, first.same(&key_of(&rt, alloc, &schedule, &[2, 1])));
    holds(&rt, !first.same(&key_of(&rt, alloc, &schedule, &[1, 1])));
    holds(&rt, !first.same(&key_of(&rt, alloc, &schedule, &[1, 2, 1])));
}
