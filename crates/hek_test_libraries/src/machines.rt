//! Machines that no schedule's run comes to: from another first clock, copied, and asked of transactions that nobody declared.
use crate::asserts::{holds, is};
use hek_asm::assemble_text;
use hek_machine::{Machine, run_at};
use hek_rules::{Event, Refusal, Reply, Schedule, Time, TxnId};
use std::alloc::Global;
use std::process::Abort;

fn schedule(rt: &impl Abort, alloc: Global) -> Schedule {
    let text = "buckets 3\nrow 10 100\nrow 11 110\ntxn a serializable\ntxn b repeatable\n";
    assemble_text(alloc, text).expect(rt, "a schedule")
}

fn begins(machine: &mut Machine, txn: u64) -> Option<Reply> {
    machine.step(Event::Begin(TxnId::new(txn))).ok()
}

fn is_reply(rt: &impl Abort, given: Option<Reply>, wanted: Reply) {
    match given {
        Some(reply) => holds(rt, reply.same(&wanted)),
        None => holds(rt, false),
    }
}

#[test]
fn the_last_clock_takes_one_begin(rt: HostRuntime) {
    let (schedule, last) = (schedule(&rt, rt.alloc()), Time::new((1 << 63) - 3));
    let mut machine = Machine::load_at(rt.alloc(), &schedule, last).expect(&rt, "a machine");
    is_reply(&rt, begins(&mut machine, 1), Reply::Began(last));
    is_reply(
        &rt,
        begins(&mut machine, 2),
        Reply::Refused(Refusal::ClockFull),
    );
    is(&rt, machine.clock(), Time::new((1 << 63) - 2));
    let events = [Event::Begin(TxnId::new(1)), Event::Begin(TxnId::new(2))];
    let trace = run_at(rt.alloc(), &schedule, last, &events).expect(&rt, "a run");
    is(
        &rt,
        (trace.replies.len(), trace.machine.clock()),
        (2, machine.clock()),
    );
}

#[test]
fn a_copy_goes_its_own_way(rt: HostRuntime) {
    let mut machine = Machine::load(rt.alloc(), &schedule(&rt, rt.alloc())).expect(&rt, "memory");
    is_reply(&rt, begins(&mut machine, 1), Reply::Began(Time::new(1)));
    let mut copy = machine.copy().expect(&rt, "memory");
    is_reply(&rt, begins(&mut copy, 2), Reply::Began(Time::new(2)));
    is(
        &rt,
        (machine.clock(), copy.clock()),
        (Time::new(2), Time::new(3)),
    );
    is_reply(
        &rt,
        begins(&mut machine, 1),
        Reply::Refused(Refusal::BegunTwice),
    );
    is(
        &rt,
        (machine.buckets(), machine.txns(), machine.versions()),
        (3, 2, 2),
    );
    let rows = machine.rows().expect(&rt, "memory");
    is(&rt, rows.items(), [(10, 100), (11, 110)].as_slice());
}

#[test]
fn nobody_undeclared_is_known(rt: HostRuntime) {
    let mut machine = Machine::load(rt.alloc(), &schedule(&rt, rt.alloc())).expect(&rt, "memory");
    holds(&rt, machine.is_declared(TxnId::new(2)));
    for number in [0, 3, 9] {
        holds(&rt, !machine.is_declared(TxnId::new(number)));
        let reply = machine.step(Event::Read(TxnId::new(number), 10)).ok();
        is_reply(&rt, reply, Reply::Refused(Refusal::UnknownTxn));
    }
}
