//! Lists of points and steps over small logs, at levels.
use hek_history::{Point, Status};
use hek_levels::{
    Asked, Change, Level, Log, Need, Place, Read, Transaction, Turn, Writer, explains_by_points,
};
use hek_levels_refutation::{Step, refutes};
use std::alloc::{AllocError, Global};
use std::test::Fail;

/// A committed transaction that reads a key and writes one, the version that it writes with this number.
fn transaction(
    alloc: Global,
    read: (u64, u64),
    write: (u64, u64),
    version: u64,
) -> Result<Transaction, AllocError> {
    let read = Read {
        operation: 0,
        key: read.0,
        need: Need::Value(read.1),
    };
    let change = Change {
        key: write.0,
        value: Some(write.1),
    };
    let turn = Turn {
        lane: 0,
        first: version,
        last: version,
        seen: false,
    };
    Ok(Transaction {
        status: Status::Committed,
        fits: true,
        turns: Vec::from_array(alloc, [turn])?,
        reads: Vec::from_array(alloc, [read])?,
        scans: Vec::new(alloc),
        writes: Vec::from_array(alloc, [change])?,
        passing: Vec::new(alloc),
    })
}

/// Two transactions over two rows.
fn log(alloc: Global, first: Transaction, second: Transaction) -> Result<Log, AllocError> {
    Ok(Log {
        rows: [(10, 1), (11, 1)].to_vec(alloc)?,
        transactions: Vec::from_array(alloc, [first, second])?,
    })
}

/// Each reads what the other overwrites.
fn skew(alloc: Global) -> Result<Log, AllocError> {
    let first = transaction(alloc, (10, 1), (11, 0), 1)?;
    let second = transaction(alloc, (11, 1), (10, 2), 1)?;
    log(alloc, first, second)
}

/// The reader is before the writer, since it found the opening value of the key that the other writes. The claims before are so many.
fn overwritten(reader: usize, writer: usize, shown: usize) -> [Step; 9] {
    let place = Place::Listed(0);
    [
        Step::First { second: writer },
        Step::Start {
            reader,
            place,
            taken: None,
        },
        Step::Skip {
            from: shown.saturating_add(1),
            number: 0,
        },
        Step::Only {
            from: shown.saturating_add(2),
        },
        Step::AssumeBefore {
            first: Writer::Transaction(writer),
            second: Writer::Transaction(reader),
        },
        Step::Whole {
            before: shown.saturating_add(4),
            place,
            taken: None,
        },
        Step::Newest {
            visible: shown.saturating_add(5),
            source: shown.saturating_add(3),
        },
        Step::Chain {
            first: shown.saturating_add(6),
            second: shown,
        },
        Step::Contra {
            premise: shown.saturating_add(7),
        },
    ]
}

#[test]
fn skew_is_refuted(rt: HostRuntime) -> Result<(), Fail> {
    let alloc = rt.alloc();
    let log = skew(alloc)?;
    let mut steps = Vec::new(alloc);
    for step in overwritten(0, 1, 0) {
        steps.push(step)?;
    }
    for step in overwritten(1, 0, 5) {
        steps.push(step)?;
    }
    steps.push(Step::Chain {
        first: 4,
        second: 9,
    })?;
    let serializable = Asked::All(Level::Serializable.rules());
    assert!(rt; !refutes(alloc, &serializable, &log, steps.as_slice())?);
    steps.push(Step::Contra { premise: 10 })?;
    assert!(rt; refutes(alloc, &serializable, &log, steps.as_slice())?);
    let snapshot = Asked::All(Level::Snapshot.rules());
    assert!(rt; !refutes(alloc, &snapshot, &log, steps.as_slice())?);
    Ok(())
}

#[test]
fn skew_is_explained_by_snapshots(rt: HostRuntime) -> Result<(), Fail> {
    let alloc = rt.alloc();
    let log = skew(alloc)?;
    let (b0, c0, b1, c1) = (
        Point::Begin(0),
        Point::Commit(0),
        Point::Begin(1),
        Point::Commit(1),
    );
    let both = [b0, b1, c0, c1];
    let snapshot = Asked::All(Level::Snapshot.rules());
    assert!(rt; explains_by_points(alloc, &snapshot, &log, both.as_slice())?);
    assert!(rt; !explains_by_points(alloc, &snapshot, &log, [b0, c0, b1, c1].as_slice())?);
    assert!(rt; !explains_by_points(alloc, &snapshot, &log, [b0, b1, c0].as_slice())?);
    let serializable = Asked::All(Level::Serializable.rules());
    assert!(rt; !explains_by_points(alloc, &serializable, &log, both.as_slice())?);
    Ok(())
}

#[test]
fn turns_are_kept(rt: HostRuntime) -> Result<(), Fail> {
    let alloc = rt.alloc();
    let first = transaction(alloc, (10, 1), (11, 5), 2)?;
    let second = transaction(alloc, (10, 1), (11, 6), 1)?;
    let log = log(alloc, first, second)?;
    let serializable = Asked::All(Level::Serializable.rules());
    let by_turns = [
        Point::Begin(1),
        Point::Commit(1),
        Point::Begin(0),
        Point::Commit(0),
    ];
    assert!(rt; explains_by_points(alloc, &serializable, &log, by_turns.as_slice())?);
    let turned = [
        Point::Begin(0),
        Point::Commit(0),
        Point::Begin(1),
        Point::Commit(1),
    ];
    assert!(rt; !explains_by_points(alloc, &serializable, &log, turned.as_slice())?);
    Ok(())
}
