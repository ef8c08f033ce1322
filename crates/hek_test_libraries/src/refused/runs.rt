//! Runs that were worked out on paper: how each opens, and its trace.

/// The rows and transactions of a run, and its trace.
pub(crate) struct Run {
    pub(crate) opening: &'static str,
    pub(crate) trace: &'static str,
}

const REPEATABLE: &str =
    "buckets 1\nrow 10 100\ntxn a repeatable\ntxn b repeatable\ntxn c repeatable\n";

const SERIALIZABLE: &str =
    "buckets 1\nrow 10 100\ntxn a serializable\ntxn b serializable\ntxn c serializable\n";

pub(crate) const RUNS: &[Run] = &[
    // read-and-written
    Run {
        opening: REPEATABLE,
        trace: "1 a begin -> began 1
2 b begin -> began 2
3 a read 10 -> found 100
4 b update 10 200 -> done
5 a finish -> ready
6 a precommit -> precommitted 3
7 a release -> released read 0 writer 2
",
    },
    // late-reader
    Run {
        opening: REPEATABLE,
        trace: "1 a begin -> began 1
2 b begin -> began 2
3 a read 10 -> found 100
4 b update 10 200 -> done
5 a finish -> ready
6 a precommit -> precommitted 3
7 a release -> released read 0 writer 2
8 c begin -> began 4
9 c read 10 -> aborted no-more-reads
",
    },
    // preparing-writer
    Run {
        opening: REPEATABLE,
        trace: "1 a begin -> began 1
2 b begin -> began 2
3 a read 10 -> found 100
4 b update 10 200 -> done
5 a finish -> ready
6 a precommit -> precommitted 3
7 a release -> released read 0 writer 2
8 b finish -> ready
9 b precommit -> precommitted 4
10 c begin -> began 5
11 c read 10 -> found 200
",
    },
    // finished-writer
    Run {
        opening: REPEATABLE,
        trace: "1 b begin -> began 1
2 b update 10 200 -> done
3 b finish -> ready
4 c begin -> began 2
5 c read 10 -> aborted no-more-waits
",
    },
    // later-readers
    Run {
        opening: REPEATABLE,
        trace: "1 b begin -> began 1
2 b update 10 200 -> done
3 c begin -> began 2
4 c read 10 -> found 100
5 a begin -> began 3
6 a read 10 -> found 100
",
    },
    // crossed
    Run {
        opening: "buckets 1
row 10 100
row 20 200
txn a repeatable
txn b repeatable
txn c repeatable
",
        trace: "1 a begin -> began 1
2 b begin -> began 2
3 a read 10 -> found 100
4 b read 20 -> found 200
5 a update 20 201 -> done
6 b update 10 101 -> done
7 a finish -> ready
8 b finish -> ready
9 a precommit -> waiting 1
10 b precommit -> waiting 1
11 detect -> victim 2 cycle 2 1
12 detect -> no cycle
13 b precommit -> aborted deadlock
14 b release -> released read 1 writer 1
15 a precommit -> precommitted 3
",
    },
    // two-deadlocks
    Run {
        opening: "buckets 1
row 10 100
row 20 200
row 30 300
txn a repeatable
txn b repeatable
txn c repeatable
",
        trace: "1 a begin -> began 1
2 b begin -> began 2
3 c begin -> began 3
4 a read 10 -> found 100
5 b read 10 -> found 100
6 c read 20 -> found 200
7 c read 30 -> found 300
8 c update 10 101 -> done
9 a update 20 201 -> done
10 b update 30 301 -> done
11 detect -> no cycle
12 a finish -> ready
13 b finish -> ready
14 c finish -> ready
15 a precommit -> waiting 1
16 b precommit -> waiting 1
17 c precommit -> waiting 1
18 detect -> victim 3 cycle 3 1
19 detect -> no cycle
20 c release -> released read 1 writer 1
",
    },
    // aborted-writer
    Run {
        opening: REPEATABLE,
        trace: "1 c begin -> began 1
2 c read 10 -> found 100
3 b begin -> began 2
4 b update 10 200 -> done
5 b fail -> failed
6 a begin -> began 3
7 a read 10 -> found 100
8 a update 10 300 -> done
9 b stamp -> left 0
10 b stamp -> stamped begin 1
11 b stamp -> nothing
12 b end -> over
",
    },
    // own-read-lock
    Run {
        opening: REPEATABLE,
        trace: "1 a begin -> began 1
2 a read 10 -> found 100
3 a update 10 200 -> done
4 a read 10 -> found 200
",
    },
    // stamps
    Run {
        opening: REPEATABLE,
        trace: "1 b begin -> began 1
2 b update 10 200 -> done
3 b update 10 300 -> done
4 b finish -> ready
5 b precommit -> precommitted 2
6 b release -> nothing
7 b commit -> committed
8 b stamp -> stamped end 0
9 b stamp -> stamped begin 1
10 b stamp -> stamped end 1
11 b stamp -> stamped begin 2
12 b stamp -> nothing
13 b end -> over
",
    },
    // insert-that-waits
    Run {
        opening: SERIALIZABLE,
        trace: "1 a begin -> began 1
2 b begin -> began 2
3 a read 11 -> absent
4 b insert 11 5 -> done
5 b finish -> ready
6 b precommit -> waiting 1
7 a finish -> ready
8 a precommit -> precommitted 3
9 a release -> released bucket 0
10 a release -> released waiter 2
11 b precommit -> precommitted 4
",
    },
    // phantom
    Run {
        opening: REPEATABLE,
        trace: "1 a begin -> began 1
2 b begin -> began 2
3 a read 11 -> absent
4 b insert 11 5 -> done
5 b finish -> ready
6 b precommit -> precommitted 3
7 b commit -> committed
8 a read 11 -> found 5
",
    },
    // cascade
    Run {
        opening: REPEATABLE,
        trace: "1 a begin -> began 1
2 a insert 11 1 -> done
3 a finish -> ready
4 a precommit -> precommitted 2
5 b begin -> began 3
6 b read 11 -> found 1
7 b insert 12 2 -> done
8 b finish -> ready
9 b precommit -> precommitted 4
10 c begin -> began 5
11 c read 12 -> found 2
12 b commit -> waiting commits 1
13 a fail -> failed
14 b commit -> aborted cascade
15 c read 10 -> aborted cascade
",
    },
    // two-inserts
    Run {
        opening: REPEATABLE,
        trace: "1 a begin -> began 1
2 b begin -> began 2
3 a insert 11 1 -> done
4 b insert 11 2 -> aborted conflict
5 a finish -> ready
6 a precommit -> precommitted 3
7 c begin -> began 4
8 c insert 11 3 -> exists
",
    },
    // scans
    Run {
        opening: "buckets 2
row 10 100
row 11 110
row 12 120
txn a serializable
txn b serializable
txn c serializable
",
        trace: "1 a begin -> began 1
2 b begin -> began 2
3 b insert 14 140 -> done
4 a scan 0 -> rows 10=100 12=120
5 a scan 1 -> rows 11=110
6 b finish -> ready
7 b precommit -> waiting 1
8 a delete 12 -> done
9 a scan 0 -> rows 10=100
",
    },
    // finished-maker
    Run {
        opening: SERIALIZABLE,
        trace: "1 b begin -> began 1
2 b insert 11 5 -> done
3 b finish -> ready
4 a begin -> began 2
5 a read 11 -> aborted no-more-waits
",
    },
    // out-of-turn
    Run {
        opening: REPEATABLE,
        trace: "1 a read 10 -> refused 2 NotBegun
2 a begin -> began 1
3 a begin -> refused 3 BegunTwice
4 a update 99 1 -> absent
5 a delete 99 -> absent
6 a insert 10 1 -> exists
7 a release -> refused 5 WrongPhase
8 a finish -> ready
9 a read 10 -> refused 5 WrongPhase
10 a precommit -> precommitted 2
11 a commit -> committed
12 a end -> refused 5 WrongPhase
13 a release -> released read 0
14 a release -> nothing
15 a stamp -> nothing
16 a end -> over
17 a read 10 -> refused 4 Ended
18 a begin -> refused 3 BegunTwice
",
    },
    // snapshot-reads
    Run {
        opening: "buckets 1
row 10 100
txn a snapshot
txn b repeatable
txn c snapshot
",
        trace: "1 a begin -> began 1
2 b begin -> began 2
3 b update 10 200 -> done
4 b finish -> ready
5 b precommit -> precommitted 3
6 a read 10 -> found 100
7 c begin -> began 4
8 c read 10 -> found 200
9 b commit -> committed
10 a update 10 300 -> aborted conflict
",
    },
    // snapshot-late-insert
    Run {
        opening: "buckets 1
row 10 100
txn a snapshot
txn b repeatable
",
        trace: "1 a begin -> began 1
2 b begin -> began 2
3 b insert 11 5 -> done
4 b finish -> ready
5 b precommit -> precommitted 3
6 b commit -> committed
7 a read 11 -> absent
8 a insert 11 6 -> aborted conflict
",
    },
    // snapshot-waits
    Run {
        opening: "buckets 1
row 10 100
txn a snapshot
txn b serializable
",
        trace: "1 b begin -> began 1
2 a begin -> began 2
3 b read 11 -> absent
4 a insert 11 5 -> done
5 a finish -> ready
6 a precommit -> waiting 1
",
    },
];
