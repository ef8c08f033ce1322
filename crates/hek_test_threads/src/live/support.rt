//! What the tests share.
ghost use Rattle.std.specs.Prelude.{◌≡◌, ◌≤◌};
ghost use Rattle.hek_live.specs.Tokens.{maker};
ghost use Rattle.hek_live.specs.Ends.{word_count_of, table_id_of, seat_table, view_of};

use hek_live::{LiveWords, Seat};
use std::alloc::Global;
use std::fmt::Debug;
use std::process::Abort;

/// The two are equal.
pub fn is<T: PartialEq + Debug + Drop>(rt: &impl Abort, got: T, want: T) {
    assert!(rt; got == want, "{got:?} and not {want:?}");
}

/// So many words, and the seat that makes the others. A call that was refused memory is made again.
pub fn made(rt: &impl Abort, alloc: Global, n: usize) -> (LiveWords, Seat)
    requires { (1 ≤ n) × (n ≤ 1024) }
    ensures words { word_count_of result.0 ≡ n }
    ensures seat { (table_id_of result.0 ≡ seat_table result.1) × (view_of result.1 ≡ maker) }
{
    match LiveWords::new(alloc, n) {
        Ok(made) => made,
        Err(_) => LiveWords::new(alloc, n).expect(rt, "no memory"),
    }
}
