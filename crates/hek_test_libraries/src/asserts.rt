//! What holds in a test. A helper's call costs a proof a tenth of what an assertion in the test itself does.
ghost use Rattle.std.specs.Prelude.{IsTrue};

use std::fmt::Debug;
use std::process::Abort;

/// The two are equal.
pub(crate) fn is<T: PartialEq + Debug + Drop>(rt: &impl Abort, got: T, want: T) {
    assert!(rt; got == want, "{got:?} and not {want:?}");
}

/// The two are equal, in this row of a table.
pub(crate) fn is_at<P: Debug + Drop, T: PartialEq + Debug + Drop>(
    rt: &impl Abort,
    row: P,
    got: T,
    want: T,
) {
    assert!(rt; got == want, "{got:?} and not {want:?} at {row:?}");
}

/// It holds.
pub(crate) fn holds(rt: &impl Abort, fact: bool)
    ensures { IsTrue fact }
{
    assert!(rt; fact);
}

/// Reports that a call answered NoMemory. `tools/refused_growths` wants one such line for each growth that it refuses.
pub(crate) fn refused(rt: &impl Eprint, call: &str) {
    let _ = eprintln!(rt; "refused: {call}");
}
