//! What is to hold at the end of each order.
ghost use Rattle.std.specs.Prelude.{◌≡◌};
ghost use Rattle.hek_program.specs.Scripts.{first_broken};
ghost use Rattle.hek_program.specs.Told.{at_end, one_if};

use crate::condition::Condition;
use crate::lookup::Lookup;
use crate::term::Factor;
use crate::told::value_at;
use hek_rules::TxnId;

/// A condition on the rows at the end of an order, and on who committed; and its line in the text.
#[derive(Drop, Debug)]
pub struct Always {
    pub line: u64,
    pub condition: Condition,
}

/// The rows at the end of an order, and whether each transaction committed, by ID.
#[derive(Clone, Copy)]
pub struct AtEnd<'a> {
    pub rows: &'a [(u64, u64)],
    pub committed: &'a [bool],
}

/// Whether a transaction committed, as a number.
fn one_if_committed(txn: TxnId, committed: &[bool]) -> Option<u64>
    ensures { result ≡ option_map one_if (slice_get committed.now (txn - 1)) }
{
    let place = txn.number().saturating_sub(1) as usize;
    match committed.get(place) {
        Some(true) => Some(1),
        Some(false) => Some(0),
        None => None,
    }
}

ghost use Rattle.std.specs.Prelude.{◌-◌, option_map, slice_get};

impl Lookup for AtEnd<'_> {
    ghost value_of = { λ e. at_end e.rows.now e.committed.now };

    fn value(&self, factor: Factor) -> Option<u64> {
        match factor {
            Factor::Number(number) => Some(number),
            Factor::Key(key) => value_at(key, self.rows),
            Factor::Name(txn) => one_if_committed(txn, self.committed),
        }
    }
}

/// The line of the first of these that does not hold.
pub(crate) fn first_broken<L: Lookup>(always: &[Always], lookup: &L) -> Option<u64>
    ensures { result ≡ first_broken (L.value_of lookup.now) always.now }
{
    let mut rest = always;
    while let Some((one, later)) = rest.split_first() {
        if !one.condition.holds(lookup) {
            return Some(one.line);
        }
        rest = later;
    }
    None
}
