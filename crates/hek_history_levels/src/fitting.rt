//! Whether the answers of a transaction agree with what it had done itself.
ghost use Rattle.std.specs.Prelude.{◌≡◌, ◌<◌, ◌↔◌, ℕ, suc, true, Option, Some, slice_get, IsTrue};
ghost use Rattle.hek_history.specs.Answers.{IsByKey, allows as allowed_by};
ghost use Rattle.hek_history_levels.specs.Fits.{AreCovered, IsOfScope, IsFitting};
ghost use Rattle.hek_history_levels.specs.Taking.{own_left, IsOwn};

use crate::answers::allows;
use crate::own::{Own, own_of};
use hek_history::{Operation, Scope, covers, key_of};

/// Whether each pair's key is greater than that of the one before.
fn is_rising(pairs: &[(u64, u64)]) -> bool
    ensures { IsTrue result ↔ ((n : ℕ) (p q : ℕ × ℕ) → slice_get pairs.now n ≡ Some p → slice_get pairs.now (suc n) ≡ Some q → p.0 < q.0) }
{
    for n in 1..pairs.len() {
        if pairs[n].0 <= pairs[n - 1].0 {
            return false;
        }
    }
    true
}

/// Whether the pairs are by key, if it is a scan.
fn is_by_key(operation: &Operation) -> bool
    ensures { IsTrue result ↔ IsByKey operation.now }
{
    match operation {
        Operation::Scan(_, pairs) => is_rising(pairs.as_slice()),
        _ => true,
    }
}

/// Whether each pair is of the scope.
fn are_covered(scope: Scope, pairs: &[(u64, u64)]) -> bool
    ensures { IsTrue result ↔ AreCovered scope pairs.now }
{
    for n in 0..pairs.len() {
        if !covers(scope, pairs[n].0) {
            return false;
        }
    }
    true
}

/// Whether the pairs are of the scope, if it is a scan.
fn is_of_scope(operation: &Operation) -> bool
    ensures { IsTrue result ↔ IsOfScope operation.now }
{
    match operation {
        Operation::Scan(scope, pairs) => are_covered(*scope, pairs.as_slice()),
        _ => true,
    }
}

/// Whether the answer allows what the transaction itself has left at a key, if it has changed it.
fn agrees_at(lenient: bool, own: &Own, operation: &Operation, key: u64) -> bool
    ensures { IsTrue result ↔ ((v : Option ℕ) → own_left own.now key ≡ Some v → allowed_by lenient key operation.now v ≡ true) }
{
    match own_of(own, key) {
        Some(value) => allows(lenient, key, operation, value),
        None => true,
    }
}

/// The same of each key that it has changed.
fn agrees_at_each(lenient: bool, own: &Own, operation: &Operation) -> bool
    requires { IsOwn own.now }
    ensures { IsTrue result ↔ ((key : ℕ) (v : Option ℕ) → own_left own.now key ≡ Some v → allowed_by lenient key operation.now v ≡ true) }
{
    let writes = own.writes.as_slice();
    for n in 0..writes.len() {
        if !agrees_at(lenient, own, operation, writes[n].key) {
            return false;
        }
    }
    true
}

/// Whether the answer allows what the transaction itself has left.
fn agrees(lenient: bool, own: &Own, operation: &Operation) -> bool
    requires { IsOwn own.now }
    ensures { IsTrue result ↔ ((key : ℕ) (v : Option ℕ) → own_left own.now key ≡ Some v → allowed_by lenient key operation.now v ≡ true) }
{
    match operation {
        Operation::Scan(_, _) => agrees_at_each(lenient, own, operation),
        _ => agrees_at(lenient, own, operation, key_of(operation)),
    }
}

/// Whether an answer can be right, where the transaction itself has left this.
pub(crate) fn is_fitting(lenient: bool, own: &Own, operation: &Operation) -> bool
    requires { IsOwn own.now }
    ensures { IsTrue result ↔ IsFitting lenient (own_left own.now) operation.now }
{
    is_by_key(operation) && is_of_scope(operation) && agrees(lenient, own, operation)
}
