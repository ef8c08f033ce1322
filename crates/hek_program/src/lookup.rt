//! Where the values of factors come from.
ghost use Rattle.std.specs.Prelude.{◌≡◌, ℕ, Option};
ghost use Rattle.hek_program.specs.declared.term.Factor.{Factor};

use crate::term::Factor;

/// What the factors of terms are worth for somebody.
pub trait Lookup {
    // The value of each factor that has one.
    ghost value_of: { Self → Factor → Option ℕ };

    /// The value of a factor, if it has one.
    fn value(&self, factor: Factor) -> Option<u64>
        ensures { result ≡ value_of self.now factor };
}
