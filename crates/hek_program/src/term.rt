//! Terms of numbers, keys and names, and what they come to.
ghost use Rattle.std.specs.Prelude.{◌≡◌, [], IfOk, option_map};
ghost use Rattle.hek_program.specs.Conditions.{relates_sums};
ghost use Rattle.hek_program.specs.Terms.{below_limit, plus_all, product_of, sum_of, times_all, value_in, value_of, with_number, zero_sum};

use crate::condition::Relation;
use crate::lookup::Lookup;
use hek_rules::{NoMemory, TxnId};
use std::alloc::Global;
use std::marker::Model;

/// Numbers stay below this.
const LIMIT: u128 = 1 << 127;

/// A part of a product.
#[derive(Clone, Copy, Debug, PartialEq, Eq)]
pub enum Factor {
    Number(u64),
    /// The value at this key.
    Key(u64),
    /// Whether this transaction committed: 1 or 0.
    Name(TxnId),
}

/// What a term comes to: what is added in all, and what is taken away.
#[derive(Clone, Copy, Debug, PartialEq, Eq)]
pub struct Sum {
    gains: u128,
    losses: u128,
}

impl Model for Sum {
    ghost use Rattle.std.specs.Prelude.{◌<◌};
    ghost use Rattle.hek_program.specs.Terms.{Sum, limit};

    ghost Value = { Sum };

    ghost view = { λ s. record { gains = s.gains; losses = s.losses } };

    ghost inverse = { λ s. record { gains = s.gains; losses = s.losses } };

    ghost invariant = { λ s. (s.gains < limit) × (s.losses < limit) };
}

/// The number, if it is below the limit.
fn below_limit(number: u128) -> Option<u128>
    ensures { result ≡ below_limit number }
{
    if number < LIMIT { Some(number) } else { None }
}

/// The product, if it is below the limit.
fn times(number: u128, factor: u64) -> Option<u128>
    ensures { result ≡ below_limit (number * factor) }
{
    let product = number.checked_mul(u128::from(factor))?;
    below_limit(product)
}

/// The sum, if it is below the limit.
fn plus(number: u128, other: u128) -> Option<u128>
    ensures { result ≡ below_limit (number + other) }
{
    let sum = number.checked_add(other)?;
    below_limit(sum)
}

ghost use Rattle.std.specs.Prelude.{◌*◌, ◌+◌};

impl Sum {
    /// Nothing added, and nothing taken away.
    fn zero() -> Sum
        ensures { result ≡ zero_sum }
    {
        Sum {
            gains: 0,
            losses: 0,
        }
    }

    /// The sum with a number that is added too, or taken away.
    fn with(self, minus: bool, number: u128) -> Option<Sum>
        ensures { result ≡ with_number minus number self }
    {
        if minus {
            let losses = plus(self.losses, number)?;
            Some(Sum {
                gains: self.gains,
                losses,
            })
        } else {
            let gains = plus(self.gains, number)?;
            Some(Sum {
                gains,
                losses: self.losses,
            })
        }
    }

    /// Whether this sum and another are so related. What the one takes away is added to the other.
    pub(crate) fn relates(self, relation: Relation, other: Sum) -> bool
        ensures { result ≡ relates_sums relation self other }
    {
        relation.relates(self.gains + other.losses, other.gains + self.losses)
    }

    /// The value of a row that the sum is: none below zero, and none from 2^64 on.
    pub fn value(self) -> Option<u64>
        ensures { result ≡ value_in self }
    {
        let rest = self.gains.checked_sub(self.losses)?;
        u64::try_from(rest).ok()
    }
}

/// A product of factors, which is added to the others of its term, or taken away.
#[derive(Drop, Debug)]
pub struct Product {
    minus: bool,
    factors: Vec<Factor>,
}

impl Model for Product {
    ghost use Rattle.hek_program.specs.Terms.{Product};

    ghost Value = { Product };

    ghost view = { λ p. record { minus = p.minus; factors = p.factors.items } };
}

impl Product {
    /// The product of these factors; with `minus` it is taken away.
    pub fn new(minus: bool, factors: Vec<Factor>) -> Product
        ensures { result ≡ record { minus = minus; factors = factors.items } }
    {
        Product { minus, factors }
    }

    /// Whether the product is taken away.
    pub fn is_minus(&self) -> bool
        ensures { result ≡ self.now.minus }
    {
        self.minus
    }

    /// The factors, in order.
    pub fn factors(&self) -> &[Factor]
        ensures { result.now ≡ self.now.factors }
    {
        self.factors.as_slice()
    }

    /// An equal product, or NoMemory.
    pub fn copy(&self) -> Result<Product, NoMemory>
        ensures { IfOk result (λ product. product ≡ self.now) }
    {
        Ok(Product {
            minus: self.minus,
            factors: self.factors.clone()?,
        })
    }

    /// What the product comes to, if each factor has a value and all stays below the limit.
    fn value<L: Lookup>(&self, lookup: &L) -> Option<u128>
        ensures { result ≡ product_of (L.value_of lookup.now) self.now }
    {
        let mut product: u128 = 1;
        let mut rest = self.factors.as_slice();
        while let Some((factor, later)) = rest.split_first() {
            let value = lookup.value(*factor)?;
            product = times(product, value)?;
            rest = later;
        }
        Some(product)
    }
}

/// A term: products that are added or taken away. A term without products stands for what needs no computing.
#[derive(Drop, Debug)]
pub struct Amount {
    products: Vec<Product>,
}

impl Model for Amount {
    ghost use Rattle.std.specs.Prelude.{List};
    ghost use Rattle.hek_program.specs.Terms.{Product};

    ghost Value = { List Product };

    ghost view = { λ a. a.products.items };
}

impl Amount {
    /// The sum of these products.
    pub fn new(products: Vec<Product>) -> Amount
        ensures { result ≡ products.items }
    {
        Amount { products }
    }

    /// A term without products.
    pub fn none(alloc: Global) -> Amount
        ensures { result ≡ [] }
    {
        Amount {
            products: Vec::new(alloc),
        }
    }

    /// The products, in order.
    pub fn products(&self) -> &[Product]
        ensures { result.now ≡ self.now }
    {
        self.products.as_slice()
    }

    /// An equal term, or NoMemory.
    pub fn copy(&self, alloc: Global) -> Result<Amount, NoMemory>
        ensures { IfOk result (λ amount. amount ≡ self.now) }
    {
        Ok(Amount {
            products: copies(alloc, self.products.as_slice())?,
        })
    }

    /// What the term comes to, if each factor has a value and all stays below the limit.
    pub fn sum<L: Lookup>(&self, lookup: &L) -> Option<Sum>
        ensures { result ≡ sum_of (L.value_of lookup.now) self.now }
    {
        let mut sum = Sum::zero();
        let mut rest = self.products.as_slice();
        while let Some((product, later)) = rest.split_first() {
            let number = product.value(lookup)?;
            sum = sum.with(product.minus, number)?;
            rest = later;
        }
        Some(sum)
    }

    /// The value of a row that the term is: none below zero, and none from 2^64 on.
    pub fn value<L: Lookup>(&self, lookup: &L) -> Option<u64>
        ensures { result ≡ value_of (L.value_of lookup.now) self.now }
    {
        let sum = self.sum(lookup)?;
        sum.value()
    }
}

fn copies(alloc: Global, products: &[Product]) -> Result<Vec<Product>, NoMemory>
    ensures { IfOk result (λ copies. copies.items ≡ products.now) }
{
    let mut copies = Vec::new(alloc);
    let mut rest = products;
    while let Some((product, later)) = rest.split_first() {
        copies.push(product.copy()?)?;
        rest = later;
    }
    Ok(copies)
}
