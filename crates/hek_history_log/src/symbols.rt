//! The keys and values of a log while it is read.
ghost use Rattle.std.specs.Prelude.{◌≡◌, ◌<◌, ◌^◌, ℕ, List, All, Some, Ok, Option, option_map, IsSomeAnd, map};
ghost use Rattle.json.specs.Json.{Json};
ghost use Rattle.json.specs.Find.{as_array, get};
ghost use Rattle.json.specs.Value.{value_view, items_view};
ghost use Rattle.hek_history_log.specs.Gives.{Gives};
ghost use Rattle.hek_history_log.specs.HasRead.{HasNoEntry};
ghost use Rattle.hek_history_log.specs.Kept.{KeepsLabels};
ghost use Rattle.hek_history_log.specs.LogText.{number_json, number_or_null, pair_json, pairs_json, array_json};
ghost use Rattle.hek_history_log.specs.Readable.{IsOwn, IsOwnFound, IsOwnPair};
ghost use Rattle.hek_history_log.specs.declared.shown.Label.TheVariants.{Number};

use crate::fault::Wanted;
use crate::log_line::Misfit;
use crate::numbering::Labels;
use crate::shown::Label;
use hek_rules::NoMemory;
use json::Value;
use std::alloc::Global;

/// The keys and values that were read so far, each by a number; the greatest number among the keys and the ends of
/// ranges; the number of buckets; and the line of the first scan of a bucket.
#[derive(Drop)]
pub(crate) struct Symbols {
    pub keys: Labels,
    pub values: Labels,
    pub highest: Option<u64>,
    pub buckets: Option<u64>,
    pub bucket_line: Option<u64>,
}

impl Symbols {
    pub(crate) fn new(alloc: Global) -> Symbols
        ensures { HasNoEntry result.keys × HasNoEntry result.values }
    {
        Symbols {
            keys: Labels::new(alloc),
            values: Labels::new(alloc),
            highest: None,
            buckets: None,
            bucket_line: None,
        }
    }

    /// The number of a key.
    pub(crate) fn key(
        &mut self,
        alloc: Global,
        value: &Value<'_>,
        wanted: Wanted,
    ) -> Result<u64, Misfit>
        ensures { (n : ℕ) → IsOwn n → value_view value.now ≡ number_json n
            → (result ≡ Ok n) × KeepsLabels self.old self.new }
    {
        let label = label_of(value).ok_or(wanted)?;
        if let Label::Number(number) = label {
            self.highest = self.highest.max(Some(number));
        }
        Ok(self.keys.number_of(alloc, label)?)
    }

    /// The number of a value.
    pub(crate) fn value(
        &mut self,
        alloc: Global,
        value: &Value<'_>,
        wanted: Wanted,
    ) -> Result<u64, Misfit>
        ensures { (n : ℕ) → IsOwn n → value_view value.now ≡ number_json n
            → (result ≡ Ok n) × KeepsLabels self.old self.new }
    {
        let label = value_label_of(value).ok_or(wanted)?;
        Ok(self.values.number_of(alloc, label)?)
    }

    /// The number of a value, or `None` for null: the key is absent.
    pub(crate) fn found(
        &mut self,
        alloc: Global,
        value: &Value<'_>,
        wanted: Wanted,
    ) -> Result<Option<u64>, Misfit>
        ensures { (found : Option ℕ) → IsOwnFound found
            → value_view value.now ≡ number_or_null found
            → (result ≡ Ok found) × KeepsLabels self.old self.new }
    {
        if value.is_null() {
            return Ok(None);
        }
        Ok(Some(self.value(alloc, value, wanted)?))
    }

    /// The numbers of pairs of keys and values.
    pub(crate) fn pairs(
        &mut self,
        alloc: Global,
        value: &Value<'_>,
        wanted: Wanted,
    ) -> Result<Vec<(u64, u64)>, Misfit>
        ensures { (ps : List (ℕ × ℕ)) → All IsOwnPair ps → value_view value.now ≡ pairs_json ps
            → Gives result Misfit.NoMemory
            (λ pairs. (pairs.items ≡ ps) × KeepsLabels self.old self.new) }
    {
        let items = items_of(value).ok_or(wanted)?;
        let mut pairs = Vec::with_capacity(alloc, items.len())?;
        for item in items {
            pairs.push(self.pair(alloc, item, wanted)?)?;
        }
        Ok(pairs)
    }

    /// The numbers of a key and a value.
    pub(crate) fn pair(
        &mut self,
        alloc: Global,
        value: &Value<'_>,
        wanted: Wanted,
    ) -> Result<(u64, u64), Misfit>
        ensures { (p : ℕ × ℕ) → IsOwnPair p → value_view value.now ≡ pair_json p
            → (result ≡ Ok p) × KeepsLabels self.old self.new }
    {
        let items = items_of(value).ok_or(wanted)?;
        let [key, value] = items else {
            return Err(Misfit::Wanted(wanted));
        };
        Ok((
            self.key(alloc, key, wanted)?,
            self.value(alloc, value, wanted)?,
        ))
    }
}

/// A number below 2^64.
pub(crate) fn number_in(value: &Value<'_>) -> Option<u64>
    ensures { (n : ℕ) → n < 2 ^ 64 → value_view value.now ≡ number_json n → result ≡ Some n }
{
    value.as_u64()
}

/// A text, or a number below 2^64.
pub(crate) fn label_of<'a>(value: &Value<'a>) -> Option<Label<'a>>
    ensures { (n : ℕ) → n < 2 ^ 64 → value_view value.now ≡ number_json n
        → result ≡ Some (Number n) }
{
    match value.as_str() {
        Some(text) => Some(Label::Text(text)),
        None => match number_in(value) {
            Some(number) => Some(Label::Number(number)),
            None => None,
        },
    }
}

/// A text, or a whole number from -2^63 up to 2^64.
fn value_label_of<'a>(value: &Value<'a>) -> Option<Label<'a>>
    ensures { (n : ℕ) → n < 2 ^ 63 → value_view value.now ≡ number_json n
        → result ≡ Some (Number n) }
{
    match value.as_i64() {
        Some(number) if number < 0 => Some(Label::Negative(number)),
        _ => label_of(value),
    }
}

/// The items of an array.
pub(crate) fn items_of<'v, 'a>(value: &'v Value<'a>) -> Option<&'v [Value<'a>]>
    ensures view { option_map (λ items. items_view items.now) result
        ≡ as_array (value_view value.now) }
    ensures items { (js : List Json) → value_view value.now ≡ array_json js
        → IsSomeAnd result (λ items. map value_view items.now ≡ js) }
{
    match value {
        Value::Array(items) => Some(items.as_slice()),
        _ => None,
    }
}

/// The items of a field that is an array.
pub(crate) fn items_in<'v, 'a>(object: &'v Value<'a>, name: &str) -> Option<&'v [Value<'a>]>
    ensures { (js : List Json) → get name.now (value_view object.now) ≡ Some (array_json js)
        → IsSomeAnd result (λ items. map value_view items.now ≡ js) }
{
    items_of(object.get(name)?)
}
