//! Whether each read in a list has a source.
ghost use Rattle.std.specs.Prelude.{◌≡◌, ◌==◌, ℕ, IsTrue};
ghost use Rattle.std.specs.HashMap.{get as get_in};
ghost use Rattle.hek_levels.specs.declared.log.Place.TheVariants.{Listed as ListedAt};
ghost use Rattle.hek_levels.specs.Seen.{At};
ghost use Rattle.hek_levels.specs.Places.{IsSourcedBy, AreListedSourced};
ghost use Rattle.hek_levels.specs.Explanations.{source_at as source_there, given_at as given_there, given_of};

use crate::certificate::{Certificate, Missing, Writer};
use crate::log::{Log, Place};
use crate::logged::{at, offers, read_at, reads_of};
use crate::places::is_placed_before;
use std::collections::HashMap;

/// The source of the r-th read in the list of t.
pub(crate) fn listed_source(certificate: &Certificate, t: usize, r: usize) -> Writer
    ensures { result ≡ source_there certificate.now t (ListedAt r) }
{
    let Some(sources) = certificate.sources.get(t) else {
        return Writer::Opening;
    };
    match sources.writers.get(r) {
        Some(writer) => *writer,
        None => Writer::Opening,
    }
}

/// The sources that are given of keys that are missing in scans of t.
pub(crate) fn missing_of(certificate: &Certificate, t: usize) -> &[Missing]
    ensures { result.now ≡ given_of certificate.now t }
{
    match certificate.sources.get(t) {
        Some(sources) => sources.missing.as_slice(),
        None => &[],
    }
}

/// The first source that is given of a scan and a key.
fn given_at(given: &[Missing], scan: usize, key: u64) -> Option<Writer>
    ensures { result ≡ given_there given.now scan key }
{
    for one in given {
        if one.scan == scan && one.key == key {
            return Some(one.writer);
        }
    }
    None
}

/// The source of a read of t.
pub fn source_at(certificate: &Certificate, t: usize, place: Place) -> Writer
    ensures { result ≡ source_there certificate.now t place }
{
    match place {
        Place::Listed(r) => listed_source(certificate, t, r),
        Place::Missing { scan, key } => {
            match given_at(missing_of(certificate, t), scan, key) {
                Some(writer) => writer,
                None => Writer::Opening,
            }
        }
    }
}

/// Whether a writer is a source of the read of t at a place, before i.
pub(crate) fn is_sourced(
    log: &Log,
    places: &HashMap<usize, usize>,
    i: usize,
    t: usize,
    place: Place,
    source: Writer,
) -> bool
    ensures { IsTrue result → IsSourcedBy log.now (get_in ◌==◌ places.now) i t place source }
{
    match read_at(log, t, place) {
        Some(read) => offers(log, source, read) && is_placed_before(places, i, source),
        None => true,
    }
}

/// Whether the r-th read in the list of t has a source before i.
fn is_listed_sourced(
    log: &Log,
    certificate: &Certificate,
    places: &HashMap<usize, usize>,
    i: usize,
    t: usize,
    r: usize,
) -> bool
    ensures { IsTrue result → IsSourcedBy log.now (get_in ◌==◌ places.now) i t (ListedAt r) (source_there certificate.now t (ListedAt r)) }
{
    let source = listed_source(certificate, t, r);
    is_sourced(log, places, i, t, Place::Listed(r), source)
}

/// Whether each read in the list of t has a source before i.
fn is_each_sourced(
    log: &Log,
    certificate: &Certificate,
    places: &HashMap<usize, usize>,
    i: usize,
    t: usize,
) -> bool
    ensures { IsTrue result → (r : ℕ) → IsSourcedBy log.now (get_in ◌==◌ places.now) i t (ListedAt r) (source_there certificate.now t (ListedAt r)) }
{
    for r in 0..reads_of(log, t).len() {
        if !is_listed_sourced(log, certificate, places, i, t, r) {
            return false;
        }
    }
    true
}

/// The same of the transaction at the place i.
fn is_sourced_at(
    log: &Log,
    certificate: &Certificate,
    places: &HashMap<usize, usize>,
    i: usize,
) -> bool
    ensures { IsTrue result → (t r : ℕ) → At certificate.now.order.items i t → IsSourcedBy log.now (get_in ◌==◌ places.now) i t (ListedAt r) (source_there certificate.now t (ListedAt r)) }
{
    match at(certificate.order.as_slice(), i) {
        Some(t) => is_each_sourced(log, certificate, places, i, t),
        None => true,
    }
}

/// Whether each read in the list of each transaction has a source before it.
pub(crate) fn are_sourced(
    log: &Log,
    certificate: &Certificate,
    places: &HashMap<usize, usize>,
) -> bool
    ensures { IsTrue result → AreListedSourced log.now certificate.now (get_in ◌==◌ places.now) }
{
    for i in 0..certificate.order.len() {
        if !is_sourced_at(log, certificate, places, i) {
            return false;
        }
    }
    true
}
