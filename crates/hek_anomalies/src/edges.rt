//! The edges of links.
use crate::cause::{CycleEdge, EdgeKind, Evidence, Sighting};
use crate::evident::Evident;
use crate::lanes::Lane;
use crate::links::{Link, NONE, Shown, turn_between};
use hek_levels::Writer;
use hek_levels_search::add;
use hek_rules::NoMemory;

/// What says that one writer is before another by a turn.
fn evidence_of_turn(evident: &Evident, first: usize, second: usize) -> Evidence {
    match turn_between(evident.problem, first, second) {
        Some(turn) => match evident.lanes.get(turn.lane) {
            Some(Lane::Versions(_)) => Evidence::Versions,
            Some(Lane::Ends(_)) => Evidence::EndTimes,
            Some(Lane::Session(_) | Lane::RealTime) | None => Evidence::Turns,
        },
        None => Evidence::Answer,
    }
}

/// The answer by which a link is, beside its own.
fn sighting_of(evident: &Evident, place: usize) -> Evidence {
    let seen = evident.problem.reading(place);
    Evidence::Seen(Sighting {
        reader: seen.reader,
        key: evident.problem.keys.name(seen.key),
        read: seen.need,
        writer: evident.source(place).unwrap_or(Writer::Opening),
    })
}

/// What says that a transaction wrote over what a reading found, by a turn.
fn evidence_of_overwrite(evident: &Evident, place: usize, second: usize) -> Evidence {
    match evident.source(place) {
        Some(Writer::Transaction(first)) => evidence_of_turn(evident, first, second),
        Some(Writer::Opening) | None => Evidence::Answer,
    }
}

/// The kind of a link's edge, and what shows it.
fn kind_of(evident: &Evident, link: Link) -> (EdgeKind, Evidence) {
    let (first, second) = link.ends();
    match link.shown {
        Shown::Read => (EdgeKind::Read, Evidence::Answer),
        Shown::OverwroteSame => (EdgeKind::Overwritten, Evidence::SameVersion),
        Shown::OverwroteOpening => (EdgeKind::Overwritten, Evidence::Answer),
        Shown::OverwroteSeen => (EdgeKind::Overwritten, sighting_of(evident, link.other)),
        Shown::OverwroteByTurn => {
            let evidence = evidence_of_overwrite(evident, link.reading, second);
            (EdgeKind::Overwritten, evidence)
        }
        Shown::WroteSeen => (EdgeKind::Version, sighting_of(evident, link.other)),
        Shown::WroteByTurn => (EdgeKind::Version, evidence_of_turn(evident, first, second)),
        Shown::Session => (EdgeKind::Session, Evidence::Answer),
        Shown::RealTime => (EdgeKind::RealTime, Evidence::Answer),
    }
}

/// The edge of a link.
pub(crate) fn edge_of(evident: &Evident, link: Link) -> CycleEdge {
    let problem = evident.problem;
    let (kind, evidence) = kind_of(evident, link);
    let (first, second) = link.ends();
    let bare = CycleEdge {
        evidence,
        ..CycleEdge::new(kind, Writer::Transaction(first), second)
    };
    if link.key == NONE {
        return bare;
    }
    let writer = match kind {
        EdgeKind::Overwritten => second,
        _ => first,
    };
    let left = problem.left_at(writer, link.key);
    let keyed = CycleEdge {
        key: Some(problem.keys.name(link.key)),
        written: Some(left.and_then(|there| there.value)),
        ..bare
    };
    if link.reading == NONE {
        return keyed;
    }
    let reading = problem.reading(link.reading);
    CycleEdge {
        read: Some(reading.need),
        scanned: evident.is_scanned(reading),
        source: evident.source(link.reading),
        ..keyed
    }
}

/// Adds the readings that a link is by.
pub(crate) fn add_readings(link: Link, readings: &mut Vec<usize>) -> Result<(), NoMemory> {
    for place in [link.reading, link.other] {
        if place != NONE {
            add(readings, place)?;
        }
    }
    Ok(())
}

/// Whether the readings that a link is by still count.
pub(crate) fn counts(evident: &Evident, link: Link) -> bool {
    for place in [link.reading, link.other] {
        if place != NONE && evident.source(place).is_none() {
            return false;
        }
    }
    true
}
