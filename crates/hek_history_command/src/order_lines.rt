//! The order that was found, a line for each point.
use hek_history::Point;
use hek_ladder::{Promise, Scene};
use hek_levels_search::Shown;
use hek_report::{HekFault, Text, send, send_if_many};
use hek_rules::NoMemory;
use std::io::Write;

/// Writes the order that was found: the name of each transaction, and of one that reads before it commits two lines, with `begin` and
/// `commit` after its name.
pub(crate) fn write_order<'a, O: Write>(
    scene: &Scene,
    promise: Option<Promise>,
    shown: &Shown,
    out: &mut O,
) -> Result<(), HekFault<'a>> {
    let mut lines = Vec::new(scene.alloc);
    match shown {
        Shown::Points(points) => {
            for point in points.iter() {
                put_point(scene, promise, *point, &mut lines)?;
                send_if_many(&mut lines, out)?;
            }
        }
        Shown::Sources(certificate) => {
            for t in certificate.order.iter() {
                let mut text = Text::after(&mut lines);
                text.form("@\n", &[scene.log.name(*t)]);
                text.done()?;
                send_if_many(&mut lines, out)?;
            }
        }
    }
    send(&mut lines, out)
}

/// Appends the line of a point, if it has one.
fn put_point(
    scene: &Scene,
    promise: Option<Promise>,
    point: Point,
    lines: &mut Vec<u8>,
) -> Result<(), NoMemory> {
    let (place, is_begin) = match point {
        Point::Begin(place) => (place, true),
        Point::Commit(place) => (place, false),
    };
    let pattern = match (reads_before(scene, promise, place), is_begin) {
        (true, true) => "@ begin\n",
        (true, false) => "@ commit\n",
        (false, true) => "",
        (false, false) => "@\n",
    };
    let mut text = Text::after(lines);
    text.form(pattern, &[scene.log.name(place)]);
    text.done()
}

/// Whether a transaction reads before it commits, at the level that is asked for.
fn reads_before(scene: &Scene, promise: Option<Promise>, place: usize) -> bool {
    match promise {
        None => false,
        Some(Promise::Own) => match scene.log.history.transactions.get(place) {
            Some(transaction) => transaction.level.is_snapshot(),
            None => false,
        },
        Some(promise) => !promise.rules().whole,
    }
}
