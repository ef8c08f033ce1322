//! Transactions that are two in the history and one in the log.
use hek_history::Point;
use hek_levels_search::{Shown, add, at, put};
use hek_rules::NoMemory;
use std::alloc::Global;

/// The transactions that take place in an explanation, in the order of their commits.
pub fn order_of(alloc: Global, shown: &Shown) -> Result<Vec<usize>, NoMemory> {
    let mut order = Vec::new(alloc);
    match shown {
        Shown::Points(points) => {
            for point in points {
                if let Point::Commit(t) = *point {
                    add(&mut order, t)?;
                }
            }
        }
        Shown::Sources(certificate) => order.extend_from_slice(certificate.order.as_slice())?,
    }
    Ok(order)
}

/// Whether two transactions that are one take place both.
pub(crate) fn have_both(
    alloc: Global,
    count: usize,
    twins: &[(usize, usize)],
    shown: &Shown,
) -> Result<bool, NoMemory> {
    if twins.is_empty() {
        return Ok(false);
    }
    let mut occurs = Vec::from_elem(alloc, false, count)?;
    for t in order_of(alloc, shown)?.iter() {
        put(&mut occurs, *t, true);
    }
    for (first, second) in twins {
        if at(occurs.as_slice(), *first, false) && at(occurs.as_slice(), *second, false) {
            return Ok(true);
        }
    }
    Ok(false)
}
