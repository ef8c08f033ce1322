//! Whether a certificate is an explanation.
ghost use Rattle.std.specs.Prelude.{IsTrue, IfOk};
ghost use Rattle.hek_levels.specs.Explanations.{explanation, Explains};

use crate::absent::are_missing_sourced;
use crate::certificate::Certificate;
use crate::log::Log;
use crate::newest::are_newest;
use crate::places::{find_places, have_all_places};
use crate::rules::Asked;
use crate::sourced::are_sourced;
use crate::turns::are_in_turn;
use hek_rules::NoMemory;
use std::alloc::Global;
use std::collections::HashMap;

/// Whether a certificate explains a log by the rules that are asked for.
pub fn explains(
    alloc: Global,
    asked: &Asked,
    log: &Log,
    certificate: &Certificate,
) -> Result<bool, NoMemory>
    ensures { IfOk result (λ yes. IsTrue yes → Explains asked.now log.now (explanation certificate.now)) }
{
    let order = certificate.order.as_slice();
    let mut places = HashMap::new(alloc);
    if !find_places(log, order, &mut places)? {
        return Ok(false);
    }
    if !have_all_places(log, &places) {
        return Ok(false);
    }
    if !are_sourced(log, certificate, &places) {
        return Ok(false);
    }
    if !are_missing_sourced(alloc, log, certificate, &places)? {
        return Ok(false);
    }
    if !are_in_turn(alloc, log, order)? {
        return Ok(false);
    }
    are_newest(alloc, asked, log, certificate, &places)
}
