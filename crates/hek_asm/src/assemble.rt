//! A text as a schedule.
ghost use Rattle.std.specs.Prelude.{◌≡◌, ◌+◌, ◌<◌, ◌^◌, length, None, Some};
ghost use Rattle.hek_rules.specs.Text.{lines_of};
ghost use Rattle.hek_asm.specs.Text.{schedule_of, lines_after};
ghost use Rattle.hek_asm.specs.Gives.{TextFails, TextGives, at_line};

use crate::fault::{AsmFault, AsmKind, LineFault};
use crate::line::{body_line, head_line};
use hek_rules::{Schedule, next_line};
use std::alloc::Global;

fn at_line(line: u64, fault: LineFault) -> AsmFault
    ensures { result ≡ at_line line fault }
{
    match fault {
        LineFault::NoMemory => AsmFault::NoMemory,
        LineFault::Fault(kind) => AsmFault::At { line, kind },
    }
}

// The schedule after the lines of `rest`, the first of which has the number after `number`.
fn body(alloc: Global, schedule: Schedule, number: u64, rest: &[u8]) -> Result<Schedule, AsmFault>
    requires { number + length rest.now < 2 ^ 64 }
    ensures { TextGives (λ s. s) result (lines_after (number + 1) (Some schedule) (lines_of rest.now)) }
{
    let mut schedule = schedule;
    let mut number = number;
    let mut rest = rest;
    let mut words = Vec::new(alloc);
    while let Some((line, after)) = next_line(rest) {
        number += 1;
        rest = after;
        if let Err(fault) = body_line(&mut schedule, &mut words, line) {
            return Err(at_line(number, fault));
        }
    }
    Ok(schedule)
}

/// The schedule that a text describes; otherwise the first fault of the text, or NoMemory.
pub fn assemble_text(alloc: Global, text: &str) -> Result<Schedule, AsmFault>
    ensures { TextGives (λ s. s) result (schedule_of text.now) }
{
    let bytes = text.as_bytes();
    let mut number = 0u64;
    let mut rest = bytes;
    while let Some((line, after)) = next_line(rest) {
        number += 1;
        rest = after;
        match head_line(alloc, line) {
            Ok(None) => {}
            Ok(Some(schedule)) => return body(alloc, schedule, number, rest),
            Err(fault) => return Err(at_line(number, fault)),
        }
    }
    Err(AsmFault::At {
        line: 1,
        kind: AsmKind::NoBuckets,
    })
}
