//! A text read as a program.
ghost use Rattle.std.specs.Prelude.{◌≡◌, IfOk, Ok};
ghost use Rattle.hek_asm.specs.Text.{schedule_of};
ghost use Rattle.hek_rules.specs.Plan.{Plan};
ghost use Rattle.hek_program.specs.Scripts.{plain_script};

use crate::always::Always;
use crate::condition::Condition;
use crate::fault::{ProgramFault, Wanted};
use crate::parse::{Scope, amount, condition};
use crate::program::Program;
use crate::rule::Rule;
use crate::term::Amount;
use crate::token::{Kind, Line, Token, tokens_of};
use crate::written::{Sort, bare_text, computed_line, sort_of};
use hek_asm::{AsmFault, AsmKind, assemble_text};
use hek_rules::{Event, Schedule, next_line};
use std::alloc::Global;
use std::str;

/// The program that a text describes; otherwise its first fault, or NoMemory. A schedule's text is the program of that
/// schedule.
pub fn read_program(alloc: Global, text: &str) -> Result<Program, ProgramFault>
    ensures plain { (p : Plan) → schedule_of text.now ≡ Ok p → IfOk result (λ program. program ≡ plain_script p) }
{
    match assemble_text(alloc, text) {
        Ok(schedule) => Ok(Program::plain(alloc, schedule)),
        Err(AsmFault::NoMemory) => Err(ProgramFault::NoMemory),
        Err(AsmFault::At { line, kind }) => {
            if computed_line(text).is_some() {
                read_computed(alloc, text)
            } else {
                Err(ProgramFault::Line { line, kind })
            }
        }
    }
}

/// The program of a text in which something is computed.
fn read_computed(alloc: Global, text: &str) -> Result<Program, ProgramFault> {
    let schedule = bare_schedule(alloc, text)?;
    let rules = rules_of(alloc, &schedule, text)?;
    let always = always_of(alloc, &schedule, text)?;
    Ok(Program::new(schedule, rules, always))
}

/// The schedule of a text without what its lines compute.
fn bare_schedule(alloc: Global, text: &str) -> Result<Schedule, ProgramFault> {
    let bare = bare_text(alloc, text)?;
    let Ok(bare) = str::from_utf8(bare.as_slice()) else {
        return Err(ProgramFault::Line {
            line: 1,
            kind: AsmKind::NotAscii,
        });
    };
    match assemble_text(alloc, bare) {
        Ok(schedule) => Ok(schedule),
        Err(AsmFault::NoMemory) => Err(ProgramFault::NoMemory),
        Err(AsmFault::At { line, kind }) => Err(ProgramFault::Line { line, kind }),
    }
}

/// A line with its tokens.
fn line_of<'t>(number: u64, line: &[u8], tokens: &'t [Token]) -> Line<'t> {
    Line {
        number,
        tokens,
        end: (line.len() as u64).saturating_add(1),
    }
}

/// The rules of the steps.
fn rules_of(alloc: Global, schedule: &Schedule, text: &str) -> Result<Vec<Rule>, ProgramFault> {
    let mut rules = Vec::new(alloc);
    let mut number: u64 = 0;
    let mut rest = text.as_bytes();
    for _ in 0..text.len() {
        let Some((line, later)) = next_line(rest) else {
            return Ok(rules);
        };
        number = number.saturating_add(1);
        put_rule(alloc, schedule, number, line, &mut rules)?;
        rest = later;
    }
    Ok(rules)
}

/// Adds the rule of a line, if it is a step's.
fn put_rule(
    alloc: Global,
    schedule: &Schedule,
    number: u64,
    line: &[u8],
    rules: &mut Vec<Rule>,
) -> Result<(), ProgramFault> {
    match sort_of(line) {
        Sort::Head | Sort::Always => {}
        Sort::Plain => rules.push(Rule::plain(alloc))?,
        Sort::Term | Sort::Condition => {
            let place = rules.len();
            rules.push(read_rule(alloc, schedule, number, line, place)?)?;
        }
    }
    Ok(())
}

/// The rule of a line that is the step at a place.
fn read_rule(
    alloc: Global,
    schedule: &Schedule,
    number: u64,
    line: &[u8],
    place: usize,
) -> Result<Rule, ProgramFault> {
    let tokens = tokens_of(alloc, schedule, line)?;
    let line = line_of(number, line, tokens.as_slice());
    match schedule.steps().get(place) {
        Some(event) => rule_of(alloc, schedule, &line, place, *event),
        None => Err(line.wants(1, Wanted::Move)),
    }
}

fn rule_of(
    alloc: Global,
    schedule: &Schedule,
    line: &Line<'_>,
    place: usize,
    event: Event,
) -> Result<Rule, ProgramFault> {
    match event {
        Event::Insert(txn, _, _) | Event::Update(txn, _, _) => {
            let scope = Scope::Step(txn, place);
            let (amount, next) = amount(alloc, line, 3, schedule, &scope)?;
            let when = when_of(alloc, schedule, line, next, &scope)?;
            Ok(Rule { amount, when })
        }
        Event::Read(txn, _) | Event::Scan(txn, _) | Event::Delete(txn, _) => conditional(
            alloc,
            schedule,
            line,
            3,
            &Scope::Step(txn, place),
        ),
        Event::Fail(txn) => conditional(alloc, schedule, line, 2, &Scope::Step(txn, place)),
        _ => Err(line.wants(1, Wanted::Move)),
    }
}

/// The rule of a step that writes no value.
fn conditional(
    alloc: Global,
    schedule: &Schedule,
    line: &Line<'_>,
    at: usize,
    scope: &Scope,
) -> Result<Rule, ProgramFault> {
    Ok(Rule {
        amount: Amount::none(alloc),
        when: when_of(alloc, schedule, line, at, scope)?,
    })
}

/// The condition from a place on, or the end of the line.
fn when_of(
    alloc: Global,
    schedule: &Schedule,
    line: &Line<'_>,
    at: usize,
    scope: &Scope,
) -> Result<Condition, ProgramFault> {
    if at >= line.tokens.len() {
        return Ok(Condition::none(alloc));
    }
    if !line.is(at, Kind::If) {
        return Err(line.wants(at, Wanted::IfOrEnd));
    }
    condition(alloc, line, at.saturating_add(1), schedule, scope)
}

/// The invariants.
fn always_of(alloc: Global, schedule: &Schedule, text: &str) -> Result<Vec<Always>, ProgramFault> {
    let mut always = Vec::new(alloc);
    let mut number: u64 = 0;
    let mut rest = text.as_bytes();
    for _ in 0..text.len() {
        let Some((line, later)) = next_line(rest) else {
            return Ok(always);
        };
        number = number.saturating_add(1);
        if sort_of(line) == Sort::Always {
            always.push(read_always(alloc, schedule, number, line)?)?;
        }
        rest = later;
    }
    Ok(always)
}

fn read_always(
    alloc: Global,
    schedule: &Schedule,
    number: u64,
    line: &[u8],
) -> Result<Always, ProgramFault> {
    let tokens = tokens_of(alloc, schedule, line)?;
    let line = line_of(number, line, tokens.as_slice());
    let condition = condition(alloc, &line, 1, schedule, &Scope::End)?;
    Ok(Always {
        line: number,
        condition,
    })
}
