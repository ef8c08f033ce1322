//! A line for each order, written as the order is over.
use crate::choice::Choice;
use crate::given::Given;
use crate::one::{fault_of, leveled};
use crate::printed::put_order;
use hek_permute::{Outcome, Watch, play_all};
use hek_report::{HekFault, Printing, send};
use hek_rules::TxnId;
use std::alloc::Global;
use std::io::Write;

/// A watcher that writes the line of each order. It stops where one can't be written.
#[derive(Drop)]
struct Each<'s, 'o, W: Write> {
    alloc: Global,
    printing: Printing,
    given: &'s Given<'s>,
    out: &'o mut W,
    /// Whether the output took all lines so far.
    is_open: bool,
}

impl<W: Write> Watch for Each<'_, '_, W> {
    fn see(&mut self, order: &[TxnId], outcome: &Outcome) -> bool {
        let given = self.given;
        let mut lines = Vec::new(self.alloc);
        if put_order(self.alloc, self.printing, given, order, outcome, &mut lines).is_err() {
            return false;
        }
        self.is_open = send(&mut lines, self.out).is_ok();
        self.is_open
    }
}

/// Plays a part of the orders, and writes the line of each. Answers the exit status.
pub(crate) fn write_each<'a, W: Write>(
    alloc: Global,
    given: &Given<'_>,
    choice: Choice<'_>,
    part: (u64, u64),
    out: &mut W,
) -> Result<u8, HekFault<'a>> {
    let leveled = leveled(alloc, given.schedule, choice.level, given.schedule.steps())?;
    let over = given.over(&leveled);
    let mut each = Each {
        alloc,
        printing: choice.printing,
        given: &over,
        out,
        is_open: true,
    };
    let played = play_all(
        alloc,
        &leveled,
        given.rules,
        choice.form,
        part.0,
        part.1,
        &mut each,
    );
    match played {
        Ok(_) => Ok(0),
        Err(_) if !each.is_open => Err(HekFault::CannotWrite),
        Err(fault) => Err(fault_of(fault)),
    }
}
