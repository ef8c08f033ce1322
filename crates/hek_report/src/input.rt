//! What a command reads besides files.
ghost use Rattle.std.specs.Prelude.{◌≡◌, IfOk, IfErr};
ghost use Rattle.std.specs.Io.Buffered.{reader_remaining};
ghost use Rattle.hek_report.specs.declared.fault.HekFault.TheVariants as hek;

use crate::fault::HekFault;
use std::alloc::Global;
use std::io::{BufReader, Read};

/// The name of standard input, on the command line, where a file or words are read.
pub const INPUT: &str = "-";

/// An input that is read line by line, through a buffer. Nothing of it is read yet.
pub fn buffered<'a, I: Read + Drop>(alloc: Global, input: I) -> Result<BufReader<I>, HekFault<'a>>
    ensures whole { IfOk result (λ reader. reader_remaining I.remaining reader ≡ I.remaining input) }
    ensures refused { IfErr result (λ fault. fault ≡ hek.NoMemory) }
{
    match BufReader::new(alloc, input) {
        Ok(reader) => Ok(reader),
        Err(_) => Err(HekFault::NoMemory),
    }
}
