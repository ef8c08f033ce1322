//! `word`, `release`, `asm` and `dis`.
use crate::call::{Answer, Call, OUTPUT};
use crate::disk::Disk;
use hek_convert_command::{
    Bounds, asm_command, changes_command, dis_command, release_command, word_command,
};
use hek_report::{HekFault, INPUT};
use hek_rules::FromWrite;
use std::io::{IsTerminal, Read, Write};

impl<'a, D: Disk, I: Read + Drop, W: Write + IsTerminal, E: Write> Call<
    '_,
    '_,
    '_,
    'a,
    D,
    I,
    W,
    E,
> {
    pub fn release(&mut self) -> Answer<'a> {
        let word = self.word("WORD");
        let waits = self.word("WAITS");
        release_command(word, waits, &mut self.out)
    }

    pub fn words(&mut self) -> Answer<'a> {
        let words = self.found.get_strs("WORD").ok_or(HekFault::BadArgument)?;
        let printing = self.printing();
        let bounds = Bounds {
            clock: self.number("clock"),
            txns: self.number("txns"),
            readers: self.number("readers"),
        };
        let input = self.open(INPUT)?;
        if self.flag("changes") {
            return changes_command(self.alloc, words, input, printing, &mut self.out);
        }
        word_command(self.alloc, words, bounds, input, printing, &mut self.out)
    }

    /// Makes an image. OUT keeps what it had unless the image is written whole.
    pub fn assemble(&mut self) -> Answer<'a> {
        let image = self.word("OUT");
        if self.refuses_same(image) || self.refuses_bytes(image) {
            return Ok(2);
        }
        let bytes = self.schedule_text()?;
        if image != OUTPUT {
            self.write_to(image);
        }
        let mut sink = FromWrite::new(&mut self.out);
        let ran = asm_command(self.alloc, bytes.as_slice(), &mut sink);
        self.out.settle(ran.is_ok(), ran)
    }

    /// Says that an image would go to a terminal, which can't show it, if it would.
    fn refuses_bytes(&mut self, image: &str) -> bool {
        let is_shown = image == OUTPUT && self.out.is_terminal();
        if is_shown {
            let _ = writeln!(
                self.faults,
                "hek: an image is bytes, and standard output is a terminal: name a file, or use a pipe"
            );
        }
        is_shown
    }

    pub fn disassemble(&mut self) -> Answer<'a> {
        let file = self.schedule_file()?;
        dis_command(self.alloc, file, &mut self.out)
    }
}
