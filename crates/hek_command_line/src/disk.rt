//! The files that commands read and write.
use crate::kept::Kept;
use crate::streams::Stream;
use hek_report::HekFault;
use std::io;
use std::io::{IsTerminal, Read, Write};

/// Opens files by their names.
pub trait Disk {
    type Reader: Read + Drop;

    type Writer: Write + Drop;

    /// Opens an existing file to read it.
    fn open(&self, name: &str) -> io::Result<Self::Reader>;

    /// Begins a file that is to have this name.
    fn create(&self, name: &str) -> io::Result<Self::Writer>;

    /// Gives a file that is whole its name, in place of the one that had it.
    fn keep(&self, file: Self::Writer) -> io::Result<()>;

    /// Forgets a file that was begun.
    fn discard(&self, file: Self::Writer);

    /// Whether two names are those of one file.
    fn is_same(&self, first: &str, second: &str) -> bool;
}

/// What a file is read from.
#[derive(Drop)]
pub enum InputFile<I: Read + Drop, F: Read + Drop> {
    Input(I),
    File(F),
}

impl<I: Read + Drop, F: Read + Drop> Read for InputFile<I, F> {
    fn read(&mut self, buf: &mut [u8]) -> io::Result<usize> {
        match self {
            InputFile::Input(input) => input.read(buf),
            InputFile::File(file) => file.read(buf),
        }
    }
}

/// A file that is begun at its first write, and not before. It gets its name when it is kept.
#[derive(Drop)]
pub struct LateFile<'c, 'k, 'a, D: Disk> {
    disk: &'c D,
    name: &'a str,
    kept: &'k Kept<'a>,
    file: Option<D::Writer>,
}

impl<'c, 'k, 'a, D: Disk> LateFile<'c, 'k, 'a, D> {
    /// A file with this name that isn't begun yet. Why it can't be written is noted.
    pub fn new(disk: &'c D, name: &'a str, kept: &'k Kept<'a>) -> LateFile<'c, 'k, 'a, D> {
        LateFile {
            disk,
            name,
            kept,
            file: None,
        }
    }

    /// Keeps the file if a command wrote what it should, an empty one if nothing was written; otherwise leaves what was
    /// there. Answers what came of the command.
    pub fn settle<'f>(
        self,
        is_whole: bool,
        ran: Result<u8, HekFault<'f>>,
    ) -> Result<u8, HekFault<'f>> {
        let LateFile {
            disk,
            name,
            kept,
            file,
        } = self;
        if !is_whole {
            if let Some(file) = file {
                disk.discard(file);
            }
            return ran;
        }
        let settled = match file {
            Some(file) => disk.keep(file),
            None => keep_empty(disk, name),
        };
        match settled {
            Ok(()) => ran,
            Err(error) => {
                kept.note(error.kind());
                Err(HekFault::CannotWrite)
            }
        }
    }

    /// Writes to the file, which is begun now if it isn't yet.
    fn put(&mut self, buf: &[u8]) -> io::Result<()> {
        if let Some(file) = &mut self.file {
            return file.write_all(buf);
        }
        let mut file = self.disk.create(self.name)?;
        let written = file.write_all(buf);
        self.file = Some(file);
        written
    }
}

/// Makes an empty file.
fn keep_empty<D: Disk>(disk: &D, name: &str) -> io::Result<()> {
    let file = disk.create(name)?;
    disk.keep(file)
}

impl<D: Disk> Write for LateFile<'_, '_, '_, D> {
    fn write(&mut self, buf: &[u8]) -> io::Result<usize> {
        match self.put(buf) {
            Ok(()) => Ok(buf.len()),
            Err(error) => {
                self.kept.note(error.kind());
                Err(error)
            }
        }
    }

    fn flush(&mut self) -> io::Result<()> {
        let flushed = match &mut self.file {
            Some(file) => file.flush(),
            None => Ok(()),
        };
        if let Err(error) = &flushed {
            self.kept.note(error.kind());
        }
        flushed
    }
}

/// Where a command writes: to memory, if what it writes goes on from there; otherwise to a file, if the words name one; otherwise
/// to standard output.
#[derive(Drop)]
pub struct Output<'c, 'k, 'a, D: Disk, W: Write> {
    pub stream: Stream<'c, W>,
    pub file: Option<LateFile<'c, 'k, 'a, D>>,
    pub memory: Option<Vec<u8>>,
}

impl<'c, 'k, 'a, D: Disk, W: Write> Output<'c, 'k, 'a, D, W> {
    /// Standard output.
    pub fn new(stream: Stream<'c, W>) -> Output<'c, 'k, 'a, D, W> {
        Output {
            stream,
            file: None,
            memory: None,
        }
    }

    /// Keeps the file that the words name, if they do, where a command wrote what it should. Answers what came of the command.
    pub fn settle<'f>(
        &mut self,
        is_whole: bool,
        ran: Result<u8, HekFault<'f>>,
    ) -> Result<u8, HekFault<'f>> {
        match self.file.take() {
            Some(file) => file.settle(is_whole, ran),
            None => ran,
        }
    }
}

impl<D: Disk, W: Write> Write for Output<'_, '_, '_, D, W> {
    fn write(&mut self, buf: &[u8]) -> io::Result<usize> {
        if let Some(memory) = &mut self.memory {
            return memory.write(buf);
        }
        match &mut self.file {
            Some(file) => match self.stream.write_to(buf, file) {
                Ok(()) => Ok(buf.len()),
                Err(error) => {
                    file.kept.note(error.kind());
                    Err(error)
                }
            },
            None => self.stream.write(buf),
        }
    }

    fn flush(&mut self) -> io::Result<()> {
        match &mut self.file {
            Some(file) => file.flush(),
            None => self.stream.flush(),
        }
    }
}

impl<D: Disk, W: Write + IsTerminal> IsTerminal for Output<'_, '_, '_, D, W> {
    fn is_terminal(&self) -> bool {
        self.stream.is_terminal()
    }
}
