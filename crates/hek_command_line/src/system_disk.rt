//! The files of a system. One that is written is beside the file that has its name until it is whole.
use crate::disk::Disk;
use std::alloc::Global;
use std::fs::{File, OpenOptions};
use std::io::{ErrorKind, Write};
use std::os::unix::fs::MetadataExt;
use std::rt::Files;
use std::{fs, io};

/// The files of a system.
#[derive(Clone, Copy)]
pub struct SystemDisk<'a, R: Files + Alloc<A = Global>> {
    system: &'a R,
}

/// A file that is written. Until it is whole it has another name, or its own one where it is no plain file, as a device, or
/// where its folder takes no files.
#[derive(Drop)]
pub struct NewFile<F: Write + Drop> {
    file: F,
    names: Option<Names>,
}

/// The name of a file while it is written, and the one that it is to have.
#[derive(Drop)]
struct Names {
    beside: String,
    name: String,
}

/// How many names are tried for a file while it is written.
const TRIES: u64 = 100;

impl<F: Write + Drop> Write for NewFile<F> {
    fn write(&mut self, buf: &[u8]) -> io::Result<usize> {
        self.file.write(buf)
    }

    fn flush(&mut self) -> io::Result<()> {
        self.file.flush()
    }
}

impl<'a, R: Files + Alloc<A = Global>> SystemDisk<'a, R> {
    /// The files of this system.
    pub fn new(system: &'a R) -> SystemDisk<'a, R> {
        SystemDisk { system }
    }

    /// The name of the file that a name stands for: where it is a link, the one that this leads to.
    fn name_of(&self, name: &str) -> io::Result<String> {
        let alloc = self.system.alloc();
        match fs::canonicalize(self.system, name) {
            Ok(path) => Ok(String::from_str(alloc, path.as_str())?),
            Err(_) => Ok(String::from_str(alloc, name)?),
        }
    }

    /// Whether a name is one of a plain file, or of none. Where a system can't say that, it isn't. A plain file that can't be
    /// written is a fault.
    fn is_plain(&self, name: &str) -> io::Result<bool> {
        match fs::metadata(self.system, name) {
            Ok(found) if found.is_file() => {
                let _file = OpenOptions::new().write(true).open(self.system, name)?;
                Ok(true)
            }
            Ok(_) => Ok(false),
            Err(error) => Ok(error.kind() == ErrorKind::NotFound),
        }
    }

    /// Begins a file beside the one of this name; None where its folder takes no files.
    fn begin_beside(&self, name: String) -> io::Result<Option<NewFile<R::File>>> {
        for number in 0..TRIES {
            let beside = format!(in self.system.alloc(); "{name}.{number}.new")?;
            match File::create_new(self.system, beside.as_str()) {
                Ok(file) => {
                    let names = Some(Names { beside, name });
                    return Ok(Some(NewFile { file, names }));
                }
                Err(error) => match error.kind() {
                    ErrorKind::AlreadyExists => {}
                    ErrorKind::PermissionDenied => return Ok(None),
                    _ => return Err(error),
                },
            }
        }
        Ok(None)
    }
}

impl<R: Files + Alloc<A = Global>> Disk for SystemDisk<'_, R> {
    type Reader = R::File;

    type Writer = NewFile<R::File>;

    fn open(&self, name: &str) -> io::Result<R::File> {
        fs::open(self.system, name)
    }

    fn create(&self, name: &str) -> io::Result<NewFile<R::File>> {
        if self.is_plain(name)? {
            let full = self.name_of(name)?;
            if let Some(file) = self.begin_beside(full)? {
                return Ok(file);
            }
        }
        let file = fs::create(self.system, name)?;
        Ok(NewFile { file, names: None })
    }

    fn keep(&self, file: NewFile<R::File>) -> io::Result<()> {
        let NewFile { mut file, names } = file;
        file.flush()?;
        let Some(names) = names else {
            return Ok(());
        };
        let beside = names.beside.as_str();
        let name = names.name.as_str();
        if let Ok(found) = fs::metadata(self.system, name) {
            let _ = fs::set_permissions(self.system, beside, found.permissions());
        }
        match fs::rename(self.system, beside, name) {
            Ok(()) => Ok(()),
            Err(error) => {
                let _ = fs::remove_file(self.system, beside);
                Err(error)
            }
        }
    }

    fn discard(&self, file: NewFile<R::File>) {
        let NewFile { file: _, names } = file;
        if let Some(names) = names {
            let _ = fs::remove_file(self.system, names.beside.as_str());
        }
    }

    fn is_same(&self, first: &str, second: &str) -> bool {
        let first = fs::metadata(self.system, first);
        let second = fs::metadata(self.system, second);
        match (first, second) {
            (Ok(first), Ok(second)) => {
                first.is_file() && first.dev() == second.dev() && first.ino() == second.ino()
            }
            _ => false,
        }
    }
}
