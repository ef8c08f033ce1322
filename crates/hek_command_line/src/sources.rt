//! The files that `source` reads in a session of `debug`.
use crate::disk::Disk;
use hek_debug_command::Sources;
use std::io;

/// The files of a disk.
#[derive(Drop)]
pub struct SourceFiles<'d, D: Disk> {
    pub disk: &'d D,
}

impl<D: Disk> Sources for SourceFiles<'_, D> {
    type File = D::Reader;

    fn open(&self, name: &str) -> io::Result<D::Reader> {
        self.disk.open(name)
    }
}
