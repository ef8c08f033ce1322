//! Why a file can't be read or written, in words.
use crate::kept::Kept;
use crate::said::Said;
use clap::ArgMatches;
use hek_report::INPUT;
use std::io::ErrorKind;

/// Says why a file can't be read: what the system answered, or that it has too many bytes.
pub fn why_not_read(name: &str, kept: &Kept<'_>, said: &mut Said) {
    said.file(name);
    if name == INPUT && kept.is_input_twice() {
        let why = "`-` is given twice, and standard input can be read once";
        return said.line("  | ", "@", &[why]);
    }
    let is_input = name == INPUT;
    let name = if is_input { "standard input" } else { name };
    match kept.failure() {
        Some(ErrorKind::IsADirectory) if is_input => {
            said.line("  ", "@: it is closed, or a folder", &[name]);
        }
        Some(kind) => put_reason(name, kind, said),
        None => said.line("  ", "@: it has more than 268435456 bytes", &[name]),
    }
}

/// Says why a command can't write: to standard output if that failed, otherwise to the file that the words name.
pub fn why_not_written(
    failure: Option<ErrorKind>,
    found: &ArgMatches<'_>,
    kept: &Kept<'_>,
    said: &mut Said,
) {
    if let Some(kind) = failure {
        return put_reason("standard output", kind, said);
    }
    if let (Some(name), Some(kind)) = (written_name(found), kept.failure()) {
        said.file(name);
        put_reason(name, kind, said);
    }
}

/// The file that a command writes, by its words.
fn written_name<'a>(found: &ArgMatches<'a>) -> Option<&'a str> {
    found
        .get_str("OUT")
        .or(found.get_str("order-out"))
        .or(found.get_str("output"))
}

fn put_reason(name: &str, kind: ErrorKind, said: &mut Said) {
    let reason = match kind {
        ErrorKind::NotFound => "there is no such file or folder",
        ErrorKind::IsADirectory => "it is a folder",
        ErrorKind::NotADirectory => "a part of its path is no folder",
        ErrorKind::PermissionDenied => "permission denied",
        ErrorKind::StorageFull | ErrorKind::QuotaExceeded => "the disk is full",
        ErrorKind::ReadOnlyFilesystem => "the disk can't be written",
        _ => return put_kind(name, kind, said),
    };
    said.line("  ", "@: @", &[&*name, &*reason]);
}

/// A reason in the words of the system.
fn put_kind(name: &str, kind: ErrorKind, said: &mut Said) {
    let alloc = said.alloc;
    match format!(in alloc; "{kind}") {
        Ok(reason) => said.line("  ", "@: @", &[&*name, reason.as_str()]),
        Err(_) => said.lack_memory(),
    }
}
