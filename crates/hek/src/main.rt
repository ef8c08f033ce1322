//! The program: `main` passes its arguments, its files and the standard streams to a function that answers the exit
//! status.
#![tactic(auto)]

use hek_command_line::{Settings, Surroundings, SystemDisk, program};
use std::fs;
use std::process::ExitCode;

/// A folder that exists, and can't be read as a file.
const FOLDER: &str = "/";

fn main(rt: HostRuntime) -> ExitCode {
    // The system gives an opened file the least free number. If standard input is closed, that is its number, and `-`
    // would mean the opened file. A folder therefore takes that number first: standard input can't be read then, as if
    // it were still closed.
    let _place = fs::open(&rt, FOLDER);
    let given = Surroundings {
        disk: &SystemDisk::new(&rt),
        out: &mut rt.stdout(),
        faults: &mut rt.stderr(),
        settings: Settings::by_environment(&rt),
    };
    ExitCode::from(program(&rt, &rt, rt.stdin(), given))
}
