// Runs a program on a field and prints what is told.
#![tactic(auto)]

use std::io;
use std::process::ExitCode;

const USAGE: &str =
    "usage: run PROGRAM FIELD\nruns the program on the field's bytes, and prints the field, a race, a wrong lane, a stuck group, or too long";

fn shown(rt: &HostRuntime) -> io::Result<()> {
    let Some(words) = cli::words(rt, USAGE, 2, 2)? else {
        return Ok(());
    };
    let text = cli::read(rt, words[0].as_str())?;
    let bytes = cli::read(rt, words[1].as_str())?;
    show::run_shown(rt, text.as_slice(), bytes.as_slice())
}

fn main(rt: HostRuntime) -> ExitCode {
    cli::status(shown(&rt))
}
