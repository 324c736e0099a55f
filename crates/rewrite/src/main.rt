// Writes a program's text anew.
#![tactic(auto)]

use std::io;
use std::process::ExitCode;

const USAGE: &str =
    "usage: rewrite PROGRAM\nwrites the program's text anew, with the names that it has";

fn shown(rt: &HostRuntime) -> io::Result<()> {
    let Some(words) = cli::words(rt, USAGE, 1, 1)? else {
        return Ok(());
    };
    let text = cli::read(rt, words[0].as_str())?;
    show::rewrite_shown(rt, text.as_slice())
}

fn main(rt: HostRuntime) -> ExitCode {
    cli::status(shown(&rt))
}
