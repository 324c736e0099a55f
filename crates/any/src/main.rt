// Runs a program on a field, turn by turn as a file says, and then one lane after the other; prints what is told.
#![tactic(auto)]

use std::io;
use std::process::ExitCode;

const USAGE: &str =
    "usage: any PROGRAM FIELD TURNS\ndoes the turns of the file, each \"of GROUP LANE\" or \"release GROUP\" on a line of its own, then one lane after the other, and prints what is told";

fn shown(rt: &HostRuntime) -> io::Result<()> {
    let Some(words) = cli::words(rt, USAGE, 3, 3)? else {
        return Ok(());
    };
    let text = cli::read(rt, words[0].as_str())?;
    let bytes = cli::read(rt, words[1].as_str())?;
    let file = cli::read(rt, words[2].as_str())?;
    let turns = show::turns_shown(rt, words[2].as_str(), file.as_slice())?;
    show::any_shown(rt, turns.as_slice(), text.as_slice(), bytes.as_slice())
}

fn main(rt: HostRuntime) -> ExitCode {
    cli::status(shown(&rt))
}
