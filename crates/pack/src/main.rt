// Makes a field's bytes of cells in a text.
#![tactic(auto)]

use cells::scan::Unread;
use cells::text::{lines_before, read_cells, word_at};
use formats::packed::write_field;
use std::io;
use std::process::ExitCode;

const USAGE: &str =
    "usage: pack GROUPS LANES STEPS [FILE]\nwrites the bytes of a field: cells as they are printed, or as decimal numbers, from the file or standard input";

// A number in range; else a message says so.
fn number(rt: &HostRuntime, word: &str, low: u64, high: u64) -> io::Result<u64> {
    if let Ok(n) = word.parse::<u64>()
        && low <= n
        && n <= high
    {
        return Ok(n);
    }
    eprintln!(rt; "{word}: not a number from {low} to {high}")?;
    Err(io::Error::other("a number out of range"))
}

fn input(rt: &HostRuntime, path: Option<&String>) -> io::Result<Vec<u8>> {
    match path {
        Some(path) => cli::read(rt, path.as_str()),
        None => cli::read_stdin(rt),
    }
}

fn bad(rt: &HostRuntime, text: &[u8], at: usize) -> io::Result<()> {
    let line = lines_before(text, at).saturating_add(1);
    eprint!(rt; "line {line}: ")?;
    rt.stderr().write_all(word_at(text, at))?;
    rt.eprintln(": not a cell")?;
    Err(io::Error::other("not a cell"))
}

fn write(rt: &HostRuntime, groups: u64, lanes: u64, steps: u64, cells: &[u32]) -> io::Result<()> {
    if cells.len() > 1 << 24 {
        rt.eprintln("more than 16777216 cells")?;
        return Err(io::Error::other("too many cells"));
    }
    let mut bytes: Vec<u8> = vec![in rt.alloc(); 0; 16 + 4 * cells.len()]?;
    match write_field(
        bytes.as_mut_slice(),
        groups as usize,
        lanes as usize,
        steps,
        cells,
    ) {
        Some(_) => rt.write_all(bytes.as_slice()),
        None => Err(io::Error::other("no room for the bytes")),
    }
}

fn pack(rt: &HostRuntime, words: &[String]) -> io::Result<()> {
    let [groups, lanes, steps, ..] = words else {
        return Ok(());
    };
    let groups = number(rt, groups.as_str(), 1, 1024)?;
    let lanes = number(rt, lanes.as_str(), 1, 1024)?;
    let steps = number(rt, steps.as_str(), 0, 1 << 40)?;
    let text = input(rt, words.get(3))?;
    match read_cells(rt.alloc(), text.as_slice()) {
        Ok(cells) => write(rt, groups, lanes, steps, cells.as_slice()),
        Err(Unread::Bad(at)) => bad(rt, text.as_slice(), at),
        Err(Unread::NoMemory) => Err(io::Error::other("no room for the cells")),
    }
}

fn packed(rt: &HostRuntime) -> io::Result<()> {
    match cli::words(rt, USAGE, 3, 4)? {
        Some(words) => pack(rt, words.as_slice()),
        None => Ok(()),
    }
}

fn main(rt: HostRuntime) -> ExitCode {
    cli::status(packed(&rt))
}
