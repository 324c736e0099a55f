// Where in the text something is told or refused.
use calls::plan::Refused;
use cli::spot::{Spot, spot_of};
use machine::verdict::Verdict;
use std::io;
use std::io::Write;

// The line of the text that a person is shown, with its number.
fn show_line(rt: &HostRuntime, text: &[u8], spot: Spot) -> io::Result<()> {
    let line = spot.line;
    eprint!(rt; "line {line}: ")?;
    if let Some(bytes) = text.get(spot.start..spot.end) {
        rt.stderr().write_all(bytes)?;
    }
    rt.eprintln("")
}

// The line with a number, counted from 1.
fn show_number(rt: &HostRuntime, text: &[u8], number: u32) -> io::Result<()> {
    let breaks = text.iter().enumerate().filter(|(_, b)| **b == b'\n');
    let start = breaks
        .take(number.saturating_sub(1) as usize)
        .last()
        .map_or(0, |(i, _)| i + 1);
    show_line(rt, text, spot_of(text, start))
}

// A mark under a column of the line above, which begins behind "line N: ".
fn show_mark(rt: &HostRuntime, spot: Spot) -> io::Result<()> {
    let line = spot.line;
    let column = spot.column;
    let width = column.min(1100);
    eprintln!(rt; "line {line}, {:>width$} column {column}", "^")
}

// Where a text is refused: its line, and a mark under the byte.
pub fn show_refused(rt: &HostRuntime, text: &[u8], refused: Refused) -> io::Result<()> {
    println!(rt; "{refused}")?;
    if let Refused::Text(_) = refused {
        let spot = spot_of(text, refused.place());
        show_line(rt, text, spot)?;
        show_mark(rt, spot)?;
    }
    Ok(())
}

// The lines of the program at which what is told came about.
pub fn show_lines(rt: &HostRuntime, text: &[u8], verdict: Verdict) -> io::Result<()> {
    match verdict {
        Verdict::Raced(race) => {
            show_number(rt, text, race.first.who.line)?;
            show_number(rt, text, race.second.who.line)
        }
        Verdict::Wrong {
            group: _,
            lane: _,
            line,
        } => show_number(rt, text, line),
        _ => Ok(()),
    }
}
