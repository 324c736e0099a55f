// What is told, and a refusal, in print.
ghost use Rattle.std.specs.Prelude.{◌≡◌, ◌+◌, ◌*◌, ◌<◌, ◌≤◌, [], ◌∷◌, ◌++◌, length};
ghost use Rattle.formats.specs.Wrote.{Writes};
ghost use Rattle.formats.specs.Printed.{byte_behind, lines_from, with_number, touch_words, place_words, race_line, line_end_spec, stuck_line, printed, refusal_line, Prints};

use crate::pen::Pen;
use crate::refusal::{Lent, Refusal};
use crate::told::{Place, Told, Touch};

fn behind(i: usize, n: usize) -> u8
    requires { i < n }
    ensures { result ≡ byte_behind n i }
{
    if i + 1 == n || i % 8 == 7 { 10 } else { 32 }
}

fn put_cells(pen: &mut Pen, cells: &[u32])
    requires { pen.old.at + 9 * length cells.now ≤ length pen.old.out.now }
    ensures { Writes pen.old pen.new (lines_from (length cells.now) 0 cells.now) }
{
    for (i, cell) in cells.iter().enumerate() {
        pen.put_hex(*cell);
        pen.put(behind(i, cells.len()));
    }
}

fn put_touch(pen: &mut Pen, touch: Touch)
    requires { pen.old.at + 86 ≤ length pen.old.out.now }
    ensures wrote { Writes pen.old pen.new (touch_words touch) }
    ensures few { pen.new.at ≤ pen.old.at + 86 }
{
    pen.put_number(b" group ", touch.group as u64);
    pen.put_number(b" lane ", touch.lane as u64);
    pen.put_number(b" phase ", touch.phase);
    if touch.wrote {
        pen.put_all(b" wrote");
    } else {
        pen.put_all(b" read");
    }
}

fn put_place(pen: &mut Pen, place: Place, cell: usize)
    requires { pen.old.at + 31 ≤ length pen.old.out.now }
    ensures wrote { Writes pen.old pen.new (with_number (place_words place) cell) }
    ensures few { pen.new.at ≤ pen.old.at + 31 }
{
    match place {
        Place::Field => pen.put_number(b"race field ", cell as u64),
        Place::Cell => pen.put_number(b"race cell ", cell as u64),
    }
}

fn put_race(pen: &mut Pen, place: Place, cell: usize, first: Touch, second: Touch)
    requires { pen.old.at + 256 ≤ length pen.old.out.now }
    ensures { Writes pen.old pen.new (race_line place cell first second) }
{
    put_place(pen, place, cell);
    put_touch(pen, first);
    put_touch(pen, second);
    pen.put(10);
}

// A line of two texts with a number behind each.
fn put_line(pen: &mut Pen, text: &[u8], n: u64, between: &[u8], m: u64)
    requires { pen.old.at + length text.now + length between.now + 41 ≤ length pen.old.out.now }
    ensures { Writes pen.old pen.new (with_number text.now n ++ (with_number between.now m ++ line_end_spec)) }
{
    pen.put_number(text, n);
    pen.put_number(between, m);
    pen.put(10);
}

fn put_stuck(pen: &mut Pen, group: usize)
    requires { pen.old.at + 256 ≤ length pen.old.out.now }
    ensures { Writes pen.old pen.new (stuck_line group) }
{
    pen.put_number(b"stuck group ", group as u64);
    pen.put(10);
}

fn put_told(pen: &mut Pen, told: Told, cells: &[u32])
    requires { pen.old.at + 10 * length cells.now + 256 ≤ length pen.old.out.now }
    ensures { Writes pen.old pen.new (printed told cells.now) }
{
    match told {
        Told::Field => {
            pen.put_all(b"field\n");
            put_cells(pen, cells);
        }
        Told::Race {
            place,
            cell,
            first,
            second,
        } => put_race(pen, place, cell, first, second),
        Told::Wrong { group, lane } => {
            put_line(pen, b"wrong group ", group as u64, b" lane ", lane as u64);
        }
        Told::Stuck { group } => put_stuck(pen, group),
        Told::TooLong => pen.put_all(b"too long\n"),
    }
}

// Prints what is told, with the cells of the field, and answers how many bytes that took.
// Kept apart from the run that it ends (`#[inline(never)]`): as one piece with it, each cell takes twice the instructions.
#[inline(never)]
pub fn print_told(out: &mut [u8], told: Told, cells: &[u32]) -> Result<usize, Refusal>
    ensures { Prints (10 * length cells.now + 256) (printed told cells.now) out.old out.new result }
{
    if out.len() < 256 || (out.len() - 256) / 10 < cells.len() {
        return Err(Refusal::Short(Lent::Printed));
    }
    let mut pen = Pen { out, at: 0 };
    put_told(&mut pen, told, cells);
    Ok(pen.at)
}

// Prints a refusal.
// By number and place: a text's refusals are of a crate that this one doesn't know.
#[tactic(auto, unfolding(crate::specs::Printed::refusal_line))]
pub fn print_refusal(out: &mut [u8], number: u64, place: usize) -> Result<usize, Refusal>
    ensures { Prints 256 (refusal_line number place) out.old out.new result }
{
    if out.len() < 256 {
        return Err(Refusal::Short(Lent::Printed));
    }
    let mut pen = Pen { out, at: 0 };
    put_line(&mut pen, b"refused ", number, b" at ", place as u64);
    Ok(pen.at)
}
