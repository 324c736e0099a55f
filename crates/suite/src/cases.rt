// Cases in a file. A part of a case is a line with its name and its length, then so many bytes, then byte 10.
use grammar::numbers::{Number, read_number};
use std::io;

// What has to be printed: these bytes, or one of these lines.
#[derive(Clone, Copy)]
enum Wanted<'a> {
    All(&'a [u8]),
    OneOf(&'a [u8]),
}

// A case. A part that it does not have is empty.
#[derive(Clone, Copy)]
pub(crate) struct Case<'a> {
    pub text: &'a [u8],
    pub field: &'a [u8],
    pub turns: &'a [u8],
    told: Wanted<'a>,
}

// The number, or 2^32 if it is 2^32 or more.
fn value_of(number: Number) -> usize {
    number.value.map_or(4294967296, |value| value as usize)
}

impl Case<'_> {
    // The bytes of what has to be printed, or of the lines.
    fn told(&self) -> &[u8] {
        match self.told {
            Wanted::All(told) => told,
            Wanted::OneOf(lines) => lines,
        }
    }

    // Whether a refusal has to be printed; of several lines the first is looked at.
    pub(crate) fn is_refused(&self) -> bool {
        self.told().starts_with(b"refused ")
    }

    // The same, with this number from byte 8 on and this place from byte 13 on, 0 where no digit stands. No other byte is looked at.
    pub(crate) fn is_refused_at(&self, number: u8, place: usize) -> bool {
        self.is_refused()
            && value_of(read_number(self.told(), 8)) == number as usize
            && value_of(read_number(self.told(), 13)) == place
    }

    // Whether the first n bytes that were printed are what the case has.
    pub(crate) fn is_right(&self, out: &[u8], n: usize) -> bool {
        let Some(printed) = out.get(..n) else {
            return false;
        };
        match self.told {
            Wanted::All(told) => *told == *printed,
            Wanted::OneOf(lines) => lines
                .split_inclusive(|b| *b == b'\n')
                .any(|line| *line == *printed),
        }
    }
}

// A part's bytes, and the file behind it.
#[derive(Clone, Copy)]
struct Part<'a> {
    bytes: &'a [u8],
    rest: &'a [u8],
}

// The part of this name at the head of the file, if it stands there.
fn find_part<'a>(file: &'a [u8], name: &[u8]) -> Option<Part<'a>> {
    let line = file.strip_prefix(name)?;
    let length = read_number(line, 1);
    let behind = line.get(length.end..)?.get(1..)?;
    let (bytes, rest) = behind.split_at_checked(value_of(length))?;
    Some(Part {
        bytes,
        rest: rest.get(1..).unwrap_or(&[]),
    })
}

// The same, or an empty part.
fn part_or_none<'a>(file: &'a [u8], name: &[u8]) -> Part<'a> {
    find_part(file, name).unwrap_or(Part {
        bytes: &[],
        rest: file,
    })
}

// The case at the head of the file, if one stands there, and the file behind it.
fn find_case(file: &[u8]) -> Option<(Case<'_>, &[u8])> {
    let name = find_part(file, b"case")?;
    let text = find_part(name.rest, b"text")?;
    let field = part_or_none(text.rest, b"field");
    let turns = part_or_none(field.rest, b"turns");
    let (told, rest) = match find_part(turns.rest, b"told") {
        Some(told) => (Wanted::All(told.bytes), told.rest),
        None => {
            let lines = find_part(turns.rest, b"either")?;
            (Wanted::OneOf(lines.bytes), lines.rest)
        }
    };
    let case = Case {
        text: text.bytes,
        field: field.bytes,
        turns: turns.bytes,
        told,
    };
    Some((case, rest))
}

// How many cases of the file are right, up to the first that is not. A case of which nothing is said is passed over.
pub(crate) fn count_right<F: FnMut(Case<'_>) -> io::Result<Option<bool>>>(
    file: &[u8],
    mut is_right: F,
) -> io::Result<u64>
    requires { F.IsAlwaysCallable is_right }
{
    let mut rest = file;
    let mut right = 0u64;
    // No file has as many cases; that the file behind a case is shorter is promised nowhere.
    for _ in 0..1000 {
        let Some((case, behind)) = find_case(rest) else {
            break;
        };
        rest = behind;
        match is_right(case)? {
            Some(true) => right = right.saturating_add(1),
            Some(false) => break,
            None => {}
        }
    }
    Ok(right)
}
