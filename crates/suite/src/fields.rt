// Fields' bytes and what is printed of them: the field, or how it is refused.
ghost use Rattle.std.specs.Prelude.{◌<◌};

use crate::cases::count_right;
use formats::field::{copy_cells, read_field};
use formats::print::{print_refusal, print_told};
use formats::refusal::{number_of, place_of};
use formats::told::Told;
use std::alloc::{AllocError, Global};
use std::io;

// The number that a digit in hexadecimal is; 0 of another byte, a capital too.
fn digit(b: u8) -> u8
    ensures { result < 16 }
{
    match b {
        b'0'..=b'9' => b - b'0',
        b'a'..=b'f' => b - b'a' + 10,
        _ => 0,
    }
}

// Bytes from two digits each.
pub(crate) fn from_hex(heap: Global, digits: &[u8]) -> Result<Vec<u8>, AllocError> {
    digits
        .chunks_exact(2)
        .map(|pair| match pair {
            [high, low] => digit(*high) * 16 + digit(*low),
            _ => 0,
        })
        .collect(heap)
}

// What is printed of a field's bytes, and how many bytes that are.
fn print_field(heap: Global, bytes: &[u8], out: &mut [u8]) -> Result<usize, AllocError> {
    match read_field(bytes) {
        Ok(header) => {
            let mut cells = vec![in heap; 0u32; header.cells]?;
            copy_cells(bytes, cells.as_mut_slice());
            Ok(print_told(out, Told::Field, cells.as_slice()).unwrap_or(0))
        }
        Err(why) => Ok(print_refusal(out, number_of(why), place_of(why)).unwrap_or(0)),
    }
}

// How many fields are read and printed as the file has it.
pub(crate) fn run_all(rt: &HostRuntime, file: &[u8]) -> io::Result<u64> {
    let heap = rt.alloc();
    let mut out = vec![in heap; 0u8; 1024]?;
    count_right(file, |case| {
        let bytes = from_hex(heap, case.field)?;
        let n = print_field(heap, bytes.as_slice(), out.as_mut_slice())?;
        Ok(Some(case.is_right(out.as_slice(), n)))
    })
}
