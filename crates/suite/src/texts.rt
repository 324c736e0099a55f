// Texts: which are taken, how the others are refused, and how those that are taken are written anew.
use crate::cases::count_right;
use grammar::refusals::{refusal_number, refusal_place};
use reader::texts::read;
use std::io;
use writer::anew::rewrite;

// How many texts that are taken are written anew as the file has it.
pub(crate) fn run_all(rt: &HostRuntime, file: &[u8]) -> io::Result<u64> {
    let mut out = vec![in rt.alloc(); 0u8; 16384]?;
    count_right(file, |case| {
        if case.is_refused() {
            return Ok(None);
        }
        let Some(n) = rewrite(case.text, out.as_mut_slice()) else {
            return Ok(Some(false));
        };
        Ok(Some(case.is_right(out.as_slice(), n)))
    })
}

// How many texts are taken, or refused with the number and the place that the file has.
pub(crate) fn read_all(file: &[u8]) -> io::Result<u64> {
    count_right(file, |case| match read(case.text) {
        Ok(_) => Ok(Some(!case.is_refused())),
        Err(why) => Ok(Some(case.is_refused_at(refusal_number(why), refusal_place(why)))),
    })
}
