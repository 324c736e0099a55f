// Programs and fields, and what is told of them in the machine's own order, or behind turns that the case has.
use crate::cases::{Case, count_right};
use crate::fields::from_hex;
use formats::print::print_refusal;
use machine::script::read_turns;
use std::io;

// Whether what is told of a case, or how it is refused, is what the case has.
fn is_told(rt: &HostRuntime, case: Case<'_>) -> io::Result<bool> {
    let bytes = from_hex(rt.alloc(), case.field)?;
    let Ok(turns) = read_turns(rt.alloc(), case.turns) else {
        // Nothing is printed then.
        return Ok(case.is_right(&[], 0));
    };
    let turns = Some(turns.as_slice()).filter(|turns| !turns.is_empty());
    let mut lent = show::lend(rt, case.text, bytes.as_slice())?;
    // No more is lent for what is printed: fields of more than 6,528 cells are refused.
    lent.printed.truncate(65536);
    match lent.run(case.text, bytes.as_slice(), turns) {
        Ok(answer) => Ok(case.is_right(lent.printed.as_slice(), answer.len)),
        Err(why) => {
            let mut out = [0u8; 256];
            let n = print_refusal(&mut out, why.number(), why.place()).unwrap_or(0);
            Ok(case.is_right(&out, n))
        }
    }
}

// How many programs are told of as the file has it.
pub(crate) fn run_all(rt: &HostRuntime, file: &[u8]) -> io::Result<u64> {
    count_right(file, |case| Ok(Some(is_told(rt, case)?)))
}
