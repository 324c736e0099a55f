// What is told of a run, for a person.
ghost use Rattle.std.specs.Prelude.{OnOk};
ghost use Rattle.show.specs.Ends.{IsFieldTold};

use crate::lines::{show_lines, show_refused};
use calls::answer::Answer;
use calls::plan::Refused;
use formats::told::Told;
use std::io;
use std::io::Write;

// What is told stands on standard output, and where in the program on standard error. Only a field ends well.
pub fn show(
    rt: &HostRuntime,
    text: &[u8],
    answer: Result<Answer, Refused>,
    printed: &[u8],
) -> io::Result<()>
    ensures { OnOk result (IsFieldTold answer) }
{
    match answer {
        Ok(told) => {
            let len = told.len.min(printed.len());
            rt.stdout().write_all(&printed[..len])?;
            show_lines(rt, text, told.verdict)?;
            match told.told {
                Told::Field => Ok(()),
                _ => Err(io::Error::other("no field is told")),
            }
        }
        Err(refused) => {
            show_refused(rt, text, refused)?;
            Err(io::Error::other("refused"))
        }
    }
}
