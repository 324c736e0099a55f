// What the programs do once they have read their files.
ghost use Rattle.std.specs.Prelude.{◌≡◌, true, is_ok, IfOk, Ok, OnOk};
ghost use Rattle.machine.specs.Script.{ScriptRead};
ghost use Rattle.reader.specs.Texts.{read_at};
ghost use Rattle.show.specs.Ends.{EndsWell};

use crate::lines::show_refused;
use crate::order::{AsWritten, InTurn, Order};
use crate::slices::lend;
use crate::told::show;
use calls::plan::Refused;
use machine::script::{Fault, Written, read_turns};
use reader::texts::read;
use std::io;
use std::io::Write;
use writer::anew::rewrite;

// Lends memory, runs the text on the field in it, and shows what is told.
fn shown<O: Order>(rt: &HostRuntime, order: &O, text: &[u8], bytes: &[u8]) -> io::Result<()>
    ensures { OnOk result (EndsWell text.now bytes.now) }
{
    let mut lent = lend(rt, text, bytes)?;
    let answer = lent.run_by(order, text, bytes);
    show(rt, text, answer, lent.printed.as_slice())
}

// Runs the text on the field, one lane after the other.
pub fn run_shown(rt: &HostRuntime, text: &[u8], bytes: &[u8]) -> io::Result<()>
    ensures { OnOk result (EndsWell text.now bytes.now) }
{
    shown(rt, &InTurn, text, bytes)
}

// Does the turns that are written down, and then one lane after the other.
pub fn any_shown(rt: &HostRuntime, turns: &[Written], text: &[u8], bytes: &[u8]) -> io::Result<()>
    ensures { OnOk result (EndsWell text.now bytes.now) }
{
    shown(rt, &AsWritten { turns }, text, bytes)
}

// The turns of a file; a line that is none is named on standard error.
pub fn turns_shown(rt: &HostRuntime, name: &str, file: &[u8]) -> io::Result<Vec<Written>>
    ensures { IfOk result (λ v. ScriptRead file.now (Ok v)) }
{
    match read_turns(rt.alloc(), file) {
        Ok(turns) => Ok(turns),
        Err(Fault::NoTurn { line }) => {
            eprintln!(rt; "{name}: line {line} is no turn")?;
            Err(io::Error::other("no turn"))
        }
        Err(Fault::NoMemory) => Err(io::Error::other("no memory")),
    }
}

// Writes the text anew, or says why it is refused.
pub fn rewrite_shown(rt: &HostRuntime, text: &[u8]) -> io::Result<()>
    ensures { OnOk result (is_ok (read_at text.now) ≡ true) }
{
    match read(text) {
        Ok(_) => {
            let mut out = vec![in rt.alloc(); 0u8; text.len()]?;
            let len = rewrite(text, out.as_mut_slice()).unwrap();
            rt.stdout().write_all(&out.as_slice()[..len])
        }
        Err(why) => {
            show_refused(rt, text, Refused::Text(why))?;
            Err(io::Error::other("refused"))
        }
    }
}
