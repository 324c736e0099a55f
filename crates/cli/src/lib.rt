// What the programs share: the words behind their name, and reading a file with a message that names it.
#![tactic(auto)]

pub mod spot;

ghost use Rattle.std.specs.Prelude.{◌≡◌, ◌^◌, ◌<◌, ◌≤◌, IfSome, IfOk, OnOk, OnErr, vec_len};
ghost use Rattle.std.specs.Process.{exit_status};

use std::io::Read;
use std::process::ExitCode;
use std::{env, fs, io};

// The words behind the program's name. None: it was asked for help, and its usage stands on standard output.
// Too few or too many: the usage stands on standard error.
pub fn words(
    rt: &HostRuntime,
    usage: &str,
    least: usize,
    most: usize,
) -> io::Result<Option<Vec<String>>>
    ensures { IfOk result (λ o. IfSome o (λ v. (least ≤ vec_len v) × (vec_len v ≤ most))) }
{
    let words: Vec<String> = env::args(rt)?.skip(1).collect(rt.alloc())?;
    if let Some(word) = words.first()
        && word.as_str() == "--help"
    {
        rt.println(usage)?;
        return Ok(None);
    }
    if words.len() < least || most < words.len() {
        rt.eprintln(usage)?;
        return Err(io::Error::other("wrong number of arguments"));
    }
    Ok(Some(words))
}

// The file's bytes; if it can't be read, its name and the reason stand on standard error.
pub fn read(rt: &HostRuntime, path: &str) -> io::Result<Vec<u8>>
    ensures { IfOk result (λ v. vec_len v < 2 ^ 64) }
{
    match fs::read(rt, path) {
        Ok(bytes) => Ok(bytes),
        Err(why) => {
            eprintln!(rt; "{path}: {why}")?;
            Err(why)
        }
    }
}

// The bytes of standard input.
pub fn read_stdin(rt: &HostRuntime) -> io::Result<Vec<u8>>
    ensures { IfOk result (λ v. vec_len v < 2 ^ 64) }
{
    let mut bytes = Vec::new(rt.alloc());
    rt.stdin().read_to_end(&mut bytes)?;
    Ok(bytes)
}

// The status that a program ends with: 0, or 1 for an error. Nothing is printed here: what a person has to know stands on standard error by then.
pub fn status(done: io::Result<()>) -> ExitCode
    ensures ok { OnOk done (exit_status result ≡ 0) }
    ensures err { OnErr done (exit_status result ≡ 1) }
{
    match done {
        Ok(()) => ExitCode::from(0),
        Err(_) => ExitCode::from(1),
    }
}
