// Runs the tables of cases through the public calls. docs/TESTS.md says what the files look like.
#![tactic(auto)]

mod cases;
mod fields;
mod prints;
mod runs;
mod texts;

use std::io;

fn main(rt: HostRuntime) -> io::Result<()> {
    let file = cli::read(&rt, "texts")?;
    let right = texts::read_all(file.as_slice())?;
    println!(rt; "texts read: {right} right")?;
    let right = texts::run_all(&rt, file.as_slice())?;
    println!(rt; "texts written anew: {right} right")?;
    let file = cli::read(&rt, "fields")?;
    let right = fields::run_all(&rt, file.as_slice())?;
    println!(rt; "fields: {right} right")?;
    let file = cli::read(&rt, "runs")?;
    let right = runs::run_all(&rt, file.as_slice())?;
    println!(rt; "runs: {right} right")?;
    let file = cli::read(&rt, "orders")?;
    let right = runs::run_all(&rt, file.as_slice())?;
    println!(rt; "orders: {right} right")?;
    prints::print_all(&rt)
}
