//! Reads a table of worked rows from its standard input, and writes each behind it with what it gives.
#![tactic(auto)]

mod answer;
mod boards;
mod expansion;
mod formulas;
mod nodes;
mod payloads;
mod refusal;
mod settlements;
mod stages;
mod terms;
mod tokens;
mod trees;

use answer::answer;
use std::io::{self, BufRead, BufReader};

/// A row that is empty or begins with `#` is written as it is.
fn main(rt: HostRuntime) -> io::Result<()> {
    let rows = BufReader::new(rt.alloc(), rt.reader())?.lines(rt.alloc());
    for row in rows {
        let row = row?;
        if row.is_empty() || row.starts_with('#') {
            println!(rt; "{row}")?;
        } else {
            match answer(rt.alloc(), row.as_str()) {
                Ok(text) => println!(rt; "{row} => {text}")?,
                Err(why) => println!(rt; "{row} => {why}")?,
            }
        }
    }
    Ok(())
}
