//! Reads rows from standard input and answers each: which transaction records fall to each active
//! cleaner, and which inactive rows a cleaner removes with its beat.
//!
//! Empty lines and lines that begin `#` are copied out. Every other line is as `rows.rt` says.
#![tactic(auto)]

mod rows;

use anyhow::Result;

fn main(rt: HostRuntime) -> Result<()> {
    for line in rt.lines(rt.alloc()) {
        let line = line?;
        if line.is_empty() || line.starts_with('#') {
            println!(rt; "{line}")?;
        } else {
            let mut told = String::new(rt.alloc());
            rows::answer(rt.alloc(), &mut told, line.as_str())?;
            println!(rt; "{line} =>{told}")?;
        }
    }
    Ok(())
}
