//! Prints the chart of each file that the arguments name, one after the other. A file that can't be
//! opened or read, a chart that can't be written, or a name that is not text or is too long, ends
//! it: the error has the file's name, and the status is 1.
//!
//! Here it is run on both ends of each row of the manual's table, in the table's order; one byte
//! alone; two pairs and one byte more; no input; the most bytes that a chart takes, every even
//! sample, so that each code is met; and one byte more than it takes.
#![tactic(auto)]

use anyhow::{Context, Result, bail};
use std::env::{Env, FillError};
use std::fs::File;
use std::io::Print;
use std::rt::Files;
use std::{io, str};

// Nothing but the charts is printed, so that of one file it is what `code_chart` prints of that
// input. Each line of a chart has its line end, so the next chart begins a line. The arguments are
// asked for one by one, into an array: `env::args` asks for memory.
fn main(rt: HostRuntime) -> Result<()> {
    let mut name = [0; 4096];
    for i in 1..usize::MAX {
        let n = match rt.arg(i, &mut name) {
            Ok(n) => n,
            Err(FillError::NotPresent) => break,
            Err(FillError::TooLong) => bail!("the name of a file has more than 4,096 bytes"),
        };
        let name = str::from_utf8(&name[..n]).context("the name of a file is not text")?;
        print_chart(&rt, name).context(format_args!("charting {name}"))?;
    }
    Ok(())
}

fn print_chart(rt: &(impl Files + Print), name: &str) -> io::Result<()> {
    let mut file = File::open(rt, name)?;
    chart_io::write_chart(&mut file, &mut io::writer(rt))
}
