//! The code chart program, run on the loudest sample, silence and the lowest sample.
#![tactic(auto)]

use std::io;

fn main(rt: HostRuntime) -> io::Result<()> {
    chart_io::run(&rt)
}
