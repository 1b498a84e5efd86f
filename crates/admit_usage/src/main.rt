// Document 01's small program, asked with one argument too many.
#![tactic(auto)]

use std::io;

fn main(rt: HostRuntime) -> io::Result<()> {
    admit_run::run(&rt)
}
