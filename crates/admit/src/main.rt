// Document 01's small program, run on files that it accepts. They are made by tools/make-admit.
#![tactic(auto)]

use std::io;

fn main(rt: HostRuntime) -> io::Result<()> {
    admit_run::run(&rt)
}
