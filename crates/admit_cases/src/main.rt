// Runs the small program on the files that the cases of a corpus name. They are made by tools/make-admit, and so is what it must print.
#![tactic(auto)]

use std::io;

fn main(rt: HostRuntime) -> io::Result<()> {
    case_run::run(&rt)
}
