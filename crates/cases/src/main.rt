// Runs the corpora that its arguments name. They are made by tools/make-corpora, and so is what it must print.
#![tactic(auto)]

use std::io;

fn main(rt: HostRuntime) -> io::Result<()> {
    case_run::run(&rt)
}
