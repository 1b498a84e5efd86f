// Runs the corpora of cases, and behind them, since it goes on from their last fields, that of whole Mach-O files, which the corpus maker of
// docs/unfinished-host.patch made with what must be printed.
#![tactic(auto)]

use std::io;

fn main(rt: HostRuntime) -> io::Result<()> {
    case_run::run(&rt)
}
