// Published vectors and worked cases, from standard input, run and written out: the file stdout has what they must be, from the documents.
#![tactic(auto)]

mod changes;
mod lines;
mod meanings;
mod racks;
mod readers;
mod replies;
mod sums;

use print::fail::tell;
use text::args::count;

fn main(rt: HostRuntime) {
    if 1 < count(&rt) {
        tell(&rt, b"usage: vectors\n");
        return;
    }
    lines::run(&rt);
}
