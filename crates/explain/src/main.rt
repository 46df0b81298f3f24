// Reads a log of frames, and says line by line what it asks or why it is refused.
#![tactic(auto)]

use log_words::Log;
use std::io;
use std::io::{BufRead, BufReader};

fn main(rt: HostRuntime) -> io::Result<()> {
    let heap = rt.alloc();
    let mut log = Log::new();
    for line in BufReader::new(heap, rt.stdin())?.split(heap, b'\n') {
        let text = log.explained(heap, &line?)?;
        println!(rt; "{text}")?;
    }
    let totals = log.totals;
    println!(rt; "{totals}")
}
