// Plays the scripts of data/ and writes what the calls of the library answer to each case. data/readers.txt says how a
// case is written; tools/vectors.py computes what must be written.
#![tactic(auto)]

mod joins;
mod lend;
mod reduced;
mod script;
mod searches;
mod show;
mod written;

use std::fs::File;
use std::io;
use whole_reads::read_full;

// Plays one script of at most 65,536 bytes.
fn play(rt: &HostRuntime, path: &str) -> io::Result<()> {
    let mut file = File::open(rt, path)?;
    let mut text = [0u8; 65536];
    let (n, read) = read_full(&mut file, &mut text);
    read?;
    script::run(rt, &text[..n])
}

fn main(rt: HostRuntime) -> io::Result<()> {
    for path in [
        "readers.txt",
        "remarks.txt",
        "searches.txt",
        "joins.txt",
        "padding.txt",
    ] {
        play(&rt, path)?;
    }
    Ok(())
}
