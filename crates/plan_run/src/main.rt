// The program `plan` on many files: the folders 001, 002 .. of data/, which tools/run_files.py writes.
#![tactic(auto)]

use std::io;
use std::io::Write;

// How many folders there are.
const CASES: u8 = 173;

// The path of a file in the folder of a case, whose number takes the place of the three digits.
fn path_in(case: u8, mut path: [u8; 13]) -> io::Result<[u8; 13]> {
    let mut folder = &mut path[..3];
    write!(folder, "{case:03}")?;
    Ok(path)
}

// Plans for the files of one folder, after a line with its number.
fn run_case(rt: &HostRuntime, case: u8) -> io::Result<()> {
    println!(rt; "case {case:03}")?;
    let chart = path_in(case, *b"000/chart.bin")?;
    let rules = path_in(case, *b"000/rules.bin")?;
    command::run(rt, &chart, &rules);
    Ok(())
}

fn main(rt: HostRuntime) -> io::Result<()> {
    for case in 1..=CASES {
        run_case(&rt, case)?;
    }
    Ok(())
}
