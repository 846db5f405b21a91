// The program's input and output: both files by their paths, and the text to standard output.
#![tactic(auto)]

ghost use Rattle.std.specs.Prelude.{◌≡◌, ◌≤◌, length, take};

use std::fs::File;
use std::rt::Files;
use std::str;
use whole_reads::read_full;

// Reads the start of a file, as far as the buffer goes, and returns how many bytes it put there: 0 where the file can't
// be opened or read.
fn read_file<R: Files>(rt: &R, path: &[u8], buf: &mut [u8]) -> usize
    ensures within { result ≤ length buf.new }
    ensures counted { result ≡ length (take result buf.new) }
{
    let Ok(path) = str::from_utf8(path) else {
        return 0;
    };
    match File::open(rt, path) {
        Ok(mut file) => read_full(&mut file, buf).0,
        Err(_) => 0,
    }
}

// Reads the first 32,769 bytes of both files, one more than the longest that is taken (one that is missing or can't be read
// counts as empty), and writes the program's text to standard output. The text has at most 2,879 bytes, so the buffer
// holds it whole. Where it can't be written whole, a line on standard error says so.
pub fn run<R: Files + Print + Eprint>(rt: &R, chart: &[u8], rules: &[u8]) {
    let mut chart_bytes = [0u8; 32769];
    let mut rules_bytes = [0u8; 32769];
    let mut out = [0u8; 4096];
    let chart_length = read_file(rt, chart, &mut chart_bytes);
    let rules_length = read_file(rt, rules, &mut rules_bytes);
    let length = program::write_text(
        &chart_bytes[..chart_length],
        &rules_bytes[..rules_length],
        &mut out,
    );
    if let Err(e) = rt.write_all(&out[..length]) {
        let _ = eprintln!(rt; "plan: the output is not complete: {e}");
    }
}
