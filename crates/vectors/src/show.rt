// What the calls answer, written.
use chart_fields::StepTable;
use definitions::{Answer, NONE};
use fields::Fault;
use std::fmt::Display;
use std::io;

fn show_fault(rt: &impl Print, fault: Fault) -> io::Result<()> {
    print!(rt; " refused {} place {}", fault.refusal.number(), fault.place)
}

// A chart file.
pub fn show_chart(rt: &impl Print, file: &[u8]) -> io::Result<()> {
    let mut table = StepTable::blank();
    match chart::read_chart(file, &mut table) {
        Ok(c) => {
            print!(rt; " stages {} start {} end {}", c.stages, c.start, c.end)?;
            print!(rt; " steps {} groups {}", c.steps, c.groups)
        }
        Err(stopped) => show_fault(rt, stopped.fault),
    }
}

// A diagram file over a chart of so many groups, or as many as a chart can have; padding is refused (strict) or taken.
pub fn show_diagram(rt: &impl Print, file: &[u8], groups: usize, strict: bool) -> io::Result<()> {
    let mut table = [0u32; 512];
    match diagram::read_diagram(file, groups.min(1024), strict, &mut table) {
        Ok(d) => print!(rt; " root {} nodes {}", d.root, d.nodes),
        Err(stopped) => show_fault(rt, stopped.fault),
    }
}

// The refused field of a file mark and a place: how many bytes, and each in hexadecimal.
pub fn show_field(
    rt: &impl Print,
    chart: &[u8],
    rules: &[u8],
    file: u32,
    place: usize,
) -> io::Result<()> {
    let bytes = refused_field::refused_field(chart, rules, file, place);
    print!(rt; " bytes {}", bytes.len())?;
    show_hexadecimal(rt, bytes)
}

pub fn show_hexadecimal(rt: &impl Print, bytes: &[u8]) -> io::Result<()> {
    for x in bytes {
        print!(rt; " {x:02x}")?;
    }
    Ok(())
}

// How a call ended.
pub fn show_outcome(rt: &impl Print, a: Answer) -> io::Result<()> {
    print!(rt;
        " number {} file {} place {} cost {}",
        a.number, a.file, a.place, a.cost
    )
}

// Each entry of a slice.
pub fn show_entries<T: Display>(rt: &impl Print, s: &[T]) -> io::Result<()> {
    for x in s {
        print!(rt; " {x}")?;
    }
    Ok(())
}

// Each entry that is not the mark for "not reached", after its position.
pub fn show_costs(rt: &impl Print, s: &[u32]) -> io::Result<()> {
    for (i, x) in s.iter().enumerate() {
        if *x != NONE {
            print!(rt; " {i}={x}")?;
        }
    }
    Ok(())
}

// The positions from one on where a slice that was full of one entry has another.
pub fn show_changed<T: Copy + PartialEq>(
    rt: &impl Print,
    s: &[T],
    from: usize,
    full: T,
) -> io::Result<()> {
    for (i, x) in s.iter().enumerate().skip(from) {
        if *x != full {
            print!(rt; " {i}")?;
        }
    }
    Ok(())
}
