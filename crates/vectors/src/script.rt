// A script of cases: commands that make a file, take it for the chart or a diagram, or show what a call answers.
use crate::joins::show_join;
use crate::reduced::show_reduced;
use crate::searches::{show_guided, show_sweep};
use crate::show::{show_chart, show_diagram, show_field};
use script_files::read::{Call, Command, Script};
use script_files::rules::Rule;
use script_files::write::{Files, Role};
use std::io;

// Adds fields to the file in the making.
fn add(files: &mut Files, count: u32, rule: Rule) {
    for i in 0..count {
        files.add(rule.field(u64::from(i)));
    }
}

// What a call answers. Those with slices of their own are not inlined: so large a frame costs each of the others too.
fn show(rt: &impl Print, files: &Files, call: Call) -> io::Result<()> {
    let making = files.making();
    let chart = files.file(Role::Chart);
    let rules = files.file(Role::Rules);
    match call {
        Call::ReadChart => show_chart(rt, making),
        Call::ReadDiagram { groups, strict } => show_diagram(rt, making, groups, strict),
        Call::RefusedField { file, place } => show_field(rt, chart, rules, file, place),
        Call::Sweep(lent) => show_sweep(rt, chart, rules, lent),
        Call::Guided(lent) => show_guided(rt, chart, rules, lent),
        Call::Conjoin(lent) => show_join(rt, chart, rules, files.file(Role::More), lent),
        Call::Reduce { bytes, full } => show_reduced(rt, chart, rules, bytes, full),
    }
}

// A label, and what a call answers, on a line of their own.
fn show_line(rt: &impl Print, files: &Files, label: &[u8], call: Option<Call>) -> io::Result<()> {
    rt.write_all(label)?;
    if let Some(call) = call {
        show(rt, files, call)?;
    }
    rt.write_all(b"\n")
}

// One command. After a call the file in the making is empty.
fn turn(rt: &impl Print, files: &mut Files, command: Command) -> io::Result<()> {
    match command {
        Command::Add { count, rule } => add(files, count, rule),
        Command::SetByte { place, byte } => files.set_byte(place, byte),
        Command::SetSize(size) => files.set_size(size),
        Command::Take(role) => files.take(role),
        Command::Restore => files.restore(),
        Command::Show { label, call } => {
            show_line(rt, files, label, call)?;
            files.set_size(0);
        }
        Command::Nothing => {}
    }
    Ok(())
}

// Every command of a script, in order.
pub fn run(rt: &impl Print, text: &[u8]) -> io::Result<()> {
    let mut files = Files::new();
    for command in Script::new(text) {
        turn(rt, &mut files, command)?;
    }
    Ok(())
}
