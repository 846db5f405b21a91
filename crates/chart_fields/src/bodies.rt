// A head's and a step's body: what it holds, and what it is refused for.
ghost use Rattle.std.specs.Prelude.{◌≡◌, ◌≤◌, ◌<◌, eqb, length};
ghost use Rattle.definitions.specs.Basics.{pick};
ghost use Rattle.definitions.specs.Fields.{two, four};
ghost use Rattle.definitions.specs.Charts.{grouped, head_fault, group_fault, step_fault, rounded};
ghost use Rattle.definitions.specs.Refusals.{fault_number};
ghost use Rattle.chart_fields.specs.Bodies.{head_body, Long, step_body};

use crate::kinds::StepKind;
use definitions::Refusal;
use field_numbers::{read_u16, read_u32};

// Whether a head's body keeps its limits.
pub fn check_head(b: &[u8]) -> Result<(), Refusal>
    requires { length b.now ≡ 6 }
    ensures { fault_number result ≡ head_fault b.now }
{
    let stages = read_u16(b, 0);
    if stages == 0 {
        return Err(Refusal::HeadLimit);
    }
    if 256 < stages {
        return Err(Refusal::HeadLimit);
    }
    let start = read_u16(b, 2);
    if stages <= start {
        return Err(Refusal::HeadLimit);
    }
    let end = read_u16(b, 4);
    if stages <= end {
        return Err(Refusal::HeadLimit);
    }
    Ok(())
}

// What a head's body holds.
#[derive(Clone, Copy)]
pub struct HeadBody {
    pub stages: u16,
    pub start: u16,
    pub end: u16,
}

pub fn head_of(b: &[u8]) -> HeadBody
    requires { length b.now ≡ 6 }
    ensures { result ≡ head_body b.now }
{
    HeadBody {
        stages: read_u16(b, 0),
        start: read_u16(b, 2),
        end: read_u16(b, 4),
    }
}

// Whether a step may name its group where the step before is of the group `last`.
fn check_group(b: &[u8], last: u16) -> Result<(), Refusal>
    requires { 10 ≤ length b.now }
    ensures { fault_number result ≡ group_fault last b.now }
{
    let group = read_u16(b, 8);
    if 1023 < group {
        return Err(Refusal::GroupLimit); // no group has such a number
    }
    if group < last {
        return Err(Refusal::GroupLimit); // out of order
    }
    Ok(())
}

// Whether a step's body keeps its limits after `count` steps, the last of which leaves the stage `last` and is of the group
// `group`. The value is judged as the file has it, before it is rounded.
pub fn check_step(
    b: &[u8],
    stages: u16,
    tag: u8,
    last: u16,
    group: u16,
    count: usize,
) -> Result<(), Refusal>
    requires { Long tag b.now }
    ensures { fault_number result ≡ step_fault stages tag last group count b.now }
{
    if 1024 <= count {
        return Err(Refusal::StepOrder); // the 1,025th
    }
    let from = read_u16(b, 0);
    let to = read_u16(b, 2);
    let value = read_u32(b, 4);
    if to <= from {
        return Err(Refusal::StepTarget); // not to a higher stage
    }
    if stages <= to {
        return Err(Refusal::StepTarget); // to no stage of the chart
    }
    if from < last {
        return Err(Refusal::StepOrder); // out of order
    }
    if 1000000 < value {
        return Err(Refusal::DearStep); // too dear
    }
    if tag == StepKind::Grouped.tag() {
        return check_group(b, group);
    }
    Ok(())
}

// What a step costs that has this value in the file: whole ticks of 50.
fn rounded_cost(value: u32) -> u32
    requires { value ≤ 1000000 }
    ensures { result ≡ rounded value }
{
    (value + 49) / 50 * 50
}

// What the body of a step holds, its cost rounded.
#[derive(Clone, Copy)]
pub struct StepBody {
    pub tag: u8,
    pub from: u16,
    pub to: u16,
    pub cost: u32,
    pub group: u16,
}

// The group of step e: the one that it names, or its own number.
fn group_in(b: &[u8], tag: u8, e: usize) -> u16
    requires { Long tag b.now × (e < 1024) }
    ensures { result ≡ pick (eqb tag grouped) (two b.now 8) e }
{
    if tag == StepKind::Grouped.tag() {
        return read_u16(b, 8);
    }
    e as u16
}

pub fn step_of(b: &[u8], tag: u8, e: usize) -> StepBody
    requires long { Long tag b.now × (e < 1024) }
    requires cheap { four b.now 4 ≤ 1000000 }
    ensures { result ≡ step_body tag e b.now }
{
    StepBody {
        tag,
        from: read_u16(b, 0),
        to: read_u16(b, 2),
        cost: rounded_cost(read_u32(b, 4)),
        group: group_in(b, tag, e),
    }
}
