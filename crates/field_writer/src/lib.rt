// The fields of charts and diagrams, each written into a lent buffer behind what stands there. The caller tests first that all of a file has room.
#![tactic(auto)]

ghost use Rattle.std.specs.Prelude.{◌++◌, ◌+◌, ◌≤◌, length};
ghost use Rattle.definitions.specs.Marked.{st, nd};
ghost use Rattle.definitions.specs.Bytes.{le2, header, field, head_bytes, step_bytes, root_bytes, node_bytes};
ghost use Rattle.buffer.specs.Writing.{Wrote};

use buffer::Writer;
use definitions::{Node, Stage, Step};
use field_bytes::{write_header, write_u16, write_u32};

// A field's header and the first two numbers of its body.
fn write_start(w: &mut Writer, tag: u8, len: u16, a: u16, b: u16)
    requires { w.old.at + 7 ≤ length w.old.out.now }
    ensures { Wrote w.old (header tag len ++ le2 a ++ le2 b) w.new }
{
    write_header(w, tag, len);
    write_u16(w, a);
    write_u16(w, b);
}

// A field of three numbers in two bytes each.
fn write_three(w: &mut Writer, tag: u8, a: u16, b: u16, c: u16)
    requires { w.old.at + 9 ≤ length w.old.out.now }
    ensures { Wrote w.old (field tag (le2 a ++ le2 b ++ le2 c)) w.new }
{
    write_start(w, tag, 6, a, b);
    write_u16(w, c);
}

// A chart's head.
pub fn write_chart_head(w: &mut Writer, stages: u16, start: Stage, end: Stage)
    requires { w.old.at + 9 ≤ length w.old.out.now }
    ensures { Wrote w.old (head_bytes stages start.0 end.0) w.new }
{
    write_three(w, 1, stages, start.0, end.0);
}

// A step of a chart.
pub fn write_step(w: &mut Writer, from: Stage, to: Stage, value: u32)
    requires { w.old.at + 11 ≤ length w.old.out.now }
    ensures { Wrote w.old (step_bytes (st from.0 to.0 value)) w.new }
{
    write_start(w, 2, 8, from.0, to.0);
    write_u32(w, value);
}

// A diagram's head.
pub fn write_diagram_head(w: &mut Writer, root: Node)
    requires { w.old.at + 5 ≤ length w.old.out.now }
    ensures { Wrote w.old (root_bytes root.0) w.new }
{
    write_header(w, 17, 2);
    write_u16(w, root.0);
}

// An inner node of a diagram.
pub fn write_node(w: &mut Writer, step: Step, lo: Node, hi: Node)
    requires { w.old.at + 9 ≤ length w.old.out.now }
    ensures { Wrote w.old (node_bytes (nd step.0 lo.0 hi.0)) w.new }
{
    write_three(w, 18, step.0, lo.0, hi.0);
}
