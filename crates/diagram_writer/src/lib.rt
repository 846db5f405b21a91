// The diagram that stands in a unique table, written as a file into a lent buffer.
#![tactic(auto)]

ghost use Rattle.std.specs.Prelude.{◌+◌, ◌*◌, ◌≤◌, length};
ghost use Rattle.definitions.specs.Answers.{Filed};
ghost use Rattle.definitions.specs.Basics.{each};
ghost use Rattle.definitions.specs.Bytes.{node_bytes, diagram_bytes};
ghost use Rattle.buffer.specs.Writing.{Wrote};
ghost use Rattle.unique_table.specs.Held.{held};
ghost use Rattle.unique_table.specs.Tables.{unique_table, Table, count_in, nodes_in};
ghost use Rattle.diagram_writer.specs.Files.{drawn};

use buffer::Writer;
use definitions::{Answer, Node, Step};
use diagram_fields::{hi_of, lo_of, step_of};
use field_writer::{write_diagram_head, write_node};
use file_answers::file_answer;
use unique_table::{UniqueTable, count};

// The inner nodes in the order of the table.
fn write_nodes(file: &mut Writer, nodes: &[u32; 512], chains: &[u16; 1024])
    requires { Table (unique_table nodes.now chains.now)
        × (file.old.at + 9 * count_in (unique_table nodes.now chains.now) ≤ length file.old.out.now) }
    ensures { let made = nodes_in (unique_table nodes.now chains.now) in
        Wrote file.old (each node_bytes made) file.new }
{
    for w in &nodes[2..count(chains) + 2] {
        write_node(file, Step(step_of(*w)), Node(lo_of(*w)), Node(hi_of(*w)));
    }
}

// The file of the table's diagram with this root, where the buffer has room for it; else 7.
pub fn write_diagram<'a>(
    out: &mut [u8],
    nodes: &'a [u32; 512],
    chains: &'a [u16; 1024],
    root: u16,
) -> Answer
    requires { Table (unique_table nodes.now chains.now) }
    ensures { let made = drawn root (unique_table nodes.now chains.now) in
        Filed (diagram_bytes made) out.old out.new result }
{
    let bytes = 5 + 9 * count(chains);
    let answer = file_answer(bytes, out.len());
    if out.len() < bytes {
        return answer;
    }
    let mut file = Writer { out, at: 0 };
    write_diagram_head(&mut file, Node(root));
    write_nodes(&mut file, nodes, chains);
    answer
}

// The same of a table as it stands in its struct.
pub fn write_table(out: &mut [u8], table: &UniqueTable, root: u16) -> Answer
    requires { Table (held table.now) }
    ensures { let made = drawn root (held table.now) in
        Filed (diagram_bytes made) out.old out.new result }
{
    write_diagram(out, &*table.nodes, &table.chains, root)
}
