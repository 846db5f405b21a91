// The reader of the diagram file: its inner nodes go into a table, each at its number. Chains beside the table find a node
// that is alike to an earlier one (a unique table).
ghost use Rattle.std.specs.Prelude.{◌≡◌, true, false, ◌&&◌, ◌≤◌, length};
ghost use Rattle.definitions.specs.Basics.{pick};
ghost use Rattle.definitions.specs.Diagrams.{padding};
ghost use Rattle.definitions.specs.Refusals.{fault_number};
ghost use Rattle.diagram_fields.specs.Words.{unpacked};
ghost use Rattle.fields.specs.Positions.{HasField};
ghost use Rattle.unique_table.specs.Tables.{Table, nodes_in};
ghost use Rattle.unique_table.specs.Held.{held, SameArray};
ghost use Rattle.diagram.specs.Files.{Room, Reads};
ghost use Rattle.diagram.specs.Turns.{Fresh, Underway, Over, Takes, Judged, Rest};

use definitions::{Field, Refusal};
use diagram_fields::{check_node, hi_of, leaf_word, lo_of, node_word};
use field_numbers::read_u16;
use fields::{Fault, Reader, Stopped, first_field, is_whole};
use unique_table::UniqueTable;

// The nodes read so far.
#[derive(Clone, Copy)]
pub struct NodesRead {
    // where the next field is due
    pub place: usize,
    // how many nodes passed
    pub nodes: usize,
}

// A refusal at a place, behind what passed.
fn stopped<T: Copy>(refusal: Refusal, place: usize, passed: T) -> Stopped<T>
    ensures { result ≡ record { fault = record { refusal = refusal; place = place }; passed = passed } }
{
    Stopped {
        fault: Fault { refusal, place },
        passed,
    }
}

// Refuses a node that is padding behind those in the table, where padding is refused.
fn check_padding(strict: bool, table: &UniqueTable, w: u32) -> Result<(), Refusal>
    requires { Table (held table.now) }
    ensures { fault_number result ≡ pick (strict && padding (nodes_in (held table.now)) (unpacked w)) 13 0 }
{
    if !strict {
        return Ok(());
    }
    if lo_of(w) == hi_of(w) {
        return Err(Refusal::Padding);
    }
    match table.find(w) {
        Some(_) => Err(Refusal::Padding),
        None => Ok(()),
    }
}

// A node's body behind the nodes of the table, in one number.
fn judge(
    body: &[u8],
    groups: usize,
    strict: bool,
    table: &UniqueTable,
    count: usize,
) -> Result<u32, Refusal>
    requires { (length body.now ≡ 6) × Table (held table.now) }
    ensures { Judged strict groups (held table.now) count body.now result }
{
    check_node(body, groups, &*table.nodes, count)?;
    let w = node_word(body);
    check_padding(strict, table, w)?;
    Ok(w)
}

// The node whose field stands whole at the read's place, into the table.
fn put_node(
    file: &[u8],
    read: NodesRead,
    groups: usize,
    strict: bool,
    table: &mut UniqueTable,
) -> Result<NodesRead, Stopped<usize>>
    requires { HasField file.now read.place 18 6 × Underway strict file.now groups (held table.old) read }
    ensures same { SameArray table.old table.new }
    ensures takes { Takes strict file.now groups read (held table.old) (held table.new) result }
{
    let start = read.place + 3;
    let end = start + 6;
    match judge(&file[start..end], groups, strict, table, read.nodes) {
        Ok(w) => {
            table.add(w);
            Ok(NodesRead {
                place: end,
                nodes: read.nodes + 1,
            })
        }
        Err(refusal) => Err(stopped(refusal, read.place, read.nodes)),
    }
}

// The nodes that stand one behind the other from the read's place on, into the table: a loop of its own, so that the
// compiler keeps what it counts in registers.
fn put_nodes(
    file: &[u8],
    first: NodesRead,
    groups: usize,
    strict: bool,
    table: &mut UniqueTable,
) -> Result<NodesRead, Stopped<usize>>
    requires { HasField file.now first.place 18 6 × Underway strict file.now groups (held table.old) first }
    ensures same { SameArray table.old table.new }
    ensures takes { Takes strict file.now groups first (held table.old) (held table.new) result }
{
    let mut read = first;
    loop {
        read = put_node(file, read, groups, strict, table)?;
        if !is_whole(file, read.place, 18, 6) {
            return Ok(read);
        }
    }
}

// The nodes from a place on, into a table without nodes: a reader, kept in a local, walks over them. Answers how many
// there are.
fn read_nodes(
    file: &[u8],
    first: usize,
    groups: usize,
    strict: bool,
    table: &mut UniqueTable,
) -> Result<usize, Stopped<usize>>
    requires { Fresh groups (held table.old) }
    ensures same { SameArray table.old table.new }
    ensures over { Over strict file.now first groups table.old.nodes.now (held table.new) result }
{
    let mut reader = Reader::new(file).moved(first);
    let mut read = NodesRead {
        place: first,
        nodes: 0,
    };
    loop {
        read = match reader.next(18, 6) {
            Field::Absent => return Ok(read.nodes),
            Field::Faulty { refusal, place } => return Err(stopped(refusal, place, read.nodes)),
            Field::Passed { end } => NodesRead {
                place: end,
                nodes: read.nodes,
            },
            Field::Whole { .. } => put_nodes(file, read, groups, strict, table)?,
        };
        reader = reader.moved(read.place);
    }
}

// The root of a diagram, and how many inner nodes it has.
#[derive(Clone, Copy)]
pub struct DiagramSizes {
    pub root: u16,
    pub nodes: usize,
}

// The nodes behind the head, and whether the root is one of them.
fn read_rest(
    file: &[u8],
    end: usize,
    root: u16,
    groups: usize,
    strict: bool,
    inner: &mut [u32; 512],
) -> Result<DiagramSizes, Stopped<DiagramSizes>>
    requires { (groups ≤ 1024) × Room inner.old }
    ensures { Rest strict file.now end root groups inner.old inner.new result }
{
    let mut table = UniqueTable::over(inner);
    match read_nodes(file, end, groups, strict, &mut table) {
        Err(Stopped { fault, passed }) => Err(Stopped {
            fault,
            passed: DiagramSizes {
                root,
                nodes: passed,
            },
        }),
        Ok(nodes) => {
            let sizes = DiagramSizes { root, nodes };
            if nodes + 2 <= root as usize {
                return Err(stopped(Refusal::NodeLimit, 0, sizes));
            }
            Ok(sizes)
        }
    }
}

// The diagram of a file over so many groups; its inner nodes go into the table, and 0 and 1 are marked. Padding (a node with
// lo equal to hi, or alike to an earlier one) is refused where `strict` is set, and else taken. A refused file gives the
// diagram as far as its fields passed.
pub fn read_diagram(
    file: &[u8],
    groups: usize,
    strict: bool,
    inner: &mut [u32; 512],
) -> Result<DiagramSizes, Stopped<DiagramSizes>>
    requires { (groups ≤ 1024) × Room inner.old }
    ensures { Reads strict file.now groups inner.old inner.new result }
{
    let leaf = leaf_word();
    inner[0] = leaf;
    inner[1] = leaf;
    let none = DiagramSizes { root: 0, nodes: 0 };
    match first_field(file, 17, 2) {
        Field::Absent => Err(stopped(Refusal::Tag, 0, none)),
        Field::Faulty { refusal, place } => Err(stopped(refusal, place, none)),
        Field::Passed { end: _ } => Err(stopped(Refusal::Tag, 0, none)),
        Field::Whole { start, end, .. } => {
            let root = read_u16(&file[start..end], 0);
            read_rest(file, end, root, groups, strict, inner)
        }
    }
}
