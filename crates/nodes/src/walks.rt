// The walks over the table of a rule diagram: advancing a node by a group, and which nodes finish at 1.
ghost use Rattle.std.specs.Prelude.{◌≡◌, ◌+◌, ◌≤◌, ◌<◌, length};
ghost use Rattle.diagram_fields.specs.Words.{MARK, Marked, nodes_in};
ghost use Rattle.nodes.specs.Walks.{Falls, Tests, Lowers, BranchesTo, Finishes, Finishing};

use definitions::{Group, Node};
use diagram_fields::{hi_at, lo_at, lo_of, step_at, step_of};

// A node of a diagram, and the group that it tests: the mark where it is none of the inner ones.
// The mark is kept as a number: `Marked` says that the table has it there, and one comparison then ends a walk.
#[derive(Clone, Copy)]
pub struct Lowered {
    pub node: Node,
    pub step: u16,
}

// A node with its group, by the table.
pub fn lowered_at(inner: &[u32; 512], n: Node) -> Lowered
    requires { n.0 < 512 }
    ensures { (result.node.0 ≡ n.0) × Tests (nodes_in inner.now).step result }
{
    let step = step_at(inner, n.0 as usize);
    Lowered { node: n, step }
}

// The first half of advancing a node by group `e`: to lo while the node is inner and its group is below `e`. Mostly it is not, and
// no entry is read. On the way down each entry is read once: it has the group and the lo.
pub fn descend_to(inner: &[u32; 512], e: Group, from: Lowered) -> Lowered
    requires { let t = nodes_in inner.now in
        Marked t.step × Falls t.lo from.node.0 × (e.0 ≤ MARK) × Tests t.step from }
    ensures { let t = nodes_in inner.now in
        Lowers t.step t.lo e.0 from.node.0 result.node.0 × Tests t.step result }
{
    let key = e.0;
    let mut step = from.step;
    if key <= step {
        return from;
    }
    let mut m = from.node.0;
    let mut word = inner[m as usize];
    while step < key {
        m = lo_of(word);
        word = inner[m as usize];
        step = step_of(word);
    }
    Lowered {
        node: Node(m),
        step,
    }
}

// The second half: to hi where group `e` is the lowered node's own. Both halves together advance a node.
pub fn branch(inner: &[u32; 512], e: Group, at: Lowered) -> Node
    requires { let t = nodes_in inner.now in
        Marked t.step × (at.node.0 < 512) × (e.0 < MARK) × Tests t.step at }
    ensures { let t = nodes_in inner.now in BranchesTo t.step t.hi e.0 at.node.0 result.0 }
{
    if at.step == e.0 {
        return Node(hi_at(inner, at.node.0 as usize));
    }
    at.node
}

// Whether a node finishes at 1: to lo until 0 or 1.
pub fn finishes(inner: &[u32; 512], n: Node) -> bool
    requires { Falls (nodes_in inner.now).lo n.0 }
    ensures { Finishes (nodes_in inner.now).lo n.0 result }
{
    let mut m = n.0;
    while 2 <= m {
        m = lo_at(inner, m as usize);
    }
    m == 1
}

// Fills the table: for each node of a diagram of `count` inner nodes, whether it finishes at 1.
pub fn fill_finishing(yes: &mut [bool; 512], inner: &[u32; 512], count: usize)
    requires { Falls (nodes_in inner.now).lo (count + 1) × (length yes.old ≡ 512) }
    ensures { Finishing (nodes_in inner.now).lo count yes.new }
{
    yes[0] = false;
    yes[1] = true;
    for n in 2..count + 2 {
        let child = lo_at(inner, n) as usize;
        yes[n] = yes[child];
    }
}
