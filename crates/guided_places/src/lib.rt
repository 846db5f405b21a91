// One settled pair of the guided search: its stage and its node, whether it is a goal pair, and its entry in the log.
#![tactic(auto)]

ghost use Rattle.std.specs.Prelude.{◌≡◌, ◌+◌, ◌≤◌, ◌<◌, length, get_or, set};
ghost use Rattle.guided_places.specs.Places.{GoalAt, stage_at, Placed};
ghost use Rattle.diagram_fields.specs.Words.{nodes_in};
ghost use Rattle.nodes.specs.Walks.{Falls};

use definitions::{Node, Stage};
use nodes::finishes;
use via_marks::stage_in;

// A pair of a stage and a node.
#[derive(Clone, Copy)]
pub struct Pair {
    pub stage: Stage,
    pub node: Node,
}

// The stage and the node of pair x, which stands in the row of stage s.
fn pair_in(row: &[u32; 256], s: Stage, x: usize) -> Pair
    requires { (s.0 < 256) × (get_or row.now s.0 0 ≤ x) × (x < get_or row.now s.0 0 + 512) }
    ensures { (result.stage.0 ≡ s.0) × (get_or row.now result.stage.0 0 + result.node.0 ≡ x) }
{
    let first = row[s.0 as usize] as usize;
    Pair {
        stage: s,
        node: Node((x - first) as u16),
    }
}

// The stage and the node of the opened pair x. Its stage stands in `via`, so no division by the size of a row is needed.
pub fn pair_of<'a>(
    via: &'a [u32],
    row: &'a [u32; 256],
    begin: usize,
    start: Stage,
    x: usize,
) -> Pair
    requires { Placed via.now row.now begin start.0 x }
    ensures { (result.stage.0 ≡ stage_at via.now begin start.0 x)
        × (get_or row.now result.stage.0 0 + result.node.0 ≡ x) }
{
    if x == begin {
        return pair_in(row, start, x);
    }
    pair_in(row, stage_in(via[x]), x)
}

// Whether an opened pair is a goal pair: it is one of the end stage, and its node finishes at 1.
pub fn is_goal(inner: &[u32; 512], end: Stage, at: Pair) -> bool
    requires { Falls (nodes_in inner.now).lo at.node.0 }
    ensures { GoalAt (nodes_in inner.now).lo end.0 at.stage.0 at.node.0 result }
{
    at.stage == end && finishes(inner, at.node)
}

// The log of settled pairs, in order: `count` of its entries are written.
#[derive(Drop)]
pub struct Log<'a> {
    pub entries: &'a mut [u32],
    pub count: usize,
}

impl<'a> Log<'a> {
    // Writes pair x at the first entry that is free, and counts it.
    pub fn push(&mut self, x: usize)
        requires { (self.old.count < length self.old.entries.now) × (x < 4294967296) }
        ensures same { self.new.entries.ghost_name ≡ self.old.entries.ghost_name }
        ensures counted { self.new.count ≡ self.old.count + 1 }
        ensures written { self.new.entries.now ≡ set self.old.entries.now self.old.count x }
    {
        let count = self.count;
        self.entries[count] = x as u32;
        self.count = count + 1;
    }
}
