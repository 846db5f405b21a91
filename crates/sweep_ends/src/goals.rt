// The cheapest goal pair of the end stage's row, and the count of the reached pairs.
ghost use Rattle.std.specs.Prelude.{◌≡◌, ◌≤◌};
ghost use Rattle.sweep_model.specs.Totals.{total};
ghost use Rattle.sweep_ends.specs.Goals.{Better, Chosen, Listed};
ghost use Rattle.sweep_rows.specs.Standing.{at};

use definitions::Node;

// A goal pair's cost, and its node.
#[derive(Clone, Copy)]
pub struct Best {
    pub cost: u32,
    pub node: Node,
}

// The better of the best goal pair so far and node n at cost v, if that is one.
fn better(best: Option<Best>, n: Node, v: u32, yes: bool) -> Option<Best>
    ensures { Better n.0 v yes best result }
{
    if yes && best.is_none_or(|b| v < b.cost) {
        return Some(Best { cost: v, node: n });
    }
    best
}

// The cheapest goal pair among the first `count` nodes of the list of the row that starts at `base`.
pub fn cheapest_goal(
    costs: &[u32],
    nodes: &[u32],
    yes: &[bool; 512],
    base: usize,
    count: usize,
) -> Option<Best>
    requires { Listed base count costs.now nodes.now }
    ensures { Chosen base count costs.now nodes.now yes.now result }
{
    let mut best = None;
    // By index: where no node is listed, `Listed` does not promise that the list's slice begins inside `nodes`.
    for k in 0..count {
        let n = nodes[base + k] as usize;
        let v = costs[base + n];
        best = better(best, Node(n as u16), v, yes[n]);
    }
    best
}

// How many pairs are reached: the sum of the lengths of the rows' lists.
pub fn total_count(counts: &[u32; 256], stages: usize) -> usize
    requires { stages ≤ 256 }
    ensures { result ≡ total (at counts.now) stages }
{
    counts[..stages].iter().map(|&count| count as usize).sum()
}
