// The tables before the first row: no pair is reached but that of start and root.
ghost use Rattle.std.specs.Prelude.{◌≡◌, List, ℕ, ◌+◌, ◌<◌, length};
ghost use Rattle.sweep_model.specs.Model.{rows};
ghost use Rattle.sweep_ends.specs.Begin.{begun_at};

use definitions::{Node, Stage};

// The pair of the start, whose row starts at `base`, and the root costs 0; a root that is 0 is not reached.
pub fn begin(
    costs: &mut [u32],
    nodes: &mut [u32],
    counts: &mut [u32; 256],
    base: usize,
    start: Stage,
    root: Node,
)
    requires stage_in { start.0 < 256 }
    requires pair_in { base + root.0 < length costs.old }
    requires list_in { base < length nodes.old }
    ensures { (via : List ℕ) → rows costs.new via nodes.new counts.new
        ≡ begun_at base start.0 root.0 (rows costs.old via nodes.old counts.old) }
{
    if root.0 == 0 {
        return;
    }
    costs[base + root.0 as usize] = 0;
    nodes[base] = root.0 as u32;
    counts[start.0 as usize] = 1;
}
