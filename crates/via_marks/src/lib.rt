// By what a pair was reached, in one number: the pair's own stage, the step that enters it and the node that the step left. That
// is what `via` keeps for each pair.
#![tactic(auto)]

ghost use Rattle.std.specs.Prelude.{◌≡◌, ◌<◌};
ghost use Rattle.via_marks.specs.Marks.{packed as packing, stage_in, step_in, node_in};

use definitions::{Node, Stage, Step};

// Stage s, step e that enters it and node n that the step left, in one number.
pub fn packed(s: Stage, e: Step, n: Node) -> u32
    requires { s.0 < 256 }
    ensures { result ≡ packing s.0 e.0 n.0 }
{
    (s.0 as u32 * 1024 + e.0 as u32) * 512 + n.0 as u32
}

// The stage in such a number.
pub fn stage_in(mark: u32) -> Stage
    ensures { result.0 ≡ stage_in mark }
{
    Stage((mark / 512 / 1024) as u16)
}

// The step in such a number.
pub fn step_in(mark: u32) -> Step
    ensures { result.0 ≡ step_in mark }
{
    Step((mark / 512 % 1024) as u16)
}

// The node in such a number.
pub fn node_in(mark: u32) -> Node
    ensures { result.0 ≡ node_in mark }
{
    Node((mark % 512) as u16)
}
