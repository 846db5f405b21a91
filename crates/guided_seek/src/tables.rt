// The tables of a guided search that do not depend on its start and end.
ghost use Rattle.std.specs.Prelude.{length, replicate, ◌≡◌};
ghost use Rattle.checks.specs.Tables.{read, Tables};
ghost use Rattle.checks.specs.Ready.{walk};
ghost use Rattle.guided_seek.specs.Seeks.{NodeEstimates, Prepared};

use chart_fields::StepTable;
use chart_stages::fill_first_steps;
use definitions::{NONE, Shape};
use node_estimates::{fill_diagram_estimates, fill_prices};
use rows::fill_row_starts;

// Fills the estimate of each node. Where the steps name groups, what each group costs is found first; else it is what its one
// step costs.
fn estimate_nodes<'a>(
    by_node: &mut [u32; 512],
    z: Shape,
    steps: &'a StepTable,
    inner: &'a [u32; 512],
)
    requires long_enough { length by_node.old ≡ 512 }
    requires tables { Tables z (read steps.now inner.now) }
    ensures { NodeEstimates z (read steps.now inner.now) by_node.new }
{
    if steps.is_grouped() {
        let mut price = [NONE; 1024];
        fill_prices(&mut price, z, steps);
        fill_diagram_estimates(by_node, z, inner, &price);
        return;
    }
    fill_diagram_estimates(by_node, z, inner, &steps.costs);
}

// Fills the first step of each stage, the start of each stage's row and the estimate of each node. Three tables, each filled by a
// call of its own.
pub fn fill_tables<'a>(
    first: &mut [u16; 257],
    row: &mut [u32; 256],
    by_node: &mut [u32; 512],
    z: Shape,
    steps: &'a StepTable,
    inner: &'a [u32; 512],
)
    requires no_first { first.old ≡ replicate 257 0 }
    requires no_row { row.old ≡ replicate 256 0 }
    requires no_node { by_node.old ≡ replicate 512 0 }
    requires tables { Tables z (read steps.now inner.now) }
    ensures { Prepared z (walk (read steps.now inner.now) first.new row.new) by_node.new }
{
    fill_first_steps(first, &steps.ends, z.steps, z.stages);
    estimate_nodes(by_node, z, steps, inner);
    fill_row_starts(row, z.stages as usize, z.nodes + 2);
}
