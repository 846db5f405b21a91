// The reduction of a diagram file, written as a file into a lent buffer: its conjunction with the diagram that always says
// yes.
#![tactic(auto)]

ghost use Rattle.definitions.specs.Promises.{ReduceCall};
ghost use Rattle.diagram.specs.Files.{Room};
ghost use Rattle.reduce.specs.Reducing.{LoadsAs};

use apply::{Operands, Pair};
use checks::{InFile, Refused, in_file};
use conjoin::{check_chart, join};
use definitions::Answer;
use diagram::{DiagramSizes, read_diagram};
use diagram_fields::leaf_word;

// Reads the chart, and the diagram into a table.
fn load(chart: &[u8], rules: &[u8], nodes: &mut [u32; 512]) -> Result<DiagramSizes, Refused>
    requires { Room nodes.old }
    ensures { LoadsAs chart.now rules.now nodes.old nodes.new result }
{
    let c = in_file(check_chart(chart), InFile::Chart)?;
    in_file(read_diagram(rules, c.groups, false, nodes), InFile::Rules)
}

// The reduction of the diagram `rules` over the chart, as a file at the front of `file`. Padding in `rules` is taken. What
// the walk needs, an entry for each pair of a node and 0 or 1, is kept here.
pub fn reduce(chart: &[u8], rules: &[u8], file: &mut [u8]) -> Answer
    ensures { ReduceCall chart.now rules.now file.old file.new result }
{
    let mut nodes = [0u32; 512];
    match load(chart, rules, &mut nodes) {
        Err(refused) => refused.answer(0),
        Ok(d) => {
            let always = [leaf_word(); 512];
            let operands = Operands {
                left: &nodes,
                right: &always,
                width: 2,
            };
            let roots = Pair {
                first: d.root,
                second: 1,
            };
            let mut work = [0u32; 1024];
            join(&operands, roots, (d.nodes + 2) * 2, &mut work, file)
        }
    }
}
