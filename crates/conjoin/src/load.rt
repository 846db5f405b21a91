// What is checked first, in this order: the chart, the first diagram, the second, the work space. Both diagrams are read
// into tables.
ghost use Rattle.definitions.specs.Answers.{load_two};
ghost use Rattle.definitions.specs.Charts.{read_chart};
ghost use Rattle.chart.specs.Tables.{ChartAnswer};
ghost use Rattle.diagram.specs.Files.{Room};
ghost use Rattle.conjoin.specs.Loads.{LoadsTwo};

use apply::Pair;
use chart::{ChartSizes, read_chart};
use chart_fields::StepTable;
use checks::{InFile, Refused, in_file};
use definitions::Refusal;
use diagram::read_diagram;
use fields::Stopped;

// The roots of both diagrams, how many nodes the second has with 0 and 1, and how many pairs of nodes there are.
#[derive(Clone, Copy)]
pub struct LoadedTwo {
    pub roots: Pair,
    pub width: usize,
    pub pairs: usize,
}

// Reads the chart: of its steps only the number of their groups is used.
pub fn check_chart(chart: &[u8]) -> Result<ChartSizes, Stopped<ChartSizes>>
    ensures { ChartAnswer (read_chart chart.now) result }
{
    let mut steps = StepTable::blank();
    read_chart(chart, &mut steps)
}

// Reads all three files and compares the work entries that are lent with what is needed, one for each pair of nodes.
// (The files stand one by one, as in `conjoin`, whose parameters are the C interface.)
pub fn load_two(
    chart: &[u8],
    rules: &[u8],
    more: &[u8],
    work: usize,
    left: &mut [u32; 512],
    right: &mut [u32; 512],
) -> Result<LoadedTwo, Refused>
    requires { Room left.old × Room right.old }
    ensures { let o = load_two chart.now rules.now more.now work in
        LoadsTwo o work left.new right.new result }
{
    let c = in_file(check_chart(chart), InFile::Chart)?;
    let d = in_file(read_diagram(rules, c.groups, true, left), InFile::Rules)?;
    let e = in_file(read_diagram(more, c.groups, true, right), InFile::More)?;
    let width = e.nodes + 2;
    let pairs = (d.nodes + 2) * width;
    if work < pairs {
        return Err(Refused::of_call(Refusal::ShortSlice));
    }
    Ok(LoadedTwo {
        roots: Pair {
            first: d.root,
            second: e.root,
        },
        width,
        pairs,
    })
}
