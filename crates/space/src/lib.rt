// How much space the searches need for two files.
#![tactic(auto)]

ghost use Rattle.std.specs.Prelude.{◌≡◌};
ghost use Rattle.definitions.specs.Answers.{read_files};
ghost use Rattle.definitions.specs.Diagrams.{strict};
ghost use Rattle.space.specs.Space.{space_needed, told};

use chart_fields::StepTable;
use checks::{Refused, load};

// The entries that each work slice and the plan slice need.
#[derive(Clone, Copy)]
pub struct Space {
    pub work: usize,
    pub plan: usize,
}

// The same in numbers, as C is told it: a refusal's number, file and place, or 0; and the entries, 0 where the files are refused.
#[derive(Clone, Copy)]
pub struct Needed {
    pub number: u32,
    pub file: u32,
    pub place: usize,
    pub work: usize,
    pub plan: usize,
}

// What the call below answers, in numbers.
pub fn told(needed: Result<Space, Refused>) -> Needed
    ensures { result ≡ told needed }
{
    match needed {
        Ok(space) => Needed {
            number: 0,
            file: 0,
            place: 0,
            work: space.work,
            plan: space.plan,
        },
        Err(refused) => Needed {
            number: refused.refusal.number() as u32,
            file: refused.file_mark() as u32,
            place: refused.place,
            work: 0,
            plan: 0,
        },
    }
}

// The most pairs and the longest plan that any accepted files have: 256 stages × 512 nodes, and 255 steps.
const MOST_PAIRS: usize = 131072;

const MOST_STEPS: usize = 255;

// Checks both files and says how much space the searches need for them.
pub fn space_needed(chart: &[u8], rules: &[u8]) -> Result<Space, Refused>
    ensures { told result ≡ space_needed (read_files strict chart.now rules.now) }
{
    let mut steps = StepTable::blank();
    let mut inner = [0u32; 512];
    let z = load(chart, rules, MOST_PAIRS, MOST_STEPS, &mut steps, &mut inner)?;
    let stages = z.stages as usize;
    Ok(Space {
        work: stages * (z.nodes + 2),
        plan: stages - 1,
    })
}
