// The reader of the chart file: its steps go into a table.
ghost use Rattle.std.specs.Prelude.{◌≡◌, Some, IfOk};
ghost use Rattle.definitions.specs.Fields.{only, or_remark, field_at};
ghost use Rattle.definitions.specs.Charts.{step_length, read_chart};
ghost use Rattle.chart_fields.specs.Kinds.{kind_tag};
ghost use Rattle.chart.specs.Kinds.{kind_if, kind_at, due_kind, HasStep, groups_to};
ghost use Rattle.chart.specs.Tables.{Room, Filled, sizes_so_far, no_sizes, ChartAnswer};
ghost use Rattle.chart.specs.Turns.{begun, Ends, Takes};

use crate::sizes::ChartSizes;
use chart_fields::{HeadBody, StepKind, StepTable, check_head, check_step, head_of, step_of};
use definitions::{Field, Refusal};
use fields::{Fault, Reader, Stopped, first_field, is_whole};

// The steps read so far.
#[derive(Clone, Copy)]
pub struct StepsRead {
    // where the next field is due
    pub place: usize,
    // how many steps passed
    pub steps: usize,
    // the stage that the last of them leaves, 0 before the first
    pub last: u16,
    // the group of the last of them, 0 before the first
    pub group: u16,
    // their kind, none before the first
    pub kind: Option<StepKind>,
}

impl StepsRead {
    // Before the first step, which is due at this place.
    fn start(place: usize) -> StepsRead
        ensures { result ≡ begun place }
    {
        StepsRead {
            place,
            steps: 0,
            last: 0,
            group: 0,
            kind: None,
        }
    }

    // The walk ends at a fault.
    fn stopped(self, refusal: Refusal, place: usize) -> Stopped<StepsRead>
        ensures { result ≡ record { fault = record { refusal = refusal; place = place }; passed = self } }
    {
        Stopped {
            fault: Fault { refusal, place },
            passed: self,
        }
    }

    // The kind of steps that is due: that of those before, and before the first that of what stands there.
    #[tactic(auto, unfolding(crate::specs::Kinds::due_kind))]
    fn due_kind(self, file: &[u8]) -> StepKind
        ensures { result ≡ due_kind file.now self }
    {
        match self.kind {
            Some(kind) => kind,
            None => kind_at(file, self.place),
        }
    }

    // What stands where the next field is due: a remark, or a step of this kind.
    fn find_step(self, file: &[u8], kind: StepKind) -> Field
        ensures { result ≡ field_at file.now self.place (or_remark (only (kind_tag kind) (step_length (kind_tag kind)))) }
    {
        Reader::new(file)
            .moved(self.place)
            .next(kind.tag(), kind.length())
    }

    // How many groups a diagram may name over these steps: those up to the last step's.
    #[tactic(auto, unfolding(crate::specs::Kinds::groups_to, definitions::specs::Basics::pick))]
    fn groups(self) -> usize
        ensures { result ≡ groups_to self.steps self.group }
    {
        if self.steps == 0 {
            return 0;
        }
        usize::from(self.group) + 1
    }
}

// The kind of the step that may stand at a place: grouped where its tag says so, else plain.
#[tactic(auto, unfolding(crate::specs::Kinds::kind_at))]
fn kind_at(file: &[u8], at: usize) -> StepKind
    ensures { result ≡ kind_at file.now at }
{
    kind_if(at < file.len() && file[at] == StepKind::Grouped.tag())
}

// The kind that a constant names.
fn kind_if(grouped: bool) -> StepKind
    ensures { result ≡ kind_if grouped }
{
    if grouped {
        StepKind::Grouped
    } else {
        StepKind::Plain
    }
}

// The step whose field stands whole at the read's place, into the table. The kind is a constant here and below, so that no
// test of it is left in the loop.
fn put_step<const GROUPED: bool>(
    file: &[u8],
    read: StepsRead,
    stages: u16,
    steps: &mut StepTable,
) -> Result<StepsRead, Stopped<StepsRead>>
    requires { HasStep file.now read (kind_if GROUPED) }
    ensures takes { Takes file.now stages read steps.old steps.new result }
    ensures kind { IfOk result (λ r. r.kind ≡ Some (kind_if GROUPED)) }
{
    let kind = kind_if(GROUPED);
    let tag = kind.tag();
    let start = read.place + 3;
    let end = start + usize::from(kind.length());
    let body = &file[start..end];
    if let Err(refusal) = check_step(body, stages, tag, read.last, read.group, read.steps) {
        return Err(read.stopped(refusal, read.place));
    }
    let step = step_of(body, tag, read.steps);
    steps.put(read.steps, step);
    Ok(StepsRead {
        place: end,
        steps: read.steps + 1,
        last: step.from,
        group: step.group,
        kind: Some(kind),
    })
}

// Such steps as stand one behind the other from the read's place on: a loop of its own, so that the compiler keeps what it
// counts in registers.
fn put_run<const GROUPED: bool>(
    file: &[u8],
    first: StepsRead,
    stages: u16,
    steps: &mut StepTable,
) -> Result<StepsRead, Stopped<StepsRead>>
    requires { HasStep file.now first (kind_if GROUPED) }
    ensures { Takes file.now stages first steps.old steps.new result }
{
    let kind = kind_if(GROUPED);
    let mut read = first;
    loop {
        read = put_step::<GROUPED>(file, read, stages, steps)?;
        if !is_whole(file, read.place, kind.tag(), kind.length()) {
            return Ok(read);
        }
    }
}

// The steps of this kind that stand one behind the other from the read's place on, into the table.
fn put_steps(
    file: &[u8],
    first: StepsRead,
    kind: StepKind,
    stages: u16,
    steps: &mut StepTable,
) -> Result<StepsRead, Stopped<StepsRead>>
    requires { HasStep file.now first kind }
    ensures { Takes file.now stages first steps.old steps.new result }
{
    match kind {
        StepKind::Plain => put_run::<false>(file, first, stages, steps),
        StepKind::Grouped => put_run::<true>(file, first, stages, steps),
    }
}

// The steps from a place on, into the table.
fn read_steps(
    file: &[u8],
    first: usize,
    stages: u16,
    steps: &mut StepTable,
) -> Result<StepsRead, Stopped<StepsRead>>
    ensures { Ends file.now first stages steps.old steps.new result }
{
    let mut read = StepsRead::start(first);
    loop {
        let kind = read.due_kind(file);
        match read.find_step(file, kind) {
            Field::Absent => return Ok(read),
            Field::Faulty { refusal, place } => return Err(read.stopped(refusal, place)),
            Field::Passed { end } => read.place = end,
            Field::Whole { .. } => read = put_steps(file, read, kind, stages, steps)?,
        }
    }
}

// The sizes of a chart with this head and the steps that were read.
fn sizes(head: HeadBody, read: StepsRead) -> ChartSizes
    ensures { result ≡ sizes_so_far head read }
{
    ChartSizes {
        stages: head.stages,
        start: head.start,
        end: head.end,
        steps: read.steps,
        groups: read.groups(),
    }
}

// No head passed.
fn no_head(refusal: Refusal, place: usize) -> Stopped<ChartSizes>
    ensures { result ≡ record { fault = record { refusal = refusal; place = place }; passed = no_sizes } }
{
    Stopped {
        fault: Fault { refusal, place },
        passed: ChartSizes {
            stages: 0,
            start: 0,
            end: 0,
            steps: 0,
            groups: 0,
        },
    }
}

// The chart of a file: its sizes, or why and where it is refused, with the sizes as far as its fields passed. Its steps go
// into the table.
pub fn read_chart(file: &[u8], steps: &mut StepTable) -> Result<ChartSizes, Stopped<ChartSizes>>
    ensures value { ChartAnswer (read_chart file.now) result }
    ensures filled { let read = read_chart file.now in
        Room steps.old → Filled read.chart.steps steps.old steps.new }
{
    match first_field(file, 1, 6) {
        Field::Absent | Field::Passed { .. } => Err(no_head(Refusal::Tag, 0)),
        Field::Faulty { refusal, place } => Err(no_head(refusal, place)),
        Field::Whole { place, start, end } => {
            let body = &file[start..end];
            if let Err(refusal) = check_head(body) {
                return Err(no_head(refusal, place));
            }
            let head = head_of(body);
            match read_steps(file, end, head.stages, steps) {
                Ok(read) => Ok(sizes(head, read)),
                Err(Stopped { fault, passed }) => Err(Stopped {
                    fault,
                    passed: sizes(head, passed),
                }),
            }
        }
    }
}
