// The types that the definitions and the code share. The definitions themselves are in specs/.
#![tactic(auto)]

ghost use Rattle.std.specs.Prelude.{◌≡◌};
ghost use Rattle.definitions.specs.Refusals.{number};

// A stage of the chart (a vertex of the graph).
#[derive(Clone, Copy, PartialEq, Eq)]
pub struct Stage(pub u16);

// A step of the chart (an edge), numbered from 0 in file order.
#[derive(Clone, Copy, PartialEq, Eq)]
pub struct Step(pub u16);

// A group of steps that mean the same: what a node of the rule diagram asks for.
#[derive(Clone, Copy, PartialEq, Eq)]
pub struct Group(pub u16);

// A node of the rule diagram: 0 is "no", 1 is "yes", the inner nodes are 2, 3, 4 .. in file order.
#[derive(Clone, Copy, PartialEq, Eq)]
pub struct Node(pub u16);

// The sizes of a chart and a diagram that stand in tables.
#[derive(Clone, Copy)]
pub struct Shape {
    pub stages: u16,
    pub start: Stage,
    pub end: Stage,
    // how many steps there are
    pub steps: usize,
    pub root: Node,
    // how many inner nodes there are
    pub nodes: usize,
}

// The cost of a pair that is not reached, the key of one that was never opened, and the estimate where there is none: above
// every cost.
pub const NONE: u32 = 4294967295;

// Why a file or a call is refused; the comment gives the number of each.
#[derive(Clone, Copy, PartialEq, Eq)]
pub enum Refusal {
    // 1: a header or a body is cut.
    Cut,
    // 2: a field of another tag is due.
    Tag,
    // 3: a field of another length is due.
    Length,
    // 4: a limit of the chart's head, or of an entry's start and end.
    HeadLimit,
    // 5: a step out of order, or one too many.
    StepOrder,
    // 6: a limit of the diagram's nodes, or its root.
    NodeLimit,
    // 7: a lent slice is too short.
    ShortSlice,
    // 8: there is no legal plan.
    NoLegalPlan,
    // 9: the file is too long.
    LongFile,
    // 10: a step to no higher stage of the chart.
    StepTarget,
    // 11: a step is too dear.
    DearStep,
    // 12: the diagram that is made has too many nodes.
    ManyNodes,
    // 13: a node is padding.
    Padding,
    // 14: a limit of groups, or their order.
    GroupLimit,
}

impl Refusal {
    // Its number.
    pub fn number(self) -> u8
        ensures { result ≡ number self }
    {
        match self {
            Refusal::Cut => 1,
            Refusal::Tag => 2,
            Refusal::Length => 3,
            Refusal::HeadLimit => 4,
            Refusal::StepOrder => 5,
            Refusal::NodeLimit => 6,
            Refusal::ShortSlice => 7,
            Refusal::NoLegalPlan => 8,
            Refusal::LongFile => 9,
            Refusal::StepTarget => 10,
            Refusal::DearStep => 11,
            Refusal::ManyNodes => 12,
            Refusal::Padding => 13,
            Refusal::GroupLimit => 14,
        }
    }
}

// What stands in a file where a field of some tag and length is due.
#[derive(Clone, Copy)]
pub enum Field {
    // The file ends here.
    Absent,
    // Why it is refused, and the refusal's place.
    Faulty {
        refusal: Refusal,
        place: usize,
    },
    // A whole field that is passed over: where it ends and the next field is due.
    Passed {
        end: usize,
    },
    // Any other whole field: the place of its tag, where its body starts, and where it ends and the next field is due.
    Whole {
        place: usize,
        start: usize,
        end: usize,
    },
}

// What a call answers.
#[derive(Clone, Copy)]
pub struct Answer {
    // 0, or the refusal's number.
    pub number: u32,
    // The file at fault: 1 the chart, 2 the diagram, 3 a second diagram, 0 none.
    pub file: u32,
    // The byte position of the faulty field's tag; of a file that is too long, that of its first byte too many.
    pub place: usize,
    // What the plan costs, in nanoseconds.
    pub cost: u32,
    // How many steps the plan has, or how many bytes the file that was written.
    pub length: usize,
    // The pairs reached (sweep) or settled (guided search).
    pub count: usize,
}

// A start, an end and space for the answer to them: an entry of a list of cycles on one chart.
#[repr(C)]
#[derive(Clone, Copy)]
pub struct Cycle {
    pub start: u16,
    pub end: u16,
    // 0, or the number of the entry's own refusal: 4 or 8.
    pub number: u32,
    pub cost: u32,
    // The pairs settled.
    pub count: usize,
}
