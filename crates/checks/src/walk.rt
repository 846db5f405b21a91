// What a search walks.
use chart_fields::StepTable;

// All tables that a search walks: the steps, the inner nodes, the first step of each stage, and where each stage's row of
// pairs starts.
#[derive(Clone, Copy)]
pub struct WalkTables<'a> {
    pub steps: &'a StepTable,
    pub inner: &'a [u32; 512],
    pub first: &'a [u16; 257],
    pub row: &'a [u32; 256],
}
