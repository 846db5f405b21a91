// What is told of a chart that was read; its steps stand in a table.

// The sizes of a chart.
#[derive(Clone, Copy)]
pub struct ChartSizes {
    pub stages: u16,
    pub start: u16,
    pub end: u16,
    pub steps: usize,
    // how many groups a diagram may name
    pub groups: usize,
}
