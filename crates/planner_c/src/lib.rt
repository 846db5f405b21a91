// The library for C and Rust: the public calls under plain names, over numbers, slices and arrays of numbers. An answer
// goes into an array that the caller lends, and its number is returned too. include/planner.h is the C declaration.
#![tactic(auto)]

ghost use Rattle.std.specs.Prelude.{◌≡◌, min, length};
ghost use Rattle.definitions.specs.Fields.{refused_field};
ghost use Rattle.definitions.specs.Answers.{read_files};
ghost use Rattle.definitions.specs.Diagrams.{strict};
ghost use Rattle.definitions.specs.Promises.{sweep_slices, SweepCall, guided_slices, GuidedCall, cycle_slices, CyclesCall, conjoin_slices, ConjoinCall, ReduceCall};
ghost use Rattle.space.specs.Space.{space_needed};
ghost use Rattle.planner.specs.Both.{BothCall};
ghost use Rattle.buffer.specs.Appending.{Appended};
ghost use Rattle.answer_arrays.specs.Numbers.{space_numbers};
ghost use Rattle.planner_c.specs.Exports.{Given, BothGiven};

use answer_arrays::{store, store_both, store_field, store_space};
use chart_fields::StepTable;
use checks::{WalkTables, accepted};
use cycles::entry::answered;
use cycles::once::prepare;
use definitions::Cycle;
use guided_loop::Slices;

// How much space the searches need for two files: the number, file and place of a refusal, or 0; then the entries that
// each work slice and the plan slice need.
#[unsafe(no_mangle)]
pub extern "C" fn planner_space_needed(chart: &[u8], rules: &[u8], space: &mut [usize; 5]) -> u32
    ensures { let needed = space_needed (read_files strict chart.now rules.now) in
        (result ≡ needed.number) × (space.new ≡ space_numbers needed) }
{
    let s = space::told(space::space_needed(chart, rules));
    store_space(s, space)
}

// The sweep.
#[unsafe(no_mangle)]
pub extern "C" fn planner_sweep(
    chart: &[u8],
    rules: &[u8],
    cost: &mut [u32],
    via: &mut [u32],
    nodes: &mut [u32],
    plan: &mut [u16],
    answer: &mut [usize; 6],
) -> u32
    ensures { let before = sweep_slices cost.old via.old nodes.old plan.old in
        let after = sweep_slices cost.new via.new nodes.new plan.new in
        Given (SweepCall chart.now rules.now before after) answer.new result }
{
    let swept = sweep::sweep(chart, rules, cost, via, nodes, plan);
    store(swept, answer)
}

// The guided search.
#[unsafe(no_mangle)]
pub extern "C" fn planner_guided(
    chart: &[u8],
    rules: &[u8],
    keys: &mut [u32],
    via: &mut [u32],
    heap: &mut [u32],
    pos: &mut [u32],
    stack: &mut [u32],
    log: &mut [u32],
    plan: &mut [u16],
    answer: &mut [usize; 6],
) -> u32
    ensures { let before =
        guided_slices keys.old via.old heap.old pos.old
        stack.old log.old plan.old in
        let after =
        guided_slices keys.new via.new heap.new pos.new
        stack.new log.new plan.new in
        Given (GuidedCall chart.now rules.now before after) answer.new result }
{
    let found = guided::guided(chart, rules, keys, via, heap, pos, stack, log, plan);
    store(found, answer)
}

// A list of starts and ends on one chart: each entry gets the answer of a guided search from its start to its end. The files
// are read and checked once, and the tables that no start or end changes are filled once.
#[unsafe(no_mangle)]
pub extern "C" fn planner_cycles(
    chart: &[u8],
    rules: &[u8],
    keys: &mut [u32],
    via: &mut [u32],
    heap: &mut [u32],
    pos: &mut [u32],
    stack: &mut [u32],
    log: &mut [u32],
    list: &mut [Cycle],
    answer: &mut [usize; 6],
) -> u32
    ensures { let before =
        cycle_slices keys.old via.old heap.old pos.old stack.old log.old in
        let after =
        cycle_slices keys.new via.new heap.new pos.new stack.new log.new in
        Given (CyclesCall chart.now rules.now before after list.old list.new)
        answer.new result }
{
    let mut steps = StepTable::blank();
    let mut inner = [0u32; 512];
    let mut first = [0u16; 257];
    let mut row = [0u32; 256];
    let mut by_node = [0u32; 512];
    let prepared = prepare(
        chart,
        rules,
        keys.len(),
        via.len(),
        heap.len(),
        pos.len(),
        stack.len(),
        log.len(),
        &mut steps,
        &mut inner,
        &mut first,
        &mut row,
        &mut by_node,
    );
    let z = match prepared {
        Ok(z) => z,
        Err(refused) => return store(refused.answer(0), answer),
    };
    let mut slices = Slices {
        keys,
        via,
        heap,
        pos,
        stack,
        log,
    };
    let tables = WalkTables {
        steps: &steps,
        inner: &inner,
        first: &first,
        row: &row,
    };
    for c in list.iter_mut() {
        *c = answered(*c, &mut slices, tables, &by_node, z);
    }
    store(accepted(0, 0, 0), answer)
}

// Both searches, on the slices of each. The number returned is the guided search's.
#[unsafe(no_mangle)]
pub extern "C" fn planner_both(
    chart: &[u8],
    rules: &[u8],
    cost: &mut [u32],
    cost_via: &mut [u32],
    nodes: &mut [u32],
    cost_plan: &mut [u16],
    keys: &mut [u32],
    via: &mut [u32],
    heap: &mut [u32],
    pos: &mut [u32],
    stack: &mut [u32],
    log: &mut [u32],
    plan: &mut [u16],
    sweep_answer: &mut [usize; 6],
    guided_answer: &mut [usize; 6],
) -> u32
    ensures { let lent = sweep_slices cost.old cost_via.old nodes.old cost_plan.old in
        let lent' = sweep_slices cost.new cost_via.new nodes.new cost_plan.new in
        let given =
        guided_slices keys.old via.old heap.old pos.old
        stack.old log.old plan.old in
        let given' =
        guided_slices keys.new via.new heap.new pos.new
        stack.new log.new plan.new in
        BothGiven (BothCall chart.now rules.now lent lent' given given')
        sweep_answer.new guided_answer.new result }
{
    let answers = planner::both(
        chart, rules, cost, cost_via, nodes, cost_plan, keys, via, heap, pos, stack, log, plan,
    );
    store_both(answers.sweep, answers.guided, sweep_answer, guided_answer)
}

// The conjunction of two diagrams over one chart, written as a diagram file to the front of `file`.
#[unsafe(no_mangle)]
pub extern "C" fn planner_conjoin(
    chart: &[u8],
    rules: &[u8],
    more: &[u8],
    work: &mut [u32],
    file: &mut [u8],
    answer: &mut [usize; 6],
) -> u32
    ensures { let before = conjoin_slices work.old file.old in
        let after = conjoin_slices work.new file.new in
        Given (ConjoinCall chart.now rules.now more.now before after) answer.new result }
{
    let joined = conjoin::conjoin(chart, rules, more, work, file);
    store(joined, answer)
}

// The reduction of a diagram over a chart, written as a diagram file to the front of `file`. Padding in `rules` is taken.
#[unsafe(no_mangle)]
pub extern "C" fn planner_reduce(
    chart: &[u8],
    rules: &[u8],
    file: &mut [u8],
    answer: &mut [usize; 6],
) -> u32
    ensures { Given (ReduceCall chart.now rules.now file.old file.new) answer.new result }
{
    let reduced = reduce::reduce(chart, rules, file);
    store(reduced, answer)
}

// The bytes of the field at a place of the chart (file 1) or of the diagram (file 2), copied to the front of `field` as
// far as there is room. Returns how many bytes the field has.
#[unsafe(no_mangle)]
pub extern "C" fn planner_refused_field<'a>(
    chart: &'a [u8],
    rules: &'a [u8],
    file: u32,
    place: usize,
    field: &mut [u8],
) -> usize
    ensures { let bytes = refused_field chart.now rules.now file place in
        (result ≡ length bytes)
        × Appended field.old 0 bytes field.new (min result (length field.old)) }
{
    let bytes = refused_field::refused_field(chart, rules, file, place);
    store_field(bytes, field)
}
