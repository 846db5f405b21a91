// The steps from a pair, in ascending order: each is offered to the pair that it leads to.
ghost use Rattle.std.specs.Prelude.{◌+◌, ◌<◌, get_or};
ghost use Rattle.chart.specs.Tables.{steps_in};
ghost use Rattle.checks.specs.Ready.{walked};
ghost use Rattle.guided_offers.specs.Views.{estimates_of, SameSlices};
ghost use Rattle.guided_expand.specs.Progress.{progress_of};
ghost use Rattle.guided_expand.specs.Opening.{Opened, Opening, Leading};
ghost use Rattle.guided_expand.specs.Kinds.{GroupOf, Kind};

use chart_fields::StepTable;
use checks::WalkTables;
use definitions::{Group, NONE, Node, Step};
use guided_keys::open_block;
use guided_offers::{Estimates, Work};
use guided_places::Pair;
use nodes::{branch, descend_to, lowered_at};
use trace::pair_at;
use via_marks::packed;

// A pair that is settled, its cost, and its key (cost plus estimate), which is the one last taken from the queue.
#[derive(Clone, Copy)]
pub struct Source {
    pub pair: Pair,
    pub cost: u32,
    pub key: u32,
}

// Offers step e, which leaves the settled pair `source` and leads to node t. `filled` marks the blocks of keys that are filled;
// there are `pairs` pairs in all. Both stand beside the work space: slices lent through a struct round it get no proof.
// Inlined into both loops: a call for each step is slower by half.
#[inline(always)]
fn offer<'t>(
    work: &mut Work<'_, '_, '_>,
    filled: &mut [bool; 1024],
    pairs: usize,
    tables: WalkTables<'t>,
    estimates: Estimates<'t>,
    source: Source,
    e: Step,
    t: Node,
)
    requires { Leading (walked tables) (estimates_of estimates) source pairs e.0 t.0 (progress_of work.old filled.old) }
    ensures same { SameSlices work.old work.new }
    ensures offered { let before = progress_of work.old filled.old in
        let after = progress_of work.new filled.new in
        (x : Leading (walked tables.entry) (estimates_of estimates.entry) source pairs e.0 t.0 before)
        → Opened x.by source e.0 (e.0 + 1) before after }
{
    let stage = tables.steps.to(e);
    // None is NONE: the estimates are numbers in tables.
    let rest = estimates.of_pair(stage, t);
    if rest == NONE {
        return;
    }
    let y = pair_at(tables.row, stage, t);
    let queue = &mut *work.queue;
    open_block(queue.keys, filled, y, pairs);
    let v = source.cost + tables.steps.cost(e) + rest;
    work.relax(source.key, y, v, packed(stage, e, source.pair.node));
}

// The group of step e: the one that it names, where the steps name groups; else the one of its own number.
fn group_of<'a, const GROUPED: bool>(steps: &'a StepTable, e: Step) -> Group
    requires { e.0 < 1024 }
    ensures { GroupOf GROUPED (steps_in steps.now) e.0 result.0 }
{
    if GROUPED {
        return steps.group(e);
    }
    Group(e.0)
}

// Offers the steps that leave the settled pair `source`. The pair's node is lowered from one step to the next; once it is 0, no
// further step leads to a pair. There is a loop for each kind of steps, so that the one of plain steps reads no group.
fn settle_kind<'t, const GROUPED: bool>(
    work: &mut Work<'_, '_, '_>,
    filled: &mut [bool; 1024],
    pairs: usize,
    tables: WalkTables<'t>,
    estimates: Estimates<'t>,
    source: Source,
)
    requires opening { Opening (walked tables) (estimates_of estimates) source pairs (progress_of work.old filled.old) }
    requires kind { Kind GROUPED (walked tables).read }
    ensures same { SameSlices work.old work.new }
    ensures settled { let before = progress_of work.old filled.old in
        let after = progress_of work.new filled.new in
        let on = walked tables.entry in
        let s = source.pair.stage.0 in
        (x : Opening on (estimates_of estimates.entry) source pairs before)
        → Opened x.by source (get_or on.first s 0) (get_or on.first (s + 1) 0) before after }
{
    let s = source.pair.stage.0 as usize;
    let inner = tables.inner;
    let mut m = lowered_at(inner, source.pair.node);
    for e in tables.first[s]..tables.first[s + 1] {
        let step = Step(e);
        let group = group_of::<GROUPED>(tables.steps, step);
        m = descend_to(inner, group, m);
        if m.node.0 == 0 {
            return;
        }
        let t = branch(inner, group, m);
        offer(work, filled, pairs, tables, estimates, source, step, t);
    }
}

// Offers the steps that leave the settled pair `source`.
pub fn settle<'t>(
    work: &mut Work<'_, '_, '_>,
    filled: &mut [bool; 1024],
    pairs: usize,
    tables: WalkTables<'t>,
    estimates: Estimates<'t>,
    source: Source,
)
    requires { Opening (walked tables) (estimates_of estimates) source pairs (progress_of work.old filled.old) }
    ensures same { SameSlices work.old work.new }
    ensures settled { let before = progress_of work.old filled.old in
        let after = progress_of work.new filled.new in
        let on = walked tables.entry in
        let s = source.pair.stage.0 in
        (x : Opening on (estimates_of estimates.entry) source pairs before)
        → Opened x.by source (get_or on.first s 0) (get_or on.first (s + 1) 0) before after }
{
    if tables.steps.is_grouped() {
        settle_kind::<true>(work, filled, pairs, tables, estimates, source);
    } else {
        settle_kind::<false>(work, filled, pairs, tables, estimates, source);
    }
}
