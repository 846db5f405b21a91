// The rows of the sweep, relaxed in turn: from each reached pair every step offers its cost to the pair that it leads to.
#![tactic(auto)]

ghost use Rattle.std.specs.Prelude.{◌≡◌, ◌-◌, ◌<◌, Bool, true, false, get_or};
ghost use Rattle.sweep_model.specs.Model.{relax_steps, relax_nodes, relax_rows};
ghost use Rattle.chart.specs.Tables.{steps_in};
ghost use Rattle.checks.specs.Tables.{read, Named};
ghost use Rattle.checks.specs.Ready.{walked, graph_in, automaton_in};
ghost use Rattle.sweep_offers.specs.Offers.{held, SameSlices};
ghost use Rattle.sweep_rows.specs.Standing.{Stands, Row, InRow, at};

use checks::WalkTables;
use definitions::{Group, Node, Shape, Stage, Step};
use nodes::{branch, descend_to, lowered_at};
use sweep_offers::Rows;

// The steps from `begin` to before `until`.
#[derive(Clone, Copy)]
struct Span {
    begin: Step,
    until: Step,
}

// The group of step e: the one that it names, or its own number where each step is a group alone. Then no group is read.
fn group_of<const GROUPED: bool>(tables: WalkTables<'_>, e: Step) -> Group
    requires inside { e.0 < 1024 }
    requires alone { GROUPED ≡ false → e.0 ≡ get_or (steps_in tables.steps.now).group e.0 0 }
    ensures { result.0 ≡ get_or (steps_in tables.entry.steps.now).group e.0 0 }
{
    if GROUPED {
        return tables.steps.group(e);
    }
    Group(e.0)
}

// Node n, at cost v, offers by the steps that leave its stage.
fn relax_steps<const GROUPED: bool>(
    rows: &mut Rows<'_>,
    tables: WalkTables<'_>,
    n: Node,
    v: u32,
    leaving: Span,
)
    requires stands { let t = read tables.steps.now tables.inner.now in
        Stands t tables.row.now n.0 v leaving.begin.0 leaving.until.0 (held rows.old) }
    requires alone { GROUPED ≡ false → Named (read tables.steps.now tables.inner.now) → ⊥ }
    ensures becomes { let t = (walked tables.entry).read in
        (x : Stands t tables.entry.row.now n.0 v leaving.begin.0 leaving.until.0 (held rows.old))
        → held rows.new ≡ relax_steps (graph_in x.z t) (automaton_in x.z t) n.0 v leaving.begin.0 (leaving.until.0 - leaving.begin.0) (held rows.old) }
    ensures same { SameSlices rows.old rows.new }
{
    let mut m = lowered_at(tables.inner, n);
    for number in leaving.begin.0..leaving.until.0 {
        let e = Step(number);
        let group = group_of::<GROUPED>(tables, e);
        m = descend_to(tables.inner, group, m);
        if m.node.0 == 0 {
            return;
        }
        let t = branch(tables.inner, group, m);
        rows.relax_step(tables, e, n, v, t);
    }
}

// The same, by the kind of the steps: one loop for each kind.
fn relax_node(rows: &mut Rows<'_>, tables: WalkTables<'_>, n: Node, v: u32, leaving: Span)
    requires { let t = read tables.steps.now tables.inner.now in
        Stands t tables.row.now n.0 v leaving.begin.0 leaving.until.0 (held rows.old) }
    ensures becomes { let t = (walked tables.entry).read in
        (x : Stands t tables.entry.row.now n.0 v leaving.begin.0 leaving.until.0 (held rows.old))
        → held rows.new ≡ relax_steps (graph_in x.z t) (automaton_in x.z t) n.0 v leaving.begin.0 (leaving.until.0 - leaving.begin.0) (held rows.old) }
    ensures same { SameSlices rows.old rows.new }
{
    if tables.steps.is_grouped() {
        relax_steps::<true>(rows, tables, n, v, leaving);
        return;
    }
    relax_steps::<false>(rows, tables, n, v, leaving);
}

// The reached nodes of row s offer in turn, in the order of the row's list.
fn relax_row(rows: &mut Rows<'_>, tables: WalkTables<'_>, s: Stage)
    requires { InRow (walked tables) s.0 (held rows.old) }
    ensures becomes { let w = walked tables.entry in
        (x : InRow w s.0 (held rows.old))
        → held rows.new ≡ relax_nodes (graph_in x.z w.read) (automaton_in x.z w.read) (at w.first) s.0 0 (at (held rows.old).counts s.0) (held rows.old) }
    ensures same { SameSlices rows.old rows.new }
{
    let stage = s.0 as usize;
    let base = tables.row[stage] as usize;
    let begin = Step(tables.first[stage]);
    let until = Step(tables.first[stage + 1]);
    let leaving = Span { begin, until };
    let count = rows.counts[stage] as usize;
    for k in 0..count {
        let n = Node(rows.nodes[base + k] as u16);
        let v = rows.costs[base + n.0 as usize];
        relax_node(rows, tables, n, v, leaving);
    }
}

// All rows from the start's on, in the order of the stages.
pub fn relax_rows(rows: &mut Rows<'_>, tables: WalkTables<'_>, z: Shape)
    requires { Row z (walked tables) z.start.0 (held rows.old) }
    ensures becomes { let w = walked tables.entry in
        held rows.new ≡ relax_rows (graph_in z w.read) (automaton_in z w.read) (at w.first) z.start.0 (z.stages - z.start.0) (held rows.old) }
    ensures same { SameSlices rows.old rows.new }
{
    for s in z.start.0..z.stages {
        relax_row(rows, tables, Stage(s));
    }
}
