// The search itself, over tables that are ready.
ghost use Rattle.std.specs.Prelude.{◌≡◌, ◌+◌, get_or};
ghost use Rattle.guided_places.specs.Places.{stage_at, Placed};
ghost use Rattle.heap.specs.Views.{SameSlice};
ghost use Rattle.checks.specs.Tables.{pairs_in};
ghost use Rattle.checks.specs.Ready.{walked};
ghost use Rattle.guided_offers.specs.Views.{estimates_of, work_of, SameSlices};
ghost use Rattle.guided_expand.specs.Progress.{progress_of};
ghost use Rattle.guided_loop.specs.Search.{Start, Begun, Searched, ended};
ghost use Rattle.guided_loop.specs.Views.{lent_work, SameLent};

use checks::WalkTables;
use definitions::{Shape, Stage};
use guided_ends::{Ended, Goal};
use guided_expand::{Source, settle};
use guided_keys::open_block;
use guided_offers::{Estimates, Work};
use guided_places::{Log, Pair, is_goal, pair_of};
use queue::Queue;
use trace::pair_at;

// The slices that a search is lent: the log of settled pairs, and five that are work space.
#[derive(Drop)]
pub struct Slices<'a> {
    pub keys: &'a mut [u32],
    pub via: &'a mut [u32],
    pub heap: &'a mut [u32],
    pub pos: &'a mut [u32],
    pub stack: &'a mut [u32],
    pub log: &'a mut [u32],
}

// Where the opened pair x stands. By itself: of a slice that a loop lends on from a struct nothing is known afterwards.
fn place_of<'t>(
    work: &Work<'_, '_, '_>,
    row: &'t [u32; 256],
    begin: usize,
    start: Stage,
    x: usize,
) -> Pair
    requires { Placed work.now.via.now row.now begin start.0 x }
    ensures { (result.stage.0 ≡ stage_at work.now.via.now begin start.0 x) × (get_or row.now result.stage.0 0 + result.node.0 ≡ x) }
{
    pair_of(work.via, row, begin, start, x)
}

// Settles open pairs in turn and writes each to the log, until a goal pair is settled or none is open. `begin` is the pair of
// start and root. Each block of keys is filled when its first pair is opened.
fn settle_open<'t>(
    work: &mut Work<'_, '_, '_>,
    filled: &mut [bool; 1024],
    log: &mut Log<'_>,
    pairs: usize,
    begin: usize,
    tables: WalkTables<'t>,
    estimates: Estimates<'t>,
    z: Shape,
) -> Option<Goal>
    requires all { pairs ≡ pairs_in z }
    requires begun { let before = progress_of work.old filled.old in
        Begun z (walked tables) (estimates_of estimates) begin before log.old.entries.now log.old.count }
    ensures same { SameSlices work.old work.new }
    ensures same_log { SameSlice log.old.entries log.new.entries }
    ensures searched { let before = progress_of work.old filled.old in
        let entries = log.old.entries.now in
        (x : Begun z (walked tables.entry) (estimates_of estimates.entry) begin before entries log.old.count)
        → Searched x.by before.slices entries (work_of work.new) log.new.entries.now (ended result log.new.count) }
{
    let mut floor: u32 = 0;
    let mut goal = None;
    'search: while let Some(next) = work.queue.take(floor) {
        floor = next.key;
        log.push(next.pair);
        let at = place_of(work, tables.row, begin, z.start, next.pair);
        let cost = floor - estimates.of_pair(at.stage, at.node);
        if is_goal(tables.inner, z.end, at) {
            goal = Some(Goal {
                node: at.node,
                cost,
            });
            break 'search;
        }
        let source = Source {
            pair: at,
            cost,
            key: floor,
        };
        settle(work, filled, pairs, tables, estimates, source);
    }
    goal
}

// Opens the pair of start and root, whose estimate is `rest`, and settles open pairs from there on.
pub fn search<'t>(
    slices: &mut Slices<'_>,
    tables: WalkTables<'t>,
    estimates: Estimates<'t>,
    z: Shape,
    rest: u32,
) -> Ended
    requires { Start z (walked tables) (estimates_of estimates) rest (lent_work slices.old) slices.old.log.now }
    ensures same { SameLent slices.old slices.new }
    ensures searched { let before = lent_work slices.old in
        let log = slices.old.log.now in
        (x : Start z (walked tables.entry) (estimates_of estimates.entry) rest before log)
        → Searched x.by before log (lent_work slices.new) slices.new.log.now result }
{
    let pairs = z.stages as usize * (z.nodes + 2);
    let begin = pair_at(tables.row, z.start, z.root);
    let mut filled = [false; 1024];
    open_block(slices.keys, &mut filled, begin, pairs);
    let mut queue = Queue {
        keys: &mut *slices.keys,
        heap: &mut *slices.heap,
        pos: &mut *slices.pos,
        stack: &mut *slices.stack,
        heaped: 0,
        top: 0,
    };
    queue.insert(0, begin, rest);
    let mut work = Work {
        queue: &mut queue,
        via: &mut *slices.via,
    };
    let mut log = Log {
        entries: &mut *slices.log,
        count: 0,
    };
    let goal = settle_open(
        &mut work,
        &mut filled,
        &mut log,
        pairs,
        begin,
        tables,
        estimates,
        z,
    );
    Ended {
        goal,
        count: log.count,
    }
}
