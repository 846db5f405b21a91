// The call: the checks, the walk over pairs of nodes, and the file of what it made.
ghost use Rattle.definitions.specs.Promises.{conjoin_slices, ConjoinCall};
ghost use Rattle.conjoin.specs.Joins.{Joinable, Joins};

use crate::load::load_two;
use apply::{Operands, Pair, apply};
use checks::Refused;
use definitions::{Answer, Refusal};
use diagram_writer::write_table;
use entries::clear;
use unique_table::UniqueTable;

// The file of the conjunction of two diagrams that stand in tables, from their roots. `pairs` entries of `work` are used.
pub fn join(
    operands: &Operands,
    roots: Pair,
    pairs: usize,
    work: &mut [u32],
    file: &mut [u8],
) -> Answer
    requires { Joinable work.old operands.now pairs roots }
    ensures { (x : Joinable work.old operands.now pairs roots)
        → Joins x file.old work.new file.new result }
{
    let mut nodes = [0u32; 512];
    let mut table = UniqueTable::over(&mut nodes);
    clear(work, pairs);
    match apply(operands, work, &mut table, roots) {
        Some(root) => write_table(file, &table, root),
        None => Refused::of_call(Refusal::ManyNodes).answer(0),
    }
}

// The conjunction of the diagrams `rules` (file 2) and `more` (file 3) over one chart, reduced, as a file at the front of
// `file`. `work` needs an entry for each pair of their nodes.
pub fn conjoin(chart: &[u8], rules: &[u8], more: &[u8], work: &mut [u32], file: &mut [u8]) -> Answer
    ensures { let before = conjoin_slices work.old file.old in
        let after = conjoin_slices work.new file.new in
        ConjoinCall chart.now rules.now more.now before after result }
{
    let mut left = [0u32; 512];
    let mut right = [0u32; 512];
    match load_two(chart, rules, more, work.len(), &mut left, &mut right) {
        Err(refused) => refused.answer(0),
        Ok(got) => {
            let operands = Operands {
                left: &left,
                right: &right,
                width: got.width,
            };
            join(&operands, got.roots, got.pairs, work, file)
        }
    }
}
