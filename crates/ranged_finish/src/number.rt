// What a ranged finish refuses: 31 to 33, 18 and 19 are those of the finish on the high table, the numbers between them those of the ranged table.
// Nothing is written.
ghost use Rattle.std.specs.Prelude.{◌≡◌};
ghost use Rattle.refusal.specs.Number.{numbered};
ghost use Rattle.run_record.specs.Lengths.{lengths_of};
ghost use Rattle.ranged_finish.specs.Ranged.{ranged_of};
ghost use Rattle.ranged_finish.specs.Numbers.{ranged_short, ranged_finish_number};

use crate::LentRanged;
use crate::ranges::ranged_number;
use limits::{MOST_ENTRIES, MOST_WAGONS};
use refusal::Refusal;
use run_record::Run;
use run_record::lengths::FinishSlices;
use run_record::numbers::finish_number;
use tables::check::{short_table, too_short};

// 31 of the slices of a ranged table.
#[tactic(auto, unfolding(crate::specs::Numbers::ranged_short, laws::specs::Refusal::any_of))]
fn ranged_short(ranged: LentRanged) -> bool
    ensures { result ≡ ranged_short (ranged_of ranged.entry) }
{
    if short_table(MOST_ENTRIES, ranged.table(ranged.low)) {
        return true;
    }
    if too_short(MOST_ENTRIES < ranged.count, ranged.count, ranged.high.len()) {
        return true;
    }
    if too_short(MOST_WAGONS < ranged.n, ranged.n, ranged.low_c.len()) {
        return true;
    }
    too_short(MOST_WAGONS < ranged.n, ranged.n, ranged.high_c.len())
}

// What a ranged finish refuses.
#[tactic(auto, using(crate::proofs::Deciding::short_ranged))]
pub fn ranged_finish_number(
    run: Run,
    ranged: LentRanged,
    width: usize,
    draw_count: usize,
    lent: FinishSlices,
) -> Result<(), Refusal>
    ensures { numbered result ≡ ranged_finish_number run (ranged_of ranged.entry) width draw_count (lengths_of lent) }
{
    if ranged_short(ranged) {
        return Err(Refusal::Slice);
    }
    let finish = finish_number(run, ranged.high_hall(), width, draw_count, lent);
    if matches!(
        finish,
        Err(Refusal::Slice | Refusal::Stage | Refusal::Record)
    ) {
        return finish;
    }
    ranged_number(ranged)?;
    finish
}
