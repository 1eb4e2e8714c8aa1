// The ranged finish, record and result in words.
// Arrays have a fixed size: no heap, a rule of the project (limits/src/lib.rt).
ghost use Rattle.std.specs.Prelude.{◌≡◌};
ghost use Rattle.ranged_finish.specs.Ranged.{ranged_table};
ghost use Rattle.exports.specs.RangedWords.{ranged_words_of, RangedFinishesWords};

use crate::answers::hand_words;
use crate::words::{RESULT_WORDS, RUN_WORDS, result_words, run_in};
use ieee::bits::bits_of_signed;
use ranged_finish::finish::finish_ranged;
use ranged_finish::{LentRanged, RangedResult};
use refusal::Refusal;
use run_limits::Draws;
use slices::copy;

// Three more than a finish's result.
const RANGED_WORDS: usize = RESULT_WORDS + 3;

// The words of a ranged result.
#[tactic(auto, unfolding(crate::specs::RangedWords::ranged_words_of, crate::specs::Words::result_words_of))]
fn ranged_words(x: RangedResult) -> [u64; RANGED_WORDS]
    ensures { result ≡ ranged_words_of x }
{
    let mut words = [0; RANGED_WORDS];
    copy(&mut words[..RESULT_WORDS], &result_words(x.result));
    words[RESULT_WORDS] = bits_of_signed(x.low);
    words[RESULT_WORDS + 1] = bits_of_signed(x.high);
    words[RESULT_WORDS + 2] = bits_of_signed(x.low_floor);
    words
}

#[unsafe(no_mangle)]
pub extern "C" fn wagonplan_raw_finish_ranged(
    words: &[u64],
    n: usize,
    count: usize,
    rows: &[u16],
    cols: &[u16],
    low: &[i64],
    high: &[i64],
    low_c: &[i64],
    high_c: &[i64],
    width: usize,
    draw_count: usize,
    draws: &[f64],
    factor: &[f64],
    b: &mut [u8],
    dual_variables: &mut [f64],
    workspace: &mut [u64],
    res: &mut [u64],
) -> u8
    ensures { RangedFinishesWords words.now (ranged_table n count rows.now cols.now low.now high.now low_c.now high_c.now)
        width draw_count draws.now factor.now b.old dual_variables.old workspace.old res.old
        result b.new dual_variables.new workspace.new res.new }
{
    if words.len() < RUN_WORDS {
        return Refusal::Slice.number();
    }
    if res.len() < RANGED_WORDS {
        return Refusal::Slice.number();
    }
    let ranged = LentRanged {
        n,
        count,
        rows,
        cols,
        low,
        high,
        low_c,
        high_c,
    };
    let finished = finish_ranged(
        run_in(words),
        ranged,
        width,
        Draws {
            count: draw_count,
            numbers: draws,
        },
        factor,
        b,
        dual_variables,
        workspace,
    );
    hand_words(finished.map(ranged_words), res)
}
