// The calls of a run, the record in words.
ghost use Rattle.tables.specs.CostTable.{cost_table};
ghost use Rattle.exports.specs.Answers.{OpensWords, SweepsWords, FinishesWords};

use crate::answers::hand_words;
use crate::lent::lent_hall;
use crate::words::{
    RESULT_WORDS, RUN_WORDS, SETTING_WORDS, hand_run, result_words, run_in, settings_in,
};
use refusal::Refusal;
use run_limits::Draws;
use sdp_solver::finish::finish;
use sdp_solver::open::open;
use sdp_solver::sweep::sweep_run;

#[unsafe(no_mangle)]
pub extern "C" fn wagonplan_raw_open(
    n: usize,
    count: usize,
    rows: &[u16],
    cols: &[u16],
    values: &[i64],
    c: &[i64],
    settings: &[u64],
    numbers: &[f64],
    factor: &mut [f64],
    words: &mut [u64],
) -> u8
    ensures { OpensWords (cost_table n count rows.now cols.now values.now c.now)
        settings.now numbers.now factor.old words.old result factor.new words.new }
{
    if settings.len() < SETTING_WORDS {
        return Refusal::Slice.number();
    }
    if words.len() < RUN_WORDS {
        return Refusal::Slice.number();
    }
    let hall = lent_hall(n, count, rows, cols, values, c);
    hand_run(open(hall, settings_in(settings), numbers, factor), words)
}

#[unsafe(no_mangle)]
pub extern "C" fn wagonplan_raw_sweep(
    words: &mut [u64],
    n: usize,
    count: usize,
    rows: &[u16],
    cols: &[u16],
    values: &[i64],
    c: &[i64],
    k: u32,
    factor: &mut [f64],
) -> u8
    ensures { SweepsWords words.old (cost_table n count rows.now cols.now values.now c.now)
        k factor.old result words.new factor.new }
{
    if words.len() < RUN_WORDS {
        return Refusal::Slice.number();
    }
    let hall = lent_hall(n, count, rows, cols, values, c);
    let run = run_in(words);
    hand_run(sweep_run(run, hall, k, factor), words)
}

#[unsafe(no_mangle)]
pub extern "C" fn wagonplan_raw_finish(
    words: &[u64],
    n: usize,
    count: usize,
    rows: &[u16],
    cols: &[u16],
    values: &[i64],
    c: &[i64],
    width: usize,
    draw_count: usize,
    draws: &[f64],
    factor: &[f64],
    b: &mut [u8],
    dual_variables: &mut [f64],
    workspace: &mut [u64],
    res: &mut [u64],
) -> u8
    ensures { FinishesWords words.now (cost_table n count rows.now cols.now values.now c.now)
        width draw_count draws.now factor.now b.old dual_variables.old workspace.old res.old
        result b.new dual_variables.new workspace.new res.new }
{
    if words.len() < RUN_WORDS {
        return Refusal::Slice.number();
    }
    if res.len() < RESULT_WORDS {
        return Refusal::Slice.number();
    }
    let hall = lent_hall(n, count, rows, cols, values, c);
    let finished = finish(
        run_in(words),
        hall,
        width,
        Draws {
            count: draw_count,
            numbers: draws,
        },
        factor,
        b,
        dual_variables,
        workspace,
    );
    hand_words(finished.map(result_words), res)
}
