// The record call: a job's bytes in, the answer's bytes and a number out (01, "Job and answer records").
// Arrays have a fixed size: no heap, a rule of the project (limits/src/lib.rt).
#![tactic(auto)]

mod run; // run.rt: an accepted job's open, sweeps and finish

ghost use Rattle.std.specs.Prelude.{◌≡◌, ◌≤◌, length};
ghost use Rattle.laws.specs.Lists.{over};
ghost use Rattle.refusal.specs.Number.{numbered};
ghost use Rattle.answer_record.specs.Answer.{answer_bytes};
ghost use Rattle.limits.specs.Limits.{least_answer};
ghost use Rattle.record_call.specs.Record.{job_fields, whole_choice, least_workspace};
ghost use Rattle.record_call.specs.Decoded.{AtFronts};
ghost use Rattle.record_call.specs.Promise.{Answers};

use answer_record::answer::{write_answer, write_refusal};
use job_record::number::judge_job;
use limits::{LEAST_ANSWER, MOST_ENTRIES, MOST_WAGONS, RECORD_WORKSPACE, SEARCH_WORKSPACE};
use refusal::Refusal;
use run::job_answer;

// The answer record of an accepted job, whose H and c stand at the fronts of the slices. The search has a level of words of its own; the
// workspace holds the choice. `workspace` and `answer` stay two `&mut`s, as the C interface hands them over, here and in wagonplan: a struct of the two would add
// a clause that each keeps its name to each function that takes both.
fn answer_job(
    job: &[u8],
    rows: &[u16],
    cols: &[u16],
    values: &[i64],
    c: &[i64],
    workspace: &mut [u8],
    answer: &mut [u8],
)
    requires { AtFronts job.now rows.now cols.now values.now c.now × (least_workspace ≤ length workspace.old) × (least_answer ≤ length answer.old) }
    ensures { answer.new ≡ over (answer_bytes (job_fields job.now) (whole_choice job.now)) answer.old }
{
    let mut level = [0u64; SEARCH_WORKSPACE];
    let fields = job_answer(job, rows, cols, values, c, workspace, &mut level);
    write_answer(answer, fields, workspace);
}

// The call with slices that are long enough. H and c are read once, into arrays, as the job is judged: four arrays, since a table is three slices, as the C interface has it, and c is one.
fn answer_judged(job: &[u8], workspace: &mut [u8], answer: &mut [u8]) -> Result<(), Refusal>
    requires { (least_workspace ≤ length workspace.old) × (least_answer ≤ length answer.old) }
    ensures { Answers job.now workspace.old answer.old (numbered result) workspace.new answer.new }
{
    let mut rows = [0u16; MOST_ENTRIES];
    let mut cols = [0u16; MOST_ENTRIES];
    let mut values = [0i64; MOST_ENTRIES];
    let mut c = [0i64; MOST_WAGONS];
    if let Err(refusal) = judge_job(job, &mut rows, &mut cols, &mut values, &mut c) {
        write_refusal(answer, refusal.number());
        return Err(refusal);
    }
    answer_job(
        job,
        &rows,
        &cols,
        &values,
        &c,
        &mut workspace[0..RECORD_WORKSPACE],
        answer,
    );
    Ok(())
}

// Answers a job: its answer record, or its refusal and the bytes of that, over the front of `answer`. 31 for a short slice
// comes first and writes nothing; the workspace is written for an accepted job alone, and a longer one keeps its tail.
pub fn answer_record(job: &[u8], workspace: &mut [u8], answer: &mut [u8]) -> Result<(), Refusal>
    ensures { Answers job.now workspace.old answer.old (numbered result) workspace.new answer.new }
{
    if answer.len() < LEAST_ANSWER {
        return Err(Refusal::Slice);
    }
    if workspace.len() < RECORD_WORKSPACE {
        return Err(Refusal::Slice);
    }
    answer_judged(job, workspace, answer)
}
