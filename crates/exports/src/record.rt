// The record call.
ghost use Rattle.record_call.specs.Promise.{Answers};

use refusal::number_in;

#[unsafe(no_mangle)]
pub extern "C" fn wagonplan_raw_answer(job: &[u8], workspace: &mut [u8], answer: &mut [u8]) -> u8
    ensures { Answers job.now workspace.old answer.old result workspace.new answer.new }
{
    number_in(record_call::answer_record(job, workspace, answer))
}
