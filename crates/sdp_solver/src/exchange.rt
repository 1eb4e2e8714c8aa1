// The exchange of a run's rule (02, Note 12), on the record alone.
// The rule's two numbers stay apart, as the C interface hands them over (`rule_of` in step_rules/src/lib.rt).
ghost use Rattle.std.specs.Result.{result_unwrap_or};
ghost use Rattle.refusal.specs.Number.{numbered};
ghost use Rattle.run_contract.specs.Calls.{Exchanges};

use refusal::Refusal;
use run_record::Run;
use run_record::numbers::exchange_number;
use step_rules::rule_of;

// Exchanges the rule of an open run and its number: the record after it. The next sweep is made by the new rule, and the stop tests follow it.
#[tactic(auto, unfolding(run_contract::specs::Calls::exchanged), using(run_contract::proofs::Accepting::exchange_rule_few))]
pub fn exchange_rule(run: Run, rule: u8, number: f64) -> Result<Run, Refusal>
    ensures { Exchanges run rule number (numbered result) (result_unwrap_or result run) }
{
    exchange_number(run, rule, number)?;
    let rule = rule_of(rule, number);
    Ok(Run { rule, ..run })
}
