// The exchange of a run's rule, the record in words.
ghost use Rattle.exports.specs.Exchange.{ExchangesWords};

use crate::words::{RUN_WORDS, byte_in, hand_run, run_in};
use refusal::Refusal;
use sdp_solver::exchange::exchange_rule;

#[unsafe(no_mangle)]
pub extern "C" fn wagonplan_raw_exchange_rule(words: &mut [u64], rule: u64, number: f64) -> u8
    ensures { ExchangesWords words.old rule number result words.new }
{
    if words.len() < RUN_WORDS {
        return Refusal::Slice.number();
    }
    hand_run(exchange_rule(run_in(words), byte_in(rule), number), words)
}
