// The answer record, and a refusal.
// An answer's status is the record's number (01) and may be any byte: an enum would ask more of the caller.
ghost use Rattle.std.specs.Prelude.{◌≡◌, ◌+◌, ◌≤◌, length};
ghost use Rattle.laws.specs.Lists.{over};
ghost use Rattle.answer_record.specs.Answer.{answer_bytes, refusal_bytes};

use crate::put::{put_bytes, put_fields};
use ieee::bits::{bits_of, bits_of_signed};

// The fields of one number each; floor and costs are eighths.
#[derive(Drop)]
pub struct Answer {
    pub status: u8,
    pub rank: u8,
    pub n: u8,
    pub sweeps: u32,
    pub relaxed_objective: f64,
    pub float_bound: f64,
    pub floor: i64,
    pub rounded_cost: i64,
    pub cost: i64,
    pub rounds: u64,
}

// The answer record over the front of `out`; the rest of `out` stays. Its fields: the length of the rest, version 1, then the answer's; b behind them.
pub fn write_answer(out: &mut [u8], a: Answer, b: &[u8])
    requires { (60 + a.n ≤ length out.old) × (a.n ≤ length b.now) }
    ensures { out.new ≡ over (answer_bytes a b.now) out.old }
{
    let fields = [
        (4, 56 + u64::from(a.n)),
        (1, 1),
        (1, u64::from(a.status)),
        (1, u64::from(a.rank)),
        (1, u64::from(a.n)),
        (4, u64::from(a.sweeps)),
        (8, bits_of(a.relaxed_objective)),
        (8, bits_of(a.float_bound)),
        (8, bits_of_signed(a.floor)),
        (8, bits_of_signed(a.rounded_cost)),
        (8, bits_of_signed(a.cost)),
        (8, a.rounds),
    ];
    put_fields(out, &fields);
    put_bytes(out, 60, b, usize::from(a.n));
}

// A refusal over the front of `out`: 00000002 01 and the number, which may be any byte: to take a `Refusal` would ask more of the caller.
pub fn write_refusal(out: &mut [u8], number: u8)
    requires { 6 ≤ length out.old }
    ensures { out.new ≡ over (refusal_bytes number) out.old }
{
    put_fields(out, &[(4, 2), (1, 1), (1, u64::from(number))]);
}
