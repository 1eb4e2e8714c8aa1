// The numbers of the calls, in 01's order: 31, 13 to 16, 17, 19; and the entries of a table that none of them refuses. A rank is a number, no Option: 0 is the
// default in C's calls, and 17 and 31 judge it so.
ghost use Rattle.std.specs.Prelude.{◌≡◌, false, [], ◌∷◌, length};
ghost use Rattle.std.specs.Result.{IfOk};
ghost use Rattle.laws.specs.Refusal.{◌if◌, first};
ghost use Rattle.limits.specs.Limits.{most_sign_entries};
ghost use Rattle.tables.specs.Entries.{listed};
ghost use Rattle.tables.specs.Lent.{LentWithin, lent_table};
ghost use Rattle.table_calls.specs.Numbers.{sign_table_number};
ghost use Rattle.refusal.specs.Number.{numbered};
ghost use Rattle.run_limits.specs.Draws.{bad_draws};
ghost use Rattle.factor_calls.specs.Numbers.{bad_rank, factor_short, draws_refused, draws_short, rounded_short, rounded_number, dual_short, dual_number, given_rank, divided_number};

use limits::{MOST_RANK, MOST_SIGN_ENTRIES};
use refusal::Refusal;
use run_limits::{Draws, bad_draws, rank_meant};
use tables::check::{bad_signs, short_table, too_short};
use tables::checked::checked_table;
use tables::entries::Entries;
use tables::lent::LentTable;

// 17.
fn bad_rank(rank: usize) -> bool
    ensures { result ≡ bad_rank rank }
{
    MOST_RANK < rank
}

// 31 of a factor of m rows.
#[tactic(auto, unfolding(crate::specs::Numbers::factor_short, crate::specs::Numbers::factor_refused, laws::specs::Refusal::any_of, laws::specs::Refusal::short))]
fn factor_short(m: usize, rank: usize, lent: usize) -> bool
    ensures { result ≡ factor_short m rank lent }
{
    if bad_signs(m) {
        return false;
    }
    if bad_rank(rank) {
        return false;
    }
    lent < m * rank_meant(m, rank)
}

// What k draws' length rests on is refused.
#[tactic(auto, unfolding(crate::specs::Numbers::draws_refused, laws::specs::Refusal::any_of))]
fn draws_refused(m: usize, rank: usize, k: usize) -> bool
    ensures { result ≡ draws_refused m rank k }
{
    bad_draws(k) || bad_rank(rank) || rank == 0 && bad_signs(m)
}

// 31 of the draws.
#[tactic(auto, unfolding(crate::specs::Numbers::draws_short, laws::specs::Refusal::short))]
fn draws_short(m: usize, rank: usize, draws: Draws) -> bool
    ensures { result ≡ draws_short m rank draws.entry.count (length draws.entry.numbers.now) }
{
    if draws_refused(m, rank, draws.count) {
        return false;
    }
    draws.numbers.len() < draws.count * rank_meant(m, rank)
}

// 31 of `dual_variables`; the lengths are those of the slices behind the table's.
#[tactic(auto, unfolding(crate::specs::Numbers::dual_short, laws::specs::Refusal::any_of))]
fn dual_short(table: LentTable, rank: usize, factor: usize, out: usize) -> bool
    ensures { let t = table.entry in result ≡ dual_short t.size t.count (length t.rows.now) (length t.cols.now) (length t.values.now) rank factor out }
{
    short_table(MOST_SIGN_ENTRIES, table)
        || factor_short(table.size, rank, factor)
        || too_short(bad_signs(table.size), table.size, out)
}

// 31 of `compute_rounded_sol`, which is lent draws too.
#[tactic(auto, unfolding(crate::specs::Numbers::rounded_short, crate::specs::Numbers::dual_short, laws::specs::Refusal::any_of))]
fn rounded_short(table: LentTable, rank: usize, factor: usize, draws: Draws, out: usize) -> bool
    ensures { let t = table.entry in result ≡ rounded_short t.size t.count (length t.rows.now) (length t.cols.now) (length t.values.now) rank factor draws.entry.count (length draws.entry.numbers.now) out }
{
    dual_short(table, rank, factor, out) || draws_short(table.size, rank, draws)
}

// What every call refuses first, of which `short` says whether a slice is: 31, 13 to 16, 17.
#[tactic(auto, unfolding(laws::specs::Refusal::first, laws::specs::Refusal::or_else))]
fn ranked_table(short: bool, table: LentTable, rank: usize) -> Result<Entries, Refusal>
    requires { short ≡ false → LentWithin most_sign_entries table }
    ensures number { let t = table.entry in numbered result ≡ first (31 if short ∷ sign_table_number t.size t.count t.rows.now t.cols.now t.values.now ∷ 17 if bad_rank rank ∷ []) }
    ensures entries { IfOk result (λ e. listed e ≡ lent_table table.entry) }
{
    let entries = checked_table(short, table)?;
    if bad_rank(rank) {
        return Err(Refusal::Rank);
    }
    Ok(entries)
}

// What `compute_rounded_sol` refuses first.
#[tactic(auto, unfolding(crate::specs::Numbers::rounded_number, laws::specs::Refusal::first, laws::specs::Refusal::or_else), using(crate::proofs::Accepting::rounded_lent))]
pub fn rounded_table<'a>(
    table: LentTable<'a>,
    rank: usize,
    factor: usize,
    draws: Draws,
    out: usize,
) -> Result<Entries<'a>, Refusal>
    ensures number { let t = table.entry in numbered result ≡ rounded_number t.size t.count t.rows.now t.cols.now t.values.now rank factor draws.entry.count (length draws.entry.numbers.now) out }
    ensures entries { IfOk result (λ e. listed e ≡ lent_table table.entry) }
{
    let short = rounded_short(table, rank, factor, draws, out);
    let entries = ranked_table(short, table, rank)?;
    if bad_draws(draws.count) {
        return Err(Refusal::Search);
    }
    Ok(entries)
}

// What `dual_variables` refuses first.
#[tactic(auto, unfolding(crate::specs::Numbers::dual_number), using(crate::proofs::Accepting::dual_lent))]
pub fn dual_table(
    table: LentTable,
    rank: usize,
    factor: usize,
    out: usize,
) -> Result<Entries, Refusal>
    ensures number { let t = table.entry in numbered result ≡ dual_number t.size t.count t.rows.now t.cols.now t.values.now rank factor out }
    ensures entries { IfOk result (λ e. listed e ≡ lent_table table.entry) }
{
    let short = dual_short(table, rank, factor, out);
    ranked_table(short, table, rank)
}

// A rank that is given: 0 stands for one that is refused. It is a number, no Option, for 31 and 13 to 16 come before 17, and `dual_table` finds each in its place.
#[tactic(auto, unfolding(crate::specs::Numbers::given_rank), using(crate::proofs::Accepting::given_some))]
fn given_rank(rank: usize) -> usize
    ensures { result ≡ given_rank rank }
{
    if rank == 0 {
        return MOST_RANK + 1;
    }
    rank
}

// What `dual_variables_divided` refuses first: what `dual_variables`, but for the rank 0.
pub fn divided_table(
    table: LentTable,
    rank: usize,
    factor: usize,
    out: usize,
) -> Result<Entries, Refusal>
    ensures number { let t = table.entry in numbered result ≡ divided_number t.size t.count t.rows.now t.cols.now t.values.now rank factor out }
    ensures entries { IfOk result (λ e. listed e ≡ lent_table table.entry) }
{
    dual_table(table, given_rank(rank), factor, out)
}
