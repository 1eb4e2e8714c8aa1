// Rows of numbers of a record, stored into slices.
// `as u16`: `big_endian` gives a u64, here of one byte.
// Rows, columns and values stay three slices: a struct of `&mut`s adds a clause on the ghost name of each (tried on `put_slot` of reduced).
ghost use Rattle.std.specs.Prelude.{◌≡◌, ◌+◌, ◌*◌, ◌≤◌, ◌<◌, length};
ghost use Rattle.laws.specs.Lists.{fill};
ghost use Rattle.job_record.specs.Fields.{entry_at, row, column, value};

use crate::places::entry_at;
use job_reader::big_endian;
use job_reader::fields::Stored;

// The first `count` entries: rows, columns and values. Tried as a `zip` of three `iter_mut`: an invariant sees the iterator alone, and none of the slices.
#[tactic(auto, using(laws::proofs::MapFirst::fill_none))]
pub fn read_entries(
    job: &[u8],
    count: usize,
    rows: &mut [u16],
    cols: &mut [u16],
    values: &mut [i64],
)
    requires { (entry_at count ≤ length job.now) × (count ≤ length rows.old) × (count ≤ length cols.old) × (count ≤ length values.old) }
    ensures rows_after { rows.new ≡ fill (row job.now) count rows.old }
    ensures cols_after { cols.new ≡ fill (column job.now) count cols.old }
    ensures values_after { values.new ≡ fill (value job.now) count values.old }
{
    for i in 0..count {
        let at = entry_at(i);
        rows[i] = big_endian(job, at, 1) as u16;
        cols[i] = big_endian(job, at + 1, 1) as u16;
        values[i] = i64::stored_at(job, at + 2);
    }
}

// Values of eight bytes each from `at` on.
#[tactic(auto, using(laws::proofs::MapFirst::fill_none))]
pub fn read_stored<T: Stored>(job: &[u8], at: usize, count: usize, out: &mut [T])
    requires { (at + count * 8 ≤ length job.now) × (count ≤ length out.old) }
    ensures { out.new ≡ fill (λ i. T.stored job.now (at + i * 8)) count out.old }
{
    for (i, x) in out[..count].iter_mut().enumerate() {
        *x = T::stored_at(job, at + i * 8);
    }
}
