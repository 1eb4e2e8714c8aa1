// The number of a job record: the first refusal in reading order. H and c are stored as they are judged.
// `as usize`: the length of the rest is read as a u64, and std has no `From<u64>` for usize.
// `rows` to `c` stay apart: a struct of `&mut`s adds a clause on the ghost name of each to each function (tried on `put_slot` of reduced).
// `8 ≤ length` stands in three contracts: as a ghost field of `JudgedHead` it would be asked of those who call `version_pins` and `behind_pins` too.
ghost use Rattle.std.specs.Prelude.{◌≡◌, not, ℕ, ◌+◌, ◌≤◌, ◌<◌, length};
ghost use Rattle.laws.specs.Refusal.{first, or_else};
ghost use Rattle.laws.specs.Lists.{elem_z, fill};
ghost use Rattle.refusal.specs.Number.{numbered};
ghost use Rattle.job_record.specs.Versions.{known, versions};
ghost use Rattle.job_record.specs.Fields.{entry_at, value, signed_from};
ghost use Rattle.job_record.specs.Reading.{field_number, frame_judged, head_judged};
ghost use Rattle.job_record.specs.Number.{entries_numbers, costs_numbers, job_table_number, pins_numbers_by, run_numbers};
ghost use Rattle.job_record.specs.Values.{free_wagons, settings_place, TableRoom, Entered, Stored, Judged};

use crate::arrays::{read_entries, read_stored};
use crate::pins::{behind_pins, version_pins};
use crate::places::{ENTRY, HEAD, LENGTH, costs_end, entry_at};
use crate::reading::{HeadFields, JudgedHead, head_values, read_head};
use crate::settings::{field_number, limit_number, run_number};
use crate::versions::{is_known, most_wagons_of};
use limits::{MOST_BYTES, MOST_ENTRIES, MOST_MAGNITUDE};
use refusal::Refusal;
use tables::check::{bad_order, hall_too_large};
use tables::entries::Entries;
use tables::mirror::unmirrored;

// The length of the rest, in a record of `len` bytes.
fn frame_number(len: usize, rest: Option<u64>) -> Result<(), Refusal>
    ensures { numbered result ≡ frame_judged len rest }
{
    field_number(rest, Refusal::Frame, |value| {
        len < LENGTH || value as usize != len - LENGTH
    })
}

// 11 past the end, 12 where it isn't known.
fn version_number(version: Option<u64>) -> Result<(), Refusal>
    ensures { numbered result ≡ field_number version (λ v. not (known versions v)) 12 }
{
    field_number(version, Refusal::Version, |value| !is_known(value))
}

// Frame, version, n, entry count, in a record of `len` bytes.
#[tactic(auto, unfolding(laws::specs::Refusal::first, laws::specs::Refusal::or_else))]
fn head_number(len: usize, head: HeadFields) -> Result<(), Refusal>
    ensures { numbered result ≡ first (head_judged len head) }
{
    if MOST_BYTES < len {
        return Err(Refusal::Frame);
    }
    frame_number(len, head.rest)?;
    version_number(head.version)?;
    let most = most_wagons_of(head.version.unwrap_or(0));
    limit_number(head.n, most, Refusal::Size)?;
    limit_number(head.count, MOST_ENTRIES, Refusal::Size)
}

// How many of the entries are there whole.
fn whole_entries(job: &[u8], count: usize) -> usize
    requires { 8 ≤ length job.now }
    ensures { (result ≤ count) × (entry_at result ≤ length job.now) × (result < count → length job.now < entry_at result + 10) }
{
    count.min((job.len() - HEAD) / ENTRY)
}

// The entries, then their mirrors. What is not refused is stored.
fn entries_number(
    head: JudgedHead,
    rows: &mut [u16],
    cols: &mut [u16],
    values: &mut [i64],
) -> Result<(), Refusal>
    requires { let count = head.values.count in (8 ≤ length head.bytes.now) × (count ≤ length rows.old) × (count ≤ length cols.old) × (count ≤ length values.old) }
    ensures { let s = head.entry.bytes.now in let v = head.entry.values in (numbered result ≡ first (entries_numbers s v.n v.count))
        × (numbered result ≡ 0 → Entered s v.count rows.old cols.old values.old
        rows.new cols.new values.new) }
{
    let job = head.bytes;
    let n = head.values.n;
    let count = head.values.count;
    let whole = whole_entries(job, count);
    read_entries(job, whole, rows, cols, values);
    if bad_order(n, whole, rows, cols) {
        return Err(Refusal::Entry);
    }
    if whole < count {
        return Err(Refusal::Frame);
    }
    let table = Entries {
        count,
        rows,
        cols,
        values,
    };
    if unmirrored(table) {
        return Err(Refusal::Mirror);
    }
    Ok(())
}

// c, then the magnitude of it and of the entries' values. What is not refused is stored.
#[tactic(auto, unfolding(crate::specs::Number::costs_numbers, laws::specs::Refusal::first, laws::specs::Refusal::or_else))]
fn costs_number(head: JudgedHead, values: &[i64], c: &mut [i64]) -> Result<(), Refusal>
    requires { let v = head.values in (v.count ≤ length values.now) × (v.n ≤ length c.old)
        × ((k : ℕ) → k < v.count → elem_z values.now k ≡ value head.bytes.now k) }
    ensures { let s = head.entry.bytes.now in let v = head.entry.values in (numbered result ≡ first (costs_numbers s v.n v.count))
        × (numbered result ≡ 0 → c.new ≡ fill (signed_from s (entry_at v.count)) v.n c.old) }
{
    let job = head.bytes;
    let n = head.values.n;
    let count = head.values.count;
    if job.len() < costs_end(n, count) {
        return Err(Refusal::Frame);
    }
    read_stored(job, entry_at(count), n, c);
    if hall_too_large(MOST_MAGNITUDE, n, count, values, c) {
        return Err(Refusal::Magnitude);
    }
    Ok(())
}

// The entries and c.
#[tactic(auto, unfolding(laws::specs::Refusal::first, laws::specs::Refusal::or_else))]
fn table_number(
    head: JudgedHead,
    rows: &mut [u16],
    cols: &mut [u16],
    values: &mut [i64],
    c: &mut [i64],
) -> Result<(), Refusal>
    requires { (8 ≤ length head.bytes.now) × TableRoom rows.old cols.old values.old c.old }
    ensures { (numbered result ≡ job_table_number head.entry.bytes.now)
        × (numbered result ≡ 0 → Stored head.entry.bytes.now rows.old cols.old values.old c.old
        rows.new cols.new values.new c.new) }
{
    entries_number(head, rows, cols, values)?;
    costs_number(head, values, c)
}

// Behind c: the pins, then the rest for the free wagons.
#[tactic(auto, unfolding(laws::specs::Refusal::first, laws::specs::Refusal::or_else))]
fn rest_number(head: JudgedHead) -> Result<(), Refusal>
    ensures { numbered result ≡ or_else (first (pins_numbers_by versions head.entry.bytes.now))
        (first (run_numbers head.entry.bytes.now (free_wagons head.entry.bytes.now) (settings_place head.entry.bytes.now))) }
{
    version_pins(head)?;
    let b = behind_pins(head);
    run_number(head.bytes, b.free, b.settings)
}

// The first refusal of a job record in the order of reading; where it is accepted H and c stand over the fronts of the slices.
pub fn judge_job(
    job: &[u8],
    rows: &mut [u16],
    cols: &mut [u16],
    values: &mut [i64],
    c: &mut [i64],
) -> Result<(), Refusal>
    requires { TableRoom rows.old cols.old values.old c.old }
    ensures { Judged job.now rows.old cols.old values.old c.old (numbered result)
        rows.new cols.new values.new c.new }
{
    let head = read_head(job);
    head_number(job.len(), head)?;
    let v = JudgedHead {
        bytes: job,
        values: head_values(head),
    };
    table_number(v, rows, cols, values, c)?;
    rest_number(v)
}
