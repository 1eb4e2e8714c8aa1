// The walk of all choices in binary order: the upper digits kept, the choices of the lower ones in turn, with what each digit adds.
// Arrays have a fixed size: no heap, a rule of the project (limits/src/lib.rt).
ghost use Rattle.std.specs.Prelude.{◌≡◌, cond, ◌+◌, ◌-◌, ◌^◌, ◌<◌, ◌≤◌, length};
ghost use Rattle.std.specs.Int.Signed.{lt_z};
ghost use Rattle.laws.specs.Lists.{elem_z, over};
ghost use Rattle.limits.specs.Limits.{most_walked};
ghost use Rattle.exhaustive.specs.Choices.{digits_of, walk_cost, least_number};
ghost use Rattle.exhaustive.specs.Walk.{Standing, Walked-on};
ghost use Rattle.tables.specs.Entries.{listed};

use crate::Least;
use crate::grid::{PLACES, lay_out, raise, start_fields};
use limits::MOST_WALKED;
use tables::judged::JudgedHall;

// The least cost so far, whose choice it is, and how many choices were visited: `Least`, which the call answers, has no number.
#[derive(Drop)]
struct Kept {
    least: i64,
    number: u64,
    visited: u64,
}

// Visits the next choice, of this cost: it is kept if it costs less.
fn visit(cost: i64, at: Kept) -> Kept
    requires { at.visited < 2 ^ most_walked }
    ensures { (result.least ≡ cond (lt_z cost at.least) cost at.least) × (result.number ≡ cond (lt_z cost at.least) at.visited at.number) × (result.visited ≡ at.visited + 1) }
{
    let visited = at.visited + 1;
    if cost < at.least {
        return Kept {
            least: cost,
            number: at.visited,
            visited,
        };
    }
    Kept { visited, ..at }
}

// Visits the next choice, whose lowest digit is 0, and the one with that digit set: `walk` at d = 1. Without it a walk of 2^16 (transcribed to Rust,
// callgrind) took 1.85 of the instructions, and a call may take no more than it did. It takes d, so that `walk` hands on what it was given as it is.
// `fields` and `grid` stay apart here and below: of a value of both each level would make one anew, over fields of its own, and each clause would say
// `both.entry.fields.now both.entry.grid.now` for `fields.now grid.now`.
fn visit_two(
    d: usize,
    cost: i64,
    fields: &[i64; MOST_WALKED],
    grid: &[i64; PLACES],
    at: Kept,
) -> Kept
    requires { (d ≡ 1) × Standing d cost fields.now grid.now at.visited at.least at.number }
    ensures { (s : Standing d cost fields.now grid.now at.visited at.least at.number) → Walked-on s.f d at.visited result.least result.number result.visited }
{
    let low = visit(cost, at);
    let top = d - 1;
    let more = cost + fields[top];
    visit(more, low)
}

// Visits the 2^d choices from the next one on, whose d lowest digits are 0: its cost and what each of those digits adds are given.
fn walk(d: usize, cost: i64, fields: &[i64; MOST_WALKED], grid: &[i64; PLACES], at: Kept) -> Kept
    requires { Standing d cost fields.now grid.now at.visited at.least at.number }
    ensures { (s : Standing d cost fields.now grid.now at.visited at.least at.number) → Walked-on s.f d at.visited result.least result.number result.visited }
{
    if d == 0 {
        return visit(cost, at);
    }
    if d == 1 {
        return visit_two(d, cost, fields, grid, at);
    }
    let top = d - 1;
    let low = walk(top, cost, fields, grid, at);
    let mut up = [0i64; MOST_WALKED];
    raise(top, fields, grid, &mut up);
    let more = cost + fields[top];
    walk(top, more, &up, grid, low)
}

// The binary digits of k, the lowest first. A remainder by 2 fits the `as u8`.
#[tactic(auto, unfolding(laws::specs::Lists::tabulate))]
fn put_digits(n: usize, k: u64, b: &mut [u8])
    requires { n ≤ length b.old }
    ensures { b.new ≡ over (digits_of n k) b.old }
{
    let mut x = k;
    let front = &mut b[..n];
    for byte in front.iter_mut() {
        *byte = (x % 2) as u8;
        x /= 2;
    }
}

// The first choice of least cost, which goes to b.
pub fn least_of(hall: JudgedHall, b: &mut [u8]) -> Least
    requires { (hall.n ≤ length b.old) × (hall.n ≤ most_walked) }
    ensures found { let h = hall.entry in let c = elem_z h.c.now in
        (result.cost ≡ walk_cost h.n (listed h.table) c (least_number h.n (listed h.table) c)) × (result.visited ≡ 2 ^ h.n) }
    ensures choice { let h = hall.entry in b.new ≡ over (digits_of h.n (least_number h.n (listed h.table) (elem_z h.c.now))) b.old }
{
    let n = hall.n;
    let mut grid = [0i64; PLACES];
    lay_out(hall.table, &mut grid);
    let mut fields = [0i64; MOST_WALKED];
    start_fields(n, &grid, hall.c, &mut fields);
    let found = walk(
        n,
        0,
        &fields,
        &grid,
        Kept {
            least: 0,
            number: 0,
            visited: 0,
        },
    );
    put_digits(n, found.number, b);
    Least {
        cost: found.least,
        visited: found.visited,
    }
}
