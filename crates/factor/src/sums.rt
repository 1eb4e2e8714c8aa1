// Sums of floats, from 0.0 and left to right, and the squared norm of 001.

ghost use Rattle.std.specs.Prelude.{◌≡◌, ◌+◌, ◌*◌, ◌≤◌, length};
ghost use Rattle.factor.specs.Norms.{dot_of, sum_of, quads_of, add_squares_to, squared_norm};

// The dot product, left to right from 0.0.
#[tactic(auto, unfolding(crate::specs::Norms::dot_to, crate::specs::Norms::dot_of))]
pub fn dot(a: &[f64], b: &[f64]) -> f64
    requires { length a.now ≡ length b.now }
    ensures { result ≡ dot_of a.now b.now }
{
    let mut sum = 0.0;
    for i in 0..a.len() {
        sum = sum + a[i] * b[i];
    }
    sum
}

// Four sums by name: of an array, each clause would say `get_or result 0 nan` in the place of `result.first`, no plainer.
#[derive(Drop)]
pub struct Four {
    pub first: f64,
    pub second: f64,
    pub third: f64,
    pub fourth: f64,
}

// The dot products of `a` with four others at once, each left to right from 0.0: the four sums wait for each other's turn, not for their own. `dot` is no
// case of it, since one sum alone is what most callers need.
#[tactic(auto, unfolding(crate::specs::Norms::dot_to, crate::specs::Norms::dot_of))]
pub fn dot_four(a: &[f64], b: &[f64], c: &[f64], d: &[f64], e: &[f64]) -> Four
    requires { (length a.now ≡ length b.now) × (length a.now ≡ length c.now) × (length a.now ≡ length d.now) × (length a.now ≡ length e.now) }
    ensures { (result.first ≡ dot_of a.now b.now) × (result.second ≡ dot_of a.now c.now)
        × (result.third ≡ dot_of a.now d.now) × (result.fourth ≡ dot_of a.now e.now) }
{
    let mut first = 0.0;
    let mut second = 0.0;
    let mut third = 0.0;
    let mut fourth = 0.0;
    for i in 0..a.len() {
        let x = a[i];
        first = first + x * b[i];
        second = second + x * c[i];
        third = third + x * d[i];
        fourth = fourth + x * e[i];
    }
    Four {
        first,
        second,
        third,
        fourth,
    }
}

// The sum of the elements, left to right from 0.0.
#[tactic(auto, unfolding(crate::specs::Norms::sum_to, crate::specs::Norms::sum_of))]
pub fn sum(a: &[f64]) -> f64
    ensures { result ≡ sum_of a.now }
{
    let mut total = 0.0;
    for x in a {
        total = total + *x;
    }
    total
}

// Four running sums of squares, over `quads` times four elements, joined. `quads` is given, since the caller starts what is left by it: counted here, it would be
// counted twice.
#[tactic(auto, unfolding(crate::specs::Norms::lane_to))]
fn sum_quads(values: &[f64], quads: usize) -> f64
    requires { 4 * quads ≤ length values.now }
    ensures { result ≡ quads_of values.now quads }
{
    let mut s0 = 0.0;
    let mut s1 = 0.0;
    let mut s2 = 0.0;
    let mut s3 = 0.0;
    for q in 0..quads {
        let v0 = values[4 * q];
        let v1 = values[4 * q + 1];
        let v2 = values[4 * q + 2];
        let v3 = values[4 * q + 3];
        s0 = s0 + v0 * v0;
        s1 = s1 + v1 * v1;
        s2 = s2 + v2 * v2;
        s3 = s3 + v3 * v3;
    }
    (s0 + s1) + (s2 + s3)
}

// The squares of `count` elements from `start` on, added to `sum` in order. With `&values[start..]`, which proves with a lemma, a sweep (transcribed to Rust,
// callgrind) took 1.0049 of the instructions at rank 4, 1.0026 there with momentum, and a sweep may take no more than it did.
#[tactic(auto, unfolding(crate::specs::Norms::add_squares_to))]
fn add_squares(values: &[f64], start: usize, count: usize, sum: f64) -> f64
    requires { start + count ≤ length values.now }
    ensures { result ≡ add_squares_to values.now start sum count }
{
    let mut total = sum;
    for i in 0..count {
        let v = values[start + i];
        total = total + v * v;
    }
    total
}

// The sum of squares by four running sums, then the elements that fill no quad.
#[tactic(auto, unfolding(crate::specs::Norms::squared_norm))]
pub fn squared_norm(values: &[f64]) -> f64
    ensures { result ≡ squared_norm values.now }
{
    let quads = values.len() / 4;
    let start = 4 * quads;
    add_squares(
        values,
        start,
        values.len() - start,
        sum_quads(values, quads),
    )
}
