// Bytes written into a part of a slice.
ghost use Rattle.std.specs.Prelude.{◌≡◌, ◌+◌, ◌≤◌, length, take};
ghost use Rattle.job_reader.specs.Encode.{bytes_of};
ghost use Rattle.answer_record.specs.Put.{put, bytes_in};

use slices::copy;

// The low `width` bytes of `value` from `at` on, big-endian. Indexed: `to_be_bytes` has eight bytes, and a width above 8 is allowed here; under `iter_mut` and
// `rev` the loop's invariant can't name `out`. A remainder by 256 fits the `as u8`.
pub fn put_number(out: &mut [u8], at: usize, width: usize, value: u64)
    requires { at + width ≤ length out.old }
    ensures { out.new ≡ put out.old at (bytes_of width value) }
{
    let mut left = value;
    for i in (0..width).rev() {
        out[at + i] = (left % 256) as u8;
        left /= 256;
    }
}

// The numbers of `fields`, (width, value) each, one behind the other from the start on.
#[tactic(auto, unfolding(crate::specs::Put::put), using(crate::proofs::Written::fields_within))]
pub fn put_fields(out: &mut [u8], fields: &[(usize, u64)])
    requires { length (bytes_in fields.now) ≤ length out.old }
    ensures { out.new ≡ put out.old 0 (bytes_in fields.now) }
{
    let mut at = 0;
    for &(width, value) in fields {
        put_number(out, at, width, value);
        at += width;
    }
}

// The first `count` bytes of `bytes`, from `at` on. A function, not the one call: `write_answer` is proved by `put`, as its fields are; and it takes the count,
// since a public function may not ask for a slice cut to it.
pub fn put_bytes(out: &mut [u8], at: usize, bytes: &[u8], count: usize)
    requires { (at + count ≤ length out.old) × (count ≤ length bytes.now) }
    ensures { out.new ≡ put out.old at (take count bytes.now) }
{
    copy(&mut out[at..at + count], &bytes[..count]);
}
