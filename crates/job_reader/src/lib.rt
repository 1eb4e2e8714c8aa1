// A job reader: the record's bytes and how far it has read (01, "Job and answer records"). `take` reads the next field and
// moves on; the work is `field_at`'s, on a slice and a number. Whoever reads makes a reader at a place and takes one field after the
// other (`job_record::reading`). `width ≤ 8` stands in three contracts: an enum of the widths that fields have (1, 2, 4, 8) would ask more of callers, who may give
// any up to 8, and a struct of the one number with its bound would be opened in each.
#![tactic(auto)]

ghost use Rattle.std.specs.Prelude.{◌≡◌, ◌+◌, ◌≤◌, ◌<◌, ◌^◌, length};
ghost use Rattle.job_reader.specs.Bytes.{big_endian, field_at, moved_on};

pub mod fields;

#[derive(Drop)]
pub struct JobReader<'a> {
    pub bytes: &'a [u8],
    pub at: usize,
}

// The big-endian number of the `width` bytes from `at`. No `from_be_bytes`: that takes eight bytes, and a field has one, two, four or eight.
#[tactic(auto, unfolding(crate::specs::Bytes::big_endian))]
pub fn big_endian(bytes: &[u8], at: usize, width: usize) -> u64
    requires { (width ≤ 8) × (at + width ≤ length bytes.now) }
    ensures { (result ≡ big_endian bytes.now at width) × (result < 256 ^ width) }
{
    let mut value: u64 = 0;
    for &byte in &bytes[at..at + width] {
        value = value * 256 + u64::from(byte);
    }
    value
}

// The number in the field of `width` bytes at `at`, none where the field runs past the end.
pub fn field_at(bytes: &[u8], at: usize, width: usize) -> Option<u64>
    requires { width ≤ 8 }
    ensures { result ≡ field_at bytes.now at width }
{
    if bytes.len() < at || bytes.len() - at < width {
        return None;
    }
    Some(big_endian(bytes, at, width))
}

impl<'a> JobReader<'a> {
    // Reads the field of `width` bytes where the reader stands, and moves the reader on past it; where the field runs past the end
    // the reader stays.
    #[tactic(auto, unfolding(crate::specs::Bytes::after))]
    pub fn take(&mut self, width: usize) -> Option<u64>
        requires { width ≤ 8 }
        ensures { (result ≡ field_at self.old.bytes.now self.old.at width) × (self.new ≡ moved_on self.old width) }
    {
        let value = field_at(self.bytes, self.at, width)?;
        self.at += width;
        Some(value)
    }
}
