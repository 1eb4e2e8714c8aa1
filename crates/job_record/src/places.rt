// Where the parts of a job record stand.
ghost use Rattle.std.specs.Prelude.{◌≡◌, ◌<◌, ◌^◌};
ghost use Rattle.job_record.specs.Fields.{entry_at, costs_end};

// The bytes of the length of the rest, of a head, of an entry, of a pin count, of a pin and of a draw count.
pub const LENGTH: usize = 4;

pub const HEAD: usize = 8;

pub const ENTRY: usize = 10;

pub const PIN_COUNT: usize = 1;

pub const PIN: usize = 2;

pub const DRAW_COUNT: usize = 2;

// Where entry k stands; c stands where an entry after the last would.
pub fn entry_at(k: usize) -> usize
    requires { entry_at k < 2 ^ 64 }
    ensures { result ≡ entry_at k }
{
    HEAD + k * ENTRY
}

// Where c ends.
pub fn costs_end(n: usize, count: usize) -> usize
    requires { costs_end n count < 2 ^ 64 }
    ensures { result ≡ costs_end n count }
{
    entry_at(count) + n * 8
}
