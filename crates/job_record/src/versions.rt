// The versions of job records, one table (specs/Versions.antt). A version stays the record's number and becomes no enum: `most_wagons_of` and `carries_pins` take
// any u64, known or not, and a `JudgedHead` holds any: a known one would ask more of their callers.
ghost use Rattle.std.specs.Prelude.{◌≡◌};
ghost use Rattle.job_record.specs.Versions.{known, versions};

use limits::{MOST_WAGONS, SMALL_WAGONS};

const LAST_VERSION: u64 = 3;

// The last that is of a small house.
const LAST_SMALL: u64 = 2;

// Versions 1 to the last.
#[tactic(auto, unfolding(crate::specs::Versions::versions))]
pub fn is_known(version: u64) -> bool
    ensures { result ≡ known versions version }
{
    1 <= version && version <= LAST_VERSION
}

// The most wagons of a version.
#[tactic(auto, unfolding(crate::specs::Versions::versions))]
pub fn most_wagons_of(version: u64) -> usize
    ensures { result ≡ versions.most version }
{
    if LAST_SMALL < version {
        return MOST_WAGONS;
    }
    SMALL_WAGONS
}

// Whether a version carries pins.
#[tactic(auto, unfolding(crate::specs::Versions::versions))]
pub fn carries_pins(version: u64) -> bool
    ensures { result ≡ versions.pinned version }
{
    1 < version
}
