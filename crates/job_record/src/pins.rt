// The pins of a job record, judged as they are read and put into the wagons' states: a byte a wagon, the store that a pin holds it in, or FREE.
// Fields are read as u64. `as u64`, `as usize`: std has no `From` between the two. `as u8`: a store was judged, 0 or 1.
// Arrays have a fixed size: no heap, a rule of the project (limits/src/lib.rt).
ghost use Rattle.std.specs.Prelude.{◌≡◌, ◌+◌, ◌≤◌, ◌<◌, length, set, replicate};
ghost use Rattle.laws.specs.Refusal.{first, first_of};
ghost use Rattle.refusal.specs.Number.{numbered};
ghost use Rattle.job_reader.specs.Bytes.{big_endian, value_of};
ghost use Rattle.job_record.specs.Versions.{versions};
ghost use Rattle.job_record.specs.Fields.{free_state};
ghost use Rattle.job_record.specs.Number.{pin_number, pins_numbers, pins_numbers_by};
ghost use Rattle.job_record.specs.Reading.{field_number, wagon_wrong, pin_judged};
ghost use Rattle.job_record.specs.Values.{pin_count, free_wagons, settings_place, states_of};

use crate::places::{PIN, PIN_COUNT, costs_end};
use crate::reading::{JudgedHead, PinFields, read_pin};
use crate::settings::{field_number, limit_number};
use crate::versions::carries_pins;
use job_reader::field_at;
use limits::MOST_WAGONS;
use refusal::Refusal;

// The state of a wagon that no pin holds, and the last store. A state stays a byte and becomes no enum: `states_of` and its theorems speak of bytes, and a store
// is put in as it was read; `pinned::reduce` takes bytes too.
pub const FREE: u8 = 2;

const LAST_STORE: usize = 1;

// A pin's wagon: 11 past the end, 21 out of range or held by an earlier pin.
fn wagon_number(wagon: Option<u64>, n: usize, states: &[u8]) -> Result<(), Refusal>
    requires { n ≤ length states.now }
    ensures { numbered result ≡ field_number wagon (wagon_wrong n states.now) 21 }
{
    field_number(wagon, Refusal::Pin, |value| {
        n as u64 <= value || states[value as usize] != FREE
    })
}

// A pin's wagon, then its store.
#[tactic(auto, unfolding(laws::specs::Refusal::first, laws::specs::Refusal::or_else))]
fn judged_pin(pin: PinFields, n: usize, states: &[u8]) -> Result<(), Refusal>
    requires { n ≤ length states.now }
    ensures { numbered result ≡ first (pin_judged n states.now pin) }
{
    wagon_number(pin.wagon, n, states)?;
    limit_number(pin.store, LAST_STORE, Refusal::Pin)
}

// A pin, put in.
fn put_pin(pin: PinFields, states: &mut [u8])
    requires { (value_of pin.wagon < length states.old) × (value_of pin.store < 256) }
    ensures { states.new ≡ set states.old (value_of pin.wagon) (value_of pin.store) }
{
    states[pin.wagon.unwrap_or(0) as usize] = pin.store.unwrap_or(0) as u8;
}

// Each of `count` pins that start at `at`.
#[tactic(auto, unfolding(laws::specs::Refusal::first_of, crate::specs::Values::states_of, laws::specs::Turns::up_to))]
fn each_pin(job: &[u8], n: usize, at: usize, count: usize, states: &mut [u8]) -> Result<(), Refusal>
    requires { states.old ≡ replicate n free_state }
    ensures { (numbered result ≡ first_of (pin_number job.now n at) count) × (numbered result ≡ 0 → states.new ≡ states_of job.now n at count) }
{
    let mut place = at;
    for k in 0usize..count {
        let pin = read_pin(job, place);
        judged_pin(pin, n, states)?;
        put_pin(pin, states);
        place = pin.next;
    }
    Ok(())
}

// The pin count at `at` and the pins behind it, for n wagons that are free.
#[tactic(auto, unfolding(crate::specs::Number::pins_numbers, laws::specs::Refusal::first, laws::specs::Refusal::or_else))]
pub fn pins_number(job: &[u8], n: usize, at: usize, states: &mut [u8]) -> Result<(), Refusal>
    requires { states.old ≡ replicate n free_state }
    ensures { (numbered result ≡ first (pins_numbers job.now n at)) × (numbered result ≡ 0 → states.new ≡ states_of job.now n (at + 1) (big_endian job.now at 1)) }
{
    let count = field_at(job, at, PIN_COUNT).ok_or(Refusal::Frame)?;
    each_pin(job, n, at + PIN_COUNT, count as usize, states)
}

// The pins of a version that carries them.
#[tactic(auto, unfolding(crate::specs::Number::pins_numbers_by, laws::specs::Refusal::first, laws::specs::Refusal::or_else))]
pub fn version_pins(head: JudgedHead) -> Result<(), Refusal>
    ensures { numbered result ≡ first (pins_numbers_by versions head.entry.bytes.now) }
{
    let v = head.values;
    if !carries_pins(v.version) {
        return Ok(());
    }
    let mut states = [FREE; MOST_WAGONS];
    pins_number(head.bytes, v.n, costs_end(v.n, v.count), &mut states[..v.n])
}

// What they say of the rest: how many they are, the wagons that they leave free, and where the settings stand.
#[derive(Drop)]
pub struct Behind {
    pub pins: usize,
    pub free: usize,
    pub settings: usize,
}

pub fn behind_pins(head: JudgedHead) -> Behind
    requires { first (pins_numbers_by versions head.bytes.now) ≡ 0 }
    ensures { (result.pins ≡ pin_count head.entry.bytes.now) × (result.free ≡ free_wagons head.entry.bytes.now) × (result.settings ≡ settings_place head.entry.bytes.now) }
{
    let v = head.values;
    let at = costs_end(v.n, v.count);
    if !carries_pins(v.version) {
        return Behind {
            pins: 0,
            free: v.n,
            settings: at,
        };
    }
    let pins = field_at(head.bytes, at, PIN_COUNT).unwrap_or(0) as usize;
    Behind {
        pins,
        free: v.n - pins,
        settings: at + PIN_COUNT + pins * PIN,
    }
}
