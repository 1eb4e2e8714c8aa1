// The head, a pin and the settings of a job record, field by field: a reader is made at a place and takes one field after the other.
// What is past the end stays visible, for whoever judges the fields. `as usize`: std has no `From<u64>` for usize.
ghost use Rattle.std.specs.Prelude.{◌≡◌, ◌≤◌};
ghost use Rattle.limits.specs.Limits.{most_wagons, most_entries};
ghost use Rattle.job_record.specs.Fields.{wagons, entry_count};
ghost use Rattle.job_record.specs.Reading.{HeadThere, head_of, pin_from, settings_from, head_values, settings_values};

use job_reader::JobReader;

// Length of the rest, version, n, entry count.
#[derive(Clone, Copy, Drop)]
pub struct HeadFields {
    pub rest: Option<u64>,
    pub version: Option<u64>,
    pub n: Option<u64>,
    pub count: Option<u64>,
}

// Wagon and store of a pin, and how far the reader has read.
#[derive(Clone, Copy, Drop)]
pub struct PinFields {
    pub wagon: Option<u64>,
    pub store: Option<u64>,
    pub next: usize,
}

// The settings, each as a T, and how far the reader has read.
#[derive(Clone, Copy, Drop)]
pub struct SettingsOf<T> {
    pub rank: T,
    pub rule: T,
    pub rule_number: T,
    pub most: T,
    pub minimum: T,
    pub objective_tolerance: T,
    pub stationarity_tolerance: T,
    pub width: T,
    pub start: T,
    pub next: usize,
}

// As they were read; and as numbers, doubles as their bits.
pub type SettingsFields = SettingsOf<Option<u64>>;

pub type SettingsValues = SettingsOf<u64>;

// Version, n and the entry count as numbers; a struct of its own, since the length of the rest is a field of the head alone.
#[derive(Clone, Copy, Drop)]
pub struct HeadValues {
    pub version: u64,
    pub n: usize,
    pub count: usize,
}

// A record whose head was there and judged, and the head's numbers: n and the entry count are within the limits.
#[derive(Clone, Copy)]
pub struct JudgedHead<'a> {
    pub bytes: &'a [u8],
    pub values: HeadValues,
    ghost there: { HeadThere bytes.now values },
    ghost few: { wagons bytes.now ≤ most_wagons },
    ghost short: { entry_count bytes.now ≤ most_entries },
}

// The head. `read_head`, `read_pin` and `read_settings` stay apart: each names other fields, beside their widths.
#[tactic(auto, unfolding(crate::specs::Reading::head_of))]
pub fn read_head(job: &[u8]) -> HeadFields
    ensures { result ≡ head_of job.now }
{
    let mut reader = JobReader { bytes: job, at: 0 };
    let rest = reader.take(4);
    let version = reader.take(1);
    let n = reader.take(1);
    let count = reader.take(2);
    HeadFields {
        rest,
        version,
        n,
        count,
    }
}

// The pin at `at`.
#[tactic(auto, unfolding(crate::specs::Reading::pin_from))]
pub fn read_pin(job: &[u8], at: usize) -> PinFields
    ensures { result ≡ pin_from job.now at }
{
    let mut reader = JobReader { bytes: job, at };
    let wagon = reader.take(1);
    let store = reader.take(1);
    PinFields {
        wagon,
        store,
        next: reader.at,
    }
}

// The settings from `at` on.
#[tactic(auto, unfolding(crate::specs::Reading::settings_from))]
pub fn read_settings(job: &[u8], at: usize) -> SettingsFields
    ensures { result ≡ settings_from job.now at }
{
    let mut reader = JobReader { bytes: job, at };
    let rank = reader.take(1);
    let rule = reader.take(1);
    let rule_number = reader.take(8);
    let most = reader.take(4);
    let minimum = reader.take(4);
    let objective_tolerance = reader.take(8);
    let stationarity_tolerance = reader.take(8);
    let width = reader.take(1);
    let start = reader.take(1);
    SettingsFields {
        rank,
        rule,
        rule_number,
        most,
        minimum,
        objective_tolerance,
        stationarity_tolerance,
        width,
        start,
        next: reader.at,
    }
}

// The numbers of a head.
pub fn head_values(head: HeadFields) -> HeadValues
    ensures { result ≡ head_values head }
{
    HeadValues {
        version: head.version.unwrap_or(0),
        n: head.n.unwrap_or(0) as usize,
        count: head.count.unwrap_or(0) as usize,
    }
}

// The numbers of settings.
pub fn settings_values(f: SettingsFields) -> SettingsValues
    ensures { result ≡ settings_values f }
{
    SettingsValues {
        rank: f.rank.unwrap_or(0),
        rule: f.rule.unwrap_or(0),
        rule_number: f.rule_number.unwrap_or(0),
        most: f.most.unwrap_or(0),
        minimum: f.minimum.unwrap_or(0),
        objective_tolerance: f.objective_tolerance.unwrap_or(0),
        stationarity_tolerance: f.stationarity_tolerance.unwrap_or(0),
        width: f.width.unwrap_or(0),
        start: f.start.unwrap_or(0),
        next: f.next,
    }
}
