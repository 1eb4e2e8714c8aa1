// What a finish gives. What the calls of a run promise is in specs/Calls.antt; 01's plain run is in specs/PlainRun.antt, and the theorem on whole
// lists of calls in proofs/OnLists.antt. The type below is all the code.
#![tactic(auto)]

// What a finish gives; the choice and the multipliers are in the slices lent for them. Floor and costs are in eighths; standing is the record's, and so is
// status: its number, as the run record has it.
#[derive(Drop)]
pub struct FinishResult {
    pub status: u8,
    pub rank: usize,
    pub n: usize,
    pub sweeps: u32,
    pub relaxed_objective: f64,
    pub float_bound: f64,
    pub floor: i64,
    pub rounded_cost: i64,
    pub cost: i64,
    pub rounds: u64,
    pub standing: u64,
}
