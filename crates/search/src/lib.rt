// The search for the least run from one event of a log.
#![tactic(auto)]

// What a search that is not refused answers: no run, or a run that accepts or rejects.
#[derive(Clone, Copy, Debug, PartialEq, Eq)]
pub enum Verdict {
    Absent,
    Accept,
    Reject,
}

// The answer of a search: of a run its number of steps, their events and step numbers, the variables held at its end with
// their values, unused entries 0; and the width, the largest number of configurations that waited.
#[derive(Clone, Copy)]
pub struct SearchAnswer {
    pub verdict: Verdict,
    pub steps: usize,
    pub events: [u32; 32],
    pub numbers: [u32; 32],
    pub held: [bool; 8],
    pub values: [u32; 8],
    pub width: usize,
}
