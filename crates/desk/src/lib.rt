// The desk: all controls and windows together, what each new control does to the others, the first two steps of a sample,
// and the desk's ranges. Total on every value: it knows no refusal.
#![tactic(auto)]

pub mod beside;
pub mod brake;
pub mod clock;
pub mod ranges;
pub mod state;
