// What is beside the main control: the crossing with beacon 3's option, the limit, and limit beacons in pairs. Each is a small value with its own steps.
#![tactic(auto)]

pub mod crossing;
pub mod limit;
pub mod pairs;
