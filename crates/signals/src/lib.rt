// What the beacons of signals set: the windows that wait for a press, the main control, and of stop the
// limit alongside, the armed override and the reminder. Each is a small value with its own steps.
#![tactic(auto)]

pub mod control;
pub mod stop;
pub mod window;
