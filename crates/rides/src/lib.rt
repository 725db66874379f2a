// A ride: recordings, running one whole, and replaying a part of one.
//
// No public function has a `requires`. Each ensures that its result, and every byte of a lent buffer, is what the
// definition of specs/ that it names gives.
#![tactic(auto)]

pub mod recording;
pub mod replay;
pub mod ride;
