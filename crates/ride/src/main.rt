// ride CARD [reason] < RECORDING: prints the ride, a line a sample with its number, supervised speed, lamps and cause; with the word also
// which limit sets the speed.
#![tactic(auto)]

use printed::{Columns, Form};
use ride_shell::{say_ride, word_behind_card};
use shell::{Failure, System, failed};

const USAGE: &[u8] = b"usage: ride CARD [reason] < RECORDING\n";

// Each room of the program is of a fixed size: there is no heap, and it cannot run out of memory.
fn print(rt: &impl System) -> Result<(), Failure> {
    let mut space = [0; 4096];
    let form = match word_behind_card(rt, USAGE, &mut space)? {
        None => Form::Answers(Columns::Paper),
        Some(b"reason") => Form::Reasons,
        Some(_) => return Err(failed(rt, USAGE)),
    };
    say_ride(rt, form)
}

// A failure has been told; the status stays 0, since the commands at the root make it of what is printed.
fn main(rt: HostRuntime) {
    let _ = print(&rt);
}
