// trace CARD < RECORDING: prints the ride as `ride` does, with the crossing icon and whether the limit stands.
#![tactic(auto)]

use printed::{Columns, Form};
use ride_shell::say_ride;
use shell::{Failure, System, has_argument};

fn print(rt: &impl System) -> Result<(), Failure> {
    has_argument(rt, b"usage: trace CARD < RECORDING\n")?;
    say_ride(rt, Form::Answers(Columns::Whole))
}

// A failure has been told; the status stays 0, since the commands at the root make it of what is printed.
fn main(rt: HostRuntime) {
    let _ = print(&rt);
}
