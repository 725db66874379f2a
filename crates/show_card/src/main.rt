// Shows the settings of the card in a file, by name and with their units, or why the card is refused and which setting
// stands at the refusal's place.
#![tactic(auto)]

use shell::{Failure, System, argument_file, say};
use shown_card::print_card;

// The text of the card in the area. It is not inlined, so that no room for it is on the stack while the file is read.
#[inline(never)]
fn show_area(rt: &impl System, area: &[u8]) -> Result<(), Failure> {
    let mut text = [0; 4096];
    let n = print_card(area, &mut text);
    say(rt, &text[..n])
}

// Each room of the program is of a fixed size: there is no heap, and it cannot run out of memory.
fn show(rt: &impl System) -> Result<(), Failure> {
    let mut space = [0; 65536];
    let area = argument_file(rt, b"usage: show_card FILE\n", &mut space)?;
    show_area(rt, area)
}

// A failure has been told; the status stays 0, since the commands at the root make it of what is printed.
fn main(rt: HostRuntime) {
    let _ = show(&rt);
}
