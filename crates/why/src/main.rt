// why CARD [words] < RECORDING: prints a line a sample, with its number, the supervised speed, which limit sets it and how old that one is,
// the cause of the brake and how many samples ago it came on; with the word it says so in words, of the samples where that changes.
//
// All that is printed is a text of `printed_why`. The bytes read and written are the system's, of which no contract speaks.
#![tactic(auto)]

use printed_why::{Telling, print_why, print_why_heading};
use ride_shell::{CARD_ROOM, card_under, print_under, word_behind_card};
use shell::{Failure, System, failed, room};

const USAGE: &[u8] = b"usage: why CARD [words] < RECORDING\n";

// No heading and 10,000 lines of at most 140 bytes, in words; in numbers 660,040 bytes do (proofs/Room.antt).
const TEXT_ROOM: usize = 1400040;

// The reasons on this card. It is not inlined, so that no room for recording and text is on the stack before the card is read. Each room
// of the program is of a fixed size: there is no heap, and it cannot run out of memory.
#[inline(never)]
fn say_below(
    rt: &impl System,
    telling: Telling,
    heading: &[u8],
    card: &[u8],
) -> Result<(), Failure> {
    let mut text = room::<TEXT_ROOM>();
    print_under(
        rt,
        heading,
        card,
        &mut text,
        |card, recording, text| print_why(telling, card, recording, text),
    )
}

// It is ride_shell's `say_ride` with another heading, another text and another room; `print_under` is what they have in common.
fn say_why(rt: &impl System, telling: Telling) -> Result<(), Failure> {
    let mut space = [0; 64];
    let h = print_why_heading(telling, &mut space);
    let heading = &space[..h];
    let mut space = [0; CARD_ROOM];
    let card = card_under(rt, heading, &mut space)?;
    say_below(rt, telling, heading, card)
}

fn print(rt: &impl System) -> Result<(), Failure> {
    let mut space = [0; 4096];
    let telling = match word_behind_card(rt, USAGE, &mut space)? {
        None => Telling::Line,
        Some(b"words") => Telling::Words,
        Some(_) => return Err(failed(rt, USAGE)),
    };
    say_why(rt, telling)
}

// A failure has been told; the status stays 0, since the commands at the root make it of what is printed.
fn main(rt: HostRuntime) {
    let _ = print(&rt);
}
