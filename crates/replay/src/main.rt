// replay CARD QUOTA.. < RECORDING: replays a ride, one quota of samples after the other, each from where the last ended, and
// prints a line a quota: the place where it began, how many samples ran, and the last answer with all its fields, or `none`. A
// refused sample has a line of its own, with its position, and ends it.
//
// A QUOTA is a decimal number in digits alone, of any size up to 4,096 of them; 18446744073709551615 and all above it are more
// than any recording has. All of them are judged first: where one is no number, or there is none, or no CARD, that is answered
// with the usage and nothing else.
//
// All that is printed is a text of `printed_replay`, and `replay_printed` of its specs/ is all of them together. The bytes read
// and written are the system's, of which no contract speaks.
#![tactic(auto)]

use printed_replay::{print_heading, print_quota, print_start, quota_in};
use ride_shell::{CARD_ROOM, card_under, recording_room};
use session::Session;
use shell::{Failure, System, argument, failed, say};

const USAGE: &[u8] = b"usage: replay CARD QUOTA.. < RECORDING\n";

// The first argument names the card, the quotas stand behind it.
const FIRST_QUOTA: usize = 2;

// ---- QUOTA..

// What the argument of this number says. One of more than 4,096 bytes is not handed out, and says none. Each room of the program is of a
// fixed size: there is no heap, and it cannot run out of memory.
fn quota_said(rt: &impl System, number: usize) -> Option<u64> {
    let mut space = [0; 4096];
    quota_in(argument(rt, number, &mut space))
}

// How many arguments there are, the program's name being one. There is to be a card, and behind it quotas, all of them numbers.
fn arguments_asked(rt: &impl System) -> Result<usize, Failure> {
    let arguments = shell::argument_count(rt);
    let are_numbers = (FIRST_QUOTA..arguments).all(|number| quota_said(rt, number).is_some());
    if FIRST_QUOTA < arguments && are_numbers {
        Ok(arguments)
    } else {
        Err(failed(rt, USAGE))
    }
}

// ---- the replay

// Runs the quotas, each from where the last ended, and says the lines of each, in full: none has more than 110 bytes (proofs/Room.antt). A
// refused sample ends it.
fn say_quotas(
    rt: &impl System,
    recording: &[u8],
    session: Session,
    arguments: usize,
) -> Result<(), Failure> {
    let mut session = session;
    let mut place = 0;
    for number in FIRST_QUOTA..arguments {
        let Some(quota) = quota_said(rt, number) else {
            break;
        };
        let mut text = [0; 4096];
        let printed = print_quota(recording, place, session, quota, &mut text);
        say(rt, &text[..printed.length])?;
        if printed.is_over {
            break;
        }
        session = printed.session;
        place = printed.place;
    }
    Ok(())
}

// The start of the recording on this card, below the heading, and then the quotas. It is not inlined, so that no room for the recording is
// on the stack before the card is read.
#[inline(never)]
fn print_below(
    rt: &impl System,
    heading: &[u8],
    card: &[u8],
    arguments: usize,
) -> Result<(), Failure> {
    let mut space = recording_room();
    let recording = shell::read_input(rt, &mut space);
    let mut text = [0; 4096];
    let begun = print_start(card, recording, &mut text);
    let start = &text[..begun.length];
    say(rt, start.strip_prefix(heading).unwrap_or_default())?;
    match begun.opened {
        Ok(session) => say_quotas(rt, recording, session, arguments),
        Err(_) => Ok(()),
    }
}

// The heading and below it, where the card's file could be read, all else.
fn print(rt: &impl System) -> Result<(), Failure> {
    let arguments = arguments_asked(rt)?;
    let mut space = [0; 64];
    let h = print_heading(&mut space);
    let heading = &space[..h];
    let mut space = [0; CARD_ROOM];
    let card = card_under(rt, heading, &mut space)?;
    print_below(rt, heading, card, arguments)
}

// A failure has been told; the status stays 0, since the commands at the root make it of what is printed.
fn main(rt: HostRuntime) {
    let _ = print(&rt);
}
