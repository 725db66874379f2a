// What the programs that print a ride share: the word behind the card's file, the heading said before a file is read, the card and the
// recording, and the text below its heading; and the ride as `ride` and `trace` print it.
//
// All that is printed below the heading and of a card that could be read is one text of `printed::print_ride`. The bytes
// read and written are the system's, of which no contract speaks.
#![tactic(auto)]

ghost use Rattle.std.specs.Prelude.{◌≡◌, ◌≤◌, ℕ, length, get_or, IfOk, IfSome, OnOk};

use printed::{Form, print_heading, print_ride};
use shell::{Failure, System, failed, room, say};

// More than the longest record of a card.
pub const CARD_ROOM: usize = 4096;

// One byte more than the longest recording, 6 + 6 × 10,000 bytes: with that many it is refused, whatever follows.
const RECORDING_ROOM: usize = 60007;

// A heading of at most 34 bytes, and 10,000 lines of at most six numbers, none of more than ten digits and what ends it.
const TEXT_ROOM: usize = 660040;

// Room for the recording, one byte more than the longest has, all of it 0. Each room of a program is of a fixed size: there is no heap,
// and none can run out of memory.
pub fn recording_room() -> [u8; RECORDING_ROOM]
    ensures value { 60007 ≡ length result }
    ensures by_index { (i : ℕ) → get_or result i 0 ≡ 0 }
{
    room()
}

// ---- what a program is given

// The word behind the card's file, where there is one. One that is longer than the buffer counts as one without bytes. Where there is
// no card, or more than one word, the usage line is written.
pub fn word_behind_card<'a>(
    rt: &impl System,
    usage: &[u8],
    buf: &'a mut [u8],
) -> Result<Option<&'a [u8]>, Failure>
    ensures { IfOk result (λ found. IfSome found (λ word. length word.now ≤ length buf.old)) }
{
    match shell::argument_count(rt) {
        2 => Ok(None),
        3 => Ok(Some(shell::argument(rt, 2, buf))),
        _ => Err(failed(rt, usage)),
    }
}

// Says a heading, then reads the card's file, which the first argument names. Of it more than the longest record is read,
// where the buffer has room. None is read where the heading could not be written.
pub fn card_under<'a>(
    rt: &impl System,
    heading: &[u8],
    buf: &'a mut [u8],
) -> Result<&'a [u8], Failure>
    ensures { IfOk result (λ card. length card.now ≤ length buf.old) }
{
    say(rt, heading)?;
    shell::named_file(rt, buf)
}

// ---- the ride

// Says below a heading the text that is typed of this card and of the recording on standard input. The text has the heading too, which is
// not said again; it is typed into the buffer, and `print` answers how long it is.
// What is printed is promised byte by byte of a buffer that is lent (`printed_as`, `printed_why`), so it is no `Display`.
pub fn print_under<P: Fn(&[u8], &[u8], &mut [u8]) -> usize>(
    rt: &impl System,
    heading: &[u8],
    card: &[u8],
    text: &mut [u8],
    print: P,
) -> Result<(), Failure>
    requires { P.IsAlwaysCallable print }
    ensures { OnOk result ((card : _) × (recording : _) × (out : _) × (n : _) × (after : _) × P.post print card recording out n after) }
{
    let mut space = recording_room();
    let recording = shell::read_input(rt, &mut space);
    let end = print(card, recording, text);
    let text = &text[..end.min(text.len())];
    say(rt, text.strip_prefix(heading).unwrap_or_default())
}

// The ride on this card, in this form. It is not inlined, so that no room for recording and text is on the stack before the card is read.
#[inline(never)]
fn say_below(rt: &impl System, form: Form, heading: &[u8], card: &[u8]) -> Result<(), Failure> {
    let mut text = room::<TEXT_ROOM>();
    print_under(
        rt,
        heading,
        card,
        &mut text,
        |card, recording, text| print_ride(form, card, recording, text),
    )
}

// The ride in this form: its heading, and below it, where the card's file could be read, all else. `why` has the same of another heading,
// another text and another room: `print_under` is what they have in common.
pub fn say_ride(rt: &impl System, form: Form) -> Result<(), Failure> {
    let mut space = [0; 64];
    let h = print_heading(form, &mut space);
    let heading = &space[..h];
    let mut space = [0; CARD_ROOM];
    let card = card_under(rt, heading, &mut space)?;
    say_below(rt, form, heading, card)
}
