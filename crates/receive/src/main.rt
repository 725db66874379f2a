// receive CARD [SIZE] < LINE: takes a recording as it comes over a line, and prints the ride as `ride` does, each line when its
// sample is complete and a refusal at the byte that makes it certain. The line's end is the announced end.
//
// The line is read in pieces: a read takes what has come, SIZE bytes at most, 64 where SIZE is not said. SIZE is one to four
// decimal digits, 1 to 4096; zeros before it count for nothing, so that 064 is 64. Anything else, and any other number of
// arguments, is answered with the usage.
//
// All that is printed is a text of `printed_pieces`. The bytes read and written are the system's, of which no contract speaks.
#![tactic(auto)]

ghost use Rattle.std.specs.Prelude.{◌≡◌, ◌<◌, ◌≤◌, IfSome, IfNone, length};
ghost use Rattle.receive.specs.Size.{next_size, no_size, size_in};

use printed::{Columns, Form, print_heading};
use printed_pieces::{Printed, print_end, print_piece, print_start};
use receiver::{Receiver, Status};
use ride_shell::{CARD_ROOM, card_under, word_behind_card};
use shell::{Failure, System, failed, room, say};
use text::hex_digit;

const USAGE: &[u8] = b"usage: receive CARD [SIZE] < LINE\n";

const DEFAULT_SIZE: u16 = 64;

const MOST_SIZE: u16 = 4096;

// The lines of a piece of 4,096 bytes: at most 66 bytes for each six begun and 66 for a refusal's (proofs/Room.antt).
const TEXT_ROOM: usize = 45144;

// ---- SIZE

// The number with one more digit behind it; none where that is no digit, or more than any size. `hex_digit` answers a number,
// which says by one comparison what is no decimal digit; `next_size` of specs/ reckons with it.
fn next_size(n: u16, b: u8) -> Option<u16>
    ensures some { IfSome result (λ next. (next ≡ next_size n b) × (next ≤ 4096)) }
    ensures none { IfNone result (next_size n b ≡ no_size) }
{
    let digit = hex_digit(b);
    let more = u32::from(n) * 10 + u32::from(digit);
    if digit < 10 && more <= u32::from(MOST_SIZE) {
        Some(more as u16)
    } else {
        None
    }
}

// The size that the word says, where it says one. By `size_in` of specs/, under which a word with a sign says none: `parse`
// takes one.
#[tactic(auto, using(crate::proofs::Sizes::goes_on, crate::proofs::Sizes::none_said, crate::proofs::Sizes::said))]
fn size_in(word: &[u8]) -> Option<u16>
    ensures some { IfSome result (λ size. (size ≡ size_in word.now) × (0 < size)) }
    ensures none { IfNone result (size_in word.now ≡ 0) }
{
    let mut n = 0;
    for digit in word {
        n = next_size(n, *digit)?;
    }
    (n > 0).then_some(n)
}

// The size asked for. A word of more than four bytes is not handed out, and says none. Each room of the program is of a fixed
// size: there is no heap, and it cannot run out of memory.
fn size_asked(rt: &impl System) -> Result<u16, Failure> {
    let mut space = [0; 4];
    match word_behind_card(rt, USAGE, &mut space)? {
        None => Ok(DEFAULT_SIZE),
        Some(word) => size_in(word).ok_or_else(|| failed(rt, USAGE)),
    }
}

// ---- the line

// What a piece shows; one without bytes is the line's end. Typed into a lent buffer, as `print_piece` does: no heap.
fn printed_of(receiver: Receiver, piece: &[u8], text: &mut [u8]) -> Printed
    ensures { result.length ≤ length text.new }
{
    if piece.is_empty() {
        return print_end(Columns::Paper, receiver, text);
    }
    print_piece(Columns::Paper, receiver, piece, text)
}

// One read, and what it shows: the receiver behind it.
fn one_read(
    rt: &impl System,
    receiver: Receiver,
    size: u16,
    text: &mut [u8],
) -> Result<Receiver, Failure> {
    let mut space = [0; 4096];
    let piece = shell::read_piece(rt, usize::from(size), &mut space)?;
    let printed = printed_of(receiver, piece, text);
    say(rt, &text[..printed.length])?;
    Ok(printed.receiver)
}

// Nothing says that a line ends, so the reads are counted, up to a number that no line uses up.
fn receive(
    rt: &impl System,
    receiver: Receiver,
    size: u16,
    text: &mut [u8],
) -> Result<(), Failure> {
    let mut going = receiver;
    for _ in 0..u64::MAX {
        going = one_read(rt, going, size, text)?;
        match going.status {
            Status::Open => {}
            Status::Ended | Status::Refused(_) => break,
        }
    }
    Ok(())
}

// The start on this card, below the heading, and then the line. It is not inlined, so that no room for the text is on the stack before the
// card is read.
#[inline(never)]
fn print_below(rt: &impl System, heading: &[u8], card: &[u8], size: u16) -> Result<(), Failure> {
    let mut text = room::<TEXT_ROOM>();
    let begun = print_start(Columns::Paper, card, &mut text);
    let start = &text[..begun.length];
    say(rt, start.strip_prefix(heading).unwrap_or_default())?;
    match begun.started {
        Ok(receiver) => receive(rt, receiver, size, &mut text),
        Err(_) => Ok(()),
    }
}

// The heading and below it, where the card's file could be read, all else.
fn print(rt: &impl System) -> Result<(), Failure> {
    let size = size_asked(rt)?;
    let mut space = [0; 64];
    let h = print_heading(Form::Answers(Columns::Paper), &mut space);
    let heading = &space[..h];
    let mut space = [0; CARD_ROOM];
    let card = card_under(rt, heading, &mut space)?;
    print_below(rt, heading, card, size)
}

// A failure has been told; the status stays 0, since the commands at the root make it of what is printed.
fn main(rt: HostRuntime) {
    let _ = print(&rt);
}
