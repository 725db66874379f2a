// Recordings in pieces on standard input, a case a line, and each of them again with what the receiver answers under it.
//
//     pieces CARD CALLS            `HEX/` hands over a piece, `.` announces the end: of each call the lines of the samples
//                                  that it completes, and the status behind it
//     cuts STEP CARD RECORDING     the recording in two pieces and its end, cut at 0, every STEP bytes and its length: of each
//                                  cut how many lines a piece shows, the status behind it, and a mark of all lines
//
// Digits are hexadecimal, two a byte; a card of no bytes is `-`. tests/compare/README.md has the rest. What no line can bring is
// brought here: empty pieces, more than one end, and bytes behind an end.
#![tactic(auto)]

use case_lines::{behind, byte_said, unhex};
use leaf::byte_at;
use printed::{Columns, Form, print_heading};
use printed_pieces::{Printed, print_end, print_piece, print_start};
use receiver::{Receiver, Status};
use shell::System;
use text::{put, put_ended, put_labelled, put_text};

// ---- what a call shows

// Where the answers' lines end among a text's first n bytes: where the line begins that has the call's fault, `refused N`, which
// is no line here but the status behind the call. Of all lines it alone has the letter `r`. n beside the text: it lies in a room
// of a fixed size, behind whose answers the status is typed.
fn answers_end(text: &[u8], n: usize) -> usize {
    first(text, n).iter().position(|&b| b == b'r').unwrap_or(n)
}

// Here and below a function types from `at` on and answers the place behind, as text's do (`typed`): a buffer that is lent, and
// no heap.
fn put_status(out: &mut [u8], at: usize, status: Status) -> usize {
    match status {
        Status::Open => put_text(out, at, b"open"),
        Status::Ended => put_text(out, at, b"done"),
        Status::Refused(n) => put_labelled(out, at, b"refused ", u32::from(n)),
    }
}

// The answers' lines, which end here in the text, and the status behind them. The status is typed behind them in the same room,
// so their end is a place.
fn say_lines(rt: &impl System, text: &mut [u8], end: usize, status: Status) {
    let at = put_status(text, end, status);
    let n = put(text, at, b'\n');
    let _ = shell::say(rt, &text[..n.min(text.len())]);
}

// How many lines a call shows, and the mark of all lines so far.
#[derive(Clone, Copy)]
struct Tally {
    lines: u32,
    mark: u32,
}

// A text behind lines with this mark.
fn tallied(text: &[u8], mark: u32) -> Tally {
    let mut lines = 0;
    let mut mark = mark;
    for &byte in text {
        if byte == b'\n' {
            lines = lines % 65536 + 1;
        }
        mark = (mark % 65521 * 31 + u32::from(byte)) % 65521;
    }
    Tally { lines, mark }
}

// A piece's count of lines and the status behind it; of the end the status and the mark. A sign says which of two lines it is,
// each of other values. Each room of the program is of a fixed size: there is no heap, and it cannot run out of memory.
fn say_tally(rt: &impl System, tally: Tally, sign: u8, status: Status) {
    let mut line = [0u8; 4096];
    if sign == b'.' {
        let at = put_status(&mut line, 0, status);
        let at = put_labelled(&mut line, at, b", mark ", tally.mark);
        let n = put(&mut line, at, b'\n');
        let _ = shell::say(rt, &line[..n.min(line.len())]);
        return;
    }
    let at = put_ended(&mut line, 0, tally.lines, b' ');
    let at = put_status(&mut line, at, status);
    let n = put_text(&mut line, at, b", ");
    let _ = shell::say(rt, &line[..n.min(line.len())]);
}

// What the call with this sign shows, in full or counted, where its text has n bytes. Answers the mark after it. Two ways to say
// one call, with one end found before: a closure for either would be handed all of these.
fn say_shown(
    rt: &impl System,
    in_full: bool,
    sign: u8,
    text: &mut [u8],
    n: usize,
    status: Status,
    mark: u32,
) -> u32 {
    let end = answers_end(text, n);
    if in_full {
        say_lines(rt, text, end, status);
        return mark;
    }
    let tally = tallied(first(text, end), mark);
    say_tally(rt, tally, sign, status);
    tally.mark
}

// ---- calls

// The call with this sign, a piece or the end. Typed into a lent buffer, as `print_piece` does; the end has no piece.
fn called(receiver: Receiver, sign: u8, piece: &[u8], text: &mut [u8]) -> Printed {
    if sign == b'.' {
        return print_end(Columns::Paper, receiver, text);
    }
    print_piece(Columns::Paper, receiver, piece, text)
}

// All calls; each takes a byte of them or more, so that there are no more calls than bytes. Its step hands on a receiver and a
// mark, that of replay_cases a session, and both go on where the step's own digits end.
fn say_calls(rt: &impl System, in_full: bool, receiver: Receiver, calls: &[u8]) {
    let mut space = [0u8; 65536];
    let mut text = [0u8; 65536];
    let mut going = receiver;
    let mut mark: u32 = 0;
    let mut i = 0;
    for _ in 0..calls.len() {
        let piece = unhex(calls, i, &mut space);
        i = piece.next;
        if i >= calls.len() {
            return;
        }
        let sign = calls[i];
        i += 1;
        let n = piece.length;
        let printed = called(going, sign, &space[..n], &mut text);
        going = printed.receiver;
        let status = going.status;
        mark = say_shown(rt, in_full, sign, &mut text, printed.length, status, mark);
    }
}

// ---- cuts

// The first n bytes, or all where there are fewer. n is what was typed, and may be more than there are: `&bytes[..n]` alone
// could fail.
fn first(bytes: &[u8], n: usize) -> &[u8] {
    &bytes[..n.min(bytes.len())]
}

// The calls of a recording in two pieces, the first of so many bytes, and its end. Typed at the start of a lent buffer, cut at a
// place.
fn put_cut(calls: &mut [u8], digits: &[u8], place: usize) -> usize {
    if place > digits.len() / 2 {
        return 0;
    }
    let cut = place * 2;
    let at = put_text(calls, 0, first(digits, cut));
    let at = put(calls, at, b'/');
    let at = put_text(calls, at, &digits[cut..]);
    put_text(calls, at, b"/.")
}

fn say_place(rt: &impl System, place: usize) {
    let mut line = [0u8; 4096];
    let at = put_ended(&mut line, 0, (place % 65536) as u32, b':');
    let n = put(&mut line, at, b' ');
    let _ = shell::say(rt, &line[..n.min(line.len())]);
}

// The place is where the recording is cut.
fn say_cut(rt: &impl System, receiver: Receiver, digits: &[u8], place: usize) {
    let mut calls = [0u8; 65536];
    let n = put_cut(&mut calls, digits, place);
    say_place(rt, place);
    say_calls(rt, false, receiver, first(&calls, n));
}

// Is the recording cut here. A step of 0, which no case has, is one of 1.
fn is_cut(place: usize, step: u8) -> bool {
    step == 0 || place % usize::from(step) == 0
}

fn say_cuts(rt: &impl System, receiver: Receiver, digits: &[u8], step: u8) {
    let n = digits.len() / 2;
    for place in 0..n {
        if is_cut(place, step) {
            say_cut(rt, receiver, digits, place);
        }
    }
    say_cut(rt, receiver, digits, n);
}

// ---- the cases

// What stands behind the card: calls, or a recording to be cut with this step.
#[derive(Clone, Copy)]
enum Way {
    Pieces,
    Cuts(u8),
}

// A case is one of two, which its first letter says; here alone it matters.
fn go(rt: &impl System, way: Way, receiver: Receiver, word: &[u8]) {
    match way {
        Way::Pieces => say_calls(rt, true, receiver, word),
        Way::Cuts(step) => say_cuts(rt, receiver, word, step),
    }
}

// On this card: its refusal, which stands below the heading of h bytes, or what the word behind it asks. Both are typed into one
// room, so the heading's end is a place.
fn start(rt: &impl System, way: Way, card: &[u8], h: usize, word: &[u8]) {
    let mut text = [0u8; 4096];
    let begun = print_start(Columns::Paper, card, &mut text);
    let _ = shell::say(rt, text[..begun.length].get(h..).unwrap_or_default());
    let started = begun.started;
    match started {
        Ok(receiver) => go(rt, way, receiver, word),
        Err(_) => (),
    }
}

// The card from this place of the line on, and the word behind it. Line and place as case_lines takes them.
fn start_at(rt: &impl System, way: Way, line: &[u8], from: usize) {
    let mut space = [0u8; 65536];
    let h = print_heading(Form::Answers(Columns::Paper), &mut space);
    let card = unhex(line, from, &mut space);
    let n = card.length;
    let word = behind(line, from, b' ');
    start(rt, way, &space[..n], h, &line[word..]);
}

fn answer(rt: &impl System, line: &[u8]) {
    let _ = shell::say(rt, line);
    let _ = shell::say(rt, b"\n");
    let next = behind(line, 0, b' ');
    let kind = byte_at(line, 0);
    match kind {
        b'p' => start_at(rt, Way::Pieces, line, next),
        b'c' => start_at(
            rt,
            Way::Cuts(byte_said(line, next)),
            line,
            behind(line, next, b' '),
        ),
        _ => (),
    }
}

// What the programs of cases have in common is `for_each_line`; the room and the answer are each one's own.
fn main(rt: HostRuntime) {
    let mut space = [0; 65536];
    let _ = shell::for_each_line(&rt, &mut space, |line| {
        answer(&rt, line);
        Ok(())
    });
}
