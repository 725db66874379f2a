// Replays on standard input, a case a line, and each of them again with what it is answered with under it.
//
//     replay TYPE STEPS CARD RECORDING CALLS    a session is opened on the card for TYPE, whatever the recording's is, and
//                                               its limit's steps are set to STEPS. A call is `PLACE:QUOTA`, a comma parts
//                                               it from the next; each begins in the session that the one before it gave
//     splits TYPE CARD RECORDING                in two quotas, in every way there is, each time from a session opened anew:
//                                               k samples from place 0, and from where that ended the rest
//
// A replay's line says how many ran, the last answer with all its fields or `none`, and how it ended; a card or an opening that is
// refused is `refused N` alone. Places and quotas are decimal, all else is hexadecimal, two digits a byte; no bytes are `-`.
// tests/compare/README.md has the rest. What the program `replay` cannot show is shown here: any place, a session that is handed in
// out of its ranges or for another train type, and calls behind a refused one.
#![tactic(auto)]

use card::card_in;
use case_lines::{behind, byte_said, put_answer, unhex};
use leaf::{Refusal, byte_at};
use printed::{HIGHEST, put_refused};
use printed_replay::quota_in;
use rides::recording::samples;
use rides::replay::{End, Replayed, replay};
use session::Session;
use shell::System;
use step::Answer;
use text::{put_ended, put_labelled, put_text};

// ---- a line's words

// The decimal number from this place on, 0 where there is none. Line and place as case_lines takes them. Any number of digits is a
// number here, up to the greatest, where `parse` fails.
fn number_at(text: &[u8], from: usize) -> u64 {
    let Some(rest) = text.get(from..) else {
        return 0;
    };
    match rest.iter().position(|b| !b.is_ascii_digit()) {
        Some(end) => quota_in(&rest[..end]).unwrap_or(0),
        None => quota_in(rest).unwrap_or(0),
    }
}

// ---- a replay's line

// Here and below a function types from `at` on and answers the place behind, as text's do (`typed`): a buffer that is lent, and no
// heap.
fn put_last(out: &mut [u8], at: usize, last: Option<Answer>) -> usize {
    match last {
        Some(a) => put_answer(out, at, a, b' '),
        None => put_text(out, at, b"none "),
    }
}

fn put_end(out: &mut [u8], at: usize, end: End) -> usize {
    match end {
        End::Unrefused => put_text(out, at, b"done\n"),
        End::Refused(n) => put_refused(out, at, n),
        End::RefusedAt(n, position) => {
            let at = put_labelled(out, at, b"refused ", u32::from(n));
            let at = put_text(out, at, b" at ");
            put_ended(out, at, u32::from(position), b'\n')
        }
    }
}

// Each room of the program is of a fixed size: there is no heap, and it cannot run out of memory.
fn say_line(rt: &impl System, ran: u16, last: Option<Answer>, end: End) {
    let mut line = [0u8; 4096];
    let at = put_ended(&mut line, 0, u32::from(ran), b' ');
    let at = put_last(&mut line, at, last);
    let n = put_end(&mut line, at, end);
    let _ = shell::say(rt, &line[..n.min(line.len())]);
}

// A replay, whose line is written. What `replay` takes, one by one.
fn say_replay(
    rt: &impl System,
    session: Session,
    recording: &[u8],
    place: u64,
    quota: u64,
) -> Replayed {
    let replayed = replay(recording, place, session, quota);
    let last = replayed.last;
    let end = replayed.end;
    say_line(rt, replayed.ran, last, end);
    replayed
}

// ---- calls

// All calls; each takes a byte of them or more, so that there are no more calls than bytes. Its step hands on a session, that of
// receive_cases a receiver and a mark, and both go on where the step's own words end.
fn say_calls(rt: &impl System, session: Session, recording: &[u8], calls: &[u8]) {
    let mut going = session;
    let mut i = 0;
    for _ in 0..calls.len() {
        if i >= calls.len() {
            return;
        }
        let place = number_at(calls, i);
        let quota = number_at(calls, behind(calls, i, b':'));
        let replayed = say_replay(rt, going, recording, place, quota);
        going = replayed.session;
        i = behind(calls, i, b',');
    }
}

// ---- splits

// So many samples, and from where they ended so many more. Both are quotas, and no places of the recording.
fn say_split(rt: &impl System, session: Session, recording: &[u8], first: u16, second: u16) {
    let replayed = say_replay(rt, session, recording, 0, u64::from(first));
    let after = replayed.session;
    say_replay(
        rt,
        after,
        recording,
        u64::from(replayed.ran),
        u64::from(second),
    );
}

fn say_splits(rt: &impl System, session: Session, recording: &[u8]) {
    let n = samples(recording);
    for k in 0..n {
        say_split(rt, session, recording, k, n - k);
    }
    say_split(rt, session, recording, n, 0);
}

// ---- the cases

// What is asked of the recording: calls, from a session with these steps, or splits.
#[derive(Clone, Copy)]
enum Way {
    Calls(u8),
    Splits,
}

// By value, so that it stands in a call's argument.
fn with_steps(mut session: Session, steps: u8) -> Session {
    session.desk.beside.limit.steps = steps;
    session
}

// A case is one of two, which its first letter says; here alone it matters.
fn go(rt: &impl System, way: Way, session: Session, recording: &[u8], calls: &[u8]) {
    match way {
        Way::Calls(steps) => say_calls(rt, with_steps(session, steps), recording, calls),
        Way::Splits => say_splits(rt, session, recording),
    }
}

// The recording from this place of the line on, and the calls behind it. Line and place as case_lines takes them, here and in
// `start_at`.
fn go_at(rt: &impl System, way: Way, session: Session, line: &[u8], from: usize) {
    let mut space = [0u8; 65536];
    let recording = unhex(line, from, &mut space);
    let n = recording.length;
    let calls = behind(line, from, b' ');
    go(rt, way, session, &space[..n], &line[calls..]);
}

// It is `printed::put_refused` in a room of its own, as in why_cases: what both have in common is there.
fn say_refused(rt: &impl System, number: u8) {
    let mut line = [0u8; 4096];
    let n = put_refused(&mut line, 0, number);
    let _ = shell::say(rt, &line[..n.min(line.len())]);
}

fn opened_on(card: &[u8], train: u8) -> Result<Session, Refusal> {
    let read = card_in(card, HIGHEST)?;
    Session::open(read, train)
}

// The card from this place of the line on, and the recording behind it.
fn start_at(rt: &impl System, way: Way, train: u8, line: &[u8], from: usize) {
    let mut space = [0u8; 65536];
    let card = unhex(line, from, &mut space);
    let n = card.length;
    let opened = opened_on(&space[..n], train);
    match opened {
        Ok(session) => go_at(rt, way, session, line, behind(line, from, b' ')),
        Err(why) => say_refused(rt, why.number()),
    }
}

fn answer(rt: &impl System, line: &[u8]) {
    let _ = shell::say(rt, line);
    let _ = shell::say(rt, b"\n");
    let first = behind(line, 0, b' ');
    let second = behind(line, first, b' ');
    let train = byte_said(line, first);
    let kind = byte_at(line, 0);
    match kind {
        b'r' => start_at(
            rt,
            Way::Calls(byte_said(line, second)),
            train,
            line,
            behind(line, second, b' '),
        ),
        b's' => start_at(rt, Way::Splits, train, line, second),
        _ => (),
    }
}

// What the programs of cases have in common is `for_each_line`; the room and the answer are each one's own.
fn main(rt: HostRuntime) {
    let mut space = [0; 65536];
    let _ = shell::for_each_line(&rt, &mut space, |line| {
        answer(&rt, line);
        Ok(())
    });
}
