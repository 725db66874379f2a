// Questions on standard input, a case a line, and each of them again with what it is answered with under it.
//
//     why TYPE CAUSE SINCE CARD SAMPLES    a session is opened on the card for TYPE, and its brake made to stand with CAUSE, having come on
//                                          SINCE samples ago. Each sample goes to the session that the one before it gave
//
// A sample's line is its answer with all its fields, the reason of S, that one's age, and how many samples ago the brake came on; or
// `refused N`. A card or an opening that is refused is `refused N` alone. All is hexadecimal, two digits a byte; SINCE has two bytes and a
// sample six, as in a recording; no bytes are `-`. tests/compare/README.md has the rest. What the program `why` cannot show is shown here: a
// brake that came on any number of samples ago, a session that is handed in out of its ranges, and samples behind a refused one.
#![tactic(auto)]

use card::card_in;
use case_lines::{behind, byte_said, put_answer, unhex, word_said};
use leaf::{Refusal, byte_at, word_at};
use printed::{HIGHEST, put_refused};
use session::{Reasoned, Sample, Session};
use shell::System;
use step::speed::reason_number;
use text::put_ended;

// ---- a sample's line

// Here and below a function types at the start of a lent buffer and answers the length, as text's do (`typed`): no heap.
fn put_reasoned(out: &mut [u8], reasoned: Reasoned) -> usize {
    let why = reasoned.why;
    let reason = why.reason;
    let at = put_answer(out, 0, reasoned.answer, b' ');
    let at = put_ended(out, at, u32::from(reason_number(reason)), b' ');
    let at = put_ended(out, at, u32::from(why.age), b' ');
    put_ended(out, at, u32::from(why.since), b'\n')
}

fn put_told(out: &mut [u8], told: Result<Reasoned, Refusal>) -> usize {
    match told {
        Ok(reasoned) => put_reasoned(out, reasoned),
        Err(why) => put_refused(out, 0, why.number()),
    }
}

// The session after a sample, whose line is written. Each room of the program is of a fixed size: there is no heap, and it cannot run out of
// memory.
fn say_sample(rt: &impl System, session: Session, x: Sample) -> Session {
    let asked = session.ask(x);
    let told = asked.told;
    let mut line = [0u8; 4096];
    let n = put_told(&mut line, told);
    let _ = shell::say(rt, &line[..n.min(line.len())]);
    asked.session
}

// ---- samples

// A sample without a recording, of whose head `rides::recording::sample_at` knows.
fn sample_in(six: &[u8]) -> Sample {
    Sample {
        pulses: word_at(six, 0),
        beacon: byte_at(six, 2),
        buttons: word_at(six, 3),
        mode: byte_at(six, 5),
    }
}

// A session goes from sample to sample: the step is all that there is.
fn say_samples(rt: &impl System, session: Session, samples: &[u8]) {
    let mut going = session;
    for six in samples.chunks_exact(6) {
        going = say_sample(rt, going, sample_in(six));
    }
}

// ---- the cases

// What the brake is made to be. Any number may be the cause: a session out of its ranges is a case too.
#[derive(Clone, Copy)]
struct Braked {
    cause: u8,
    since: u16,
}

// By value, so that it stands in a call's argument.
fn with_brake(mut session: Session, braked: Braked) -> Session {
    session.desk.brake.cause = braked.cause;
    session.desk.brake.age = braked.since;
    session
}

// The samples from this place of the line on. Line and place as case_lines takes them, here and below.
fn go_at(rt: &impl System, session: Session, line: &[u8], from: usize) {
    let mut space = [0u8; 65536];
    let samples = unhex(line, from, &mut space);
    let n = samples.length;
    say_samples(rt, session, &space[..n]);
}

// It is `printed::put_refused` in a room of its own, as in replay_cases: what both have in common is there.
fn say_refused(rt: &impl System, number: u8) {
    let mut line = [0u8; 4096];
    let n = put_refused(&mut line, 0, number);
    let _ = shell::say(rt, &line[..n.min(line.len())]);
}

fn opened_on(card: &[u8], train: u8) -> Result<Session, Refusal> {
    let read = card_in(card, HIGHEST)?;
    Session::open(read, train)
}

// The card from this place of the line on, and the samples behind it.
fn start_at(rt: &impl System, train: u8, braked: Braked, line: &[u8], from: usize) {
    let mut space = [0u8; 65536];
    let card = unhex(line, from, &mut space);
    let n = card.length;
    let opened = opened_on(&space[..n], train);
    match opened {
        Ok(session) => go_at(
            rt,
            with_brake(session, braked),
            line,
            behind(line, from, b' '),
        ),
        Err(why) => say_refused(rt, why.number()),
    }
}

fn why_at(rt: &impl System, line: &[u8], first: usize) {
    let second = behind(line, first, b' ');
    let third = behind(line, second, b' ');
    let braked = Braked {
        cause: byte_said(line, second),
        since: word_said(line, third),
    };
    start_at(
        rt,
        byte_said(line, first),
        braked,
        line,
        behind(line, third, b' '),
    );
}

fn answer(rt: &impl System, line: &[u8]) {
    let _ = shell::say(rt, line);
    let _ = shell::say(rt, b"\n");
    let kind = byte_at(line, 0);
    match kind {
        b'w' => why_at(rt, line, behind(line, 0, b' ')),
        _ => (),
    }
}

// What the programs of cases have in common is `for_each_line`; the room and the answer are each one's own.
fn main(rt: HostRuntime) {
    let mut space = [0; 65536];
    let _ = shell::for_each_line(&rt, &mut space, |line| {
        answer(&rt, line);
        Ok(())
    });
}
