// What a sample costs: a card and a recording are read, the ride is run so many times in a row, and a checksum of all
// answers is printed. tests/cost has the same in C, and the measurement.
//
// Standard input, big-endian: 49 bytes with the card at their start, two with the number of rounds, the recording.
#![tactic(auto)]

use card::{Card, card_in};
use leaf::{Refusal, byte_at, long_at, word_at};
use session::{Sample, Session};
use shell::System;
use step::Answer;

// Two sums: of speeds, and of all else.
#[derive(Clone, Copy)]
struct Sums {
    speeds: u32,
    rest: u32,
}

const NO_SAMPLE: Sample = Sample {
    pulses: 0,
    beacon: 0,
    buttons: 0,
    mode: 0,
};

// The sample of this place; one that is refused where there is none. By place, total, in a room of a fixed size: what
// a sample costs is measured of the session's crates alone, and rides, which reads a sample too, is none of them.
fn sample_at(s: &[u8], place: u16) -> Sample {
    let at = 57 + 6 * usize::from(place);
    let Some(six) = s.get(at..at + 6) else {
        return NO_SAMPLE;
    };
    Sample {
        pulses: u16::from_be_bytes([six[0], six[1]]),
        beacon: six[2],
        buttons: u16::from_be_bytes([six[3], six[4]]),
        mode: six[5],
    }
}

fn fold(sum: u32, x: u32) -> u32 {
    sum.wrapping_mul(31).wrapping_add(x)
}

// All of an answer but the speed.
fn rest_of(answer: Answer) -> u32 {
    u32::from(answer.lamps)
        + u32::from(answer.cause) * 65536
        + u32::from(answer.icon % 4) * 16777216
        + u32::from(answer.limit) * 67108864
}

impl Sums {
    fn with(self, outcome: Result<Answer, Refusal>) -> Sums {
        match outcome {
            Ok(answer) => Sums {
                speeds: fold(self.speeds, answer.speed),
                rest: fold(self.rest, rest_of(answer)),
            },
            Err(refusal) => Sums {
                speeds: fold(self.speeds, u32::from(refusal.number())),
                rest: fold(self.rest, 134217728),
            },
        }
    }
}

// The samples of the recording in s, so many in all, from its first again at each round, each round from the session
// as it opened. The only call of the session's sample.
fn run(s: &[u8], opened: Session, samples: u16, rounds: u16) -> Sums {
    let mut place: u16 = 0;
    let mut session = opened;
    let mut sums = Sums { speeds: 0, rest: 0 };
    for _ in 0..u32::from(samples) * u32::from(rounds) {
        let x = sample_at(s, place);
        let sampled = session.sample(x);
        let outcome = sampled.outcome;
        sums = sums.with(outcome);
        session = sampled.session;
        place = next_place(place, samples);
        if place == 0 {
            session = opened;
        }
    }
    sums
}

// The place after this one; the first after the last.
fn next_place(place: u16, samples: u16) -> u16 {
    if place < 10000 && place + 1 < samples {
        place + 1
    } else {
        0
    }
}

// How many samples a recording of this length has.
fn samples_of(length: u32) -> u16 {
    (length.saturating_sub(6) / 6 % 65536) as u16
}

fn ride(rt: &impl System, s: &[u8], card: Card) {
    let rounds = word_at(s, 49);
    let samples = samples_of(long_at(s, 51));
    let opened = Session::open(card, byte_at(s, 56));
    match opened {
        Ok(session) => {
            let sums = run(s, session, samples, rounds);
            let _ = println!(rt; "{:08x}{:08x}", sums.speeds, sums.rest);
        }
        Err(refusal) => {
            let _ = println!(rt; "refused {}", refusal.number());
        }
    }
}

// All that is read has a room of a fixed size: no heap.
fn main(rt: HostRuntime) {
    let mut s = [0u8; 65536];
    shell::read_input(&rt, &mut s);
    let found = card_in(&s, 3);
    match found {
        Ok(card) => {
            ride(&rt, &s, card);
        }
        Err(refusal) => {
            let _ = println!(rt; "refused {}", refusal.number());
        }
    }
}
