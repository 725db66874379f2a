// Why each S of a ride is what it is, sample by sample, typed into a lent buffer: a line of numbers, or a line in words where that changes.
//
// No public function has a `requires`. Each ensures that its result, and every byte of the lent buffer, is what the definition of specs/
// that it names gives.
#![tactic(auto)]

ghost use Rattle.std.specs.Prelude.{◌≡◌, min, ◌≤◌, length};
ghost use Rattle.leaf.specs.Bytes.{over};
ghost use Rattle.session.specs.Session.{opened_of};
ghost use Rattle.text.specs.Typing.{typed};
ghost use Rattle.printed.specs.Printed.{start_on};
ghost use Rattle.printed_why.specs.PrintedWhy.{why_heading, telling_text, reason_text, why_lines_of, why_below, printed_why};

use leaf::Refusal;
use printed::{put_refused, start_on};
use rides::recording::samples;
use rides::ride::{Ride, Shown};
use session::Session;
use text::put_text;
use why_lines::{put_why, put_words};

// How it is told: a line of S, its reason and that one's age, the cause and how many samples ago the brake came on; or a line in words, where
// reason or cause is another than before.
#[derive(Clone, Copy)]
pub enum Telling {
    Line,
    Words,
}

// ---- a sample

// A match on the telling, here and in `put_told`: the definitions have a case for each (`why_heading`, `telling_text`).
fn put_why_heading(telling: Telling, out: &mut [u8], at: usize) -> usize
    ensures { (out.new, result) ≡ typed (why_heading telling) (out.old, at) }
{
    match telling {
        Telling::Line => put_text(out, at, b"n limit reason age cause since\n"),
        Telling::Words => at,
    }
}

// Of an answered sample with the session before it and the one after it.
#[tactic(auto, unfolding(crate::specs::PrintedWhy::telling_text))]
fn put_told(
    telling: Telling,
    out: &mut [u8],
    at: usize,
    number: u32,
    before: Session,
    after: Session,
) -> usize
    ensures { (out.new, result) ≡ typed (telling_text telling number before after) (out.old, at) }
{
    match telling {
        Telling::Line => put_why(out, at, number, after.why_now()),
        Telling::Words => put_words(out, at, number, before, after),
    }
}

#[tactic(auto, unfolding(crate::specs::PrintedWhy::reason_text, text::specs::Typing::typed))]
fn put_reasoned(
    telling: Telling,
    out: &mut [u8],
    at: usize,
    number: u32,
    before: Session,
    after: Session,
    shown: Shown,
) -> usize
    ensures { (out.new, result) ≡ typed (reason_text telling number before after shown) (out.old, at) }
{
    match shown {
        Shown::Answered(_) => put_told(telling, out, at, number, before, after),
        Shown::Refused(n) => put_refused(out, at, n),
        Shown::Nothing => at,
    }
}

// ---- the ride

// The lines of the first n samples. The loop of `printed` has this one's first and last line alone in common: it asks for the reason, and types
// by the answer. A closure for what lies between would hide both.
fn put_lines(
    telling: Telling,
    ride: Ride,
    recording: &[u8],
    n: u16,
    out: &mut [u8],
    at: usize,
) -> usize
    ensures { (out.new, result) ≡ typed (why_lines_of telling ride recording.now n) (out.old, at) }
{
    let mut place = at;
    let mut going = ride;
    for k in 0..n {
        let turned = going.turn_at(recording, k);
        let before = going.session;
        let after = turned.ride.session;
        let number = u32::from(k) + 1;
        place = put_reasoned(telling, out, place, number, before, after, turned.shown);
        going = turned.ride;
    }
    place
}

// Here and in `put_ride` as in printed, with other lines below: one for both would take the lines as a closure and their text as an argument of
// its contract.
fn put_started(
    telling: Telling,
    opened: Result<Session, Refusal>,
    recording: &[u8],
    n: u16,
    out: &mut [u8],
    at: usize,
) -> usize
    ensures { (out.new, result) ≡ typed (why_below telling recording.now n (opened_of opened)) (out.old, at) }
{
    match opened {
        Ok(session) => put_lines(telling, Ride::fresh(session), recording, n, out, at),
        Err(why) => put_refused(out, at, why.number()),
    }
}

#[tactic(auto, unfolding(crate::specs::PrintedWhy::printed_why), using(text::specs::Typing::then_typed, crate::proofs::WhyTexts::capped))]
fn put_ride(telling: Telling, card: &[u8], recording: &[u8], out: &mut [u8]) -> usize
    ensures { (out.new, result) ≡ typed (printed_why telling card.now recording.now) (out.old, 0) }
{
    let at = put_why_heading(telling, out, 0);
    let opened = start_on(card, recording);
    put_started(telling, opened, recording, samples(recording), out, at)
}

// The heading, at the buffer's start; in words there is none. Answers how many bytes of it the buffer now holds; the rest is as it was.
pub fn print_why_heading(telling: Telling, out: &mut [u8]) -> usize
    ensures value { result ≡ min (length (why_heading telling)) (length out.old) }
    ensures out_after { out.new ≡ over (length (why_heading telling)) (why_heading telling) out.old }
    ensures upper_bound { result ≤ length out.new }
{
    put_why_heading(telling, out, 0)
}

// Why each S of this recording on this card is what it is, as text, at the buffer's start: the heading, the card's refusal, 14, 7, or a line a
// sample, in words where there is one, until a sample is refused. Answers how many bytes of it the buffer now holds: all, where there is room,
// else what there is room for. The rest of the buffer is as it was.
pub fn print_why(telling: Telling, card: &[u8], recording: &[u8], out: &mut [u8]) -> usize
    ensures value { result ≡ min (length (printed_why telling card.now recording.now)) (length out.old) }
    ensures out_after { out.new ≡ over (length (printed_why telling card.now recording.now)) (printed_why telling card.now recording.now) out.old }
    ensures upper_bound { result ≤ length out.new }
{
    put_ride(telling, card, recording, out)
}
