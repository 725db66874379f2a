// The lines of a ride that is replayed quota by quota, typed into a lent buffer as each quota is run; and a quota as a word.
//
// No public function has a `requires`. Each ensures that its result, and every byte of a lent buffer, is what the
// definition of specs/ that it names gives.
#![tactic(auto)]

ghost use Rattle.std.specs.Prelude.{◌≡◌, ◌+◌, ◌*◌, min, ◌≤◌, ◌<◌, length, MatchOption};
ghost use Rattle.text.specs.Hex.{hex_value};
ghost use Rattle.leaf.specs.Bytes.{over};
ghost use Rattle.session.specs.Session.{opened_of};
ghost use Rattle.text.specs.Typing.{typed};
ghost use Rattle.rides.specs.Replay.{replay_of};
ghost use Rattle.printed_replay.specs.Word.{most_quota, quota_in};
ghost use Rattle.printed.specs.Printed.{start_on};
ghost use Rattle.printed_replay.specs.Quotas.{heading, begun_text, start_text, ran_line, refused_at_line, is_refused, replayed_text, quota_text, place_after};

use leaf::Refusal;
use printed::{Columns, put_refused, put_shown, start_on};
use rides::replay::{End, replay};
use rides::ride::Shown;
use session::Session;
use step::Answer;
use text::{hex_digit, put_ended, put_labelled, put_text};

// ---- the start

fn put_heading(out: &mut [u8], at: usize) -> usize
    ensures { (out.new, result) ≡ typed heading (out.old, at) }
{
    put_text(out, at, b"place ran limit lamps cause icon standing\n")
}

// The heading, at the buffer's start. Answers how many bytes of it the buffer now holds; the rest is as it was.
pub fn print_heading(out: &mut [u8]) -> usize
    ensures value { result ≡ min (length heading) (length out.old) }
    ensures out_after { out.new ≡ over (length heading) heading out.old }
    ensures upper_bound { result ≤ length out.new }
{
    put_heading(out, 0)
}

// What starting gives, and how many bytes of its text stand in the buffer. printed_pieces' has a receiver in the session's place:
// the length alone is what both have.
#[derive(Clone, Copy)]
pub struct Begun {
    pub opened: Result<Session, Refusal>,
    pub length: usize,
}

// printed_pieces has it of a receiver: what both have in common is `put_refused`.
fn put_begun(opened: Result<Session, Refusal>, out: &mut [u8], at: usize) -> usize
    ensures { (out.new, result) ≡ typed (begun_text (opened_of opened)) (out.old, at) }
{
    match opened {
        Ok(_) => at,
        Err(why) => put_refused(out, at, why.number()),
    }
}

fn put_start(card: &[u8], recording: &[u8], out: &mut [u8], at: usize) -> Begun
    ensures opened_value { opened_of result.opened ≡ start_on card.now recording.now }
    ensures length_after { (out.new, result.length) ≡ typed (start_text card.now recording.now) (out.old, at) }
{
    let at = put_heading(out, at);
    let opened = start_on(card, recording);
    let length = put_begun(opened, out, at);
    Begun { opened, length }
}

// The start of a recording on a card, before any quota: the heading typed at the buffer's start and, where the card, the recording
// or its train type is refused, the refusal's line. Answers the session or the refusal, and how many bytes of the text the buffer
// now holds: all, where there is room, else what there is room for. The rest of the buffer is as it was.
pub fn print_start(card: &[u8], recording: &[u8], out: &mut [u8]) -> Begun
    ensures opened_value { opened_of result.opened ≡ start_on card.now recording.now }
    ensures length_value { result.length ≡ min (length (start_text card.now recording.now)) (length out.old) }
    ensures out_after { out.new ≡ over (length (start_text card.now recording.now)) (start_text card.now recording.now) out.old }
    ensures length_in_bounds { result.length ≤ length out.new }
{
    put_start(card, recording, out, 0)
}

// ---- a quota

#[tactic(auto, unfolding(crate::specs::Quotas::ran_line, text::specs::Typing::typed, printed::specs::Printed::shown_text), using(text::specs::Typing::then_typed))]
fn put_ran(out: &mut [u8], at: usize, place: u16, ran: u16, last: Option<Answer>) -> usize
    ensures { (out.new, result) ≡ typed (ran_line place ran last) (out.old, at) }
{
    let at = put_ended(out, at, place.into(), b' ');
    match last {
        Some(a) => put_shown(Columns::Whole, out, at, ran.into(), Shown::Answered(a)),
        None => {
            let at = put_ended(out, at, ran.into(), b' ');
            put_text(out, at, b"none\n")
        }
    }
}

#[tactic(auto, unfolding(crate::specs::Quotas::refused_at_line, text::specs::Typing::typed), using(text::specs::Typing::then_typed))]
fn put_refused_at(out: &mut [u8], at: usize, number: u8, position: u16) -> usize
    ensures { (out.new, result) ≡ typed (refused_at_line number position) (out.old, at) }
{
    let at = put_labelled(out, at, b"refused ", number.into());
    let at = put_text(out, at, b" at ");
    put_ended(out, at, position.into(), b'\n')
}

fn is_refused(end: End) -> bool
    ensures { result ≡ is_refused end }
{
    matches!(end, End::Refused(_) | End::RefusedAt(_, _))
}

// The lines of a replay that began at this place.
#[tactic(auto, unfolding(crate::specs::Quotas::replayed_text), using(text::specs::Typing::then_typed))]
fn put_replayed(
    out: &mut [u8],
    at: usize,
    place: u16,
    ran: u16,
    last: Option<Answer>,
    end: End,
) -> usize
    ensures { (out.new, result) ≡ typed (replayed_text place ran last end) (out.old, at) }
{
    match end {
        End::Unrefused => put_ran(out, at, place, ran, last),
        End::Refused(n) => put_refused(out, at, n),
        End::RefusedAt(n, position) => {
            let at = put_ran(out, at, place, ran, last);
            put_refused_at(out, at, n, position)
        }
    }
}

// The session after a quota, the place where it ended, whether it was refused, and how many bytes of its text stand in the
// buffer. A flag and no `Option`: session and place are promised where it was refused too. Of printed_pieces' it has the length
// alone.
#[derive(Clone, Copy)]
pub struct Printed {
    pub session: Session,
    pub place: u16,
    pub is_over: bool,
    pub length: usize,
}

#[tactic(auto, unfolding(crate::specs::Quotas::quota_text), using(crate::proofs::ReplayTexts::place_fits))]
fn put_quota(
    recording: &[u8],
    place: u16,
    session: Session,
    quota: u64,
    out: &mut [u8],
    at: usize,
) -> Printed
    ensures session_value { result.session ≡ (replay_of recording.now place session quota).session }
    ensures place_value { result.place ≡ place_after recording.now place session quota }
    ensures is_over_value { result.is_over ≡ is_refused (replay_of recording.now place session quota).end }
    ensures length_after { (out.new, result.length) ≡ typed (quota_text recording.now place session quota) (out.old, at) }
{
    let replayed = replay(recording, place.into(), session, quota);
    let length = put_replayed(out, at, place, replayed.ran, replayed.last, replayed.end);
    Printed {
        session: replayed.session,
        place: place + replayed.ran,
        is_over: is_refused(replayed.end),
        length,
    }
}

// A quota of the recording's samples from a place on, run from this session, and its lines typed at the buffer's start: the
// place, how many ran and the last answer's five numbers, or `none`; and behind it, where a sample is refused, that refusal
// with its position. A recording or a session that is refused has its refusal's line alone. Answers the session after it, the
// place where it ended, whether it was refused, and how many bytes of the text the buffer now holds: all, where there is room,
// else what there is room for. The rest of the buffer is as it was.
pub fn print_quota(
    recording: &[u8],
    place: u16,
    session: Session,
    quota: u64,
    out: &mut [u8],
) -> Printed
    ensures session_value { result.session ≡ (replay_of recording.now place session quota).session }
    ensures place_value { result.place ≡ place_after recording.now place session quota }
    ensures is_over_value { result.is_over ≡ is_refused (replay_of recording.now place session quota).end }
    ensures length_value { result.length ≡ min (length (quota_text recording.now place session quota)) (length out.old) }
    ensures out_after { out.new ≡ over (length (quota_text recording.now place session quota)) (quota_text recording.now place session quota) out.old }
    ensures length_in_bounds { result.length ≤ length out.new }
{
    put_quota(recording, place, session, quota, out, 0)
}

// ---- a quota as a word

fn decimal_digit(byte: u8) -> Option<u8>
    ensures { MatchOption result (10 ≤ hex_value byte) (λ digit. (digit ≡ hex_value byte) × (digit < 10)) }
{
    let digit = hex_digit(byte);
    if digit > 9 {
        return None;
    }
    Some(digit)
}

// A number with one more digit behind it, or the greatest where that is above it.
fn next_quota(n: u64, digit: u8) -> u64
    ensures { result ≡ min (n * 10 + digit) most_quota }
{
    n.saturating_mul(10).saturating_add(digit.into())
}

// The quota that a word says: a decimal number in digits alone, of any size. Zeros before it count for nothing; one above
// 18446744073709551615 counts as that one, which is the same quota, since no recording has as many samples. An empty word, or
// one with any other byte, says none. `hex_digit` answers a number, which says by one comparison what is no decimal digit.
pub fn quota_in(word: &[u8]) -> Option<u64>
    ensures { result ≡ quota_in word.now }
{
    if word.is_empty() {
        return None;
    }
    let mut quota = 0;
    for &byte in word {
        quota = next_quota(quota, decimal_digit(byte)?);
    }
    Some(quota)
}
