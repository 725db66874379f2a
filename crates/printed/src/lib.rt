// The printed ride: a heading, a line a sample, and the line that ends a refused one, typed into a lent buffer; the answers alone, or with
// the reason of each S as a column more.
#![tactic(auto)]

ghost use Rattle.std.specs.Prelude.{◌≡◌, [], ◌∷◌, min, ◌≤◌, length};
ghost use Rattle.leaf.specs.Bytes.{over};
ghost use Rattle.card.specs.Reading.{found_of};
ghost use Rattle.session.specs.Session.{opened_of};
ghost use Rattle.text.specs.Decimal.{line};
ghost use Rattle.text.specs.Typing.{typed};
ghost use Rattle.step.specs.Reason.{reason_number};
ghost use Rattle.printed.specs.Printed.{heading, heading_of, refused_line, columns_of, shown_text, reason_text, turn_text, lines_of, started_text, card_text, start_on, printed_as};

use card::{Card, card_in};
use leaf::Refusal;
use rides::recording::samples;
use rides::ride::{Ride, Shown, start};
use session::Session;
use step::Answer;
use step::speed::{Reason, reason_number};
use text::{put_ended, put_text};

// The highest version of a card that is read.
pub const HIGHEST: u8 = 3;

// Which columns are printed: document 01's, the sample's number, S, lamps and cause; or with them the rest of the answer, icon and
// limit standing.
#[derive(Clone, Copy)]
pub enum Columns {
    Paper,
    Whole,
}

// What is printed of a ride: the answers alone; or document 01's columns and as a fifth the reason of S, 1..7.
#[derive(Clone, Copy)]
pub enum Form {
    Answers(Columns),
    Reasons,
}

// A match on the columns, here and in `put_answer`: the definitions have a case for each (`heading`, `columns_of`).
pub fn put_heading(columns: Columns, out: &mut [u8], at: usize) -> usize
    ensures { (out.new, result) ≡ typed (heading columns) (out.old, at) }
{
    match columns {
        Columns::Paper => put_text(out, at, b"n limit lamps cause\n"),
        Columns::Whole => put_text(out, at, b"n limit lamps cause icon standing\n"),
    }
}

// A match on the form, here and in `put_turned`: the definitions have a case for each (`heading_of`, `turn_text`).
fn put_form_heading(form: Form, out: &mut [u8], at: usize) -> usize
    ensures { (out.new, result) ≡ typed (heading_of form) (out.old, at) }
{
    match form {
        Form::Answers(columns) => put_heading(columns, out, at),
        Form::Reasons => put_text(out, at, b"n limit lamps cause reason\n"),
    }
}

pub fn put_refused(out: &mut [u8], at: usize, number: u8) -> usize
    ensures { (out.new, result) ≡ typed (refused_line number) (out.old, at) }
{
    let at = put_text(out, at, b"refused ");
    put_ended(out, at, number.into(), b'\n')
}

// case_lines has one without a number before and with all columns, as the case programs write it.
#[tactic(auto, using(text::specs::Typing::then_typed))]
fn put_answer(columns: Columns, out: &mut [u8], at: usize, number: u32, a: Answer) -> usize
    ensures { (out.new, result) ≡ typed (line number (columns_of columns a)) (out.old, at) }
{
    let at = put_ended(out, at, number, b' ');
    let at = put_ended(out, at, a.speed, b' ');
    let at = put_ended(out, at, a.lamps.into(), b' ');
    match columns {
        Columns::Paper => put_ended(out, at, a.cause.into(), b'\n'),
        Columns::Whole => {
            let at = put_ended(out, at, a.cause.into(), b' ');
            let at = put_ended(out, at, a.icon.into(), b' ');
            put_ended(out, at, a.limit.into(), b'\n')
        }
    }
}

// It and `put_reasoned` are alike but for what is typed of an answer, which a definition of each says (`shown_text`, `reason_text`).
#[tactic(auto, unfolding(crate::specs::Printed::shown_text, text::specs::Typing::typed))]
pub fn put_shown(columns: Columns, out: &mut [u8], at: usize, number: u32, shown: Shown) -> usize
    ensures { (out.new, result) ≡ typed (shown_text columns number shown) (out.old, at) }
{
    match shown {
        Shown::Answered(a) => put_answer(columns, out, at, number, a),
        Shown::Refused(n) => put_refused(out, at, n),
        Shown::Nothing => at,
    }
}

#[tactic(auto, using(text::specs::Typing::then_typed))]
fn put_reason(out: &mut [u8], at: usize, number: u32, a: Answer, reason: Reason) -> usize
    ensures { (out.new, result) ≡ typed (line number (a.speed ∷ a.lamps ∷ a.cause ∷ reason_number reason ∷ [])) (out.old, at) }
{
    let at = put_ended(out, at, number, b' ');
    let at = put_ended(out, at, a.speed, b' ');
    let at = put_ended(out, at, a.lamps.into(), b' ');
    let at = put_ended(out, at, a.cause.into(), b' ');
    put_ended(out, at, reason_number(reason).into(), b'\n')
}

#[tactic(auto, unfolding(crate::specs::Printed::reason_text, text::specs::Typing::typed))]
fn put_reasoned(out: &mut [u8], at: usize, number: u32, shown: Shown, reason: Reason) -> usize
    ensures { (out.new, result) ≡ typed (reason_text number shown reason) (out.old, at) }
{
    match shown {
        Shown::Answered(a) => put_reason(out, at, number, a, reason),
        Shown::Refused(n) => put_refused(out, at, n),
        Shown::Nothing => at,
    }
}

#[tactic(auto, unfolding(crate::specs::Printed::turn_text))]
fn put_turned(
    form: Form,
    out: &mut [u8],
    at: usize,
    number: u32,
    shown: Shown,
    reason: Reason,
) -> usize
    ensures { (out.new, result) ≡ typed (turn_text form number shown reason) (out.old, at) }
{
    match form {
        Form::Answers(columns) => put_shown(columns, out, at, number, shown),
        Form::Reasons => put_reasoned(out, at, number, shown, reason),
    }
}

// The lines of the first n samples. The loop of `printed_why` has this one's first and last line alone in common: it asks for no reason, and
// types by the sessions before and after. A closure for what lies between would hide both.
fn put_lines(form: Form, ride: Ride, recording: &[u8], n: u16, out: &mut [u8], at: usize) -> usize
    ensures { (out.new, result) ≡ typed (lines_of form ride recording.now n) (out.old, at) }
{
    let mut place = at;
    let mut going = ride;
    for k in 0..n {
        let explained = going.turn_asking_at(recording, k);
        let turned = explained.turned;
        let number = u32::from(k) + 1;
        place = put_turned(form, out, place, number, turned.shown, explained.why.reason);
        going = turned.ride;
    }
    place
}

// Here and in `put_ride` as in printed_why, with other lines below: one for both would take the lines as a closure and their text as an
// argument of its contract.
fn put_started(
    form: Form,
    opened: Result<Session, Refusal>,
    recording: &[u8],
    n: u16,
    out: &mut [u8],
    at: usize,
) -> usize
    ensures { (out.new, result) ≡ typed (started_text form recording.now n (opened_of opened)) (out.old, at) }
{
    match opened {
        Ok(session) => put_lines(form, Ride::fresh(session), recording, n, out, at),
        Err(why) => put_refused(out, at, why.number()),
    }
}

fn put_read(
    form: Form,
    found: Result<Card, Refusal>,
    recording: &[u8],
    n: u16,
    out: &mut [u8],
    at: usize,
) -> usize
    ensures { (out.new, result) ≡ typed (card_text form recording.now n (found_of found)) (out.old, at) }
{
    match found {
        Ok(card) => put_started(form, start(card, recording), recording, n, out, at),
        Err(why) => put_refused(out, at, why.number()),
    }
}

#[tactic(auto, unfolding(crate::specs::Printed::printed_as), using(text::specs::Typing::then_typed, crate::proofs::Texts::capped))]
fn put_ride(form: Form, card: &[u8], recording: &[u8], out: &mut [u8]) -> usize
    ensures { (out.new, result) ≡ typed (printed_as form card.now recording.now) (out.old, 0) }
{
    let at = put_form_heading(form, out, 0);
    let found = card_in(card, HIGHEST);
    put_read(form, found, recording, samples(recording), out, at)
}

// The session that the recording starts on this card, or the refusal of the reader or of the start.
#[tactic(auto, using(crate::proofs::Texts::start_refused), unfolding(crate::specs::Printed::start_on))]
pub fn start_on(card: &[u8], recording: &[u8]) -> Result<Session, Refusal>
    ensures { opened_of result ≡ start_on card.now recording.now }
{
    let read = card_in(card, HIGHEST)?;
    start(read, recording)
}

// The heading, at the buffer's start. Answers how many bytes of it the buffer now holds; the rest is as it was.
pub fn print_heading(form: Form, out: &mut [u8]) -> usize
    ensures value { result ≡ min (length (heading_of form)) (length out.old) }
    ensures out_after { out.new ≡ over (length (heading_of form)) (heading_of form) out.old }
    ensures upper_bound { result ≤ length out.new }
{
    put_form_heading(form, out, 0)
}

// The ride of this recording on this card as text, at the buffer's start: the heading, the card's refusal, 14, 7, or a line
// a sample until one is refused. Answers how many bytes of it the buffer now holds: all, where there is room, else what
// there is room for. The rest of the buffer is as it was.
pub fn print_ride(form: Form, card: &[u8], recording: &[u8], out: &mut [u8]) -> usize
    ensures value { result ≡ min (length (printed_as form card.now recording.now)) (length out.old) }
    ensures out_after { out.new ≡ over (length (printed_as form card.now recording.now)) (printed_as form card.now recording.now) out.old }
    ensures upper_bound { result ≤ length out.new }
{
    put_ride(form, card, recording, out)
}
