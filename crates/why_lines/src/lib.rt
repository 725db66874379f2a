// Why S is what it is, as text: of a sample a line of numbers, or a line in words where what is named changed.
//
// Each function types from the place `at` on, as those of `text` do. There is no `requires`.
#![tactic(auto)]

ghost use Rattle.std.specs.Prelude.{◌≡◌, [], ◌∷◌, not, eqb};
ghost use Rattle.text.specs.Decimal.{line};
ghost use Rattle.text.specs.Typing.{typed};
ghost use Rattle.why_lines.specs.Numbers.{why_line};
ghost use Rattle.why_lines.specs.Words.{place_in, main_text, crossing_text, name_text, name_in, kmh_text, aged_text, age_text, cause_text, braked_text, brake_text, named_text, words_line, says_in, words_text};

use session::{Session, Why};
use sides::crossing::CrossingKind;
use signals::control::MainKind;
use step::speed::{Reason, reason_number};
use text::{put_ended, put_hundredths, put_number, put_tenths, put_text};

// ---- numbers

#[tactic(auto, using(text::specs::Typing::then_typed))]
fn put_age_and_brake(out: &mut [u8], at: usize, why: Why) -> usize
    ensures { (out.new, result) ≡ typed (line why.age (why.cause ∷ why.since ∷ [])) (out.old, at) }
{
    let at = put_ended(out, at, why.age.into(), b' ');
    let at = put_ended(out, at, why.cause.into(), b' ');
    put_ended(out, at, why.since.into(), b'\n')
}

// The line of the sample with this number: S, the reason, its age, the standing cause, and how many samples ago the brake came on.
#[tactic(auto, unfolding(crate::specs::Numbers::why_line), using(text::specs::Typing::then_typed))]
pub fn put_why(out: &mut [u8], at: usize, number: u32, why: Why) -> usize
    ensures { (out.new, result) ≡ typed (why_line number why) (out.old, at) }
{
    let at = put_ended(out, at, number, b' ');
    let at = put_ended(out, at, why.speed, b' ');
    let at = put_ended(out, at, reason_number(why.reason).into(), b' ');
    put_age_and_brake(out, at, why)
}

// ---- the name of the limit that sets S

fn main_name(kind: MainKind) -> &'static [u8]
    ensures { result.now ≡ main_text kind }
{
    match kind {
        MainKind::Clear => b"no main limit",
        MainKind::Start => b"start",
        MainKind::ConditionalClear => b"conditional clear",
        MainKind::Announcement => b"stop announcement",
        MainKind::Preannouncement => b"preannouncement",
        MainKind::Caution => b"caution",
        MainKind::BeforeStop => b"before-stop",
        MainKind::Stop => b"stop",
        MainKind::Zone => b"stop zone",
    }
}

fn crossing_name(kind: CrossingKind) -> &'static [u8]
    ensures { result.now ≡ crossing_text kind }
{
    match kind {
        CrossingKind::Absent => b"no crossing",
        CrossingKind::Protected => b"protected crossing",
        CrossingKind::Unprotected => b"unprotected crossing",
    }
}

// The words for no limit, no main limit and no crossing are never typed: vmax and T stand always, and what does not stand sets nothing.
fn name(reason: Reason, main: MainKind, crossing: CrossingKind) -> &'static [u8]
    ensures { result.now ≡ name_text reason main crossing }
{
    match reason {
        Reason::None => b"no limit",
        Reason::Vmax => b"vmax",
        Reason::Train => b"T of the train type",
        Reason::Bts => b"BTS speed",
        Reason::Main => main_name(main),
        Reason::Alongside => b"stop alongside",
        Reason::Crossing => crossing_name(crossing),
        Reason::Limit => b"limit",
        Reason::Paired => b"paired limit",
    }
}

#[tactic(auto, unfolding(crate::specs::Words::name_in))]
fn name_in(session: Session) -> &'static [u8]
    ensures { result.now ≡ name_in session }
{
    name(
        session.why_now().reason,
        session.desk.main.kind,
        session.desk.beside.crossing.kind,
    )
}

// ---- its value and age

// Hundredths of km/h in km/h: whole, or with two decimals.
#[tactic(auto, unfolding(crate::specs::Words::kmh_text))]
fn put_kmh(out: &mut [u8], at: usize, speed: u32) -> usize
    ensures { (out.new, result) ≡ typed (kmh_text speed) (out.old, at) }
{
    if speed % 100 == 0 {
        return put_number(out, at, speed / 100);
    }
    put_hundredths(out, at, speed)
}

fn put_aged(out: &mut [u8], at: usize, age: u16) -> usize
    ensures { (out.new, result) ≡ typed (aged_text age) (out.old, at) }
{
    let at = put_text(out, at, b", ");
    let at = put_tenths(out, at, age.into());
    put_text(out, at, b" s old")
}

// Nothing for vmax, T and the BTS speed, which have no age.
#[tactic(auto, unfolding(crate::specs::Words::age_text, text::specs::Typing::typed))]
fn put_age(out: &mut [u8], at: usize, reason: Reason, age: u16) -> usize
    ensures { (out.new, result) ≡ typed (age_text reason age) (out.old, at) }
{
    match reason {
        Reason::None | Reason::Vmax | Reason::Train | Reason::Bts => at,
        _ => put_aged(out, at, age),
    }
}

// ---- the brake

// A standing cause in words; nothing where there is no such cause.
#[tactic(auto, unfolding(text::specs::Words::word_of))]
fn cause_name(cause: u8) -> &'static [u8]
    ensures { result.now ≡ cause_text cause }
{
    match cause {
        1 => b"a main window missed",
        2 => b"a side window missed",
        3 => b"a reminder missed",
        4 => b"a stop signal passed without override",
        5 => b"too fast",
        6 => b"the pickup is quiet",
        _ => b"",
    }
}

fn put_braked(out: &mut [u8], at: usize, cause: u8, since: u16) -> usize
    ensures { (out.new, result) ≡ typed (braked_text cause since) (out.old, at) }
{
    let at = put_text(out, at, b"; braked ");
    let at = put_tenths(out, at, since.into());
    let at = put_text(out, at, b" s ago: ");
    put_text(out, at, cause_name(cause))
}

// `before` is the cause that stood before the sample. Causes are numbers, 0 for none (`brake_text`).
#[tactic(auto, unfolding(crate::specs::Words::brake_text, text::specs::Typing::typed))]
fn put_brake(out: &mut [u8], at: usize, before: u8, cause: u8, since: u16) -> usize
    ensures { (out.new, result) ≡ typed (brake_text before cause since) (out.old, at) }
{
    if cause != 0 {
        return put_braked(out, at, cause, since);
    }
    if before != 0 {
        return put_text(out, at, b"; brake off");
    }
    at
}

// ---- the line in words

// S, what sets it, and its age.
#[tactic(auto, unfolding(crate::specs::Words::named_text), using(text::specs::Typing::then_typed))]
fn put_named(out: &mut [u8], at: usize, session: Session, why: Why) -> usize
    ensures { (out.new, result) ≡ typed (named_text session why) (out.old, at) }
{
    let at = put_kmh(out, at, why.speed);
    let at = put_text(out, at, b" km/h  ");
    let at = put_text(out, at, name_in(session));
    put_age(out, at, why.reason, why.age)
}

#[tactic(auto, unfolding(crate::specs::Words::words_line), using(text::specs::Typing::then_typed))]
fn put_line(out: &mut [u8], at: usize, number: u32, before: Session, after: Session) -> usize
    ensures { (out.new, result) ≡ typed (words_line number before after) (out.old, at) }
{
    let why = after.why_now();
    let at = put_number(out, at, number);
    let at = put_text(out, at, b"  ");
    let at = put_named(out, at, after, why);
    let at = put_brake(out, at, before.desk.brake.cause, why.cause, why.since);
    put_text(out, at, b"\n")
}

// Is another limit named after a sample than before it.
fn is_renamed(before: Session, after: Session) -> bool
    ensures { result ≡ not (eqb (place_in before) (place_in after)) }
{
    name_in(before) != name_in(after)
}

// Has the sample with this number a line: the first always, any other where the name or the standing cause changed.
#[tactic(auto, unfolding(crate::specs::Words::says_in))]
fn says_in(number: u32, before: Session, after: Session) -> bool
    ensures { result ≡ says_in number before after }
{
    number == 1 || is_renamed(before, after) || before.desk.brake.cause != after.desk.brake.cause
}

// The line in words of the sample with this number, `before` being the session before it and `after` the one after it; nothing where nothing
// that is named changed.
#[tactic(auto, unfolding(crate::specs::Words::words_text, text::specs::Typing::typed))]
pub fn put_words(out: &mut [u8], at: usize, number: u32, before: Session, after: Session) -> usize
    ensures { (out.new, result) ≡ typed (words_text number before after) (out.old, at) }
{
    if says_in(number, before, after) {
        return put_line(out, at, number, before, after);
    }
    at
}
