// One sample of the desk: the supervised speed, the brake, the lamps, and all steps in document 01's order, with the
// answer. Total on every value: it knows no refusal, and takes T and the settings as values.
#![tactic(auto)]

pub mod brake;
pub mod speed;

ghost use Rattle.std.specs.Prelude.{◌≡◌};
ghost use Rattle.step.specs.Step.{moved_of, limit_goes, answer_of, arose_of, judged_of, step_of};

use beacons::take_beacon;
use brake::{lamps_of, lowest, put_brake};
use buttons::{Bounds, take_buttons};
use card::{Card, Settings};
use desk::clock::{Reminders, Turn, begin};
use desk::state::Desk;
use leaf::{QUIET_CODE, button, has_bit};
use speed::{Standing, reason_at, too_fast, turn_crossing};

// What the desk takes of an accepted sample: speed and travel, pulses, beacon code, buttons, and the mode.
#[derive(Clone, Copy)]
pub struct Input {
    pub m: u32,
    pub pulses: u16,
    pub beacon: u8,
    pub buttons: u16,
    pub bts: bool,
}

// S, lamps, standing cause (0 none), crossing icon (0, 1 protected, 2 unprotected), limit standing or not: the numbers of document 01's answer,
// as the ride prints them.
#[derive(Clone, Copy)]
pub struct Answer {
    pub speed: u32,
    pub lamps: u16,
    pub cause: u8,
    pub icon: u8,
    pub limit: bool,
}

// The next desk, the lowest cause that arose in the sample, the answer, and the limit that sets its S. What arose is a number, 0 for none:
// `judged_of` and what is proved of every sample reckon with it.
#[derive(Clone, Copy)]
pub struct Stepped {
    pub desk: Desk,
    pub arose: u8,
    pub answer: Answer,
    pub named: Standing,
}

// The version of cards that have pairs of limit beacons.
const PAIRS_VERSION: u8 = 3;

// Mode, ages and misses, buttons, beacon.
#[tactic(auto, unfolding(crate::specs::Step::moved_of, desk::specs::Clock::begun, beacons::specs::Beacons::beacon_taken, buttons::specs::Buttons::presses_of, crate::specs::Brake::lowest, desk::specs::State::mode_changed, desk::specs::Clock::advanced, beacons::specs::Beacons::read_if, beacons::specs::Beacons::reads_of, buttons::specs::Buttons::all_presses))]
fn moved(d: Desk, card: Card, top: u32, x: Input) -> Turn
    ensures { result ≡ moved_of card top x d }
{
    let Card { version, settings } = card;
    let functions = card::functions_of(settings.functions);
    let reminders = Reminders {
        on: functions.reminds,
        x: settings.x,
        y: settings.y,
    };
    let begun = begin(d, x.bts, x.m, reminders);
    // no press, and the code of the sample before: there is nothing to take
    if x.buttons == 0 && x.beacon == begun.desk.code {
        return begun;
    }
    let has_pairs = version == PAIRS_VERSION;
    let bounds = Bounds {
        m: x.m,
        pairs: has_pairs,
        row: settings.limit,
        top,
    };
    let pressed = take_buttons(begun.desk, x.buttons, bounds);
    let pairs = if has_pairs {
        Some(settings.pairs)
    } else {
        None
    };
    let read = take_beacon(pressed, x.beacon, functions, pairs);
    Turn {
        desk: read.desk,
        cause: lowest(begun.cause, read.cause),
    }
}

// May a limit go at m mm/s, the single one or a paired one; `last` is row 6's final. m and T one by one, here and in `answer_at`, as the
// definitions take them: a struct of them would be built for the one call of each.
#[tactic(auto, unfolding(crate::specs::Step::limit_goes))]
fn limit_goes(d: Desk, m: u32, last: u8, top: u32) -> bool
    ensures { result ≡ limit_goes m last top d }
{
    d.beside.limit.is_removable(m, last, top) || d.beside.paired.limits.lowest_to_go(m, top) != 0
}

#[tactic(auto, unfolding(crate::specs::Step::answer_of))]
fn answer_at(d: Desk, settings: Settings, top: u32, m: u32, still: bool, speed: u32) -> Answer
    ensures { result ≡ answer_of settings top m still speed d }
{
    let goes = limit_goes(d, m, settings.limit.last, top);
    Answer {
        speed,
        lamps: lamps_of(d, goes, still),
        cause: d.brake.cause,
        icon: d.beside.crossing.icon(),
        limit: d.beside.limit.on || d.beside.paired.limits.any(),
    }
}

// The lowest cause of a sample: of those that arose in the steps before it, too fast, and a quiet pickup outside BTS. Causes are numbers, 0 for
// none, as in `lowest` and `arose_of`.
#[tactic(auto, unfolding(crate::specs::Step::arose_of, crate::specs::Brake::lowest))]
fn arose_at(x: Input, cause: u8, speed: u32) -> u8
    ensures { result ≡ arose_of cause x.m speed x.beacon x.bts }
{
    let fast = if too_fast(x.m, speed) { 5 } else { 0 };
    let before = lowest(cause, fast);
    if x.beacon == QUIET_CODE && !x.bts {
        lowest(before, 6)
    } else {
        before
    }
}

// Speed and brake, over what the steps before made.
#[tactic(auto, using(crate::proofs::Reasons::reason_speed), unfolding(crate::specs::Step::judged_of))]
fn judged(d: Desk, settings: Settings, top: u32, x: Input, cause: u8) -> Stepped
    ensures { result ≡ judged_of settings top x cause d }
{
    let turned = turn_crossing(d, x.m);
    let named = reason_at(turned, settings, top);
    let arose = arose_at(x, cause, named.speed);
    let still = turned.brake.at_standstill(x.pulses);
    let rearm = still && has_bit(x.buttons, button::REARM);
    let desk = put_brake(turned, arose, rearm, x.pulses);
    Stepped {
        desk,
        arose,
        answer: answer_at(desk, settings, top, x.m, still, named.speed),
        named,
    }
}

// One sample; `top` is T in hundredths of km/h.
#[tactic(auto, unfolding(crate::specs::Step::step_of))]
pub fn step(d: Desk, card: Card, top: u32, x: Input) -> Stepped
    ensures { result ≡ step_of card top x d }
{
    let turn = moved(d, card, top, x);
    judged(turn.desk, card.settings, top, x, turn.cause)
}
