// The third step of a sample: the buttons newly pressed, lowest bit first. A press serves one use: main, then side, then others.
#![tactic(auto)]

ghost use Rattle.std.specs.Prelude.{◌≡◌, true};
ghost use Rattle.leaf.specs.Numbers.{bit_of};
ghost use Rattle.leaf.specs.Buttons.{crossing_button, limit_button, override_button, increase_button, hide_button};
ghost use Rattle.buttons.specs.Buttons.{chosen, answered_by, pressed, free_for, paired_removed, single_first, lowest_removed, crossing_pressed, limit_pressed, override_pressed, increase_pressed, hide_pressed, pressed_among, window_presses, all_presses, presses_of};

use card::Row;
use curve::row_speed;
use desk::state::Desk;
use leaf::{button, has_bit};
use sides::crossing::CrossingOption;
use sides::limit::Limit;
use sides::pairs::{PairedLimit, paired_speed};
use signals::control::MainKind;
use signals::stop::Override;
use signals::window::Window;

// What limits step and go by: the speed, m mm/s; whether the card has pairs, and its row 6; and T.
#[derive(Clone, Copy)]
pub struct Bounds {
    pub m: u32,
    pub pairs: bool,
    pub row: Row,
    pub top: u32,
}

// What the button of this weight sets in answer to the beacon 1 or 9 of this window, with the age and distance of its reading.
#[tactic(auto, unfolding(crate::specs::Buttons::chosen))]
fn choose(d: Desk, weight: u16, window: Window) -> Desk
    ensures { result ≡ chosen weight window.age window.distance d }
{
    let Window { age, distance, .. } = window;
    match weight {
        button::ANNOUNCEMENT => d.take_over(MainKind::Announcement, age, distance),
        button::PREANNOUNCEMENT => d.take_over(MainKind::Preannouncement, age, distance),
        button::CAUTION => d.take_over(MainKind::Caution, age, distance),
        button::CROSSING => d.set_unprotected(age, distance),
        button::LIMIT => d.set_limit(age, true),
        _ => d,
    }
}

#[tactic(auto, unfolding(crate::specs::Buttons::answered_by))]
fn answer_by(d: Desk, window: Window, weight: u16) -> Desk
    ensures { result ≡ answered_by weight window d }
{
    if window.asks() {
        choose(d, weight, window)
    } else {
        d
    }
}

// A press of the button of this weight, as far as the windows have use for it.
#[tactic(auto, unfolding(crate::specs::Buttons::pressed, crate::specs::Buttons::main_answered, crate::specs::Buttons::side_answered))]
fn press(d: Desk, weight: u16) -> Desk
    ensures { result ≡ pressed true weight d }
{
    if d.window.answers(weight) {
        Desk {
            window: Window::closed(),
            ..answer_by(d, d.window, weight)
        }
    } else if d.side.answers(weight) {
        Desk {
            side: Window::closed(),
            ..answer_by(d, d.side, weight)
        }
    } else {
        d
    }
}

// Is a press of the button of this weight left for other uses than the windows'.
#[tactic(auto, unfolding(crate::specs::Buttons::free_for))]
fn is_free(d: Desk, weight: u16) -> bool
    ensures { result ≡ free_for true weight d }
{
    !d.window.answers(weight) && !d.side.answers(weight)
}

// The paired limit of this speed goes; none where it is 0: a number, as `lowest_to_go` answers it.
#[tactic(auto, unfolding(crate::specs::Buttons::paired_removed))]
fn remove_paired(mut d: Desk, speed: u8) -> Desk
    ensures { result ≡ paired_removed speed d }
{
    if speed == 0 {
        return d;
    }
    d.beside.paired.limits = d.beside.paired.limits.with(speed, PairedLimit::none());
    d
}

// Is the single limit the lowest that may go; `speed` is that of the lowest paired one that may, 0 where none may. That is a
// number, as `lowest_to_go` answers it.
#[tactic(auto, unfolding(crate::specs::Buttons::single_first))]
fn single_first(d: Desk, bounds: Bounds, speed: u8) -> bool
    ensures { result ≡ single_first bounds.m bounds.row bounds.top speed d }
{
    let Bounds { m, row, top, .. } = bounds;
    let limit = d.beside.limit;
    let lower = limit.final_value(row.last, top) < paired_speed(top, speed);
    limit.is_removable(m, row.last, top) && (speed == 0 || lower)
}

// The lowest limit that may go goes, of equal ones a paired one.
#[tactic(auto, unfolding(crate::specs::Buttons::lowest_removed, crate::specs::Buttons::limit_removed))]
fn remove_lowest(mut d: Desk, bounds: Bounds) -> Desk
    ensures { result ≡ lowest_removed true bounds.m bounds.row bounds.top d }
{
    let speed = d.beside.paired.limits.lowest_to_go(bounds.m, bounds.top);
    if !single_first(d, bounds, speed) {
        return remove_paired(d, speed);
    }
    d.beside.limit = Limit::none();
    d
}

// ---- each button in its turn, where it is among b

// Buttons 0 to 4: only windows have use for them.
#[tactic(auto, unfolding(crate::specs::Buttons::pressed, crate::specs::Buttons::main_answered, crate::specs::Buttons::side_answered))]
fn press_among(d: Desk, b: u16, weight: u16) -> Desk
    ensures { result ≡ pressed_among b weight d }
{
    if has_bit(b, weight) {
        press(d, weight)
    } else {
        d
    }
}

#[tactic(auto, unfolding(crate::specs::Buttons::window_presses))]
fn press_answers(d: Desk, b: u16) -> Desk
    ensures { result ≡ window_presses b d }
{
    let d = press_among(d, b, button::ANNOUNCEMENT);
    let d = press_among(d, b, button::PREANNOUNCEMENT);
    let d = press_among(d, b, button::CAUTION);
    let d = press_among(d, b, button::CONDITIONAL_CLEAR);
    press_among(d, b, button::BEFORE_STOP)
}

// Button 5: the windows, then beacon 3's option.
#[tactic(auto, unfolding(crate::specs::Buttons::crossing_pressed, crate::specs::Buttons::option_used, crate::specs::Buttons::pressed, crate::specs::Buttons::main_answered, crate::specs::Buttons::side_answered, crate::specs::Buttons::free_for))]
fn press_crossing(mut d: Desk, b: u16) -> Desk
    ensures { result ≡ crossing_pressed (bit_of b crossing_button) d }
{
    if !has_bit(b, button::CROSSING) {
        return d;
    }
    if !is_free(d, button::CROSSING) || !d.option.on {
        return press(d, button::CROSSING);
    }
    d.beside.crossing = d
        .beside
        .crossing
        .set_protected(d.option.age, d.option.distance, true);
    d.option = CrossingOption::none();
    d
}

// Button 6: the windows, then the lowest limit that may go.
#[tactic(auto, unfolding(crate::specs::Buttons::limit_pressed, crate::specs::Buttons::lowest_removed, crate::specs::Buttons::pressed, crate::specs::Buttons::main_answered, crate::specs::Buttons::side_answered, crate::specs::Buttons::free_for))]
fn press_limit(d: Desk, b: u16, bounds: Bounds) -> Desk
    ensures { result ≡ limit_pressed (bit_of b limit_button) bounds.m bounds.row bounds.top d }
{
    if !has_bit(b, button::LIMIT) {
        return d;
    }
    if is_free(d, button::LIMIT) {
        remove_lowest(d, bounds)
    } else {
        press(d, button::LIMIT)
    }
}

// Button 7: a lit reminder, or else the override. Both are dead in BTS.
#[tactic(auto, unfolding(crate::specs::Buttons::override_pressed, crate::specs::Buttons::override_armed, crate::specs::Buttons::reminder_answered, signals::specs::Stop::takes_press))]
fn press_override(mut d: Desk, b: u16) -> Desk
    ensures { result ≡ override_pressed (bit_of b override_button) d }
{
    if !has_bit(b, button::OVERRIDE) || d.bts {
        return d;
    }
    if !d.reminder.is_lit() {
        d.armed = Override::armed_now();
    } else if d.reminder.takes_press() {
        d.reminder = d.reminder.pressed();
    }
    d
}

// Button 8: stop, where it has use for it, or else the limit.
#[tactic(auto, unfolding(crate::specs::Buttons::increase_pressed, crate::specs::Buttons::stop_increased, crate::specs::Buttons::limit_stepped))]
fn press_increase(mut d: Desk, b: u16, bounds: Bounds) -> Desk
    ensures { result ≡ increase_pressed (bit_of b increase_button) bounds.pairs bounds.row bounds.top d }
{
    if !has_bit(b, button::INCREASE) {
        return d;
    }
    let Bounds {
        pairs,
        row,
        top,
        ..
    } = bounds;
    let limit = d.beside.limit;
    if d.main.may_increase() {
        d.main = d.main.increase();
    } else if limit.may_step(pairs, row_speed(row, limit.age), row.last, top) {
        d.beside.limit = limit.step();
    }
    d
}

// Button 9.
#[tactic(auto, unfolding(crate::specs::Buttons::hide_pressed))]
fn press_hide(mut d: Desk, b: u16) -> Desk
    ensures { result ≡ hide_pressed (bit_of b hide_button) d }
{
    if has_bit(b, button::HIDE) {
        d.beside.limit = d.beside.limit.hide();
    }
    d
}

#[tactic(auto, unfolding(crate::specs::Buttons::all_presses))]
fn press_all(d: Desk, b: u16, bounds: Bounds) -> Desk
    ensures { result ≡ all_presses b bounds.m bounds.pairs bounds.row bounds.top d }
{
    let d = press_answers(d, b);
    let d = press_crossing(d, b);
    let d = press_limit(d, b, bounds);
    let d = press_override(d, b);
    let d = press_increase(d, b, bounds);
    press_hide(d, b)
}

// The buttons b of a sample. Rearm belongs to the brake.
#[tactic(auto, unfolding(crate::specs::Buttons::presses_of))]
pub fn take_buttons(d: Desk, b: u16, bounds: Bounds) -> Desk
    ensures { result ≡ presses_of b bounds.m bounds.pairs bounds.row bounds.top d }
{
    if b == 0 { d } else { press_all(d, b, bounds) }
}
