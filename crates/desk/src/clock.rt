// The second step of a sample: ages and distances advance, endings, reminders and missed windows; or, where the mode
// changes, the mode step in its place, after which nothing is left to advance.
ghost use Rattle.std.specs.Prelude.{◌≡◌};
ghost use Rattle.desk.specs.Clock.{desk_older, reminded, main_counts, side_counts, main_missed, side_missed, miss_cause, advanced, begun};

use crate::state::Desk;
use signals::control::MainKind;
use signals::window::Window;

// A desk, and the lowest cause that arose on the way to it. The cause is a number, 0 for none: `begun`, `moved_of` and what is proved of
// them reckon with it.
#[derive(Clone, Copy)]
pub struct Turn {
    pub desk: Desk,
    pub cause: u8,
}

// What a card says of the reminder: whether there is one, and X and Y of the second. A flag and no `Option`: where there is none, X and
// Y still say when a second one is due (`reminded_of`).
#[derive(Clone, Copy)]
pub struct Reminders {
    pub on: bool,
    pub x: u16,
    pub y: u16,
}

// The lowest of the causes that a miss gives: main window 1, side window 2, reminder 3. A number, 0 for none, by `miss_cause` of specs/,
// as all causes are.
fn miss_cause(main: bool, side: bool, reminder: bool) -> u8
    ensures { result ≡ miss_cause main side reminder }
{
    if main {
        1
    } else if side {
        2
    } else if reminder {
        3
    } else {
        0
    }
}

// Every age and distance one sample on, with the endings that they bring.
#[tactic(auto, unfolding(crate::specs::Clock::desk_older))]
fn older(d: Desk, m: u32) -> Desk
    ensures { result ≡ desk_older m d }
{
    Desk {
        main: d.main.older(m),
        window: d.window.older(m),
        side: d.side.older(m),
        armed: d.armed.older(),
        reminder: d.reminder.older(m),
        option: d.option.older(m),
        beside: d.beside.older(m),
        ..d
    }
}

#[tactic(auto, unfolding(crate::specs::Clock::reminded, signals::specs::Stop::reminded_of, signals::specs::Stop::first_met, signals::specs::Stop::second_met, signals::specs::Stop::reminder_missed))]
fn remind(d: Desk, reminders: Reminders) -> Desk
    ensures { result ≡ reminded reminders.on reminders.x reminders.y d }
{
    if d.reminder.is_off() {
        return d;
    }
    let Reminders { on, x, y } = reminders;
    Desk {
        reminder: d.reminder.reminded(d.main, on, x, y),
        ..d
    }
}

// A main window that goes unanswered: beacon 1 counts as announcement.
#[tactic(auto, unfolding(crate::specs::Clock::main_counts))]
pub fn count_main(d: Desk) -> Desk
    ensures { result ≡ main_counts d }
{
    if d.window.asks() {
        d.take_over(MainKind::Announcement, d.window.age, d.window.distance)
    } else {
        d
    }
}

// A side window that goes unanswered: beacon 9 counts as unprotected crossing. Beside the main window's it has another window, another
// control and another member that is stored; both have no more in common than an `if`, here and in `miss_side`.
#[tactic(auto, unfolding(crate::specs::Clock::side_counts))]
pub fn count_side(d: Desk) -> Desk
    ensures { result ≡ side_counts d }
{
    if d.side.asks() {
        d.set_unprotected(d.side.age, d.side.distance)
    } else {
        d
    }
}

// It and `miss_side` store one member each, and a definition names each (`main_missed`, `side_missed`): they have no more in common than
// an `if`.
#[tactic(auto, unfolding(crate::specs::Clock::main_missed))]
fn miss_main(d: Desk, missed: bool) -> Desk
    ensures { result ≡ main_missed missed d }
{
    if missed {
        Desk {
            window: Window::closed(),
            ..count_main(d)
        }
    } else {
        d
    }
}

#[tactic(auto, unfolding(crate::specs::Clock::side_missed))]
fn miss_side(d: Desk, missed: bool) -> Desk
    ensures { result ≡ side_missed missed d }
{
    if missed {
        Desk {
            side: Window::closed(),
            ..count_side(d)
        }
    } else {
        d
    }
}

// Both windows are judged before the reminder is, so that a miss hands down what was found. Cause 0 is none, as `Turn` has it.
#[tactic(auto, unfolding(crate::specs::Clock::advanced, crate::specs::Clock::main_missed, crate::specs::Clock::reminded, crate::specs::Clock::desk_older, signals::specs::Windows::missed_of, signals::specs::Stop::reminder_missed, crate::specs::Clock::side_missed))]
fn advance(d: Desk, m: u32, reminders: Reminders) -> Turn
    ensures { result ≡ advanced m reminders.on reminders.x reminders.y d }
{
    let d = older(d, m);
    let main = d.window.missed();
    let side = d.side.missed();
    let cause = miss_cause(main, side, d.reminder.missed());
    let d = remind(d, reminders);
    if cause == 0 {
        return Turn { desk: d, cause };
    }
    Turn {
        desk: miss_side(miss_main(d, main), side),
        cause,
    }
}

// The first two steps of a sample, in the mode that it carries.
#[tactic(auto, unfolding(crate::specs::Clock::begun))]
pub fn begin(d: Desk, bts: bool, m: u32, reminders: Reminders) -> Turn
    ensures { result ≡ begun bts m reminders.on reminders.x reminders.y d }
{
    if d.bts == bts {
        advance(d, m, reminders)
    } else {
        Turn {
            desk: d.change_mode(bts),
            cause: 0,
        }
    }
}
