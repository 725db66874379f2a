// The desk's state: its members, what each new main control does to them, and what a mode change drops.
ghost use Rattle.std.specs.Prelude.{◌≡◌};
ghost use Rattle.desk.specs.State.{taken_over, crossing_set, limit_now, fresh_desk, resting_of, mode_changed};

use crate::beside::Beside;
use crate::brake::Brake;
use sides::crossing::CrossingOption;
use signals::control::{Main, MainKind};
use signals::stop::{Override, Phase, Reminder};
use signals::window::Window;

// `bts` is the mode, `code` the last code, `window` the main window. The brake comes last in memory, where a sample costs least
// (tests/cost).
#[derive(Clone, Copy)]
pub struct Desk {
    pub bts: bool,
    pub code: u8,
    pub main: Main,
    pub window: Window,
    pub side: Window,
    pub armed: Override,
    pub reminder: Reminder,
    pub option: CrossingOption,
    pub beside: Beside,
    pub brake: Brake,
}

impl Desk {
    // A main control other than stop takes over, with the age and distance that its setting gives it: two arguments, as windows and
    // controls hold two members, which specs/ reads one by one.
    #[tactic(auto, unfolding(crate::specs::State::taken_over))]
    pub fn take_over(mut self, kind: MainKind, age: u16, distance: u32) -> Desk
        ensures { result ≡ taken_over kind age distance self }
    {
        self.beside.alongside = self.beside.alongside.after(self.main);
        self.reminder = Reminder::fresh(Phase::Off);
        self.main = Main::new(kind, age, distance);
        self
    }

    // An unprotected crossing is set, with the age and distance of its reading. Two arguments, as in `take_over`.
    #[tactic(auto, unfolding(crate::specs::State::crossing_set))]
    pub fn set_unprotected(mut self, age: u16, distance: u32) -> Desk
        ensures { result ≡ crossing_set age distance self }
    {
        self.beside.crossing = self.beside.crossing.set_unprotected(age, distance);
        self
    }

    // The limit is set by a reading of this age, as it is read or by its answer.
    #[tactic(auto, unfolding(crate::specs::State::limit_now))]
    pub fn set_limit(mut self, age: u16, answered: bool) -> Desk
        ensures { result ≡ limit_now answered age self }
    {
        self.beside.limit = self.beside.limit.set(age, answered);
        self
    }

    // A desk as it opens: in CONV with the start row as main, last code 0, no brake, at standstill.
    pub fn fresh() -> Desk
        ensures { result ≡ fresh_desk }
    {
        Desk {
            bts: false,
            code: 0,
            brake: Brake::opening(),
            main: Main::new(MainKind::Start, 0, 0),
            window: Window::closed(),
            side: Window::closed(),
            armed: Override::disarmed(),
            reminder: Reminder::fresh(Phase::Off),
            option: CrossingOption::none(),
            beside: Beside::nothing(),
        }
    }

    // The mode changes: entering BTS drops all, leaving drops all and sets start. Last code and brake stay, and for how long the desk has
    // stood.
    #[tactic(auto, unfolding(crate::specs::State::mode_changed))]
    pub fn change_mode(self, bts: bool) -> Desk
        ensures { result ≡ mode_changed bts self }
    {
        Desk {
            bts,
            code: self.code,
            brake: self.brake,
            main: resting(bts),
            ..Desk::fresh()
        }
    }
}

// The main control that a mode change leaves: none in BTS, start in CONV. By `resting_of`; a `From<bool>` would not say which flag is
// meant.
fn resting(bts: bool) -> Main
    ensures { result ≡ resting_of bts }
{
    if bts {
        Main::new(MainKind::Clear, 0, 0)
    } else {
        Main::new(MainKind::Start, 0, 0)
    }
}
