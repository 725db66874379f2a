// What belongs to stop besides the main control: the limit that stays alongside, the armed override, the reminder.
ghost use Rattle.std.specs.Prelude.{◌≡◌, ◌*◌};
ghost use Rattle.signals.specs.Stop.{stop_speed, none_alongside, starts_alongside, alongside_older, alongside_after, disarmed, armed_now, override_older, fresh_as, reminder_older, is_off, is_lit, reminder_missed, is_due, first_met, is_pressed, second_met, reminded_of, takes_press, pressed_of};

use crate::control::Main;

// A flag and no `Option`: refusal 8 is promised of a session whose age here is out of range, also where no stop stays alongside (`desk_inside`).
#[derive(Clone, Copy)]
pub struct Alongside {
    pub on: bool,
    pub age: u16,
    pub increased: bool,
}

// A flag and no `Option`: refusal 8 is promised of a session whose age here is out of range, also where none is armed (`desk_inside`).
#[derive(Clone, Copy)]
pub struct Override {
    pub armed: bool,
    pub age: u16,
}

// `Due`: the stop of a beacon 8 passed under override, not yet 200 m back. `Pressed`: the first was answered. `Off` is one of the phases:
// numbers stand beside it too (see `Reminder`).
#[derive(Clone, Copy, PartialEq, Eq)]
pub enum Phase {
    Off,
    Due,
    First,
    Pressed,
    Second,
}

// `age` is that of the lit reminder; `fast` counts the samples at 5 km/h or more and `distance` the travel since the press. They stand
// beside every phase: refusal 8 is promised of a session with one of them out of range, also where the reminder is off (`desk_inside`).
#[derive(Clone, Copy)]
pub struct Reminder {
    pub phase: Phase,
    pub age: u16,
    pub fast: u16,
    pub distance: u32,
}

// Hundredths of km/h of a stop, T being `top`.
pub fn stop_speed(increased: bool, top: u32) -> u32
    ensures { result ≡ stop_speed increased top }
{
    if increased { top.min(10_000) } else { 4000 }
}

impl Alongside {
    pub fn none() -> Alongside
        ensures { result ≡ none_alongside }
    {
        Alongside {
            on: false,
            age: 0,
            increased: false,
        }
    }

    // A stop stays alongside from this sample on, with the value it had.
    pub fn starts(increased: bool) -> Alongside
        ensures { result ≡ starts_alongside increased }
    {
        Alongside {
            on: true,
            age: 0,
            increased,
        }
    }

    #[tactic(auto, unfolding(crate::specs::Stop::alongside_older))]
    pub fn older(self) -> Alongside
        ensures { result ≡ alongside_older self }
    {
        let age = leaf::older(self.age);
        Alongside {
            on: self.on && age < 200,
            age,
            ..self
        }
    }

    // What stays alongside when another main control than stop takes over from `main`.
    #[tactic(auto, unfolding(crate::specs::Stop::alongside_after))]
    pub fn after(self, main: Main) -> Alongside
        ensures { result ≡ alongside_after main self }
    {
        if main.is_stop() {
            Alongside::starts(main.increased)
        } else {
            self
        }
    }
}

impl Override {
    pub fn disarmed() -> Override
        ensures { result ≡ disarmed }
    {
        Override {
            armed: false,
            age: 0,
        }
    }

    pub fn armed_now() -> Override
        ensures { result ≡ armed_now }
    {
        Override {
            armed: true,
            age: 0,
        }
    }

    #[tactic(auto, unfolding(crate::specs::Stop::override_older))]
    pub fn older(self) -> Override
        ensures { result ≡ override_older self }
    {
        let age = leaf::older(self.age);
        Override {
            armed: self.armed && age < 100,
            age,
        }
    }
}

impl Reminder {
    // A reminder that comes to this phase in this sample: its counts start afresh.
    pub fn fresh(phase: Phase) -> Reminder
        ensures { result ≡ fresh_as phase }
    {
        Reminder {
            phase,
            age: 0,
            fast: 0,
            distance: 0,
        }
    }

    #[tactic(auto, unfolding(crate::specs::Stop::reminder_older))]
    pub fn older(self, m: u32) -> Reminder
        ensures { result ≡ reminder_older m self }
    {
        let fast = if leaf::below(m, 500) {
            self.fast
        } else {
            leaf::older(self.fast)
        };
        Reminder {
            age: leaf::older(self.age),
            fast,
            distance: leaf::further(self.distance, m),
            ..self
        }
    }

    pub fn is_off(self) -> bool
        ensures { result ≡ is_off self.phase }
    {
        self.phase == Phase::Off
    }

    pub fn is_lit(self) -> bool
        ensures { result ≡ is_lit self.phase }
    {
        matches!(self.phase, Phase::First | Phase::Second)
    }

    fn is_due(self) -> bool
        ensures { result ≡ is_due self.phase }
    {
        self.phase == Phase::Due
    }

    fn is_pressed(self) -> bool
        ensures { result ≡ is_pressed self.phase }
    {
        self.phase == Phase::Pressed
    }

    #[tactic(auto, unfolding(crate::specs::Stop::reminder_missed))]
    pub fn missed(self) -> bool
        ensures { result ≡ reminder_missed self }
    {
        self.is_lit() && 50 <= self.age
    }

    // The first reminder's rule, whatever function 2 says.
    #[tactic(auto, unfolding(crate::specs::Stop::first_met))]
    pub fn first_met(self, main: Main) -> bool
        ensures { result ≡ first_met main self }
    {
        self.is_due() && main.is_stop() && 2_000_000 <= main.distance
    }

    // The second reminder's rule: X samples (X/2 where the stop is increased) or Y metres since the press. X and Y one by one, here and in
    // `reminded`: desk has them in a struct, `Reminders`, and stands above this crate.
    #[tactic(auto, unfolding(crate::specs::Stop::second_met))]
    fn second_met(self, increased: bool, x: u16, y: u16) -> bool
        ensures { result ≡ second_met increased x y self }
    {
        let wait = if increased { x / 2 } else { x };
        let way = leaf::travel(y, 10_000);
        self.is_pressed() && (wait <= self.fast || way <= self.distance)
    }

    // The reminder after its step of a sample: missed, lit, or as it was.
    #[tactic(auto, unfolding(crate::specs::Stop::reminded_of))]
    pub fn reminded(self, main: Main, reminds: bool, x: u16, y: u16) -> Reminder
        ensures { result ≡ reminded_of main reminds x y self }
    {
        if self.missed() {
            Reminder::fresh(Phase::Off)
        } else if reminds && self.first_met(main) {
            Reminder::fresh(Phase::First)
        } else if self.second_met(main.increased, x, y) {
            Reminder::fresh(Phase::Second)
        } else {
            self
        }
    }

    // Does a press of override now answer it.
    #[tactic(auto, unfolding(crate::specs::Stop::takes_press))]
    pub fn takes_press(self) -> bool
        ensures { result ≡ takes_press self }
    {
        self.is_lit() && 1 <= self.age
    }

    // The reminder after a press: the first is followed by the wait for the second, the second by nothing.
    pub fn pressed(self) -> Reminder
        ensures { result ≡ pressed_of self.phase }
    {
        Reminder::fresh(match self.phase {
            Phase::First => Phase::Pressed,
            Phase::Second => Phase::Off,
            unlit => unlit,
        })
    }
}
