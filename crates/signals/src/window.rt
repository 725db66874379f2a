// A window: what a beacon's reading waits for, how long still, and the age and distance of that reading.
ghost use Rattle.std.specs.Prelude.{◌≡◌, ◌-◌};
ghost use Rattle.signals.specs.Windows.{closed, opened, is_open, window_older, missed_of, waits_for, answers_of, time_left, asks_of};

use leaf::button;

// The time to the miss of a fresh window.
pub const MISS_TIME: u16 = 30;

// The stop zone's window has a longer one.
pub const ZONE_MISS: u16 = 40;

// It is lit, and can be pressed, from this age.
const ZONE_PRESS: u16 = 10;

// Which reading waits. `Zone` is the window of the stop zone, `Limit` that of beacons 10 and 11. `Nothing` is one of them: numbers stand
// beside it too (see `Window`).
#[derive(Clone, Copy, PartialEq, Eq)]
pub enum Waits {
    Nothing,
    One,
    Two,
    Five,
    Six,
    Seven,
    Zone,
    Nine,
    Limit,
}

// `left` is the time to the miss, which a reading inherits from the window that it displaces; `age` and
// `distance` are those of the reading itself. `Nothing` and no `Option`: refusal 8 is promised of a session with one of these numbers out of
// range, also where the window is closed (`desk_inside`).
#[derive(Clone, Copy)]
pub struct Window {
    pub waits: Waits,
    pub left: u16,
    pub age: u16,
    pub distance: u32,
}

impl Window {
    pub fn closed() -> Window
        ensures { result ≡ closed }
    {
        Window {
            waits: Waits::Nothing,
            left: 0,
            age: 0,
            distance: 0,
        }
    }

    // The window of a reading in this sample.
    pub fn opened(waits: Waits, left: u16) -> Window
        ensures { result ≡ opened waits left }
    {
        Window {
            waits,
            left,
            age: 0,
            distance: 0,
        }
    }

    pub fn is_open(self) -> bool
        ensures { result ≡ is_open self.waits }
    {
        self.waits != Waits::Nothing
    }

    // One sample on, with a travel of m.
    #[tactic(auto, unfolding(crate::specs::Windows::window_older))]
    pub fn older(self, m: u32) -> Window
        ensures { result ≡ window_older m self }
    {
        Window {
            left: self.left.saturating_sub(1),
            age: leaf::older(self.age),
            distance: leaf::further(self.distance, m),
            ..self
        }
    }

    #[tactic(auto, unfolding(crate::specs::Windows::missed_of))]
    pub fn missed(self) -> bool
        ensures { result ≡ missed_of self }
    {
        self.is_open() && self.left == 0
    }

    // The mask of the buttons that answer the window now: its lamps, and the right presses.
    pub fn waits_for(self) -> u16
        ensures { result ≡ waits_for self.waits self.age }
    {
        match self.waits {
            Waits::Nothing => 0,
            Waits::One => {
                button::ANNOUNCEMENT
                    | button::PREANNOUNCEMENT
                    | button::CAUTION
                    | button::CROSSING
                    | button::LIMIT
            }
            Waits::Two => button::CONDITIONAL_CLEAR,
            Waits::Five => button::PREANNOUNCEMENT,
            Waits::Six => button::CAUTION,
            Waits::Seven => button::BEFORE_STOP,
            Waits::Zone if self.age < ZONE_PRESS => 0,
            Waits::Zone => button::BEFORE_STOP,
            Waits::Nine => button::CROSSING | button::LIMIT,
            Waits::Limit => button::LIMIT,
        }
    }

    // Is the button of this weight a right press.
    #[tactic(auto, unfolding(crate::specs::Windows::answers_of))]
    pub fn answers(self, weight: u16) -> bool
        ensures { result ≡ answers_of self weight }
    {
        leaf::has_bit(self.waits_for(), weight)
    }

    // The time to the miss of a reading that comes now: this window's, where it is open.
    #[tactic(auto, unfolding(crate::specs::Windows::time_left))]
    pub fn time_left(self, fresh: u16) -> u16
        ensures { result ≡ time_left self fresh }
    {
        if self.is_open() { self.left } else { fresh }
    }

    // Did the reading leave it to the answer which control is set: beacons 1 and 9.
    pub fn asks(self) -> bool
        ensures { result ≡ asks_of self.waits }
    {
        matches!(self.waits, Waits::One | Waits::Nine)
    }
}
