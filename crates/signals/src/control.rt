// The main control: which one it is, and the age and distance of the reading that set it.
ghost use Rattle.std.specs.Prelude.{◌≡◌};
ghost use Rattle.signals.specs.MainControl.{main_of, main_older, is_stop, is_before_stop, limits_of, near_of, may_increase, increase_lit, increased};

// The stop zone is for under 80 m.
const ZONE_DISTANCE: u32 = 800_000;

// `Clear` is no main limit: after beacon 3, and in BTS. It is one of the kinds: age and distance stand beside it too (see `Main`).
#[derive(Clone, Copy, PartialEq, Eq)]
pub enum MainKind {
    Clear,
    Start,
    ConditionalClear,
    Announcement,
    Preannouncement,
    Caution,
    BeforeStop,
    Stop,
    Zone,
}

// `increased` is said of stop only. `Clear` and no `Option`: refusal 8 is promised of a session whose age or distance here is out of range,
// also where it is clear (`desk_inside`).
#[derive(Clone, Copy)]
pub struct Main {
    pub kind: MainKind,
    pub age: u16,
    pub distance: u32,
    pub increased: bool,
}

impl Main {
    // A main control with the age and distance of its reading. One by one, as a window has them, and as `main_of` takes them.
    pub fn new(kind: MainKind, age: u16, distance: u32) -> Main
        ensures { result ≡ main_of kind age distance }
    {
        Main {
            kind,
            age,
            distance,
            increased: false,
        }
    }

    #[tactic(auto, unfolding(crate::specs::MainControl::main_older))]
    pub fn older(self, m: u32) -> Main
        ensures { result ≡ main_older m self }
    {
        Main {
            age: leaf::older(self.age),
            distance: leaf::further(self.distance, m),
            ..self
        }
    }

    pub fn is_stop(self) -> bool
        ensures { result ≡ is_stop self.kind }
    {
        self.kind == MainKind::Stop
    }

    pub fn is_before_stop(self) -> bool
        ensures { result ≡ is_before_stop self.kind }
    {
        self.kind == MainKind::BeforeStop
    }

    // Does it limit the speed: every one but clear.
    pub fn limits(self) -> bool
        ensures { result ≡ limits_of self.kind }
    {
        self.kind != MainKind::Clear
    }

    // The stop-zone rule: row 4 is main and under 80 m from its reading.
    #[tactic(auto, unfolding(crate::specs::MainControl::near_of))]
    pub fn near(self) -> bool
        ensures { result ≡ near_of self }
    {
        self.is_before_stop() && self.distance < ZONE_DISTANCE
    }

    // Has stop use for increase.
    #[tactic(auto, unfolding(crate::specs::MainControl::may_increase))]
    pub fn may_increase(self) -> bool
        ensures { result ≡ may_increase self }
    {
        self.is_stop() && !self.increased && 1 <= self.age && self.age <= 99
    }

    // Is the lamp of increase lit for stop.
    #[tactic(auto, unfolding(crate::specs::MainControl::increase_lit))]
    pub fn increase_lit(self) -> bool
        ensures { result ≡ increase_lit self }
    {
        self.is_stop() && !self.increased && self.age <= 99
    }

    pub fn increase(self) -> Main
        ensures { result ≡ increased self }
    {
        Main {
            increased: true,
            ..self
        }
    }
}
