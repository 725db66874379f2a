// The crossing, protected or unprotected, and beacon 3's option.
ghost use Rattle.std.specs.Prelude.{◌≡◌};
ghost use Rattle.sides.specs.Crossing.{no_crossing, stands, is_protected, is_unprotected, crossing_older, unprotected_set, protected_set, turns_at, turned_at, crossing_speed, icon_of, no_option, option_now, option_older};

// A crossing ends at 1,800 m.
const CROSSING_END: u32 = 18_000_000;

// The icon of a protected crossing shows 35 m after beacon 4.
const ICON_DISTANCE: u32 = 350_000;

// `Absent` is one of the kinds: age and distance stand beside it too (see `Crossing`).
#[derive(Clone, Copy, PartialEq, Eq)]
pub enum CrossingKind {
    Absent,
    Protected,
    Unprotected,
}

// `shown` is whether the icon of a protected crossing shows; that of an unprotected one always does. `Absent` and no
// `Option`: refusal 8 is promised of a session whose age or distance here is out of range, also where none stands (`desk_inside`).
#[derive(Clone, Copy)]
pub struct Crossing {
    pub kind: CrossingKind,
    pub age: u16,
    pub distance: u32,
    pub shown: bool,
}

// Beacon 3 may be answered by the crossing's button, with the age and distance of its reading. A flag and no `Option`: refusal 8 is promised
// of a session where either is out of range, also where the option is off (`desk_inside`).
#[derive(Clone, Copy)]
pub struct CrossingOption {
    pub on: bool,
    pub age: u16,
    pub distance: u32,
}

impl Crossing {
    pub fn none() -> Crossing
        ensures { result ≡ no_crossing }
    {
        Crossing {
            kind: CrossingKind::Absent,
            age: 0,
            distance: 0,
            shown: false,
        }
    }

    pub fn is_standing(self) -> bool
        ensures { result ≡ stands self.kind }
    {
        self.kind != CrossingKind::Absent
    }

    pub fn is_protected(self) -> bool
        ensures { result ≡ is_protected self.kind }
    {
        self.kind == CrossingKind::Protected
    }

    pub fn is_unprotected(self) -> bool
        ensures { result ≡ is_unprotected self.kind }
    {
        self.kind == CrossingKind::Unprotected
    }

    // One sample on: over at 1,800 m, and its icon shown at 35 m.
    #[tactic(auto, unfolding(crate::specs::Crossing::crossing_older))]
    pub fn older(self, m: u32) -> Crossing
        ensures { result ≡ crossing_older m self }
    {
        let distance = leaf::further(self.distance, m);
        if CROSSING_END <= distance {
            return Crossing::none();
        }
        Crossing {
            age: leaf::older(self.age),
            distance,
            shown: self.shown || ICON_DISTANCE <= distance,
            ..self
        }
    }

    // An unprotected crossing is set; it takes over a protected one, and a repeat restarts only the distance. Age and distance one by one,
    // here and in `set_protected`: a window has them as two members, and specs/ takes them so (`unprotected_set`).
    #[tactic(auto, unfolding(crate::specs::Crossing::unprotected_set))]
    pub fn set_unprotected(self, age: u16, distance: u32) -> Crossing
        ensures { result ≡ unprotected_set age distance self }
    {
        match self.kind {
            CrossingKind::Unprotected => Crossing {
                distance,
                shown: true,
                ..self
            },
            CrossingKind::Absent | CrossingKind::Protected => Crossing {
                kind: CrossingKind::Unprotected,
                age,
                distance,
                shown: true,
            },
        }
    }

    // A protected crossing is set, showing its icon at once or not; an unprotected one stays, and a repeat
    // restarts only the distance.
    #[tactic(auto, unfolding(crate::specs::Crossing::protected_set))]
    pub fn set_protected(self, age: u16, distance: u32, shows: bool) -> Crossing
        ensures { result ≡ protected_set age distance shows self }
    {
        match self.kind {
            CrossingKind::Unprotected => self,
            CrossingKind::Protected => Crossing {
                distance,
                shown: shows || self.shown,
                ..self
            },
            CrossingKind::Absent => Crossing {
                kind: CrossingKind::Protected,
                age,
                distance,
                shown: shows,
            },
        }
    }

    // The speed step: a protected crossing turns unprotected at age 0 below 40 km/h, its distance kept.
    #[tactic(auto, unfolding(crate::specs::Crossing::turned_at, crate::specs::Crossing::turns_at))]
    pub fn turned(self, m: u32) -> Crossing
        ensures { result ≡ turned_at m self }
    {
        if self.is_protected() && leaf::below(m, 4000) {
            Crossing {
                kind: CrossingKind::Unprotected,
                age: 0,
                shown: true,
                ..self
            }
        } else {
            self
        }
    }

    // Hundredths of km/h of a standing crossing: `row` is what row 5 gives at its age, `top` is T. The one is reckoned for this call and the
    // other is the train type's: a struct of both would be taken apart at once.
    pub fn speed(self, row: u32, top: u32) -> u32
        ensures { result ≡ crossing_speed self.kind row top }
    {
        if self.is_protected() {
            top.min(15_500)
        } else {
            row
        }
    }

    // 0 none, 1 protected, 2 unprotected. The number of the answer, by `icon_of`.
    #[tactic(auto, unfolding(crate::specs::Crossing::icon_of))]
    pub fn icon(self) -> u8
        ensures { result ≡ icon_of self }
    {
        match self.kind {
            CrossingKind::Unprotected => 2,
            CrossingKind::Protected if self.shown => 1,
            CrossingKind::Protected | CrossingKind::Absent => 0,
        }
    }
}

impl CrossingOption {
    pub fn none() -> CrossingOption
        ensures { result ≡ no_option }
    {
        CrossingOption {
            on: false,
            age: 0,
            distance: 0,
        }
    }

    pub fn opened() -> CrossingOption
        ensures { result ≡ option_now }
    {
        CrossingOption {
            on: true,
            age: 0,
            distance: 0,
        }
    }

    #[tactic(auto, unfolding(crate::specs::Crossing::option_older))]
    pub fn older(self, m: u32) -> CrossingOption
        ensures { result ≡ option_older m self }
    {
        let age = leaf::older(self.age);
        CrossingOption {
            on: self.on && age < 30,
            age,
            distance: leaf::further(self.distance, m),
        }
    }
}
