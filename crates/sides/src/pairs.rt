// Limit beacons in pairs (02 g): the first of a pair, and the paired limits, one for each of the speeds 30, 40, 50 and 70 km/h.
ghost use Rattle.std.specs.Prelude.{◌≡◌};
ghost use Rattle.sides.specs.Pairs.{no_first, is_first, is_eleven, first_kind, first_read, first_older, is_second, no_paired, paired_now, paired_older, paired_speed, paired_goes, none_of_four, paired_at, four_with, four_older, any_paired, lowest_to_go, nothing_paired, all_older};

// `Absent` is one of the kinds: a distance stands beside it too (see `First`).
#[derive(Clone, Copy, PartialEq, Eq)]
pub enum FirstKind {
    Absent,
    Ten,
    Eleven,
}

// The last 10 or 11 read that is in no pair, how far back it is, and whether its limit is its own: no single limit stood before it.
// The order in memory is that at which a sample costs least (tests/cost). `Absent` and no `Option`: refusal 8 is promised of a session whose
// distance here is out of range, also where there is no first (`desk_inside`).
#[derive(Clone, Copy)]
pub struct First {
    pub kind: FirstKind,
    pub own: bool,
    pub distance: u32,
}

// A paired limit, aged from the second beacon that last set it. A flag and no `Option`: refusal 8 is promised of a session whose age here is
// out of range, also where it does not stand (`desk_inside`).
#[derive(Clone, Copy)]
pub struct PairedLimit {
    pub on: bool,
    pub age: u16,
}

// The paired limits, each by its speed in km/h. Four fields and no array: a session holds them so, and the definitions name them.
#[derive(Clone, Copy)]
pub struct FourLimits {
    pub thirty: PairedLimit,
    pub forty: PairedLimit,
    pub fifty: PairedLimit,
    pub seventy: PairedLimit,
}

#[derive(Clone, Copy)]
pub struct Paired {
    pub first: First,
    pub limits: FourLimits,
}

// Which of the two it is, by `first_kind` of specs/; a `From<bool>` would not say which flag is meant.
fn first_kind(eleven: bool) -> FirstKind
    ensures { result ≡ first_kind eleven }
{
    if eleven {
        FirstKind::Eleven
    } else {
        FirstKind::Ten
    }
}

impl First {
    pub fn none() -> First
        ensures { result ≡ no_first }
    {
        First {
            kind: FirstKind::Absent,
            distance: 0,
            own: false,
        }
    }

    // A 10 or 11 that is read now.
    #[tactic(auto, unfolding(crate::specs::Pairs::first_read))]
    pub fn read(code: u8, own: bool) -> First
        ensures { result ≡ first_read code own }
    {
        First {
            kind: first_kind(code == 11),
            distance: 0,
            own,
        }
    }

    // Is there one.
    pub fn is_there(self) -> bool
        ensures { result ≡ is_first self.kind }
    {
        self.kind != FirstKind::Absent
    }

    pub fn is_eleven(self) -> bool
        ensures { result ≡ is_eleven self.kind }
    {
        self.kind == FirstKind::Eleven
    }

    // One sample on, with a travel of m.
    #[tactic(auto, unfolding(crate::specs::Pairs::first_older))]
    pub fn older(self, m: u32) -> First
        ensures { result ≡ first_older m self }
    {
        if self.is_there() {
            First {
                distance: leaf::further(self.distance, m),
                ..self
            }
        } else {
            self
        }
    }

    // Is a 10 or 11 that is read now its second: at no more than so many metres from it.
    #[tactic(auto, unfolding(crate::specs::Pairs::is_second))]
    pub fn has_second(self, metres: u8) -> bool
        ensures { result ≡ is_second metres self }
    {
        self.is_there() && self.distance <= u32::from(metres) * 10_000
    }
}

// What a paired limit of this speed allows, hundredths of km/h.
pub fn paired_speed(top: u32, speed: u8) -> u32
    ensures { result ≡ paired_speed top speed }
{
    top.min(leaf::hundredths(speed))
}

impl PairedLimit {
    pub fn none() -> PairedLimit
        ensures { result ≡ no_paired }
    {
        PairedLimit { on: false, age: 0 }
    }

    // Set by a second beacon that is read now.
    pub fn set_now() -> PairedLimit
        ensures { result ≡ paired_now }
    {
        PairedLimit { on: true, age: 0 }
    }

    #[tactic(auto, unfolding(crate::specs::Pairs::paired_older))]
    pub fn older(self) -> PairedLimit
        ensures { result ≡ paired_older self }
    {
        if self.on {
            PairedLimit {
                age: leaf::older(self.age),
                ..self
            }
        } else {
            self
        }
    }

    // May button 6 take it off, at m mm/s, where it is the one of this speed. m and T are the sample's and the train type's, the speed is
    // whose limit this is: a struct of them would be built for the call alone.
    #[tactic(auto, unfolding(crate::specs::Pairs::paired_goes))]
    pub fn may_go(self, m: u32, top: u32, speed: u8) -> bool
        ensures { result ≡ paired_goes m top speed self }
    {
        self.on && leaf::below(m, paired_speed(top, speed))
    }
}

impl FourLimits {
    // Their speeds in km/h, lowest first.
    pub const SPEEDS: [u8; 4] = [30, 40, 50, 70];

    // Here and below each of the four stands by its name, as in the definitions: an array would want an index for each speed.
    pub fn none() -> FourLimits
        ensures { result ≡ none_of_four }
    {
        FourLimits {
            thirty: PairedLimit::none(),
            forty: PairedLimit::none(),
            fifty: PairedLimit::none(),
            seventy: PairedLimit::none(),
        }
    }

    // The one of this speed, km/h. A speed is a number, and this is total on each of them (`paired_at`).
    pub fn at(self, speed: u8) -> PairedLimit
        ensures { result ≡ paired_at speed self }
    {
        match speed {
            30 => self.thirty,
            40 => self.forty,
            50 => self.fifty,
            _ => self.seventy,
        }
    }

    // With another in the place of the one of this speed.
    #[tactic(auto, unfolding(crate::specs::Pairs::four_with))]
    pub fn with(mut self, speed: u8, limit: PairedLimit) -> FourLimits
        ensures { result ≡ four_with speed limit self }
    {
        match speed {
            30 => self.thirty = limit,
            40 => self.forty = limit,
            50 => self.fifty = limit,
            70 => self.seventy = limit,
            _ => {}
        }
        self
    }

    #[tactic(auto, unfolding(crate::specs::Pairs::four_older))]
    pub fn older(self) -> FourLimits
        ensures { result ≡ four_older self }
    {
        FourLimits {
            thirty: self.thirty.older(),
            forty: self.forty.older(),
            fifty: self.fifty.older(),
            seventy: self.seventy.older(),
        }
    }

    // Does any of them stand.
    #[tactic(auto, unfolding(crate::specs::Pairs::any_paired))]
    pub fn any(self) -> bool
        ensures { result ≡ any_paired self }
    {
        self.thirty.on || self.forty.on || self.fifty.on || self.seventy.on
    }

    // The speed of the lowest that may go at m mm/s, 0 where none may: a number and no `Option`, as the definition of this name, which
    // those of buttons and lamps cite. Where none of the four stands, as in most samples, no speed is tried. m and T as `may_go` takes them.
    #[tactic(auto, unfolding(crate::specs::Pairs::lowest_to_go), using(crate::specs::Laws::none_goes, crate::proofs::Lowest::found_here, crate::proofs::Lowest::found_behind))]
    pub fn lowest_to_go(self, m: u32, top: u32) -> u8
        ensures { result ≡ lowest_to_go m top self }
    {
        if !self.any() {
            return 0;
        }
        for speed in FourLimits::SPEEDS {
            if self.at(speed).may_go(m, top, speed) {
                return speed;
            }
        }
        0
    }
}

impl Paired {
    pub fn nothing() -> Paired
        ensures { result ≡ nothing_paired }
    {
        Paired {
            first: First::none(),
            limits: FourLimits::none(),
        }
    }

    // One sample on, with a travel of m. Where no first is there and no paired limit stands, there is nothing to do.
    #[tactic(auto, using(crate::specs::Laws::nothing_older), unfolding(crate::specs::Pairs::all_older))]
    pub fn older(self, m: u32) -> Paired
        ensures { result ≡ all_older m self }
    {
        if self.first.is_there() || self.limits.any() {
            Paired {
                first: self.first.older(m),
                limits: self.limits.older(),
            }
        } else {
            self
        }
    }
}
