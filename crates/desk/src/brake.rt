// The brake, a part of the desk: the cause that put it on, how long ago, and for how long the desk has stood. It outlives a change of the
// mode.
ghost use Rattle.std.specs.Prelude.{◌≡◌};
ghost use Rattle.desk.specs.Brake.{stood_after, standstill, brake_age, opening_brake, brake_after};

use leaf::older;

// Standstill is so many accepted samples running without pulses.
pub const STANDING_TIME: u16 = 10;

// `cause` is the one that stands (0: the brake is off), `stood` the number of accepted samples running without pulses, `age` how many
// samples ago the brake came on (0: in the last one, or it is off). All are numbers: a session that is handed in may hold any, and one out
// of range is refused by 8.
#[derive(Clone, Copy)]
pub struct Brake {
    pub cause: u8,
    pub stood: u16,
    pub age: u16,
}

impl Brake {
    // As a session opens: off, and at standstill.
    pub fn opening() -> Brake
        ensures { result ≡ opening_brake }
    {
        Brake {
            cause: 0,
            stood: STANDING_TIME,
            age: 0,
        }
    }

    // The number of samples running without pulses, this one included.
    #[tactic(auto, unfolding(crate::specs::Brake::stood_after))]
    fn stood_after(self, pulses: u16) -> u16
        ensures { result ≡ stood_after pulses self.stood }
    {
        if pulses == 0 { older(self.stood) } else { 0 }
    }

    // Is a sample with these pulses one at standstill.
    #[tactic(auto, unfolding(crate::specs::Brake::standstill))]
    pub fn at_standstill(self, pulses: u16) -> bool
        ensures { result ≡ standstill pulses self }
    {
        pulses == 0 && STANDING_TIME <= self.stood_after(pulses)
    }

    // How many samples ago the brake came on, after a sample through which it stays on, or does not.
    #[tactic(auto, unfolding(crate::specs::Brake::brake_age))]
    fn age_after(self, stays: bool) -> u16
        ensures { result ≡ brake_age stays self.age }
    {
        if stays { older(self.age) } else { 0 }
    }

    // After a sample with these pulses, after which `cause` stands; `stays` says that the brake was on before it and still is.
    pub fn after(self, cause: u8, stays: bool, pulses: u16) -> Brake
        ensures { result ≡ brake_after cause stays pulses self }
    {
        Brake {
            cause,
            stood: self.stood_after(pulses),
            age: self.age_after(stays),
        }
    }
}
