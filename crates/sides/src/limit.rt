// The limit: row 6, with steps of 20 km/h.
ghost use Rattle.std.specs.Prelude.{◌≡◌, ◌-◌, ◌+◌, ◌*◌, min};
ghost use Rattle.sides.specs.Limit.{no_limit, limit_older, limit_set, steps_top, highest, stepped_final, limit_speed, may_step, stepped, hidden, removable};

// Steps stop here.
pub const STEPS_TOP: u8 = 8;

// `answered` says that an answered 1 or 9 set it last. `on` is a flag, and the limit no `Option`: refusal 8 is promised of a session whose age
// or steps here are out of range, also where no limit stands (`desk_inside`).
#[derive(Clone, Copy)]
pub struct Limit {
    pub on: bool,
    pub age: u16,
    pub steps: u8,
    pub answered: bool,
}

// The most that steps reach: min(T, 160), in hundredths of km/h.
fn step_top(top: u32) -> u32
    ensures { result ≡ highest top }
{
    top.min(16_000)
}

impl Limit {
    pub fn none() -> Limit
        ensures { result ≡ no_limit }
    {
        Limit {
            on: false,
            age: 0,
            steps: 0,
            answered: false,
        }
    }

    pub fn older(self) -> Limit
        ensures { result ≡ limit_older self }
    {
        Limit {
            age: leaf::older(self.age),
            ..self
        }
    }

    // The limit is set by a reading of this age, as it is read or by its answer; a repeat keeps the standing limit's.
    #[tactic(auto, unfolding(crate::specs::Limit::limit_set))]
    pub fn set(self, age: u16, answered: bool) -> Limit
        ensures { result ≡ limit_set answered age self }
    {
        Limit {
            on: true,
            age: if self.on { self.age } else { age },
            steps: 0,
            answered,
        }
    }

    // Hundredths of km/h: `row` is what row 6 gives at its age, `last` the row's final, `top` is T. Here and below each function takes its own
    // part of m, row, final and T, as its definition does; where all of them go on together buttons has a struct, `Bounds`.
    #[tactic(auto, unfolding(crate::specs::Limit::limit_speed))]
    pub fn speed(self, row: u32, last: u8, top: u32) -> u32
        ensures { result ≡ limit_speed row last top self }
    {
        if leaf::hundredths(last) < row {
            row
        } else {
            self.final_value(last, top)
        }
    }

    // Does a press of increase, for which stop has no use, add a step; `pairs` says that the card has pairs.
    #[tactic(auto, unfolding(crate::specs::Limit::may_step))]
    pub fn may_step(self, pairs: bool, row: u32, last: u8, top: u32) -> bool
        ensures { result ≡ may_step pairs row last top self }
    {
        (!pairs || self.answered)
            && self.on
            && row <= leaf::hundredths(last)
            && self.final_value(last, top) < step_top(top)
    }

    pub fn step(self) -> Limit
        ensures { result ≡ stepped self }
    {
        Limit {
            steps: self.steps.saturating_add(1).min(STEPS_TOP),
            ..self
        }
    }

    pub fn hide(self) -> Limit
        ensures { result ≡ hidden self }
    {
        Limit {
            steps: self.steps.saturating_sub(1),
            ..self
        }
    }

    // Its final value, `last` being the row's (km/h), with its steps, hundredths of km/h.
    #[tactic(auto, unfolding(crate::specs::Limit::stepped_final))]
    pub fn final_value(self, last: u8, top: u32) -> u32
        ensures { result ≡ stepped_final last self.steps top }
    {
        let plain = leaf::hundredths(last);
        if self.steps == 0 {
            plain
        } else {
            (plain + u32::from(self.steps) * 2000).min(step_top(top))
        }
    }

    // May button 6 take it off, at m mm/s.
    #[tactic(auto, unfolding(crate::specs::Limit::removable))]
    pub fn is_removable(self, m: u32, last: u8, top: u32) -> bool
        ensures { result ≡ removable m last top self }
    {
        self.on && leaf::below(m, self.final_value(last, top))
    }
}
