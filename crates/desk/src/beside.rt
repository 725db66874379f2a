// What stands beside the main control, a part of the desk: the stop alongside, the crossing, the limit, and limit
// beacons in pairs.
ghost use Rattle.std.specs.Prelude.{◌≡◌};
ghost use Rattle.desk.specs.Beside.{nothing_beside, beside_older};

use sides::crossing::Crossing;
use sides::limit::Limit;
use sides::pairs::Paired;
use signals::stop::Alongside;

// The order in memory is that at which a sample costs least (tests/cost).
#[derive(Clone, Copy)]
pub struct Beside {
    pub crossing: Crossing,
    pub paired: Paired,
    pub alongside: Alongside,
    pub limit: Limit,
}

impl Beside {
    pub fn nothing() -> Beside
        ensures { result ≡ nothing_beside }
    {
        Beside {
            alongside: Alongside::none(),
            crossing: Crossing::none(),
            limit: Limit::none(),
            paired: Paired::nothing(),
        }
    }

    // One sample on, with a travel of m.
    #[tactic(auto, unfolding(crate::specs::Beside::beside_older))]
    pub fn older(self, m: u32) -> Beside
        ensures { result ≡ beside_older m self }
    {
        Beside {
            alongside: self.alongside.older(),
            crossing: self.crossing.older(m),
            limit: self.limit.older(),
            paired: self.paired.older(m),
        }
    }
}
