// The fifth step of a sample: the supervised speed, the least of the limits that stand.
ghost use Rattle.std.specs.Prelude.{◌≡◌, true, ◌+◌};
ghost use Rattle.leaf.specs.Numbers.{exceeds_of};
ghost use Rattle.sides.specs.Pairs.{pair_speeds};
ghost use Rattle.step.specs.Speed.{crossing_turned, main_speed, none, standing, lower, bts_limit, main_limit, alongside_limit, crossing_limit, limit_limit, paired_limit, paired_limits, least_of, limits_beside, limits};
ghost use Rattle.step.specs.Reason.{reason_number, reason_of};

use card::{Row, Settings};
use curve::row_speed;
use desk::beside::Beside;
use desk::state::Desk;
use sides::crossing::Crossing;
use sides::limit::Limit;
use sides::pairs::{FourLimits, paired_speed};
use signals::control::{Main, MainKind};
use signals::stop::{Alongside, stop_speed};

// Which limit it is, in the order in which equal ones are named: vmax, T of the train type, BTS speed, the main control, the stop that stays
// alongside, the crossing, the limit, a paired limit. `None` is the reason of a limit that does not stand (`none` of specs/), and of a turn
// that shows no answer (`no_why`).
#[derive(Clone, Copy)]
pub enum Reason {
    None,
    Vmax,
    Train,
    Bts,
    Main,
    Alongside,
    Crossing,
    Limit,
    Paired,
}

// The number of a reason, as the ride prints it: 1..7, 0 for none. A paired limit counts as limit, so that it is no cast of the enum.
pub fn reason_number(reason: Reason) -> u8
    ensures { result ≡ reason_number reason }
{
    match reason {
        Reason::None => 0,
        Reason::Vmax => 1,
        Reason::Train => 2,
        Reason::Bts => 3,
        Reason::Main => 4,
        Reason::Alongside => 5,
        Reason::Crossing => 6,
        Reason::Limit | Reason::Paired => 7,
    }
}

// A limit: does it stand, hundredths of km/h, which one it is, and its age. One that does not stand is none, with 0 for both numbers: no
// Option, since `lower`, `least_of` and `limits` of specs/, and what is proved of them, speak of limits that do not stand. The order in
// memory is that at which a sample costs least (tests/cost).
#[derive(Clone, Copy)]
pub struct Standing {
    pub stands: bool,
    pub speed: u32,
    pub reason: Reason,
    pub age: u16,
}

impl Standing {
    fn none() -> Standing
        ensures { result ≡ none }
    {
        Standing {
            reason: Reason::None,
            stands: false,
            speed: 0,
            age: 0,
        }
    }

    // A limit that stands.
    fn at(reason: Reason, speed: u32, age: u16) -> Standing
        ensures { result ≡ standing reason true speed age }
    {
        Standing {
            reason,
            stands: true,
            speed,
            age,
        }
    }

    // The lower of two limits, of equal ones the first. One that does not stand does not count.
    #[tactic(auto, unfolding(crate::specs::Speed::lower))]
    fn or_lower(self, next: Standing) -> Standing
        ensures { result ≡ lower self next }
    {
        if next.stands && (!self.stands || next.speed < self.speed) {
            next
        } else {
            self
        }
    }
}

// The protected crossing turns in the speed step.
#[tactic(auto, unfolding(crate::specs::Speed::crossing_turned))]
pub fn turn_crossing(mut d: Desk, m: u32) -> Desk
    ensures { result ≡ crossing_turned m d }
{
    d.beside.crossing = d.beside.crossing.turned(m);
    d
}

// Hundredths of km/h that the main control allows. Clear allows T: it is no limit.
#[tactic(auto, unfolding(crate::specs::Speed::main_speed))]
fn main_speed(main: Main, settings: Settings, top: u32) -> u32
    ensures { result ≡ main_speed main.kind main settings top }
{
    match main.kind {
        MainKind::Clear => top,
        MainKind::Start => row_speed(settings.start, main.age),
        MainKind::ConditionalClear => row_speed(settings.conditional_clear, main.age),
        MainKind::Announcement => row_speed(settings.announcement, main.age),
        MainKind::Preannouncement => row_speed(settings.preannouncement, main.age),
        MainKind::Caution => row_speed(settings.caution, main.age),
        MainKind::BeforeStop => row_speed(settings.before_stop, main.age),
        MainKind::Stop => stop_speed(main.increased, top),
        MainKind::Zone => 1000,
    }
}

// ---- the limits, each with no more work than it needs where it does not stand

#[tactic(auto, unfolding(crate::specs::Speed::bts_limit))]
fn bts_limit(bts: bool, speed: u8) -> Standing
    ensures { result ≡ bts_limit bts speed }
{
    if bts {
        Standing::at(Reason::Bts, leaf::hundredths(speed), 0)
    } else {
        Standing::none()
    }
}

#[tactic(auto, unfolding(crate::specs::Speed::main_limit))]
fn main_limit(main: Main, settings: Settings, top: u32) -> Standing
    ensures { result ≡ main_limit settings top main }
{
    if main.limits() {
        Standing::at(Reason::Main, main_speed(main, settings, top), main.age)
    } else {
        Standing::none()
    }
}

#[tactic(auto, unfolding(crate::specs::Speed::alongside_limit))]
fn alongside_limit(alongside: Alongside, top: u32) -> Standing
    ensures { result ≡ alongside_limit top alongside }
{
    if alongside.on {
        Standing::at(
            Reason::Alongside,
            stop_speed(alongside.increased, top),
            alongside.age,
        )
    } else {
        Standing::none()
    }
}

// Here and in `limit_limit` the row is a setting and T the train type's, each an argument of the definition: a struct of both would be built
// for the call.
#[tactic(auto, unfolding(crate::specs::Speed::crossing_limit))]
fn crossing_limit(crossing: Crossing, row: Row, top: u32) -> Standing
    ensures { result ≡ crossing_limit row top crossing }
{
    if crossing.is_standing() {
        Standing::at(
            Reason::Crossing,
            crossing.speed(row_speed(row, crossing.age), top),
            crossing.age,
        )
    } else {
        Standing::none()
    }
}

#[tactic(auto, unfolding(crate::specs::Speed::limit_limit))]
fn limit_limit(limit: Limit, row: Row, top: u32) -> Standing
    ensures { result ≡ limit_limit row top limit }
{
    if limit.on {
        Standing::at(
            Reason::Limit,
            limit.speed(row_speed(row, limit.age), row.last, top),
            limit.age,
        )
    } else {
        Standing::none()
    }
}

#[tactic(auto, unfolding(crate::specs::Speed::paired_limit, crate::specs::Speed::bts_limit, crate::specs::Speed::main_limit, crate::specs::Speed::limit_limit, crate::specs::Speed::alongside_limit, crate::specs::Speed::crossing_limit))]
fn paired_limit(limits: FourLimits, speed: u8, top: u32) -> Standing
    ensures { result ≡ paired_limit top limits speed }
{
    let limit = limits.at(speed);
    if limit.on {
        Standing::at(Reason::Paired, paired_speed(top, speed), limit.age)
    } else {
        Standing::none()
    }
}

// The lowest so far, with the paired limits: a line each, in their order. A fold over the speeds says no more, and needs a lemma on the list
// so far to be proved.
#[tactic(auto, using(crate::proofs::Paired::none_lower))]
fn or_paired(lowest: Standing, limits: FourLimits, top: u32) -> Standing
    ensures { result ≡ least_of lowest (paired_limits top limits pair_speeds) }
{
    if limits.any() {
        return lowest
            .or_lower(paired_limit(limits, 30, top))
            .or_lower(paired_limit(limits, 40, top))
            .or_lower(paired_limit(limits, 50, top))
            .or_lower(paired_limit(limits, 70, top));
    }
    lowest
}

// The lowest so far, with what stands beside the main control.
fn or_beside(lowest: Standing, beside: Beside, settings: Settings, top: u32) -> Standing
    ensures { result ≡ least_of lowest (limits_beside settings top beside) }
{
    let single = lowest
        .or_lower(alongside_limit(beside.alongside, top))
        .or_lower(crossing_limit(beside.crossing, settings.crossing, top))
        .or_lower(limit_limit(beside.limit, settings.limit, top));
    or_paired(single, beside.paired.limits, top)
}

// The lowest of the limits that stand, of equal ones the first.
fn lowest_limit(d: Desk, settings: Settings, top: u32) -> Standing
    ensures { result ≡ least_of none (limits settings top d) }
{
    let lowest = Standing::none()
        .or_lower(Standing::at(Reason::Vmax, leaf::hundredths(settings.vmax), 0))
        .or_lower(Standing::at(Reason::Train, top, 0))
        .or_lower(bts_limit(d.bts, settings.bts))
        .or_lower(main_limit(d.main, settings, top));
    or_beside(lowest, d.beside, settings, top)
}

// The limit that sets S, whose speed is S: the first of those that stand and equal it.
#[tactic(auto, using(crate::proofs::Reasons::lowest_sets))]
pub fn reason_at(d: Desk, settings: Settings, top: u32) -> Standing
    ensures { result ≡ reason_of settings top d }
{
    lowest_limit(d, settings, top)
}

// Is a speed of m mm/s more than 5 km/h over s hundredths of km/h.
pub fn too_fast(m: u32, s: u32) -> bool
    ensures { result ≡ exceeds_of m (s + 500) }
{
    25 * (u64::from(s) + 500) < 9 * u64::from(m)
}
