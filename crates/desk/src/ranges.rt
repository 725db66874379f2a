// The ranges of a desk: every age and count up to 30,000, every distance up to 60,000,000, steps 0..8, code and cause. The parts are other
// crates' types, which have no methods here: each has a function.
ghost use Rattle.std.specs.Prelude.{◌≡◌, leb};
ghost use Rattle.leaf.specs.Numbers.{distance_top};
ghost use Rattle.desk.specs.Ranges.{brake_inside, main_inside, window_inside, override_inside, reminder_inside, option_inside, alongside_inside, crossing_inside, limit_inside, four_inside, paired_inside, beside_inside, desk_inside};

use crate::beside::Beside;
use crate::brake::Brake;
use crate::state::Desk;
use leaf::{AGE_TOP, CAUSE_TOP, CODE_TOP, DISTANCE_TOP};
use sides::crossing::{Crossing, CrossingOption};
use sides::limit::{Limit, STEPS_TOP};
use sides::pairs::{First, FourLimits, Paired};
use signals::control::Main;
use signals::stop::{Alongside, Override, Reminder};
use signals::window::Window;

fn brake_inside(b: Brake) -> bool
    ensures { result ≡ brake_inside b }
{
    b.cause <= CAUSE_TOP && b.stood <= AGE_TOP && b.age <= AGE_TOP
}

fn main_inside(c: Main) -> bool
    ensures { result ≡ main_inside c }
{
    c.age <= AGE_TOP && c.distance <= DISTANCE_TOP
}

fn window_inside(w: Window) -> bool
    ensures { result ≡ window_inside w }
{
    w.left <= AGE_TOP && w.age <= AGE_TOP && w.distance <= DISTANCE_TOP
}

fn override_inside(o: Override) -> bool
    ensures { result ≡ override_inside o }
{
    o.age <= AGE_TOP
}

fn reminder_inside(r: Reminder) -> bool
    ensures { result ≡ reminder_inside r }
{
    r.age <= AGE_TOP && r.fast <= AGE_TOP && r.distance <= DISTANCE_TOP
}

fn option_inside(o: CrossingOption) -> bool
    ensures { result ≡ option_inside o }
{
    o.age <= AGE_TOP && o.distance <= DISTANCE_TOP
}

fn alongside_inside(a: Alongside) -> bool
    ensures { result ≡ alongside_inside a }
{
    a.age <= AGE_TOP
}

fn crossing_inside(c: Crossing) -> bool
    ensures { result ≡ crossing_inside c }
{
    c.age <= AGE_TOP && c.distance <= DISTANCE_TOP
}

fn limit_inside(l: Limit) -> bool
    ensures { result ≡ limit_inside l }
{
    l.age <= AGE_TOP && l.steps <= STEPS_TOP
}

// By the names of the four, as `four_inside` of specs/ has them.
fn four_inside(p: FourLimits) -> bool
    ensures { result ≡ four_inside p }
{
    p.thirty.age <= AGE_TOP
        && p.forty.age <= AGE_TOP
        && p.fifty.age <= AGE_TOP
        && p.seventy.age <= AGE_TOP
}

fn first_inside(f: First) -> bool
    ensures { result ≡ leb f.distance distance_top }
{
    f.distance <= DISTANCE_TOP
}

fn paired_inside(p: Paired) -> bool
    ensures { result ≡ paired_inside p }
{
    first_inside(p.first) && four_inside(p.limits)
}

#[tactic(auto, unfolding(crate::specs::Ranges::beside_inside))]
fn beside_inside(b: Beside) -> bool
    ensures { result ≡ beside_inside b }
{
    alongside_inside(b.alongside)
        && crossing_inside(b.crossing)
        && limit_inside(b.limit)
        && paired_inside(b.paired)
}

// Is every number of the desk in its range.
#[tactic(auto, unfolding(crate::specs::Ranges::desk_inside))]
pub fn desk_inside(d: Desk) -> bool
    ensures { result ≡ desk_inside d }
{
    d.code <= CODE_TOP
        && brake_inside(d.brake)
        && main_inside(d.main)
        && window_inside(d.window)
        && window_inside(d.side)
        && override_inside(d.armed)
        && reminder_inside(d.reminder)
        && option_inside(d.option)
        && beside_inside(d.beside)
}
