// The last step of a sample: the brake; and the lamps.
ghost use Rattle.std.specs.Prelude.{◌≡◌};
ghost use Rattle.step.specs.Brake.{lowest, standing_cause, braked, lamp_if, window_lamps, control_lamps, button_lamps, lamps_of};

use desk::state::Desk;
use leaf::{QUIET_CODE, button};

// The alarm of a quiet pickup, a lamp without a button.
const ALARM_LAMP: u16 = 2048;

// The lower of two causes, 0 being none. A cause is a number: a session that is handed in may hold any, and one out of range is refused by 8.
#[tactic(auto, unfolding(crate::specs::Brake::lowest))]
pub fn lowest(a: u8, b: u8) -> u8
    ensures { result ≡ lowest a b }
{
    match (a, b) {
        (0, _) => b,
        (_, 0) => a,
        _ => a.min(b),
    }
}

// The cause that stands after a sample in which `arose` is the lowest that arose (0: none). Numbers, as in `lowest`, by `standing_cause` of
// specs/.
#[tactic(auto, unfolding(crate::specs::Brake::standing_cause))]
fn standing_cause(before: u8, arose: u8, rearm: bool) -> u8
    ensures { result ≡ standing_cause before arose rearm }
{
    match (before, arose) {
        (0, _) => arose,
        (_, 0) if rearm => 0,
        _ => before,
    }
}

fn lamp_if(lit: bool, weight: u16) -> u16
    ensures { result ≡ lamp_if lit weight }
{
    if lit { weight } else { 0 }
}

// The brake's step: rearm says that a sample at standstill carries it. Cause 0 is none (`stays_on`).
#[tactic(auto, unfolding(crate::specs::Brake::braked))]
pub fn put_brake(d: Desk, arose: u8, rearm: bool, pulses: u16) -> Desk
    ensures { result ≡ braked arose rearm pulses d }
{
    let cause = standing_cause(d.brake.cause, arose, rearm);
    let stays = d.brake.cause != 0 && cause != 0;
    Desk {
        brake: d.brake.after(cause, stays, pulses),
        ..d
    }
}

// What the windows and beacon 3's option wait for.
#[tactic(auto, unfolding(crate::specs::Brake::window_lamps))]
fn window_lamps(d: Desk) -> u16
    ensures { result ≡ window_lamps d }
{
    d.window.waits_for() | (d.side.waits_for() | lamp_if(d.option.on, button::CROSSING))
}

// Override armed or reminded, increase for stop, and rearm. Cause 0 is none (`control_lamps` of specs/).
#[tactic(auto, unfolding(crate::specs::Brake::control_lamps))]
fn control_lamps(d: Desk, still: bool) -> u16
    ensures { result ≡ control_lamps still d }
{
    lamp_if(d.armed.armed || d.reminder.is_lit(), button::OVERRIDE)
        | (lamp_if(d.main.increase_lit(), button::INCREASE)
            | lamp_if(still && d.brake.cause != 0, button::REARM))
}

// The lamps of the buttons; `removable` says that the limit may go.
#[tactic(auto, unfolding(crate::specs::Brake::button_lamps))]
fn button_lamps(d: Desk, removable: bool, still: bool) -> u16
    ensures { result ≡ button_lamps removable still d }
{
    window_lamps(d) | (lamp_if(removable, button::LIMIT) | control_lamps(d, still))
}

// All lamps: the alarm of a quiet pickup beside those of the buttons.
#[tactic(auto, unfolding(crate::specs::Brake::lamps_of))]
pub fn lamps_of(d: Desk, removable: bool, still: bool) -> u16
    ensures { result ≡ lamps_of removable still d }
{
    lamp_if(d.code == QUIET_CODE, ALARM_LAMP) | button_lamps(d, removable, still)
}
