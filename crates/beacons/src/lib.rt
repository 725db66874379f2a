// The fourth step of a sample: the beacon.
#![tactic(auto)]

ghost use Rattle.std.specs.Prelude.{◌≡◌, true, false, IfSome, IfNone};
ghost use Rattle.card.specs.declared.Pairs.{Pairs};
ghost use Rattle.signals.specs.Windows.{miss_time, opened, time_left};
ghost use Rattle.beacons.specs.Beacons.{is_beacon, is_side, reads_of, main_opened, side_opened, reading1, reading_row, reading3, reading4, reading7, reminded_after, stopped, reading8, reading9, reading_single, speed_of_pair, first_kept, reading_first, single_dropped, pair_set, reading_second, reading_paired, reading_limit, reading_of, beacon_taken};

use card::{Functions, Pairs};
use desk::clock::{Turn, count_main, count_side};
use desk::state::Desk;
use sides::crossing::CrossingOption;
use sides::limit::Limit;
use sides::pairs::{First, Paired, PairedLimit};
use signals::control::{Main, MainKind};
use signals::stop::{Alongside, Override, Phase, Reminder};
use signals::window::{MISS_TIME, Waits, Window, ZONE_MISS};

// The greatest code of a beacon.
const BEACON_TOP: u8 = 11;

// Is the code that of a beacon.
fn is_beacon(code: u8) -> bool
    ensures { result ≡ is_beacon code }
{
    (1..=BEACON_TOP).contains(&code)
}

// Is it a beacon that BTS reads where the card has that function.
fn is_side(code: u8) -> bool
    ensures { result ≡ is_side code }
{
    matches!(code, 4 | 9 | 10 | 11)
}

// The reminder of a stop: due where the beacon 8 was passed under override. By `reminded_after`; a `From<bool>` would not say
// which flag is meant.
fn reminder_after(armed: bool) -> Reminder
    ensures { result ≡ reminded_after armed }
{
    if armed {
        Reminder::fresh(Phase::Due)
    } else {
        Reminder::fresh(Phase::Off)
    }
}

// Is a beacon of this code read.
#[tactic(auto, unfolding(crate::specs::Beacons::reads_of))]
fn reads(d: Desk, code: u8, reads_in_bts: bool) -> bool
    ensures { result ≡ reads_of code reads_in_bts d.bts d.code }
{
    is_beacon(code) && code != d.code && (!d.bts || is_side(code) && reads_in_bts)
}

// The window of a reading that comes now, in the place of one that may be open.
fn displacing(window: Window, waits: Waits) -> Window
    ensures { result ≡ opened waits (time_left window miss_time) }
{
    Window::opened(waits, window.time_left(MISS_TIME))
}

// It and `open_side` store one member each, and a definition names each (`main_opened`, `side_opened`): what they share is
// `displacing`.
#[tactic(auto, unfolding(crate::specs::Beacons::main_opened))]
fn open_main(d: Desk, waits: Waits) -> Desk
    ensures { result ≡ main_opened waits d }
{
    Desk {
        window: displacing(d.window, waits),
        ..d
    }
}

#[tactic(auto, unfolding(crate::specs::Beacons::side_opened))]
fn open_side(d: Desk, waits: Waits) -> Desk
    ensures { result ≡ side_opened waits d }
{
    Desk {
        side: displacing(d.side, waits),
        ..d
    }
}

#[tactic(auto, unfolding(crate::specs::Beacons::reading1))]
fn read_1(d: Desk) -> Desk
    ensures { result ≡ reading1 d }
{
    open_main(count_main(d), Waits::One)
}

// Beacons 2, 5 and 6, and 7 outside the stop zone.
#[tactic(auto, unfolding(crate::specs::Beacons::reading_row))]
fn read_row(d: Desk, kind: MainKind, waits: Waits) -> Desk
    ensures { result ≡ reading_row kind waits d }
{
    open_main(count_main(d).take_over(kind, 0, 0), waits)
}

#[tactic(auto, unfolding(crate::specs::Beacons::reading3, crate::specs::Beacons::option_offered))]
fn read_3(d: Desk, protects: bool) -> Desk
    ensures { result ≡ reading3 protects d }
{
    let mut d = count_main(d).take_over(MainKind::Clear, 0, 0);
    d.window = Window::closed();
    if protects {
        d.option = CrossingOption::opened();
    }
    d
}

#[tactic(auto, unfolding(crate::specs::Beacons::reading4))]
fn read_4(mut d: Desk, protects: bool) -> Desk
    ensures { result ≡ reading4 protects d }
{
    if protects {
        d.beside.crossing = d.beside.crossing.set_protected(0, 0, false);
    }
    d
}

#[tactic(auto, unfolding(crate::specs::Beacons::reading7, crate::specs::Beacons::zone_met))]
fn read_7(d: Desk, zones: bool) -> Desk
    ensures { result ≡ reading7 zones d }
{
    let d = count_main(d);
    if zones && d.main.near() {
        Desk {
            window: Window::opened(Waits::Zone, ZONE_MISS),
            ..d.take_over(MainKind::Zone, 0, 0)
        }
    } else {
        open_main(d.take_over(MainKind::BeforeStop, 0, 0), Waits::Seven)
    }
}

// Stop is set: it uses up the override and ends the stop alongside.
#[tactic(auto, unfolding(crate::specs::Beacons::stopped))]
fn stop(mut d: Desk) -> Desk
    ensures { result ≡ stopped d }
{
    d.reminder = reminder_after(d.armed.armed);
    d.main = Main::new(MainKind::Stop, 0, 0);
    d.beside.alongside = Alongside::none();
    d.armed = Override::disarmed();
    d.window = Window::closed();
    d
}

#[tactic(auto, unfolding(crate::specs::Beacons::reading8))]
fn read_8(d: Desk) -> Desk
    ensures { result ≡ reading8 d }
{
    stop(count_main(d))
}

#[tactic(auto, unfolding(crate::specs::Beacons::reading9))]
fn read_9(d: Desk) -> Desk
    ensures { result ≡ reading9 d }
{
    open_side(count_side(d), Waits::Nine)
}

// A beacon 10 or 11 that is in no pair, or not yet.
#[tactic(auto, unfolding(crate::specs::Beacons::reading_single))]
fn read_single(d: Desk) -> Desk
    ensures { result ≡ reading_single d }
{
    open_side(count_side(d).set_limit(0, false), Waits::Limit)
}

// ---- pairs of limit beacons

// The speed of the pair that a 10 or 11 makes with its first, km/h. Here and below the code is the sample's and the pairs are
// the card's: a struct of both would be built for the call and taken apart in it.
#[tactic(auto, unfolding(crate::specs::Beacons::speed_of_pair))]
fn speed_of_pair(pairs: Pairs, first: First, code: u8) -> u8
    ensures { result ≡ speed_of_pair pairs first code }
{
    match (first.is_eleven(), code == 11) {
        (false, false) => pairs.ten_ten,
        (false, true) => pairs.ten_eleven,
        (true, false) => pairs.eleven_ten,
        (true, true) => pairs.eleven_eleven,
    }
}

// It is remembered as the first.
#[tactic(auto, unfolding(crate::specs::Beacons::first_kept))]
fn keep_first(mut d: Desk, code: u8, own: bool) -> Desk
    ensures { result ≡ first_kept code own d }
{
    d.beside.paired.first = First::read(code, own);
    d
}

// The first of a pair, or one that stays alone.
#[tactic(auto, unfolding(crate::specs::Beacons::reading_first))]
fn read_first(d: Desk, code: u8) -> Desk
    ensures { result ≡ reading_first code d }
{
    let own = !d.beside.limit.on;
    let d = count_side(d).set_limit(0, false);
    open_side(keep_first(d, code, own), Waits::Limit)
}

// The first's limit is dropped: its own, and nothing else has set it since.
#[tactic(auto, unfolding(crate::specs::Beacons::single_dropped))]
fn drop_single(mut d: Desk) -> Desk
    ensures { result ≡ single_dropped d }
{
    if d.beside.paired.first.own && !d.beside.limit.answered {
        d.beside.limit = Limit::none();
    }
    d
}

// The pair's limit is set, and no first is left.
#[tactic(auto, unfolding(crate::specs::Beacons::pair_set))]
fn set_pair(d: Desk, speed: u8) -> Desk
    ensures { result ≡ pair_set speed d }
{
    let limits = d.beside.paired.limits.with(speed, PairedLimit::set_now());
    let mut d = drop_single(d);
    d.beside.paired = Paired {
        first: First::none(),
        limits,
    };
    d
}

#[tactic(auto, unfolding(crate::specs::Beacons::reading_second))]
fn read_second(d: Desk, speed: u8) -> Desk
    ensures { result ≡ reading_second speed d }
{
    open_side(set_pair(count_side(d), speed), Waits::Limit)
}

#[tactic(auto, unfolding(crate::specs::Beacons::reading_paired))]
fn read_paired(d: Desk, code: u8, pairs: Pairs) -> Desk
    ensures { result ≡ reading_paired code pairs d }
{
    let first = d.beside.paired.first;
    if first.has_second(pairs.distance) {
        read_second(d, speed_of_pair(pairs, first, code))
    } else {
        read_first(d, code)
    }
}

// Beacons 10 and 11; there are pairs where the card has them. Code and pairs are as in `speed_of_pair`, here and in the step.
#[tactic(auto, unfolding(crate::specs::Beacons::reading_limit))]
fn read_limit(d: Desk, code: u8, pairs: Option<Pairs>) -> Desk
    ensures paired { IfSome pairs (λ p. result ≡ reading_limit code true p d) }
    ensures single { IfNone pairs ((p : Pairs) → result ≡ reading_limit code false p d) }
{
    match pairs {
        Some(pairs) => read_paired(d, code, pairs),
        None => read_single(d),
    }
}

// ---- the step

#[tactic(auto, unfolding(crate::specs::Beacons::reading_of))]
fn read(d: Desk, code: u8, functions: Functions, pairs: Option<Pairs>) -> Desk
    ensures paired { IfSome pairs (λ p. result ≡ reading_of code functions.protects functions.zones true p d) }
    ensures single { IfNone pairs ((p : Pairs) → result ≡ reading_of code functions.protects functions.zones false p d) }
{
    match code {
        1 => read_1(d),
        2 => read_row(d, MainKind::ConditionalClear, Waits::Two),
        3 => read_3(d, functions.protects),
        4 => read_4(d, functions.protects),
        5 => read_row(d, MainKind::Preannouncement, Waits::Five),
        6 => read_row(d, MainKind::Caution, Waits::Six),
        7 => read_7(d, functions.zones),
        8 => read_8(d),
        9 => read_9(d),
        _ => read_limit(d, code, pairs),
    }
}

// The beacon's step, with the card's functions, and the speeds and distance of its pairs of limit beacons where it has pairs.
#[tactic(auto, unfolding(crate::specs::Beacons::beacon_taken, crate::specs::Beacons::read_if))]
pub fn take_beacon(d: Desk, code: u8, functions: Functions, pairs: Option<Pairs>) -> Turn
    ensures paired { IfSome pairs (λ p. result ≡ beacon_taken code functions.protects functions.zones functions.reads_in_bts true p d) }
    ensures single { IfNone pairs ((p : Pairs) → result ≡ beacon_taken code functions.protects functions.zones functions.reads_in_bts false p d) }
{
    let kept = Desk { code, ..d };
    if !reads(d, code, functions.reads_in_bts) {
        return Turn {
            desk: kept,
            cause: 0,
        };
    }
    Turn {
        desk: read(kept, code, functions, pairs),
        cause: if code == 8 && !d.armed.armed { 4 } else { 0 },
    }
}
