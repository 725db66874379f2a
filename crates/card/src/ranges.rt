// The ranges of the settings, each with its place: so many bytes behind the first setting of the card's kind.
ghost use Rattle.std.specs.Prelude.{◌≡◌, true, ◌+◌, ◌<◌, ◌^◌, leb, eqb};
ghost use Rattle.leaf.specs.Numbers.{within};
ghost use Rattle.leaf.specs.Checks.{all_hold};
ghost use Rattle.card.specs.Card.{base_kind, reminds};
ghost use Rattle.card.specs.Ranges.{place_of, ranged_if, functions_top, row_checks, rows_of, is_pair_speed, pair_speed_met, pairs_checks, refused_by, first_refused, rows_refused, settings_refused, row_met, rows_met, settings_inside, check_of, checked_of};

use crate::{Kind, Pairs, Row, Settings, functions_of};
use leaf::{Refusal, ensure, in_range};

// Do these functions have the reminder.
pub fn has_reminder(functions: u8) -> bool
    ensures { result ≡ reminds functions }
{
    functions_of(functions).reminds
}

// ---- the range of each setting

// Of bytes, as `leaf::in_range` is of words: with that, every argument would have to be widened at each call.
fn is_within(low: u8, high: u8, x: u8) -> bool
    ensures { result ≡ within low high x }
{
    low <= x && x <= high
}

// In range where it speaks, else 0.
fn ranged_if(on: bool, low: u16, high: u16, x: u16) -> bool
    ensures { result ≡ ranged_if on low high x }
{
    if on { in_range(low, high, x) } else { x == 0 }
}

// One of the four speeds that a pair may give. The four numbers are all that it says; sides, whose `FourLimits` has them as
// fields, stands above this crate.
fn is_pair_speed(speed: u8) -> bool
    ensures { result ≡ is_pair_speed speed }
{
    matches!(speed, 30 | 40 | 50 | 70)
}

// The rule of a pair's speed: one of the four beside version 3, else 0.
fn is_speed_in_range(version: u8, speed: u8) -> bool
    ensures { result ≡ pair_speed_met version speed }
{
    if version == 3 {
        is_pair_speed(speed)
    } else {
        speed == 0
    }
}

impl Row {
    fn is_initial_in_range(self) -> bool
        ensures { result ≡ within 1 200 self.initial }
    {
        is_within(1, 200, self.initial)
    }

    fn is_last_in_range(self) -> bool
        ensures { result ≡ within 1 self.initial self.last }
    {
        is_within(1, self.initial, self.last)
    }

    fn is_drop_in_range(self) -> bool
        ensures { result ≡ leb 1 self.drop }
    {
        1 <= self.drop
    }
}

impl Pairs {
    fn is_distance_in_range(self, version: u8) -> bool
        ensures { result ≡ ranged_if (eqb version 3) 1 50 self.distance }
    {
        ranged_if(version == 3, 1, 50, self.distance.into())
    }

    // The rule of the pairs without a place.
    fn is_in_range(self, version: u8) -> bool
        ensures { result ≡ all_hold true (pairs_checks base_kind version self) }
    {
        is_speed_in_range(version, self.ten_ten)
            && is_speed_in_range(version, self.ten_eleven)
            && is_speed_in_range(version, self.eleven_ten)
            && is_speed_in_range(version, self.eleven_eleven)
            && self.is_distance_in_range(version)
    }
}

impl Settings {
    // The rows in their order on the card.
    fn rows(self) -> [Row; 8]
        ensures { result ≡ rows_of self }
    {
        [
            self.conditional_clear,
            self.announcement,
            self.preannouncement,
            self.caution,
            self.before_stop,
            self.crossing,
            self.limit,
            self.start,
        ]
    }

    fn is_tick_in_range(self) -> bool
        ensures { result ≡ within 10 1000 self.tick }
    {
        in_range(10, 1000, self.tick)
    }

    fn is_bts_in_range(self) -> bool
        ensures { result ≡ within 1 200 self.bts }
    {
        is_within(1, 200, self.bts)
    }

    fn are_functions_in_range(self, version: u8) -> bool
        ensures { result ≡ leb self.functions (functions_top version) }
    {
        self.functions <= (if version == 1 { 0 } else { 15 })
    }

    fn is_x_in_range(self) -> bool
        ensures { result ≡ ranged_if (reminds self.functions) 2 6000 self.x }
    {
        ranged_if(has_reminder(self.functions), 2, 6000, self.x)
    }

    fn is_y_in_range(self) -> bool
        ensures { result ≡ ranged_if (reminds self.functions) 1 5000 self.y }
    {
        ranged_if(has_reminder(self.functions), 1, 5000, self.y)
    }
}

// ---- the places

impl Kind {
    // The refusal of the setting so many bytes behind the first one, where its test fails. Places are bytes, and 0 is none:
    // what the definitions do not find there, at a kind whose places come round to it, is not found here.
    fn ensure_at(self, offset: u8, test: bool) -> Result<(), Refusal>
        ensures { result ≡ refused_by (place_of self offset, test) }
    {
        let place = self.first.wrapping_add(offset);
        ensure(test || place == 0, Refusal::OutOfRange { place })
    }
}

impl Row {
    // The rule of a row, which begins so many bytes behind the first setting.
    fn check(self, kind: Kind, offset: u8) -> Result<(), Refusal>
        requires { offset + 3 < 2 ^ 8 }
        ensures { result ≡ first_refused (row_checks kind offset self) }
    {
        kind.ensure_at(offset, self.is_initial_in_range())?;
        kind.ensure_at(offset + 1, self.is_last_in_range())?;
        kind.ensure_at(offset + 3, self.is_drop_in_range())
    }

    // The same rule without the places: it is given the first row's, which do not change the answer.
    fn is_in_range(self) -> bool
        ensures { result ≡ row_met self }
    {
        self.check(Kind::BASE, 4).is_ok()
    }
}

// Does each row meet the rule: what a session asks at each sample, for which no place is kept.
#[tactic(auto, unfolding(crate::specs::Ranges::rows_met))]
fn are_rows_in_range(rows: &[Row; 8]) -> bool
    ensures { result ≡ rows_met rows.now }
{
    rows.iter().all(|row| row.is_in_range())
}

impl Pairs {
    // The rule applied to each speed, and the distance.
    fn check(self, kind: Kind, version: u8) -> Result<(), Refusal>
        ensures { result ≡ first_refused (pairs_checks kind version self) }
    {
        kind.ensure_at(41, is_speed_in_range(version, self.ten_ten))?;
        kind.ensure_at(42, is_speed_in_range(version, self.ten_eleven))?;
        kind.ensure_at(43, is_speed_in_range(version, self.eleven_ten))?;
        kind.ensure_at(44, is_speed_in_range(version, self.eleven_eleven))?;
        kind.ensure_at(45, self.is_distance_in_range(version))
    }
}

// ---- all of them

impl Kind {
    fn is_vmax_in_range(self, s: Settings) -> bool
        ensures { result ≡ within self.vmax_lowest self.vmax_highest s.vmax }
    {
        is_within(self.vmax_lowest, self.vmax_highest, s.vmax)
    }

    // The rule applied to each row.
    #[tactic(auto, unfolding(crate::specs::Ranges::rows_refused))]
    fn check_rows(self, rows: &[Row; 8]) -> Result<(), Refusal>
        ensures { result ≡ rows_refused self rows.now }
    {
        let mut offset = 4;
        for row in rows {
            row.check(self, offset)?;
            offset += 4;
        }
        Ok(())
    }

    // The first refusal of the settings, in the order of their places. Version and settings one by one, here and in the two
    // below: two of the eight tests ask for the version.
    #[tactic(auto, unfolding(crate::specs::Ranges::settings_refused))]
    fn first_refused(self, version: u8, s: Settings) -> Result<(), Refusal>
        ensures { result ≡ settings_refused self version s }
    {
        self.ensure_at(0, self.is_vmax_in_range(s))?;
        self.ensure_at(1, s.is_tick_in_range())?;
        self.ensure_at(3, s.is_bts_in_range())?;
        self.check_rows(&s.rows())?;
        self.ensure_at(36, s.are_functions_in_range(version))?;
        self.ensure_at(37, s.is_x_in_range())?;
        self.ensure_at(39, s.is_y_in_range())?;
        s.pairs.check(self, version)
    }

    // Are the settings in range beside this version, on a card of this kind; else the place of the first that is not.
    #[tactic(auto, using(crate::proofs::Checked::refused_paper))]
    pub fn check(self, version: u8, s: Settings) -> Result<(), Refusal>
        ensures { checked_of result ≡ check_of self version s }
    {
        self.first_refused(version, s)
    }

    // The same without the place: what a session asks at each sample.
    #[tactic(auto, using(crate::proofs::Checked::inside_met), unfolding(crate::specs::Ranges::settings_met))]
    pub fn is_in_range(self, version: u8, s: Settings) -> bool
        ensures { result ≡ settings_inside self version s }
    {
        self.is_vmax_in_range(s)
            && s.is_tick_in_range()
            && s.is_bts_in_range()
            && are_rows_in_range(&s.rows())
            && s.are_functions_in_range(version)
            && s.is_x_in_range()
            && s.is_y_in_range()
            && s.pairs.is_in_range(version)
    }
}
