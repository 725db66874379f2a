// Where the settings stand on the card: bytes to settings, and settings to bytes. What is read stands so many bytes
// behind the first setting of the card's kind.
ghost use Rattle.std.specs.Prelude.{◌≡◌, ◌+◌};
ghost use Rattle.leaf.specs.Bytes.{byte, word};
ghost use Rattle.card.specs.Card.{row_at, length_of};
ghost use Rattle.card.specs.Reading.{functions_from, pairs_from, settings_from};
ghost use Rattle.card.specs.Writing.{bytes_of};

use crate::ranges::has_reminder;
use crate::{Kind, Pairs, Row, Settings};
use leaf::{byte_at, word_at};

// The length of a record of this version. A version is a number, so this is no `From`. It is not public, and the
// numbers are those of `Settings`: refused_card, which prints them, has a match of its own.
pub fn length_of(version: u8) -> u16
    ensures { result ≡ length_of version }
{
    match version {
        1 => Settings::LENGTH_1,
        2 => Settings::LENGTH_2,
        _ => Settings::LENGTH_3,
    }
}

impl Kind {
    // Here and in the two below an offset and no slice: readers of a fixed format behind the kind's first setting,
    // total past the area's end (`byte`).
    fn byte_from(self, area: &[u8], offset: u8) -> u8
        ensures { result ≡ byte area.now (self.first + offset) }
    {
        byte_at(area, usize::from(self.first) + usize::from(offset))
    }

    fn word_from(self, area: &[u8], offset: u8) -> u16
        ensures { result ≡ word area.now (self.first + offset) }
    {
        word_at(area, u32::from(self.first) + u32::from(offset))
    }

    // `cases` has one of its own, since the reader hands out no settings that are out of range.
    #[tactic(auto, unfolding(crate::specs::Card::row_at))]
    fn row_from(self, area: &[u8], offset: u8) -> Row
        ensures { result ≡ row_at area.now (self.first + offset) }
    {
        let at = usize::from(self.first) + usize::from(offset);
        Row {
            initial: byte_at(area, at),
            last: byte_at(area, at + 1),
            delay: byte_at(area, at + 2),
            drop: byte_at(area, at + 3),
        }
    }

    // A version 1 card has functions 0, whatever stands behind it.
    #[tactic(auto, unfolding(crate::specs::Reading::functions_from))]
    fn functions_from(self, version: u8, area: &[u8]) -> u8
        ensures { result ≡ functions_from self version area.now }
    {
        if version == 1 {
            0
        } else {
            self.byte_from(area, 36)
        }
    }

    // The pairs of a version 3 card. Cards of other versions have none, whatever stands behind them.
    #[tactic(auto, unfolding(crate::specs::Reading::pairs_from, crate::specs::Card::pairs_at))]
    fn pairs_from(self, version: u8, area: &[u8]) -> Pairs
        ensures { result ≡ pairs_from self version area.now }
    {
        if version != 3 {
            return Pairs::NONE;
        }
        let at = usize::from(self.first) + 41;
        Pairs {
            ten_ten: byte_at(area, at),
            ten_eleven: byte_at(area, at + 1),
            eleven_ten: byte_at(area, at + 2),
            eleven_eleven: byte_at(area, at + 3),
            distance: byte_at(area, at + 4),
        }
    }

    // The settings of an area that holds a record of this kind and version.
    #[tactic(auto, unfolding(crate::specs::Reading::settings_from))]
    pub fn settings_from(self, version: u8, area: &[u8]) -> Settings
        ensures { result ≡ settings_from self version area.now }
    {
        let functions = self.functions_from(version, area);
        let (x, y) = if has_reminder(functions) {
            (self.word_from(area, 37), self.word_from(area, 39))
        } else {
            (0, 0)
        };
        Settings {
            vmax: self.byte_from(area, 0),
            tick: self.word_from(area, 1),
            bts: self.byte_from(area, 3),
            conditional_clear: self.row_from(area, 4),
            announcement: self.row_from(area, 8),
            preannouncement: self.row_from(area, 12),
            caution: self.row_from(area, 16),
            before_stop: self.row_from(area, 20),
            crossing: self.row_from(area, 24),
            limit: self.row_from(area, 28),
            start: self.row_from(area, 32),
            functions,
            x,
            y,
            pairs: self.pairs_from(version, area),
        }
    }
}

// The bytes of the longest record; those of a shorter one come first among them. They stand one by one, in the order of
// `bytes_of`: a copy of each part into a zeroed array would say every place once more. Version and settings one by one,
// as `check` takes them.
#[tactic(auto, unfolding(crate::specs::Writing::bytes_of))]
pub fn encode(version: u8, s: Settings) -> [u8; 49]
    ensures { result ≡ bytes_of version s }
{
    let [length_high, length_low] = length_of(version).to_be_bytes();
    let [tick_high, tick_low] = s.tick.to_be_bytes();
    let [x_high, x_low] = s.x.to_be_bytes();
    let [y_high, y_low] = s.y.to_be_bytes();
    [
        length_high,
        length_low,
        version,
        s.vmax,
        tick_high,
        tick_low,
        s.bts,
        s.conditional_clear.initial,
        s.conditional_clear.last,
        s.conditional_clear.delay,
        s.conditional_clear.drop,
        s.announcement.initial,
        s.announcement.last,
        s.announcement.delay,
        s.announcement.drop,
        s.preannouncement.initial,
        s.preannouncement.last,
        s.preannouncement.delay,
        s.preannouncement.drop,
        s.caution.initial,
        s.caution.last,
        s.caution.delay,
        s.caution.drop,
        s.before_stop.initial,
        s.before_stop.last,
        s.before_stop.delay,
        s.before_stop.drop,
        s.crossing.initial,
        s.crossing.last,
        s.crossing.delay,
        s.crossing.drop,
        s.limit.initial,
        s.limit.last,
        s.limit.delay,
        s.limit.drop,
        s.start.initial,
        s.start.last,
        s.start.delay,
        s.start.drop,
        s.functions,
        x_high,
        x_low,
        y_high,
        y_low,
        s.pairs.ten_ten,
        s.pairs.ten_eleven,
        s.pairs.eleven_ten,
        s.pairs.eleven_eleven,
        s.pairs.distance,
    ]
}
