// The settings card of document 01: reading it from an area of bytes, writing it into a lent buffer, and the
// check of settings that reading, writing and opening share.
//
// Every function is total: there is no `requires`. Each public one ensures that its answer, put on paper by the
// definition beside it, is the answer that specs/ defines; the writer ensures so of every byte of the lent buffer too.
#![tactic(auto)]

mod layout;
mod ranges;

ghost use Rattle.std.specs.Prelude.{◌≡◌, length};
ghost use Rattle.leaf.specs.Bytes.{byte};
ghost use Rattle.leaf.specs.Answers.{is_given};
ghost use Rattle.card.specs.Card.{known, functions_of};
ghost use Rattle.card.specs.Ranges.{checked_of, check_settings};
ghost use Rattle.card.specs.Reading.{paper_of, read_card, found_of, card_in};
ghost use Rattle.card.specs.Writing.{written_of, write_card, leaves};

use layout::{encode, length_of};
use leaf::{Refusal, byte_at, ensure, has_bit, word_at};

// A kind of card: the place of its first setting, and the range of vmax in km/h. Every kind has the same settings in the
// same order, one behind the other.
#[derive(Clone, Copy, Debug, PartialEq, Eq)]
pub struct Kind {
    pub first: u8,
    pub vmax_lowest: u8,
    pub vmax_highest: u8,
}

impl Kind {
    // This product's card.
    pub const BASE: Kind = Kind {
        first: 3,
        vmax_lowest: 80,
        vmax_highest: 200,
    };
}

// One control's numbers: initial and last speed in km/h, delay in samples, drop in hundredths of km/h a sample.
// (The paper's final: `final` is a word of the language.)
#[derive(Clone, Copy, Debug, PartialEq, Eq)]
pub struct Row {
    pub initial: u8,
    pub last: u8,
    pub delay: u8,
    pub drop: u8,
}

// What pairs of limit beacons set: the speeds in km/h for pairs 10-10, 10-11, 11-10, 11-11, and the pair distance in metres.
#[derive(Clone, Copy, Debug, PartialEq, Eq)]
pub struct Pairs {
    pub ten_ten: u8,
    pub ten_eleven: u8,
    pub eleven_ten: u8,
    pub eleven_eleven: u8,
    pub distance: u8,
}

impl Pairs {
    // What a card of version 1 or 2 has.
    pub const NONE: Pairs = Pairs {
        ten_ten: 0,
        ten_eleven: 0,
        eleven_ten: 0,
        eleven_eleven: 0,
        distance: 0,
    };
}

// What a card says. A version 1 card has functions, x and y 0; all of pairs is 0 on a version 1 or 2 card.
#[derive(Clone, Copy, Debug, PartialEq, Eq)]
pub struct Settings {
    pub vmax: u8,
    pub tick: u16,
    pub bts: u8,
    pub conditional_clear: Row,
    pub announcement: Row,
    pub preannouncement: Row,
    pub caution: Row,
    pub before_stop: Row,
    pub crossing: Row,
    pub limit: Row,
    pub start: Row,
    pub functions: u8,
    pub x: u16,
    pub y: u16,
    pub pairs: Pairs,
}

// A card: its version, and beside it what it says. Opening and desk go by both. The version is a number: one that there is
// not may be handed in, and is refused, 2 (`judge_card`, `write_card`).
#[derive(Clone, Copy, Debug, PartialEq, Eq)]
pub struct Card {
    pub version: u8,
    pub settings: Settings,
}

impl Settings {
    // The length of a version 1 record.
    pub const LENGTH_1: u16 = 39;

    // The length of a version 2 record.
    pub const LENGTH_2: u16 = 44;

    // The length of a version 3 record.
    pub const LENGTH_3: u16 = 49;
}

// The functions of a card, by name: protected crossing, stop zone, reminder, BTS reads beacons 4, 9, 10 and 11.
#[derive(Clone, Copy, Debug, PartialEq, Eq)]
pub struct Functions {
    pub protects: bool,
    pub zones: bool,
    pub reminds: bool,
    pub reads_in_bts: bool,
}

// The functions that a functions byte turns on.
pub fn functions_of(byte: u8) -> Functions
    ensures { result ≡ functions_of byte }
{
    let mask = u16::from(byte);
    Functions {
        protects: has_bit(mask, 1),
        zones: has_bit(mask, 2),
        reminds: has_bit(mask, 4),
        reads_in_bts: has_bit(mask, 8),
    }
}

// ---- the settings' check

// Are the settings in range beside this version, as writer and opening ask; else the byte position of the first that is not.
// Version and settings one by one, here and in the writer: the reader has them apart, and most of the tests take the
// settings alone. A `Card` would be built for the call and taken apart here.
#[tactic(auto, unfolding(crate::specs::Ranges::check_settings, crate::specs::Ranges::fault_of))]
pub fn check(version: u8, s: Settings) -> Result<(), Refusal>
    ensures { checked_of result ≡ check_settings version s }
{
    Kind::BASE.check(version, s)
}

// The same, without the place of a fault. Version and settings as `check` takes them.
#[tactic(auto, using(crate::proofs::InRange::base_placed, crate::proofs::InRange::inside_given), unfolding(crate::specs::Ranges::check_settings, crate::specs::Ranges::fault_of))]
pub fn is_in_range(version: u8, s: Settings) -> bool
    ensures { result ≡ is_given (check_settings version s) }
{
    Kind::BASE.is_in_range(version, s)
}

// Is there a card of this version.
pub fn is_known(version: u8) -> bool
    ensures { result ≡ known version }
{
    matches!(version, 1..=3)
}

// ---- reading

// The version that an area states: its byte 2, 0 where it has none.
pub fn version_of(area: &[u8]) -> u8
    ensures { result ≡ byte area.now 2 }
{
    byte_at(area, 2)
}

// The settings of the card in the area, for a reader that knows the versions up to highest. Nothing beyond the
// record is looked at, nor are silent bytes. The bytes are lent and the highest version is the reader's own: a struct of
// both would be built for this call alone.
#[tactic(auto, using(crate::proofs::Checked::passed), unfolding(crate::specs::Reading::read_card, crate::specs::Reading::answer_by, leaf::specs::Checks::or_fault))]
pub fn read(area: &[u8], highest: u8) -> Result<Settings, Refusal>
    ensures { paper_of result ≡ read_card area.now highest }
{
    ensure(is_known(highest), Refusal::NoSuchReader)?;
    ensure(3 <= area.len(), Refusal::AreaTooShort)?;
    let version = version_of(area);
    ensure(version != 0, Refusal::NoSuchVersion)?;
    ensure(version <= highest, Refusal::VersionTooNew)?;
    let length = length_of(version);
    ensure(word_at(area, 0) == length, Refusal::WrongLength)?;
    ensure(length as usize <= area.len(), Refusal::AreaTooShort)?;
    let settings = Kind::BASE.settings_from(version, area);
    check(version, settings)?;
    Ok(settings)
}

// The card in the area: what the reader answers, with the version that the area states beside it. Area and highest as `read`
// takes them.
#[tactic(auto, unfolding(crate::specs::Reading::card_in))]
pub fn card_in(area: &[u8], highest: u8) -> Result<Card, Refusal>
    ensures { found_of result ≡ card_in area.now highest }
{
    let settings = read(area, highest)?;
    Ok(Card {
        version: version_of(area),
        settings,
    })
}

// ---- writing

// Writes the settings' record of this version at the buffer's start. Beyond the record the buffer stays as it was;
// where the answer is a refusal, all of it does. Version and settings as `check` takes them.
#[tactic(auto, using(crate::proofs::Checked::passed), unfolding(crate::specs::Writing::write_card, crate::specs::Writing::record_of, crate::specs::Reading::answer_by, leaf::specs::Checks::or_fault))]
pub fn write(version: u8, s: Settings, buf: &mut [u8]) -> Result<(), Refusal>
    ensures result_value { written_of result ≡ write_card version s (length buf.old) }
    ensures buf_after { buf.new ≡ leaves (written_of result) version s buf.old }
{
    ensure(is_known(version), Refusal::NoSuchVersion)?;
    check(version, s)?;
    let length = length_of(version) as usize;
    ensure(length <= buf.len(), Refusal::NoRoom)?;
    buf[..length].copy_from_slice(&encode(version, s)[..length]);
    Ok(())
}
