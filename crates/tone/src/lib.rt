// The pickup's tones: the tone sheet, the classifier and the ride's beacon code, as document 01's "Tones" has them.
//
// Public are the reader of a sheet, the classifier, the code of a reading, and the f32 of a bit pattern. None has a
// `requires`: a bad sheet is refused with 12 and the place of its first fault, and every bit pattern is a tone. Bytes
// behind a sheet's 147 are not looked at.
#![tactic(auto)]

ghost use Rattle.std.specs.Prelude.{◌≡◌, ◌≤◌, ◌<◌};
ghost use Rattle.std.specs.Float.{binary32};
ghost use Rattle.std.specs.Float.Ieee.{of_bits};
ghost use Rattle.std.specs.List.{list_any};
ghost use Rattle.tone.specs.Tones.{place_of, row_at, sheet_of, row_ok, share, good_beside, fault_of, bad_at, read_sheet, sheet_read, paper_of_sheet, blank_sheet, beside_of, in_row, reading_of, read_from, classify_of, paper_of, code_of};

use leaf::{QUIET_CODE, Refusal, byte_at, ensure, long_at, word_at};

// A sheet's length field, which is also how many of an area's bytes are looked at, and its version.
const LENGTH: u16 = 147;

const VERSION: u8 = 1;

// A row of the sheet, in kHz.
#[derive(Clone, Copy)]
pub struct ToneRow {
    pub low: f32,
    pub centre: f32,
    pub high: f32,
}

// The permanent tone's row, then those of beacons 1 to 11.
#[derive(Clone, Copy)]
pub struct Sheet {
    pub rows: [ToneRow; 12],
}

// What a tone reads as: a beacon's number with the offset from its row's centre, the permanent tone with its offset.
// Numbers and offsets, as document 01 has the answer; `Nothing` is one of the readings, with a code of its own
// (`code_of`), and no want of one.
#[derive(Clone, Copy)]
pub enum Reading {
    Beacon(u8, f32),
    Permanent(f32),
    Nothing,
}

// ---- a row

// The f32 of a bit pattern: for each of a NaN's patterns the NaN, which f32::from_bits does not take.
pub fn float_of(bits: u32) -> f32
    ensures { result ≡ of_bits binary32 bits }
{
    if bits % 0x8000_0000 > 0x7f80_0000 {
        0.0 / 0.0
    } else {
        f32::from_bits(bits)
    }
}

// The first byte of row k.
fn place_of(k: usize) -> u8
    requires { k < 12 }
    ensures { result ≡ place_of k }
{
    3 + 12 * (k as u8)
}

// A row at a place: a reader of a fixed format, total past the area's end (`long`). shown_tones has one of its own, of a
// row's number.
fn row_at(area: &[u8], at: u32) -> ToneRow
    requires { at ≤ 255 }
    ensures { result ≡ row_at area.now at }
{
    ToneRow {
        low: float_of(long_at(area, at)),
        centre: float_of(long_at(area, at + 4)),
        high: float_of(long_at(area, at + 8)),
    }
}

impl ToneRow {
    // What a row needs by itself. A NaN fails every comparison and an infinity one of the ends, so all three are finite.
    // One answer; shown_tones asks test by test, to say which of them fails.
    fn is_ok(self) -> bool
        ensures { result ≡ row_ok self }
    {
        32.0 <= self.low
            && self.low <= self.centre
            && self.centre <= self.high
            && self.high <= 128.0
            && self.high <= 2.0 * self.low
    }

    // Does some tone lie in both rows, ends included. shown_tones has it too, to name the earlier row: it is not public
    // here.
    fn shares(self, other: ToneRow) -> bool
        ensures { result ≡ share self other }
    {
        self.low <= other.high && other.low <= self.high
    }

    fn shares_with_one_of(self, earlier: &[ToneRow]) -> bool
        ensures { result ≡ list_any (λ row. share row self) earlier.now }
    {
        earlier.iter().any(|row| row.shares(self))
    }

    // Is the row good by itself and beside the earlier ones.
    #[tactic(auto, unfolding(crate::specs::Tones::good_beside))]
    fn is_good_beside(self, earlier: &[ToneRow]) -> bool
        ensures { result ≡ good_beside earlier.now self }
    {
        self.is_ok() && !self.shares_with_one_of(earlier)
    }

    // Does the tone lie in the row, ends included.
    fn holds(self, tone: f32) -> bool
        ensures { result ≡ in_row self tone }
    {
        self.low <= tone && tone <= self.high
    }
}

// ---- the sheet

fn blank_sheet() -> Sheet
    ensures { result ≡ blank_sheet }
{
    let row = ToneRow {
        low: 0.0,
        centre: 0.0,
        high: 0.0,
    };
    Sheet { rows: [row; 12] }
}

// The twelve rows in the area, good or bad.
fn sheet_of(area: &[u8]) -> Sheet
    ensures { result ≡ sheet_of area.now }
{
    let mut sheet = blank_sheet();
    for (k, row) in sheet.rows.iter_mut().enumerate() {
        *row = row_at(area, place_of(k).into());
    }
    sheet
}

impl Sheet {
    // The refusal by the first fault of the version or a row.
    #[tactic(auto, using(crate::proofs::Laws::version_first, crate::proofs::Laws::row_first, crate::proofs::Laws::none_at, crate::proofs::Laws::none_more, crate::proofs::Laws::none_bad))]
    fn check(self, version: u8) -> Result<(), Refusal>
        ensures { result ≡ bad_at (fault_of version self.rows 12) }
    {
        ensure(version == VERSION, Refusal::BadSheet { place: 2 })?;
        for (k, row) in self.rows.iter().enumerate() {
            let good = row.is_good_beside(&self.rows[..k]);
            let place = place_of(k);
            ensure(good, Refusal::BadSheet { place })?;
        }
        Ok(())
    }

    // What the tone reads as under the first of the rows that it lies in.
    #[tactic(auto, unfolding(crate::specs::Tones::read_from))]
    fn read(self, tone: f32) -> Reading
        ensures { result ≡ read_from 0 self.rows tone }
    {
        for (k, row) in self.rows.iter().enumerate() {
            if row.holds(tone) {
                return reading_of(k as u8, tone - row.centre);
            }
        }
        Reading::Nothing
    }
}

// The sheet in the area, or its first refusal.
#[tactic(auto, unfolding(crate::specs::Tones::sheet_read))]
fn sheet_in(area: &[u8]) -> Result<Sheet, Refusal>
    ensures { result ≡ sheet_read area.now }
{
    let whole = usize::from(LENGTH) <= area.len() && word_at(area, 0) == LENGTH;
    ensure(whole, Refusal::BadSheet { place: 0 })?;
    let sheet = sheet_of(area);
    sheet.check(byte_at(area, 2))?;
    Ok(sheet)
}

// The sheet in the area, or refusal 12 with the place of the first fault.
#[tactic(auto, using(crate::proofs::Laws::sheet_beside, crate::proofs::Laws::sheet_paper))]
pub fn read_sheet(area: &[u8]) -> Result<Sheet, Refusal>
    ensures paper { paper_of_sheet result ≡ read_sheet area.now }
    ensures whole { result ≡ beside_of (read_sheet area.now) }
{
    sheet_in(area)
}

// ---- the classifier

// What row k reads as with the offset: row 0 is the permanent tone's, row k beacon k's. k is a row's place in the sheet,
// as `reading_of` of specs/ has it.
fn reading_of(k: u8, offset: f32) -> Reading
    ensures { result ≡ reading_of k offset }
{
    if k == 0 {
        Reading::Permanent(offset)
    } else {
        Reading::Beacon(k, offset)
    }
}

// What the tone reads as under the sheet in the area, or the sheet's refusal.
#[tactic(auto, using(crate::proofs::Laws::classify_reads, crate::proofs::Laws::classify_refuses))]
pub fn classify(area: &[u8], tone: f32) -> Result<Reading, Refusal>
    ensures { paper_of result ≡ classify_of area.now tone }
{
    let sheet = read_sheet(area)?;
    Ok(sheet.read(tone))
}

impl Reading {
    // The ride's beacon code: the beacon's number, 0 for the permanent tone, that of a quiet pickup for nothing. A
    // number: the ride's beacon code is one (`code_of`).
    pub fn code(self) -> u8
        ensures { result ≡ code_of self }
    {
        match self {
            Reading::Beacon(number, _) => number,
            Reading::Permanent(_) => 0,
            Reading::Nothing => QUIET_CODE,
        }
    }
}
