// What `show_tones` prints: why a sheet is refused, with the row and what it lacks, and what the tone on a line reads as
// under a sheet. A tone is eight hexadecimal digits, the bit pattern of its f32 in kHz; blanks count for nothing. Each is one
// text, typed into a lent buffer.
//
// The functions type from the place `at` on, as those of `text` do. There is no `requires`.
#![tactic(auto)]

ghost use Rattle.std.specs.Prelude.{◌≡◌, ◌+◌, ◌-◌, ◌*◌, ◌%◌, ◌++◌, eqb};
ghost use Rattle.std.specs.Option.{MatchOption};
ghost use Rattle.std.specs.Float.Ieee.Scale.{finite};
ghost use Rattle.leaf.specs.Answers.{refusal_of};
ghost use Rattle.leaf.specs.Choosing.{pick};
ghost use Rattle.tone.specs.Facts.{row_in};
ghost use Rattle.tone.specs.Tones.{all_finite, share};
ghost use Rattle.tone.specs.declared.Reading.TheVariants.{Nothing};
ghost use Rattle.text.specs.Hex.{hex_value};
ghost use Rattle.text.specs.Typing.{typed, Held};
ghost use Rattle.text.specs.Words.{ascii, word_of, labelled};
ghost use Rattle.shown_tones.specs.Shown.{row_kind, row_name, is_ordered, ends_by128, ends_by_twice_low, reason_of, shared_by, reason_text, row_text, length_text, version_text, place_text, fault_text, bad_text, sheet_text, shown_sheet};
ghost use Rattle.shown_tones.specs.Shown.{is_blank, bytes_in, only_digits, is_tone, bits_of, reading_text, given_text, tone_text, other_text, shown_tone};

use leaf::{QUIET_CODE, Refusal, byte_at, long_at, word_at};
use text::{counted, hex_digit, put_float, put_labelled, put_pattern, put_refusal, put_text};
use tone::{Reading, ToneRow, float_of};

// ---- a sheet's refusal

fn put_beacon(out: &mut [u8], at: usize, k: u32) -> usize
    ensures { (out.new, result) ≡ typed (labelled (ascii " (beacon ") k ++ ascii ")") (out.old, at) }
{
    let at = put_labelled(out, at, b" (beacon ", k);
    put_text(out, at, b")")
}

#[tactic(auto, unfolding(crate::specs::Shown::row_kind))]
fn put_row_kind(out: &mut [u8], at: usize, k: u32) -> usize
    ensures { (out.new, result) ≡ typed (row_kind k) (out.old, at) }
{
    if k == 0 {
        return put_text(out, at, b" (permanent tone)");
    }
    put_beacon(out, at, k)
}

fn put_row_name(out: &mut [u8], at: usize, k: u32) -> usize
    ensures { (out.new, result) ≡ typed (row_name k) (out.old, at) }
{
    let at = put_labelled(out, at, b"row ", k);
    put_row_kind(out, at, k)
}

// Is x neither an infinity nor a NaN.
#[tactic(auto, using(crate::proofs::Texts::finite_is))]
fn is_finite(x: f32) -> bool
    ensures { result ≡ finite x }
{
    x.is_finite()
}

// The row of the sheet in the area, good or bad. tone's own, by a place, is not public; this one is promised of a row's number.
fn row_in(area: &[u8], k: u8) -> ToneRow
    ensures { result ≡ row_in area.now k }
{
    let at = 3 + 12 * u32::from(k);
    ToneRow {
        low: float_of(long_at(area, at)),
        centre: float_of(long_at(area, at + 4)),
        high: float_of(long_at(area, at + 8)),
    }
}

// Does some tone lie in both rows. tone's own is not public, and `must-fail/shown.edit` edits this one.
fn shares(a: ToneRow, b: ToneRow) -> bool
    ensures { result ≡ share a b }
{
    a.low <= b.high && b.low <= a.high
}

// What a row needs by itself, a function each.
fn is_all_finite(r: ToneRow) -> bool
    ensures { result ≡ all_finite r }
{
    is_finite(r.low) && is_finite(r.centre) && is_finite(r.high)
}

// tone asks for all of it at once, and says no more than that a row is bad.
#[tactic(auto, using(tone::proofs::Laws::low_is))]
fn is_ordered(r: ToneRow) -> bool
    ensures { result ≡ is_ordered r }
{
    32.0 <= r.low && r.low <= r.centre && r.centre <= r.high
}

#[tactic(auto, using(tone::proofs::Laws::high_is))]
fn ends_by_128(r: ToneRow) -> bool
    ensures { result ≡ ends_by128 r }
{
    r.high <= 128.0
}

#[tactic(auto, using(tone::proofs::Laws::two_is))]
fn ends_by_twice_low(r: ToneRow) -> bool
    ensures { result ≡ ends_by_twice_low r }
{
    r.high <= 2.0 * r.low
}

#[tactic(auto, unfolding(crate::specs::Shown::reason_of, leaf::specs::Checks::or_fault))]
fn lacks_nothing(r: ToneRow) -> bool
    ensures { result ≡ eqb (reason_of r) 0 }
{
    is_all_finite(r) && is_ordered(r) && ends_by_128(r) && ends_by_twice_low(r)
}

// The first of these that a row lacks, in words; where it lacks none, what stands before the name of a row that shares a tone with it.
#[tactic(auto, unfolding(crate::specs::Shown::reason_of, leaf::specs::Checks::or_fault, text::specs::Words::word_of))]
fn reason(r: ToneRow) -> &'static [u8]
    ensures { result.now ≡ word_of (ascii ": shares a tone with |: a number is not finite|: not 32 <= low <= centre <= high|: high is above 128|: high is above twice low") (reason_of r) }
{
    if !is_all_finite(r) {
        return b": a number is not finite";
    }
    if !is_ordered(r) {
        return b": not 32 <= low <= centre <= high";
    }
    if !ends_by_128(r) {
        return b": high is above 128";
    }
    if !ends_by_twice_low(r) {
        return b": high is above twice low";
    }
    b": shares a tone with "
}

// The first earlier row that shares a tone with row k.
#[tactic(auto, using(crate::proofs::Texts::stays_first, crate::proofs::Texts::none_first), unfolding(crate::specs::Shown::shared_by))]
fn shared_by(area: &[u8], k: u8) -> Option<u8>
    ensures { MatchOption result (shared_by area.now k k ≡ 0) (λ row. shared_by area.now k k ≡ row + 1) }
{
    let row = row_in(area, k);
    for i in 0..k {
        if shares(row_in(area, i), row) {
            return Some(i);
        }
    }
    None
}

// Its number, which there is where a row is bad and lacks nothing by itself; else 0.
fn first_shared(area: &[u8], k: u8) -> u32
    ensures { result ≡ shared_by area.now k k - 1 }
{
    match shared_by(area, k) {
        Some(row) => u32::from(row),
        None => 0,
    }
}

fn put_reason(out: &mut [u8], at: usize, area: &[u8], k: u8) -> usize
    ensures { (out.new, result) ≡ typed (reason_text area.now k) (out.old, at) }
{
    let row = row_in(area, k);
    let at = put_text(out, at, reason(row));
    if lacks_nothing(row) {
        return put_row_name(out, at, first_shared(area, k));
    }
    at
}

fn put_row(out: &mut [u8], at: usize, area: &[u8], k: u8) -> usize
    ensures { (out.new, result) ≡ typed (row_text area.now k) (out.old, at) }
{
    let at = put_row_name(out, at, u32::from(k));
    put_reason(out, at, area, k)
}

fn put_length(out: &mut [u8], at: usize, area: &[u8]) -> usize
    ensures { (out.new, result) ≡ typed (length_text area.now) (out.old, at) }
{
    let at = put_labelled(
        out,
        at,
        b"length, or fewer than 147 bytes: the field is ",
        u32::from(word_at(area, 0)),
    );
    let at = put_labelled(out, at, b", there are ", counted(area));
    put_text(out, at, b" bytes")
}

fn put_version(out: &mut [u8], at: usize, area: &[u8]) -> usize
    ensures { (out.new, result) ≡ typed (version_text area.now) (out.old, at) }
{
    let at = put_labelled(out, at, b"version: is ", u32::from(byte_at(area, 2)));
    put_labelled(out, at, b", must be ", 1)
}

#[tactic(auto, unfolding(crate::specs::Shown::place_text))]
fn put_place(out: &mut [u8], at: usize, area: &[u8], place: u8) -> usize
    ensures { (out.new, result) ≡ typed (place_text area.now place) (out.old, at) }
{
    if place < 2 {
        return put_length(out, at, area);
    }
    if place < 3 {
        return put_version(out, at, area);
    }
    put_row(out, at, area, (place - 3) / 12)
}

fn put_fault(out: &mut [u8], at: usize, area: &[u8], number: u8, place: u8) -> usize
    ensures { (out.new, result) ≡ typed (fault_text area.now number place) (out.old, at) }
{
    let at = put_refusal(out, at, number, Some(place));
    let at = put_text(out, at, b": ");
    let at = put_place(out, at, area, place);
    put_text(out, at, b"\n")
}

fn put_bad(out: &mut [u8], at: usize, number: u8) -> usize
    ensures { (out.new, result) ≡ typed (bad_text number) (out.old, at) }
{
    let at = put_refusal(out, at, number, None);
    put_text(out, at, b": tone sheet bad\n")
}

#[tactic(auto, unfolding(crate::specs::Shown::sheet_text))]
fn put_why(out: &mut [u8], at: usize, area: &[u8], why: Refusal) -> usize
    ensures { (out.new, result) ≡ typed (sheet_text area.now (refusal_of why)) (out.old, at) }
{
    match why.place() {
        None => put_bad(out, at, why.number()),
        Some(place) => put_fault(out, at, area, why.number(), place),
    }
}

// What it answers is a length, that of no text where nothing is refused, by `shown_sheet`.
#[tactic(auto, unfolding(crate::specs::Shown::shown_sheet, crate::specs::Shown::sheet_text, text::specs::Typing::typed))]
fn put_sheet(area: &[u8], out: &mut [u8]) -> usize
    ensures { (out.new, result) ≡ typed (shown_sheet area.now) (out.old, 0) }
{
    match tone::read_sheet(area) {
        Ok(_) => 0,
        Err(why) => put_why(out, 0, area, why),
    }
}

// ---- a line

fn is_blank(b: u8) -> bool
    ensures { result ≡ is_blank b }
{
    matches!(b, b' ' | b'\t')
}

// How many bytes are no blanks.
#[tactic(auto, using(crate::proofs::Texts::bytes_counted))]
fn bytes_in(line: &[u8]) -> usize
    ensures { result ≡ bytes_in line.now }
{
    line.iter().filter(|&&b| !is_blank(b)).count()
}

// Are all bytes blanks and hexadecimal digits.
fn only_digits(line: &[u8]) -> bool
    ensures { result ≡ only_digits line.now }
{
    line.iter().all(|&b| is_blank(b) || hex_digit(b) < 16)
}

#[tactic(auto, unfolding(crate::specs::Shown::is_tone))]
fn is_tone(line: &[u8]) -> bool
    ensures { result ≡ is_tone line.now }
{
    bytes_in(line) == 8 && only_digits(line)
}

// The bits with a line's next byte, where it is no blank.
fn next_bits(bits: u32, b: u8) -> u32
    ensures { result ≡ pick (is_blank b) bits (bits % 0x1000_0000 * 16 + hex_value b % 16) }
{
    if is_blank(b) {
        bits
    } else {
        bits % 0x1000_0000 * 16 + u32::from(hex_digit(b) % 16)
    }
}

// The number that a line's hexadecimal digits write, the last eight of them. Blanks stand between them, so it is no text that std
// reads as a number.
#[tactic(auto, unfolding(crate::specs::Shown::bits_from))]
fn bits_in(line: &[u8]) -> u32
    ensures { result ≡ bits_of line.now }
{
    let mut bits = 0;
    for &b in line {
        bits = next_bits(bits, b);
    }
    bits
}

#[tactic(auto, unfolding(crate::specs::Shown::reading_text))]
fn put_nothing(out: &mut [u8], at: usize) -> usize
    ensures { (out.new, result) ≡ typed (reading_text Nothing) (out.old, at) }
{
    put_labelled(out, at, b" nothing code ", u32::from(QUIET_CODE))
}

fn put_reading(out: &mut [u8], at: usize, reading: Reading) -> usize
    ensures { (out.new, result) ≡ typed (reading_text reading) (out.old, at) }
{
    match reading {
        Reading::Beacon(k, offset) => {
            let at = put_labelled(out, at, b" beacon ", u32::from(k));
            let at = put_text(out, at, b" offset ");
            put_float(out, at, offset)
        }
        Reading::Permanent(offset) => {
            let at = put_text(out, at, b" permanent offset ");
            put_float(out, at, offset)
        }
        Reading::Nothing => put_nothing(out, at),
    }
}

#[tactic(auto, using(text::specs::Typing::then_typed), unfolding(crate::specs::Shown::given_text))]
fn put_given(out: &mut [u8], at: usize, bits: u32, reading: Reading) -> usize
    ensures { (out.new, result) ≡ typed (given_text bits reading) (out.old, at) }
{
    let at = put_pattern(out, at, bits);
    let at = put_reading(out, at, reading);
    put_text(out, at, b"\n")
}

#[tactic(auto, using(crate::proofs::Texts::answer_refused), unfolding(crate::specs::Shown::tone_text, crate::specs::Shown::answer_text))]
fn put_tone(area: &[u8], bits: u32, out: &mut [u8], at: usize) -> usize
    ensures { (out.new, result) ≡ typed (tone_text area.now bits) (out.old, at) }
{
    match tone::classify(area, float_of(bits)) {
        Ok(reading) => put_given(out, at, bits, reading),
        Err(why) => put_why(out, at, area, why),
    }
}

fn put_other(out: &mut [u8], at: usize, line: &[u8]) -> usize
    ensures { (out.new, result) ≡ typed (other_text line.now) (out.old, at) }
{
    let at = put_text(out, at, b"not a tone: ");
    let at = put_text(out, at, line);
    put_text(
        out,
        at,
        b"; a tone is the eight hexadecimal digits of its f32 in kHz, as 42730a3d\n",
    )
}

#[tactic(auto, unfolding(text::specs::Typing::typed, crate::specs::Shown::shown_tone))]
fn put_line(area: &[u8], line: &[u8], out: &mut [u8]) -> usize
    ensures { (out.new, result) ≡ typed (shown_tone area.now line.now) (out.old, 0) }
{
    if bytes_in(line) == 0 {
        return 0;
    }
    if is_tone(line) {
        return put_tone(area, bits_in(line), out, 0);
    }
    put_other(out, 0, line)
}

// ---- the texts, each at the buffer's start. They answer how many bytes of the text the buffer now holds: all, where there
// is room, else what there is room for. The rest of the buffer is as it was.

// Why the sheet in the area is refused; nothing where it is not. That is no text, of length 0 (`Held`).
pub fn print_sheet(area: &[u8], out: &mut [u8]) -> usize
    ensures { Held (shown_sheet area.now) out.old out.new result }
{
    put_sheet(area, out)
}

// What the tone on the line reads as under the sheet in the area; nothing for a line of blanks.
pub fn print_tone(area: &[u8], line: &[u8], out: &mut [u8]) -> usize
    ensures { Held (shown_tone area.now line.now) out.old out.new result }
{
    put_line(area, line, out)
}
