// Why the card in an area of bytes is refused, in words: by the refusal's number what was found and what should be there, by
// its place the setting that stands there, with its range.
//
// Each function types from the place `at` on, as those of `text` do. There is no `requires`.
#![tactic(auto)]

ghost use Rattle.std.specs.Prelude.{◌≡◌, ◌-◌};
ghost use Rattle.leaf.specs.Bytes.{byte};
ghost use Rattle.card.specs.Card.{length_of};
ghost use Rattle.text.specs.Typing.{typed};
ghost use Rattle.text.specs.Words.{ascii, word_of};
ghost use Rattle.refused_card.specs.Names.{row_name, row_setting, behind_rows, setting_name};
ghost use Rattle.refused_card.specs.Refused.{reason_text, bytes_due, bytes_found, version_found, length_found, found_text, is_character, is_text, hint_text, refused_text};
ghost use Rattle.refused_card.specs.Refused.{low_end, row_high_end, tail_high_end, high_end, value_at, is_final, is_above, is_below, missed_text, is_speed, due_text, range_text, fault_text, why_text, numbered_text};

use card::Settings;
use leaf::{Refusal, byte_at, word_at};
use text::{counted, put_labelled, put_refusal, put_text};

// ---- names

// A row's name by its number, 0 to 7; another number has none.
#[tactic(auto, unfolding(text::specs::Words::word_of), using(crate::proofs::Words::no_word))]
fn row_name(row: u32) -> &'static [u8]
    ensures { result.now ≡ row_name row }
{
    match row {
        0 => b"conditional clear",
        1 => b"stop announcement",
        2 => b"preannouncement",
        3 => b"caution",
        4 => b"before-stop",
        5 => b"unprotected crossing",
        6 => b"limit",
        7 => b"start",
        _ => b"",
    }
}

pub fn put_row_name(out: &mut [u8], at: usize, row: u32) -> usize
    ensures { (out.new, result) ≡ typed (row_name row) (out.old, at) }
{
    put_text(out, at, row_name(row))
}

// What stands behind a row's name for each of its four bytes.
#[tactic(auto, unfolding(text::specs::Words::word_of), using(crate::proofs::Words::no_word))]
fn field_name(field: u32) -> &'static [u8]
    ensures { result.now ≡ word_of (ascii ", initial|, final|, delay|, drop") field }
{
    match field {
        0 => b", initial",
        1 => b", final",
        2 => b", delay",
        3 => b", drop",
        _ => b"",
    }
}

// The setting of a row that stands so many bytes behind the first row's first.
#[tactic(auto, using(text::specs::Typing::typed_append), unfolding(crate::specs::Names::row_setting))]
fn put_row_setting(out: &mut [u8], at: usize, offset: u32) -> usize
    ensures { (out.new, result) ≡ typed (row_setting offset) (out.old, at) }
{
    let at = put_row_name(out, at, offset / 4);
    put_text(out, at, field_name(offset % 4))
}

// The setting before the rows that begins at a place; none does at a second byte.
#[tactic(auto, unfolding(text::specs::Words::word_of), using(crate::proofs::Words::no_word))]
fn head_name(place: u32) -> &'static [u8]
    ensures { result.now ≡ word_of (ascii "length||version|vmax|tick length, in tenths of a millimetre||BTS speed") place }
{
    match place {
        0 => b"length",
        2 => b"version",
        3 => b"vmax",
        4 => b"tick length, in tenths of a millimetre",
        6 => b"BTS speed",
        _ => b"",
    }
}

// The setting that begins so many bytes behind the rows.
#[tactic(auto, unfolding(text::specs::Words::word_of), using(crate::proofs::Words::no_word))]
fn tail_name(offset: u32) -> &'static [u8]
    ensures { result.now ≡ word_of behind_rows offset }
{
    match offset {
        0 => b"functions",
        1 => b"reminder X",
        3 => b"reminder Y",
        5 => b"pair 10-10 speed",
        6 => b"pair 10-11 speed",
        7 => b"pair 11-10 speed",
        8 => b"pair 11-11 speed",
        9 => b"pair distance",
        _ => b"",
    }
}

// The setting that begins at a place.
#[tactic(auto, unfolding(crate::specs::Names::setting_name))]
fn put_setting_name(out: &mut [u8], at: usize, place: u32) -> usize
    ensures { (out.new, result) ≡ typed (setting_name place) (out.old, at) }
{
    if place < 7 {
        return put_text(out, at, head_name(place));
    }
    if place < 39 {
        return put_row_setting(out, at, place - 7);
    }
    put_text(out, at, tail_name(place - 39))
}

// ---- a refusal by its number

// Document 01's words for it, as document 02 changed them.
#[tactic(auto, unfolding(text::specs::Words::word_of), using(crate::proofs::Words::no_word))]
fn reason(number: u8) -> &'static [u8]
    ensures { result.now ≡ reason_text number }
{
    match number {
        1 => b"card area under 3 bytes, or shorter than its record",
        2 => b"card version 0",
        3 => b"card version above the reader's highest",
        4 => b"length field is not its version's length",
        5 => b"setting out of range",
        6 => b"reader's highest version not 1, 2 or 3",
        _ => b"",
    }
}

// The length of a version's record. card's own is not public, and `must-fail/refused.edit` edits this one.
fn length_of(version: u8) -> u32
    ensures { result ≡ length_of version }
{
    let length = match version {
        1 => Settings::LENGTH_1,
        2 => Settings::LENGTH_2,
        _ => Settings::LENGTH_3,
    };
    u32::from(length)
}

// How many bytes the area should have.
#[tactic(auto, unfolding(leaf::specs::Bytes::byte))]
fn bytes_due(area: &[u8]) -> u32
    ensures { result ≡ bytes_due area.now }
{
    match *area {
        [_, _, version, ..] => length_of(version),
        _ => 3,
    }
}

// What was found and what should be there: how many bytes, which version, which length field.
fn put_bytes_found(out: &mut [u8], at: usize, area: &[u8]) -> usize
    ensures { (out.new, result) ≡ typed (bytes_found area.now) (out.old, at) }
{
    let at = put_labelled(out, at, b": has ", counted(area));
    put_labelled(out, at, b" bytes, must have ", bytes_due(area))
}

fn put_version_found(out: &mut [u8], at: usize, area: &[u8], highest: u8) -> usize
    ensures { (out.new, result) ≡ typed (version_found area.now highest) (out.old, at) }
{
    let at = put_labelled(out, at, b": is ", u32::from(byte_at(area, 2)));
    put_labelled(out, at, b", the highest is ", u32::from(highest))
}

fn put_length_found(out: &mut [u8], at: usize, area: &[u8]) -> usize
    ensures { (out.new, result) ≡ typed (length_found area.now) (out.old, at) }
{
    let at = put_labelled(out, at, b": is ", u32::from(word_at(area, 0)));
    put_labelled(out, at, b", must be ", length_of(byte_at(area, 2)))
}

#[tactic(auto, unfolding(crate::specs::Refused::found_text, text::specs::Typing::typed))]
fn put_found(out: &mut [u8], at: usize, area: &[u8], highest: u8, number: u8) -> usize
    ensures { (out.new, result) ≡ typed (found_text area.now highest number) (out.old, at) }
{
    match number {
        1 => put_bytes_found(out, at, area),
        3 => put_version_found(out, at, area, highest),
        4 => put_length_found(out, at, area),
        _ => at,
    }
}

// Is it a character of a text: a printed one, a tab or an end of a line.
fn is_character(b: u8) -> bool
    ensures { result ≡ is_character b }
{
    matches!(b, 0x20..=0x7E | 0x09..=0x0D)
}

// Is every byte a character of a text.
fn is_text(area: &[u8]) -> bool
    ensures { result ≡ is_text area.now }
{
    area.iter().all(|&b| is_character(b))
}

// A file of text is no card.
#[tactic(auto, unfolding(crate::specs::Refused::hint_text))]
fn hint(area: &[u8]) -> &'static [u8]
    ensures { result.now ≡ hint_text area.now }
{
    if is_text(area) && !area.is_empty() {
        return b"this file is text, not bytes; bench/unhex makes bytes of a hex dump\n";
    }
    b""
}

fn put_refused(out: &mut [u8], at: usize, area: &[u8], highest: u8, number: u8) -> usize
    ensures { (out.new, result) ≡ typed (refused_text area.now highest number) (out.old, at) }
{
    let at = put_refusal(out, at, number, None);
    let at = put_text(out, at, b": ");
    let at = put_text(out, at, reason(number));
    let at = put_found(out, at, area, highest, number);
    let at = put_text(out, at, b"\n");
    put_text(out, at, hint(area))
}

// ---- a refusal with its place: a setting out of range

// The lower end of the range of the setting that begins at a place.
#[tactic(auto, unfolding(crate::specs::Refused::low_end))]
fn low_end(place: u32) -> u32
    ensures { result ≡ low_end place }
{
    match place {
        3 => 80,
        4 => 10,
        39 => 0,
        40 => 2,
        _ => 1,
    }
}

// The byte before a place: before a final its row's initial.
fn byte_before(area: &[u8], place: u32) -> u8
    ensures { result ≡ byte area.now (place - 1) }
{
    byte_at(area, place.saturating_sub(1) as usize)
}

// The upper end, in a row: a final's is the initial, which stands before it.
#[tactic(auto, unfolding(crate::specs::Refused::row_high_end))]
fn row_high_end(area: &[u8], place: u32) -> u32
    ensures { result ≡ row_high_end area.now place }
{
    match place.saturating_sub(7) % 4 {
        0 => 200,
        1 => u32::from(byte_before(area, place)),
        _ => 255,
    }
}

// Behind the rows.
#[tactic(auto, unfolding(crate::specs::Refused::tail_high_end))]
fn tail_high_end(place: u32) -> u32
    ensures { result ≡ tail_high_end place }
{
    match place {
        39 => 15,
        40 => 6000,
        48 => 50,
        _ => 5000,
    }
}

// Anywhere.
#[tactic(auto, unfolding(crate::specs::Refused::high_end))]
fn high_end(area: &[u8], place: u32) -> u32
    ensures { result ≡ high_end area.now place }
{
    if place == 4 {
        return 1000;
    }
    if place < 7 {
        return 200;
    }
    if place < 39 {
        return row_high_end(area, place);
    }
    tail_high_end(place)
}

// What stands there.
#[tactic(auto, unfolding(crate::specs::Refused::value_at))]
fn value_at(area: &[u8], place: u32) -> u32
    ensures { result ≡ value_at area.now place }
{
    match place {
        4 | 40 | 42 => u32::from(word_at(area, place)),
        _ => u32::from(byte_at(area, place as usize)),
    }
}

fn is_final(place: u32) -> bool
    ensures { result ≡ is_final place }
{
    matches!(place, 7..=38) && (place - 7) % 4 == 1
}

// Is the final at a place above its initial, which stands before it.
#[tactic(auto, unfolding(crate::specs::Refused::is_above))]
fn is_above(area: &[u8], place: u32) -> bool
    ensures { result ≡ is_above area.now place }
{
    is_final(place) && byte_before(area, place) < byte_at(area, place as usize)
}

#[tactic(auto, unfolding(crate::specs::Refused::is_below))]
fn is_below(area: &[u8], place: u32) -> bool
    ensures { result ≡ is_below area.now place }
{
    is_final(place) && byte_at(area, place as usize) < 1
}

// Which end of its range a final misses.
#[tactic(auto, unfolding(crate::specs::Refused::missed_text))]
fn missed(area: &[u8], place: u32) -> &'static [u8]
    ensures { result.now ≡ missed_text area.now place }
{
    if is_above(area, place) {
        return b": above its initial";
    }
    if is_below(area, place) {
        return b": below 1";
    }
    b""
}

// Is it the speed of a pair that begins at a place.
fn is_speed(place: u32) -> bool
    ensures { result ≡ is_speed place }
{
    matches!(place, 44..=47)
}

// What should be there: of a pair's speed one of four, else the ends of the range.
fn put_due(out: &mut [u8], at: usize, area: &[u8], place: u32) -> usize
    ensures { (out.new, result) ≡ typed (due_text area.now place) (out.old, at) }
{
    if is_speed(place) {
        return put_text(out, at, b", must be one of 30, 40, 50, 70");
    }
    let at = put_labelled(out, at, b", must be ", low_end(place));
    put_labelled(out, at, b"..", high_end(area, place))
}

fn put_range(out: &mut [u8], at: usize, area: &[u8], place: u32) -> usize
    ensures { (out.new, result) ≡ typed (range_text area.now place) (out.old, at) }
{
    let at = put_labelled(out, at, b": is ", value_at(area, place));
    let at = put_due(out, at, area, place);
    put_text(out, at, missed(area, place))
}

fn put_fault(out: &mut [u8], at: usize, area: &[u8], number: u8, place: u8) -> usize
    ensures { (out.new, result) ≡ typed (fault_text area.now number place) (out.old, at) }
{
    let at = put_refusal(out, at, number, Some(place));
    let at = put_text(out, at, b": ");
    let at = put_setting_name(out, at, u32::from(place));
    let at = put_range(out, at, area, u32::from(place));
    put_text(out, at, b"\n")
}

// ---- the whole text

// What is said of a refusal by its number, whatever that is, and by a place where one stands beside it.
pub fn put_why(
    out: &mut [u8],
    at: usize,
    area: &[u8],
    highest: u8,
    number: u8,
    place: Option<u8>,
) -> usize
    ensures { (out.new, result) ≡ typed (numbered_text area.now highest number place) (out.old, at) }
{
    match place {
        None => put_refused(out, at, area, highest, number),
        Some(place) => put_fault(out, at, area, number, place),
    }
}

// Why a reader that knows the versions up to `highest` refuses the card in the area.
#[tactic(auto, unfolding(crate::specs::Refused::why_text))]
pub fn put_why_of(out: &mut [u8], at: usize, area: &[u8], highest: u8, why: Refusal) -> usize
    ensures { (out.new, result) ≡ typed (why_text area.now highest why) (out.old, at) }
{
    put_why(out, at, area, highest, why.number(), why.place())
}
