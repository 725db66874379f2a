// What `show_card` prints: the settings of the card in an area of bytes, by name and with their units, and what lies behind
// the record; or why the card is refused. It is one text, typed into a lent buffer.
//
// Each function types from the place `at` on, as those of `text` do. There is no public `requires`.
#![tactic(auto)]

ghost use Rattle.std.specs.Prelude.{◌≡◌, ◌≤◌, [], ◌∷◌, ◌++◌, length, take, drop, ltb};
ghost use Rattle.leaf.specs.Answers.{given};
ghost use Rattle.leaf.specs.Choosing.{pick};
ghost use Rattle.text.specs.Decimal.{MOST as Decimal·MOST, blank};
ghost use Rattle.text.specs.Hex.{hex_of};
ghost use Rattle.text.specs.Words.{ascii, word_of};
ghost use Rattle.text.specs.Typing.{typed, Held};
ghost use Rattle.shown_card.specs.Shown.{fall_text, row_text, rows_text, function_line, reminder_line, function_names, functions_text, head_text, pair_names, pair_text, all_pairs_text, pairs_text, settings_text};
ghost use Rattle.shown_card.specs.Shown.{hex_bytes, hex_line, hex_lines, many_text, more_text, behind_text, card_text, shown_card};

use card::{Pairs, Row, Settings, functions_of};
use leaf::{byte_at, word_at};
use refused_card::{put_row_name, put_why_of};
use text::{
    MOST, counted, put, put_ended, put_hex, put_hundredths, put_labelled, put_number, put_tenths,
    put_text,
};

// The highest version that the program knows.
const HIGHEST: u8 = 3;

const BLANK: u8 = b' ';

const COLON: u8 = b':';

// ---- the settings

// How the speed of a row falls: from so many samples on, so many hundredths a sample.
fn put_fall(out: &mut [u8], at: usize, row: Row) -> usize
    ensures { (out.new, result) ≡ typed (fall_text row.delay row.drop) (out.old, at) }
{
    let at = put_text(out, at, b" km/h, delay ");
    let at = put_tenths(out, at, u32::from(row.delay));
    let at = put_text(out, at, b" s, drop ");
    let at = put_hundredths(out, at, u32::from(row.drop));
    put_text(out, at, b" km/h a sample\n")
}

// Here and in `put_rows` by names and units; `cases` writes the numbers alone.
fn put_row(out: &mut [u8], at: usize, k: u32, row: Row) -> usize
    ensures { (out.new, result) ≡ typed (row_text k row) (out.old, at) }
{
    let at = put_row_name(out, at, k);
    let at = put_labelled(out, at, b": initial ", u32::from(row.initial));
    let at = put_labelled(out, at, b", final ", u32::from(row.last));
    put_fall(out, at, row)
}

#[tactic(auto, using(text::specs::Typing::then_typed), unfolding(crate::specs::Shown::rows_text))]
fn put_rows(out: &mut [u8], at: usize, s: Settings) -> usize
    ensures { (out.new, result) ≡ typed (rows_text s) (out.old, at) }
{
    let at = put_row(out, at, 0, s.conditional_clear);
    let at = put_row(out, at, 1, s.announcement);
    let at = put_row(out, at, 2, s.preannouncement);
    let at = put_row(out, at, 3, s.caution);
    let at = put_row(out, at, 4, s.before_stop);
    let at = put_row(out, at, 5, s.crossing);
    let at = put_row(out, at, 6, s.limit);
    put_row(out, at, 7, s.start)
}

#[tactic(auto, unfolding(text::specs::Words::word_of))]
fn function_name(k: u32) -> &'static [u8]
    ensures { result.now ≡ word_of function_names k }
{
    match k {
        0 => b", protected crossing: ",
        1 => b", stop zone: ",
        2 => b", reminder: ",
        3 => b", BTS reads beacons 4, 9, 10, 11: ",
        _ => b"",
    }
}

#[tactic(auto, unfolding(text::specs::Words::word_of))]
fn state(on: bool) -> &'static [u8]
    ensures { result.now ≡ word_of (ascii "off\n|on\n") (pick on 1 0) }
{
    if on { b"on\n" } else { b"off\n" }
}

fn put_function_line(out: &mut [u8], at: usize, k: u32, on: bool) -> usize
    ensures { (out.new, result) ≡ typed (function_line k on) (out.old, at) }
{
    let at = put_labelled(out, at, b"function ", k);
    let at = put_text(out, at, function_name(k));
    put_text(out, at, state(on))
}

// X and Y speak only while the reminder is on.
fn put_reminder_line(out: &mut [u8], at: usize, on: bool, x: u16, y: u16) -> usize
    ensures { (out.new, result) ≡ typed (reminder_line on x y) (out.old, at) }
{
    if on {
        let at = put_labelled(out, at, b"function 2, reminder: on, X ", u32::from(x));
        let at = put_labelled(out, at, b" samples, Y ", u32::from(y));
        return put_text(out, at, b" m\n");
    }
    put_function_line(out, at, 2, false)
}

fn put_functions(out: &mut [u8], at: usize, s: Settings) -> usize
    ensures { (out.new, result) ≡ typed (functions_text s.functions s.x s.y) (out.old, at) }
{
    let functions = functions_of(s.functions);
    let at = put_function_line(out, at, 0, functions.protects);
    let at = put_function_line(out, at, 1, functions.zones);
    let at = put_reminder_line(out, at, functions.reminds, s.x, s.y);
    put_function_line(out, at, 3, functions.reads_in_bts)
}

fn put_head(out: &mut [u8], at: usize, version: u8, s: Settings) -> usize
    ensures { (out.new, result) ≡ typed (head_text version s.vmax s.tick s.bts) (out.old, at) }
{
    let at = put_labelled(out, at, b"card version ", u32::from(version));
    let at = put_labelled(out, at, b"\nvmax ", u32::from(s.vmax));
    let at = put_text(out, at, b" km/h\ntick ");
    let at = put_tenths(out, at, u32::from(s.tick));
    let at = put_labelled(out, at, b" mm\nBTS speed ", u32::from(s.bts));
    put_text(out, at, b" km/h\n")
}

// A pair by its number, 0 to 3.
#[tactic(auto, unfolding(text::specs::Words::word_of))]
fn pair_name(k: u32) -> &'static [u8]
    ensures { result.now ≡ word_of pair_names k }
{
    match k {
        0 => b"pair 10-10: ",
        1 => b"pair 10-11: ",
        2 => b"pair 11-10: ",
        3 => b"pair 11-11: ",
        _ => b"",
    }
}

// Its speed.
fn put_pair(out: &mut [u8], at: usize, k: u32, speed: u8) -> usize
    ensures { (out.new, result) ≡ typed (pair_text k speed) (out.old, at) }
{
    let at = put_text(out, at, pair_name(k));
    let at = put_number(out, at, u32::from(speed));
    put_text(out, at, b" km/h\n")
}

fn put_all_pairs(out: &mut [u8], at: usize, pairs: Pairs) -> usize
    ensures { (out.new, result) ≡ typed (all_pairs_text pairs) (out.old, at) }
{
    let at = put_pair(out, at, 0, pairs.ten_ten);
    let at = put_pair(out, at, 1, pairs.ten_eleven);
    let at = put_pair(out, at, 2, pairs.eleven_ten);
    let at = put_pair(out, at, 3, pairs.eleven_eleven);
    let at = put_labelled(out, at, b"pair distance: ", u32::from(pairs.distance));
    put_text(out, at, b" m\n")
}

// Cards of other versions have no pairs, and nothing is said of them.
#[tactic(auto, unfolding(text::specs::Typing::typed, crate::specs::Shown::pairs_text))]
fn put_pairs(out: &mut [u8], at: usize, version: u8, pairs: Pairs) -> usize
    ensures { (out.new, result) ≡ typed (pairs_text version pairs) (out.old, at) }
{
    if version == 3 {
        return put_all_pairs(out, at, pairs);
    }
    at
}

#[tactic(auto, using(text::specs::Typing::then_typed), unfolding(crate::specs::Shown::settings_text))]
fn put_settings(out: &mut [u8], at: usize, version: u8, s: Settings) -> usize
    ensures { (out.new, result) ≡ typed (settings_text version s) (out.old, at) }
{
    let at = put_head(out, at, version, s);
    let at = put_rows(out, at, s);
    let at = put_functions(out, at, s);
    put_pairs(out, at, version, s.pairs)
}

// ---- what lies behind the record

// A byte of a listing, a blank before it.
#[tactic(auto, unfolding(text::specs::Typing::typed))]
fn put_byte(out: &mut [u8], at: usize, byte: u8) -> usize
    ensures { (out.new, result) ≡ typed ((blank ∷ []) ++ hex_of byte) (out.old, at) }
{
    let at = put(out, at, BLANK);
    put_hex(out, at, byte)
}

// Each byte in digits, where text's `put_text` has it as it stands: the step is all that there is.
fn put_bytes(out: &mut [u8], at: usize, bytes: &[u8]) -> usize
    ensures { (out.new, result) ≡ typed (hex_bytes bytes.now) (out.old, at) }
{
    let mut place = at;
    for &byte in bytes {
        place = put_byte(out, place, byte);
    }
    place
}

// Sixteen bytes from a place on, as many as there are.
fn sixteen(area: &[u8], from: usize) -> &[u8]
    requires { from ≤ length area.now }
    ensures { result.now ≡ take 16 (drop from area.now) }
{
    let left = &area[from..];
    if left.len() < 16 { left } else { &left[..16] }
}

// A line of them, the place of the first before it; none where the area ends before.
#[tactic(auto, using(text::specs::Typing::then_typed), unfolding(crate::specs::Shown::hex_line, text::specs::Typing::typed))]
fn put_line(out: &mut [u8], at: usize, area: &[u8], from: u32) -> usize
    ensures { (out.new, result) ≡ typed (hex_line area.now from) (out.old, at) }
{
    let i = from as usize;
    if i < area.len() {
        let at = put_ended(out, at, from, COLON);
        let at = put_bytes(out, at, sixteen(area, i));
        return put_text(out, at, b"\n");
    }
    at
}

// Four lines: the first 64 bytes from a place on. Each with a line of its own here, as `hex_lines` has them: a loop over
// four would say no less.
#[tactic(auto, using(text::specs::Typing::then_typed), unfolding(crate::specs::Shown::hex_lines))]
fn put_lines(out: &mut [u8], at: usize, area: &[u8], from: u16) -> usize
    ensures { (out.new, result) ≡ typed (hex_lines area.now from) (out.old, at) }
{
    let first = from as u32;
    let at = put_line(out, at, area, first);
    let at = put_line(out, at, area, first + 16);
    let at = put_line(out, at, area, first + 32);
    put_line(out, at, area, first + 48)
}

// What is said behind a number of bytes where there are as many as a program looks at.
#[tactic(auto, unfolding(text::specs::Words::word_of))]
fn or_more(bytes: u32) -> &'static [u8]
    ensures { result.now ≡ word_of (ascii "| or more") (pick (ltb bytes Decimal·MOST) 0 1) }
{
    if bytes < MOST as u32 {
        b""
    } else {
        b" or more"
    }
}

// How many bytes lie behind the first so many: at least that, where there are as many as a program looks at.
fn put_many(out: &mut [u8], at: usize, bytes: u32, first: u32) -> usize
    ensures { (out.new, result) ≡ typed (many_text bytes first) (out.old, at) }
{
    let at = put_number(out, at, bytes.saturating_sub(first));
    put_text(out, at, or_more(bytes))
}

// How many lie behind those that are listed.
fn put_more(out: &mut [u8], at: usize, bytes: u32, first: u32) -> usize
    ensures { (out.new, result) ≡ typed (more_text bytes first) (out.old, at) }
{
    if bytes <= first {
        return at;
    }
    let at = put_text(out, at, b"and ");
    let at = put_many(out, at, bytes, first);
    put_text(out, at, b" behind them\n")
}

fn put_behind(out: &mut [u8], at: usize, area: &[u8], whole: u16) -> usize
    ensures { (out.new, result) ≡ typed (behind_text area.now whole) (out.old, at) }
{
    let bytes = counted(area);
    let record = whole as u32;
    if bytes <= record {
        return at;
    }
    let at = put_text(
        out,
        at,
        b"bytes behind the record, which the desk never reads: ",
    );
    let at = put_many(out, at, bytes, record);
    let at = put_text(out, at, b"\n");
    let at = put_lines(out, at, area, whole);
    put_more(out, at, bytes, record + 64)
}

// ---- the whole text

fn put_read(area: &[u8], s: Settings, out: &mut [u8]) -> usize
    ensures { (out.new, result) ≡ typed (card_text area.now (given s)) (out.old, 0) }
{
    let at = put_settings(out, 0, byte_at(area, 2), s);
    put_behind(out, at, area, word_at(area, 0))
}

// The whole text at the buffer's start. Answers how many bytes of it the buffer now holds: all, where there is room, else
// what there is room for. The rest of the buffer is as it was.
pub fn print_card(area: &[u8], out: &mut [u8]) -> usize
    ensures { Held (shown_card area.now) out.old out.new result }
{
    let reading = card::read(area, HIGHEST);
    match reading {
        Ok(s) => put_read(area, s, out),
        Err(why) => put_why_of(out, 0, area, HIGHEST, why),
    }
}
