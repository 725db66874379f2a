// Cases of cards and tones on standard input, a line each, and each of them again with what the library answers.
//
//     # ..             a comment, written as it stands
//     area BYTES       the area of bytes, 255 at most, that the lines below are about; it gives no line
//     read H           the card in the area, for a reader whose highest version is H
//     tone BITS        what the tone with this bit pattern reads as under the sheet in the area
//     .. N             both may go on: of the area its first N bytes alone
//     .. N P V         and of them with V for the byte at place P
//     write V N F      the settings in the area's bytes 3 to 48, whatever they are, beside version V, into N bytes that all hold F
//
// Everything behind the first word is hexadecimal, two digits a byte; blanks between bytes are passed over. A card that is read is
// answered with its settings in the card's order, one that is written with the whole buffer afterwards, `-` where it is empty, a tone
// with its offset's bit pattern and the ride's beacon code.
#![tactic(auto)]

use card::{Pairs, Row, Settings};
use case_lines::behind;
use leaf::{Refusal, byte_at, long_at, word_at};
use shell::System;
use text::{hex_digit, put, put_float, put_hex, put_labelled, put_refusal_of, put_text};

const MOST: usize = 256;

// ---- bytes

// A digit behind so many others, where there is room for it: how many there are then. Digits stand with blanks between them wherever
// they like, so they are taken one by one, each into its half of a byte of the lent room.
fn put_half(bytes: &mut [u8; MOST], halves: usize, digit: u8) -> usize {
    let at = halves / 2;
    if at < 255 && digit < 16 {
        bytes[at] = bytes[at] % 16 * 16 + digit;
        return halves + 1;
    }
    halves
}

// The bytes behind the line's first word; what is no hexadecimal digit is passed over. Answers how many there are. They stand at the
// start of the room, which the lines to come use again: no heap, and its length beside it.
fn bytes_of(line: &[u8], bytes: &mut [u8; MOST]) -> u8 {
    let mut halves = 0;
    for &b in &line[behind(line, 0, b' ')..] {
        halves = put_half(bytes, halves, hex_digit(b));
    }
    (halves / 2 % 256) as u8
}

// ---- what is answered

// Numbers, a blank before each. Here and below a function types from `at` on and answers the place behind, as text's do (`typed`): a
// buffer that is lent, and no heap.
fn put_numbers(out: &mut [u8], at: usize, numbers: &[u32]) -> usize {
    let mut place = at;
    for &n in numbers {
        place = put_labelled(out, place, b" ", n);
    }
    place
}

// Numbers alone, here and in `put_rows`; shown_card's say what each of them is.
fn put_row(out: &mut [u8], at: usize, row: Row) -> usize {
    let numbers = [row.initial, row.last, row.delay, row.drop];
    put_numbers(out, at, &numbers.map(u32::from))
}

fn put_rows(out: &mut [u8], at: usize, s: Settings) -> usize {
    let at = put_row(out, at, s.conditional_clear);
    let at = put_row(out, at, s.announcement);
    let at = put_row(out, at, s.preannouncement);
    let at = put_row(out, at, s.caution);
    let at = put_row(out, at, s.before_stop);
    let at = put_row(out, at, s.crossing);
    let at = put_row(out, at, s.limit);
    put_row(out, at, s.start)
}

fn put_pairs(out: &mut [u8], at: usize, pairs: Pairs) -> usize {
    let numbers = [
        pairs.ten_ten,
        pairs.ten_eleven,
        pairs.eleven_ten,
        pairs.eleven_eleven,
        pairs.distance,
    ];
    put_numbers(out, at, &numbers.map(u32::from))
}

fn put_settings(out: &mut [u8], at: usize, s: Settings) -> usize {
    let head = [u32::from(s.vmax), u32::from(s.tick), u32::from(s.bts)];
    let at = put_numbers(out, at, &head);
    let at = put_rows(out, at, s);
    let functions = [u32::from(s.functions), u32::from(s.x), u32::from(s.y)];
    let at = put_numbers(out, at, &functions);
    put_pairs(out, at, s.pairs)
}

fn put_refused(out: &mut [u8], at: usize, why: Refusal) -> usize {
    let at = put_text(out, at, b" ");
    put_refusal_of(out, at, why)
}

// Area and highest as `card::read` takes them.
fn put_card(out: &mut [u8], at: usize, area: &[u8], highest: u8) -> usize {
    let reading = card::read(area, highest);
    match reading {
        Ok(s) => put_settings(out, at, s),
        Err(why) => put_refused(out, at, why),
    }
}

fn put_bytes(out: &mut [u8], at: usize, bytes: &[u8]) -> usize {
    let mut place = put(out, at, b' ');
    if bytes.is_empty() {
        return put(out, place, b'-');
    }
    for &byte in bytes {
        place = put_hex(out, place, byte);
    }
    place
}

fn put_outcome(out: &mut [u8], at: usize, answer: Result<(), Refusal>) -> usize {
    match answer {
        Ok(()) => put_text(out, at, b" written"),
        Err(why) => put_refused(out, at, why),
    }
}

// Version and settings as `card::write` takes them.
fn put_written(out: &mut [u8], at: usize, version: u8, s: Settings, buffer: &mut [u8]) -> usize {
    let answer = card::write(version, s, buffer);
    let at = put_outcome(out, at, answer);
    put_bytes(out, at, buffer)
}

fn put_reading(out: &mut [u8], at: usize, reading: tone::Reading) -> usize {
    match reading {
        tone::Reading::Beacon(k, offset) => {
            let at = put_labelled(out, at, b" beacon ", u32::from(k));
            let at = put_text(out, at, b" ");
            put_float(out, at, offset)
        }
        tone::Reading::Permanent(offset) => {
            let at = put_text(out, at, b" permanent ");
            put_float(out, at, offset)
        }
        tone::Reading::Nothing => put_text(out, at, b" nothing"),
    }
}

fn put_tone(out: &mut [u8], at: usize, area: &[u8], bits: u32) -> usize {
    let answer = tone::classify(area, tone::float_of(bits));
    match answer {
        Ok(reading) => {
            let at = put_reading(out, at, reading);
            put_labelled(out, at, b" ", u32::from(reading.code()))
        }
        Err(why) => put_refused(out, at, why),
    }
}

// ---- the cases

// From a place of a fixed format, total past its end. card's own reader refuses settings that are out of range.
fn row_at(card: &[u8], at: u8) -> Row {
    let i = at as usize;
    Row {
        initial: byte_at(card, i),
        last: byte_at(card, i + 1),
        delay: byte_at(card, i + 2),
        drop: byte_at(card, i + 3),
    }
}

fn pairs_in(card: &[u8]) -> Pairs {
    Pairs {
        ten_ten: byte_at(card, 44),
        ten_eleven: byte_at(card, 45),
        eleven_ten: byte_at(card, 46),
        eleven_eleven: byte_at(card, 47),
        distance: byte_at(card, 48),
    }
}

// The settings in the bytes of a version 3 card, in range or not.
fn settings_in(card: &[u8]) -> Settings {
    Settings {
        vmax: byte_at(card, 3),
        tick: word_at(card, 4),
        bts: byte_at(card, 6),
        conditional_clear: row_at(card, 7),
        announcement: row_at(card, 11),
        preannouncement: row_at(card, 15),
        caution: row_at(card, 19),
        before_stop: row_at(card, 23),
        crossing: row_at(card, 27),
        limit: row_at(card, 31),
        start: row_at(card, 35),
        functions: byte_at(card, 39),
        x: word_at(card, 40),
        y: word_at(card, 42),
        pairs: pairs_in(card),
    }
}

// What an area is asked: for its card under a highest version, or for a tone under its sheet.
#[derive(Clone, Copy)]
enum Question {
    Card(u8),
    Tone(u32),
}

// A byte of the area that has another value.
#[derive(Clone, Copy)]
struct Byte {
    place: u8,
    value: u8,
}

// What a case says of the area: how many of its bytes are meant, and which of them has another value.
#[derive(Clone, Copy)]
struct Change {
    length: Option<u8>,
    byte: Option<Byte>,
}

// Typed as above. Each question has arguments of its own, so a match gives them, and no closure.
fn put_asked(out: &mut [u8], at: usize, area: &[u8], question: Question) -> usize {
    match question {
        Question::Card(highest) => put_card(out, at, area, highest),
        Question::Tone(bits) => put_tone(out, at, area, bits),
    }
}

// The whole room and beside it how many of its bytes are the area: a case may mean more than these, and change one behind them.
fn put_changed(
    out: &mut [u8],
    at: usize,
    area: &mut [u8; MOST],
    length: u8,
    change: Change,
    question: Question,
) -> usize {
    let n = usize::from(change.length.unwrap_or(length));
    let Some(byte) = change.byte else {
        return put_asked(out, at, &area[..n], question);
    };
    let place = usize::from(byte.place);
    let old = area[place];
    area[place] = byte.value;
    let at = put_asked(out, at, &area[..n], question);
    area[place] = old;
    at
}

fn card_asked(case: &[u8; MOST]) -> Question {
    Question::Card(case[0])
}

fn tone_asked(case: &[u8; MOST]) -> Question {
    Question::Tone(long_at(case, 0))
}

// The change that these bytes say: none of them, one or two, three or more.
fn change_in(said: &[u8]) -> Change {
    match *said {
        [] => Change {
            length: None,
            byte: None,
        },
        [length, place, value, ..] => Change {
            length: Some(length),
            byte: Some(Byte { place, value }),
        },
        [length, ..] => Change {
            length: Some(length),
            byte: None,
        },
    }
}

// That of a case of n bytes, behind those that ask. Its room has as many bytes as any case: no heap, and n beside it.
fn change_at(case: &[u8; MOST], n: u8, asked: u8) -> Change {
    if n < asked {
        return change_in(&[]);
    }
    change_in(&case[usize::from(asked)..usize::from(n)])
}

// The buffer is a room of a fixed size.
fn write_case(out: &mut [u8], at: usize, area: &[u8], case: &[u8; MOST]) -> usize {
    let mut buffer = [case[2]; MOST];
    put_written(
        out,
        at,
        case[0],
        settings_in(area),
        &mut buffer[..usize::from(case[1])],
    )
}

// Room and length as `put_changed` takes them.
fn put_answer(out: &mut [u8], at: usize, area: &mut [u8; MOST], length: u8, line: &[u8]) -> usize {
    let mut case = [0u8; MOST];
    let n = bytes_of(line, &mut case);
    let kind = byte_at(line, 0);
    match kind {
        b'r' => put_changed(
            out,
            at,
            area,
            length,
            change_at(&case, n, 1),
            card_asked(&case),
        ),
        b't' => put_changed(
            out,
            at,
            area,
            length,
            change_at(&case, n, 4),
            tone_asked(&case),
        ),
        b'w' => write_case(out, at, &area[..usize::from(length)], &case),
        _ => at,
    }
}

// The line again, with what is answered to it where it is a case. Room and length as `put_changed` takes them. Each room of the
// program is of a fixed size: there is no heap, and it cannot run out of memory.
fn say_line(rt: &impl System, area: &mut [u8; MOST], length: u8, line: &[u8]) {
    let mut out = [0u8; 4096];
    let at = put_text(&mut out, 0, line);
    if byte_at(line, 0) == b'#' {
        let n = put(&mut out, at, b'\n');
        let _ = shell::say(rt, &out[..n.min(out.len())]);
        return;
    }
    let at = put(&mut out, at, b':');
    let at = put_answer(&mut out, at, area, length, line);
    let n = put(&mut out, at, b'\n');
    let _ = shell::say(rt, &out[..n.min(out.len())]);
}

// Its rooms are of a fixed size, as all are.
fn main(rt: HostRuntime) {
    let mut area = [0u8; MOST];
    let mut length: u8 = 0;
    let mut space = [0; 4096];
    let _ = shell::for_each_line(&rt, &mut space, |line| {
        if byte_at(line, 0) == b'a' {
            length = bytes_of(line, &mut area);
        } else {
            say_line(&rt, &mut area, length, line);
        }
        Ok(())
    });
}
