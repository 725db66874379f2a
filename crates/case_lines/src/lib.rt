// What the test programs read of a line: where its words begin, and the bytes that hexadecimal digits say; and how they write an answer.
//
// There is no `requires`: behind a line's end stands no mark and no digit.
#![tactic(auto)]

ghost use Rattle.std.specs.Prelude.{◌≡◌, ◌+◌, ◌≤◌, length, drop};
ghost use Rattle.leaf.specs.Bytes.{byte, word};
ghost use Rattle.text.specs.Hex.{hex_value};
ghost use Rattle.text.specs.Typing.{Held, typed};
ghost use Rattle.case_lines.specs.Lines.{behind_mark, digit_run, pairs_of, answer_text};

use leaf::{byte_at, word_at};
use step::Answer;
use text::{hex_digit, put, put_ended};

// Behind the next such mark from this place on, or the end. By a place in the line, here and below, as `behind_mark` and the other
// definitions take one, and as what is answered is one.
#[tactic(auto, unfolding(crate::specs::Lines::behind_mark, crate::specs::Lines::up_to))]
pub fn behind(text: &[u8], from: usize, mark: u8) -> usize
    ensures value { result ≡ behind_mark text.now from mark }
    ensures upper_bound { result ≤ length text.now }
{
    let mut left = text.get(from..).unwrap_or(&[]);
    while let [first, rest @ ..] = left {
        left = rest;
        if *first == mark {
            return text.len() - left.len();
        }
    }
    text.len()
}

// How many bytes stand at the start of the buffer, and where in the line their digits end. The buffer is the caller's, so its length
// stands here beside the place, and both are promised of it (`Held`).
#[derive(Clone, Copy)]
pub struct Bytes {
    pub length: usize,
    pub next: usize,
}

// The value of the digit at a place of the line, 16 where there is none. A number and no `Option`, here and in `unhex`: text's
// `hex_digit` is promised by `hex_value`, which is one.
fn digit_at(line: &[u8], at: usize) -> u8
    ensures { result ≡ hex_value (byte line.now at) }
{
    hex_digit(byte_at(line, at))
}

// The bytes that the line's digits from this place on say, up to what is no digit, at the start of the buffer as far as there is
// room; the rest of it is as it was. An odd last digit says no byte.
// By index: digits are taken in twos, and the place where they end, which may be behind an odd last one, is a part of the answer. They
// come in a lent buffer, of which `Held` speaks: no heap.
pub fn unhex(line: &[u8], from: usize, bytes: &mut [u8]) -> Bytes
    ensures held { Held (pairs_of (digit_run (drop from line.now))) bytes.old bytes.new result.length }
    ensures next_value { result.next ≡ from + length (digit_run (drop from line.now)) }
{
    let mut n = 0;
    let mut i = from;
    while i < line.len() {
        let high = digit_at(line, i);
        if high > 15 {
            return Bytes { length: n, next: i };
        }
        let low = digit_at(line, i + 1);
        if low > 15 {
            return Bytes {
                length: n,
                next: i + 1,
            };
        }
        n = put(bytes, n, high * 16 + low);
        i += 2;
    }
    Bytes { length: n, next: i }
}

// The byte that two digits of the line say from this place on, 0 where there are no two.
pub fn byte_said(line: &[u8], from: usize) -> u8
    ensures { result ≡ byte (pairs_of (digit_run (drop from line.now))) 0 }
{
    let mut bytes = [0];
    unhex(line, from, &mut bytes);
    byte_at(&bytes, 0)
}

// The number that four digits say, high byte first.
pub fn word_said(line: &[u8], from: usize) -> u16
    ensures { result ≡ word (pairs_of (digit_run (drop from line.now))) 0 }
{
    // room for two pairs of digits, of a fixed size: no heap
    let mut bytes = [0; 2];
    unhex(line, from, &mut bytes);
    word_at(&bytes, 0)
}

// All fields of an answer, a blank behind each but the last, which this byte ends. By a place of a lent buffer, as text's functions
// (`typed`); `printed` has one of its own, with the sample's number before it and the columns that are asked for.
#[tactic(auto, using(text::specs::Typing::typed_append), unfolding(crate::specs::Lines::answer_text))]
pub fn put_answer(out: &mut [u8], at: usize, a: Answer, end: u8) -> usize
    ensures { (out.new, result) ≡ typed (answer_text a end) (out.old, at) }
{
    let at = put_ended(out, at, a.speed, b' ');
    let at = put_ended(out, at, u32::from(a.lamps), b' ');
    let at = put_ended(out, at, u32::from(a.cause), b' ');
    let at = put_ended(out, at, u32::from(a.icon), b' ');
    put_ended(out, at, u32::from(a.limit), end)
}
