// Text in ASCII, typed into a buffer that the caller lends: bytes, words, decimal and hexadecimal numbers, refusals.
//
// Each function types from the place `at` on and answers the place behind what it typed. Where the buffer ends the text is
// cut off; no other byte of the buffer is changed. There is no public `requires`.
#![tactic(auto)]

ghost use Rattle.std.specs.Prelude.{◌≡◌, [], ◌∷◌, ◌+◌, ◌%◌, ◌≤◌};
ghost use Rattle.std.specs.Float.{binary32};
ghost use Rattle.std.specs.Float.Ieee.{to_bits};
ghost use Rattle.leaf.specs.Choosing.{pick};
ghost use Rattle.text.specs.Decimal.{digit_of, unit_of, upper_of, lower_of, decimal, ended, tenths, hundredths, counted as Decimal·counted};
ghost use Rattle.text.specs.Hex.{glyph as Hex·glyph, hex_of, pattern_of, hex_value};
ghost use Rattle.text.specs.Typing.{typed};
ghost use Rattle.text.specs.Words.{word_of, labelled, refusal_text, numbered_text};

use leaf::Refusal;

// What parts the words of a list.
const BAR: u8 = b'|';

const POINT: u8 = b'.';

// What the digits of a number before the last one stand for.
const POWERS: [u32; 9] = [
    1_000_000_000,
    100_000_000,
    10_000_000,
    1_000_000,
    100_000,
    10_000,
    1_000,
    100,
    10,
];

// As many bytes of a file as a program looks at.
pub const MOST: usize = 65536;

// ---- bytes and words

// One byte.
#[tactic(auto, unfolding(crate::specs::Typing::typed))]
pub fn put(out: &mut [u8], at: usize, byte: u8) -> usize
    ensures { (out.new, result) ≡ typed (byte ∷ []) (out.old, at) }
{
    if at < out.len() {
        out[at] = byte;
        return at + 1;
    }
    at
}

// All bytes of a text. shown_card has it of their digits (`put_bytes`): another step, and no more in common than the `for`.
#[tactic(auto, unfolding(crate::specs::Typing::typed))]
pub fn put_text(out: &mut [u8], at: usize, text: &[u8]) -> usize
    ensures { (out.new, result) ≡ typed text.now (out.old, at) }
{
    let mut place = at;
    for &byte in text {
        place = put(out, place, byte);
    }
    place
}

// The word that k bars stand before in a list of words with a bar between them; nothing where there are fewer.
#[tactic(auto, unfolding(crate::specs::Typing::typed, crate::specs::Words::word_of))]
pub fn put_word(out: &mut [u8], at: usize, words: &[u8], k: u32) -> usize
    ensures { (out.new, result) ≡ typed (word_of words.now k) (out.old, at) }
{
    let mut place = at;
    let mut left = k;
    for &letter in words {
        if letter == BAR {
            if left == 0 {
                return place;
            }
            left -= 1;
        } else if left == 0 {
            place = put(out, place, letter);
        }
    }
    place
}

// ---- decimal numbers

// How many bytes an area has, 65,536 at most: as many of a file as a program looks at.
pub fn counted(area: &[u8]) -> u32
    ensures { result ≡ Decimal·counted area.now }
{
    area.len().min(MOST) as u32
}

fn digit(n: u32) -> u8
    requires { n ≤ 9 }
    ensures { result ≡ 48 + n }
{
    b'0' + n as u8
}

// The digit that stands for a power of ten, where n reaches it.
#[tactic(auto, unfolding(crate::specs::Typing::typed))]
fn put_digit(out: &mut [u8], at: usize, power: u32, n: u32) -> usize
    requires { 1 ≤ power }
    ensures { (out.new, result) ≡ typed (digit_of power n) (out.old, at) }
{
    if n < power {
        return at;
    }
    put(out, at, digit(n / power % 10))
}

// A number in decimal.
#[tactic(auto, unfolding(crate::specs::Typing::typed, crate::proofs::Digits::digits_of), using(crate::proofs::Digits::all_digits))]
pub fn put_number(out: &mut [u8], at: usize, n: u32) -> usize
    ensures { (out.new, result) ≡ typed (decimal n) (out.old, at) }
{
    let mut place = at;
    for power in POWERS {
        place = put_digit(out, place, power, n);
    }
    put(out, place, digit(n % 10))
}

// A number in decimal, and what ends it: a blank, or a line's end.
#[tactic(auto, using(crate::specs::Typing::then_typed))]
pub fn put_ended(out: &mut [u8], at: usize, n: u32, end: u8) -> usize
    ensures { (out.new, result) ≡ typed (ended n end) (out.old, at) }
{
    let at = put_number(out, at, n);
    put(out, at, end)
}

// Words, and the number that they name.
#[tactic(auto, using(crate::specs::Typing::then_typed))]
pub fn put_labelled(out: &mut [u8], at: usize, words: &[u8], n: u32) -> usize
    ensures { (out.new, result) ≡ typed (labelled words.now n) (out.old, at) }
{
    let at = put_text(out, at, words);
    put_number(out, at, n)
}

// A number of tenths with its one decimal.
#[tactic(auto, using(crate::specs::Typing::then_typed), unfolding(crate::specs::Decimal::tenths))]
pub fn put_tenths(out: &mut [u8], at: usize, n: u32) -> usize
    ensures { (out.new, result) ≡ typed (tenths n) (out.old, at) }
{
    let at = put_ended(out, at, n / 10, POINT);
    put_number(out, at, n % 10)
}

// A number of hundredths with both decimals.
#[tactic(auto, using(crate::specs::Typing::then_typed), unfolding(crate::specs::Decimal::hundredths))]
pub fn put_hundredths(out: &mut [u8], at: usize, n: u32) -> usize
    ensures { (out.new, result) ≡ typed (hundredths n) (out.old, at) }
{
    let at = put_ended(out, at, n / 100, POINT);
    let at = put_number(out, at, n / 10 % 10);
    put_number(out, at, n % 10)
}

// A refusal by its number, whatever that is, and by a place where one stands beside it.
#[tactic(auto, using(crate::specs::Typing::then_typed), unfolding(crate::specs::Typing::typed))]
pub fn put_refusal(out: &mut [u8], at: usize, number: u8, place: Option<u8>) -> usize
    ensures { (out.new, result) ≡ typed (numbered_text number place) (out.old, at) }
{
    let at = put_labelled(out, at, b"refused ", number.into());
    match place {
        None => at,
        Some(place) => put_labelled(out, at, b" at ", place.into()),
    }
}

// A refusal's number, and its place where it has one.
pub fn put_refusal_of(out: &mut [u8], at: usize, why: Refusal) -> usize
    ensures { (out.new, result) ≡ typed (refusal_text why) (out.old, at) }
{
    put_refusal(out, at, why.number(), why.place())
}

// ---- hexadecimal digits

// The digit of what a number is over sixteens. None is none: under ten it is a numeral, from ten on a letter.
fn glyph(b: u8) -> u8
    ensures { result ≡ Hex·glyph (b % 16) }
{
    let digit = b % 16;
    if digit < 10 {
        b'0' + digit
    } else {
        b'a' + (digit - 10)
    }
}

// A byte's two digits.
#[tactic(auto, unfolding(crate::specs::Typing::typed, crate::specs::Hex::hex_of))]
pub fn put_hex(out: &mut [u8], at: usize, b: u8) -> usize
    ensures { (out.new, result) ≡ typed (hex_of b) (out.old, at) }
{
    let at = put(out, at, glyph(b / 16));
    put(out, at, glyph(b))
}

// The eight digits of a bit pattern.
#[tactic(auto, unfolding(crate::specs::Typing::typed, crate::specs::Hex::pattern_of, crate::specs::Hex::hex_of))]
pub fn put_pattern(out: &mut [u8], at: usize, bits: u32) -> usize
    ensures { (out.new, result) ≡ typed (pattern_of bits) (out.old, at) }
{
    let [first, second, third, last] = bits.to_be_bytes();
    let at = put_hex(out, at, first);
    let at = put_hex(out, at, second);
    let at = put_hex(out, at, third);
    put_hex(out, at, last)
}

// The bit pattern of x; for a NaN, which has many, 7fc00000.
fn bits_of(x: f32) -> u32
    ensures { result ≡ to_bits binary32 x }
{
    if x.is_nan() { 0x7fc0_0000 } else { x.to_bits() }
}

// The eight digits of a float's bit pattern, of 7fc00000 where it is not a number.
pub fn put_float(out: &mut [u8], at: usize, x: f32) -> usize
    ensures { (out.new, result) ≡ typed (pattern_of (to_bits binary32 x)) (out.old, at) }
{
    put_pattern(out, at, bits_of(x))
}

// The value of a hexadecimal digit in either case, 16 for any other byte: not an `Option`, since `hex_value`, by which `case_lines` and
// `printed_replay` say what they read, has that number.
#[tactic(auto, unfolding(crate::specs::Hex::hex_value))]
pub fn hex_digit(b: u8) -> u8
    ensures { result ≡ hex_value b }
{
    match b {
        b'0'..=b'9' => b - b'0',
        b'A'..=b'F' => b - b'A' + 10,
        b'a'..=b'f' => b - b'a' + 10,
        _ => 16,
    }
}
