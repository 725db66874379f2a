// The lines of a ride that comes in pieces, typed into a lent buffer as each piece is taken.
#![tactic(auto)]

ghost use Rattle.std.specs.Prelude.{◌≡◌, min, ◌≤◌, length};
ghost use Rattle.leaf.specs.Bytes.{over};
ghost use Rattle.text.specs.Typing.{typed};
ghost use Rattle.receiver.specs.Receiver.{started_of, received_all, end_of};
ghost use Rattle.printed_pieces.specs.Pieces.{start_on, begun_text, start_text, piece_text, end_text};

use card::card_in;
use leaf::Refusal;
use printed::{Columns, HIGHEST, put_heading, put_refused, put_shown};
use receiver::Receiver;

// What starting gives, and how many bytes of its text stand in the buffer. printed_replay's has a session in the receiver's
// place: the length alone is what both have.
#[derive(Clone, Copy)]
pub struct Begun {
    pub started: Result<Receiver, Refusal>,
    pub length: usize,
}

// A receiver on this card, or the refusal of the reader or of the start.
#[tactic(auto, using(crate::proofs::PieceTexts::start_refused), unfolding(crate::specs::Pieces::start_on))]
fn start_on(card: &[u8]) -> Result<Receiver, Refusal>
    ensures { started_of result ≡ start_on card.now }
{
    let read = card_in(card, HIGHEST)?;
    Receiver::start(read)
}

// printed_replay has it of a session: what both have in common is `put_refused`.
fn put_begun(started: Result<Receiver, Refusal>, out: &mut [u8], at: usize) -> usize
    ensures { (out.new, result) ≡ typed (begun_text (started_of started)) (out.old, at) }
{
    match started {
        Ok(_) => at,
        Err(why) => put_refused(out, at, why.number()),
    }
}

fn put_start(columns: Columns, card: &[u8], out: &mut [u8], at: usize) -> Begun
    ensures started_value { started_of result.started ≡ start_on card.now }
    ensures length_after { (out.new, result.length) ≡ typed (start_text columns card.now) (out.old, at) }
{
    let at = put_heading(columns, out, at);
    let started = start_on(card);
    let length = put_begun(started, out, at);
    Begun { started, length }
}

// The start on a card, before any byte of the recording: the heading typed at the buffer's start and, where the card is
// refused, the refusal's line. Answers the receiver or the refusal, and how many bytes of the text the buffer now holds: all,
// where there is room, else what there is room for. The rest of the buffer is as it was.
pub fn print_start(columns: Columns, card: &[u8], out: &mut [u8]) -> Begun
    ensures started_value { started_of result.started ≡ start_on card.now }
    ensures length_value { result.length ≡ min (length (start_text columns card.now)) (length out.old) }
    ensures out_after { out.new ≡ over (length (start_text columns card.now)) (start_text columns card.now) out.old }
    ensures length_in_bounds { result.length ≤ length out.new }
{
    put_start(columns, card, out, 0)
}

// The receiver after a piece or an end, and how many bytes of the text stand in the buffer. printed_replay's says where a quota
// ended: the length alone is what both have.
#[derive(Clone, Copy)]
pub struct Printed {
    pub receiver: Receiver,
    pub length: usize,
}

// The step takes a byte, those of the other printers a sample: what goes from step to step is each one's own.
#[tactic(auto, unfolding(crate::specs::Pieces::piece_text, receiver::specs::Receiver::received_all, text::specs::Typing::typed))]
fn put_piece(
    columns: Columns,
    receiver: Receiver,
    piece: &[u8],
    out: &mut [u8],
    at: usize,
) -> Printed
    ensures receiver_value { result.receiver ≡ received_all receiver piece.now }
    ensures length_after { (out.new, result.length) ≡ typed (piece_text columns receiver piece.now) (out.old, at) }
{
    let mut place = at;
    let mut going = receiver;
    for &byte in piece {
        let number = (going.taken / 6) as u32;
        let received = going.take(byte);
        place = put_shown(columns, out, place, number, received.shown);
        going = received.receiver;
    }
    Printed {
        receiver: going,
        length: place,
    }
}

// The bytes of a piece taken, and their lines typed at the buffer's start: an answer's when its sixth byte is in, the refusal's
// at the byte that brings it. Answers the receiver after them and how many bytes of the text the buffer now holds: all, where
// there is room, else what there is room for. The rest of the buffer is as it was.
pub fn print_piece(columns: Columns, receiver: Receiver, piece: &[u8], out: &mut [u8]) -> Printed
    ensures receiver_value { result.receiver ≡ received_all receiver piece.now }
    ensures length_value { result.length ≡ min (length (piece_text columns receiver piece.now)) (length out.old) }
    ensures out_after { out.new ≡ over (length (piece_text columns receiver piece.now)) (piece_text columns receiver piece.now) out.old }
    ensures length_in_bounds { result.length ≤ length out.new }
{
    put_piece(columns, receiver, piece, out, 0)
}

#[tactic(auto, unfolding(crate::specs::Pieces::end_text, receiver::specs::Receiver::end_of))]
fn put_end(columns: Columns, receiver: Receiver, out: &mut [u8], at: usize) -> Printed
    ensures receiver_value { result.receiver ≡ (end_of receiver).receiver }
    ensures length_after { (out.new, result.length) ≡ typed (end_text columns receiver) (out.old, at) }
{
    let number = (receiver.taken / 6) as u32;
    let received = receiver.end();
    let length = put_shown(columns, out, at, number, received.shown);
    Printed {
        receiver: received.receiver,
        length,
    }
}

// The announced end, likewise: its refusal's line, or nothing.
pub fn print_end(columns: Columns, receiver: Receiver, out: &mut [u8]) -> Printed
    ensures receiver_value { result.receiver ≡ (end_of receiver).receiver }
    ensures length_value { result.length ≡ min (length (end_text columns receiver)) (length out.old) }
    ensures out_after { out.new ≡ over (length (end_text columns receiver)) (end_text columns receiver) out.old }
    ensures length_in_bounds { result.length ≤ length out.new }
{
    put_end(columns, receiver, out, 0)
}
