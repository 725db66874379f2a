// A recording as it comes over a line: a byte at a time, each sample answered when its sixth byte is in, each refusal given
// at the first byte that makes it certain. By value, like the session: a receiver in, the receiver back beside what is shown.
//
// No public function has a `requires`: each is total on every receiver handed in, and ensures that its result is what the
// definition of specs/ that it names gives.
#![tactic(auto)]

ghost use Rattle.std.specs.Prelude.{◌≡◌, ◌<◌};
ghost use Rattle.leaf.specs.Answers.{number_of};
ghost use Rattle.receiver.specs.Receiver.{with_part, with_session, with_status, no_part, fresh_receiver, started_of, start_receiver, quietly, refused_with, counted_in, high_in, low_in, length_fits, head_fits, stated_with, opened_with, head_takes, part_fits, part_with, completed_by, sample_takes, open_takes, take_of, end_as, end_of};
ghost use Rattle.receiver.specs.declared.Status.TheVariants.{Open};
ghost use Rattle.session.specs.Session.{open_session};

use card::Card;
use desk::state::Desk;
use leaf::{BUTTONS_TOP, CODE_TOP, Refusal, high};
use rides::ride::{Ride, Shown, Turned};
use session::{Sample, Session, judge};

// The length of the longest recording, 6 + 6 * 10,000.
const LENGTH_TOP: u16 = 60006;

// Open while bytes or the end are to come; ended well; or refused by this number, for good. A number and no Refusal: `take` and `end` are
// promised of every receiver handed in, whatever number it was refused by.
#[derive(Clone, Copy)]
pub enum Status {
    Open,
    Ended,
    Refused(u8),
}

#[derive(Clone, Copy)]
pub struct Receiver {
    // Before the train type is in, a session that is not opened yet: the card, and train type 0.
    pub session: Session,
    // The stated length, as far as its bytes are in.
    pub stated: u16,
    // How many bytes were taken.
    pub taken: u16,
    // Of an unfinished sample what has come, the rest 0.
    pub part: Sample,
    pub status: Status,
}

// The receiver after a byte or an end, beside what that shows.
#[derive(Clone, Copy)]
pub struct Received {
    pub receiver: Receiver,
    pub shown: Shown,
}

// ---- a pair of bytes, the high one first

// Here and in `low_in` the byte that has come, by their definitions: `from_be_bytes` wants both.
fn high_in(b: u8) -> u16
    ensures { result ≡ high_in b }
{
    u16::from(b) * 256
}

fn low_in(x: u16, b: u8) -> u16
    ensures { result ≡ low_in x b }
{
    x / 256 * 256 + u16::from(b)
}

// ---- the head

// Is it 6 + 6n with n up to 10,000.
fn length_fits(stated: u16) -> bool
    ensures { result ≡ length_fits stated }
{
    6 <= stated && stated <= LENGTH_TOP && stated % 6 == 0
}

// May the byte stand at this place of the head: where not, no good recording begins so.
#[tactic(auto, unfolding(crate::specs::Receiver::head_fits))]
fn head_fits(stated: u16, place: u16, b: u8) -> bool
    ensures { result ≡ head_fits stated place b }
{
    match place {
        0 | 1 => b == 0,
        2 => b <= high(LENGTH_TOP),
        3 => length_fits(low_in(stated, b)),
        4 => b == 1,
        _ => true,
    }
}

// The stated length with the byte of this place.
#[tactic(auto, unfolding(crate::specs::Receiver::stated_with))]
fn stated_with(stated: u16, place: u16, b: u8) -> u16
    ensures { result ≡ stated_with stated place b }
{
    match place {
        2 => high_in(b),
        3 => low_in(stated, b),
        _ => stated,
    }
}

// ---- a sample's bytes

// Of a sample nothing has come.
fn no_part() -> Sample
    ensures { result ≡ no_part }
{
    Sample {
        pulses: 0,
        beacon: 0,
        buttons: 0,
        mode: 0,
    }
}

// May the byte stand at this place of a sample: where not, the sample is refused 9 whatever follows.
#[tactic(auto, unfolding(crate::specs::Receiver::part_fits))]
fn part_fits(place: u16, b: u8) -> bool
    ensures { result ≡ part_fits place b }
{
    match place {
        2 => b <= CODE_TOP,
        3 => b <= high(BUTTONS_TOP),
        _ => true,
    }
}

// The sample with the byte of this place.
#[tactic(auto, unfolding(crate::specs::Receiver::part_with))]
fn part_with(x: Sample, place: u16, b: u8) -> Sample
    ensures { result ≡ part_with x place b }
{
    match place {
        0 => Sample {
            pulses: high_in(b),
            ..x
        },
        1 => Sample {
            pulses: low_in(x.pulses, b),
            ..x
        },
        2 => Sample { beacon: b, ..x },
        3 => Sample {
            buttons: high_in(b),
            ..x
        },
        4 => Sample {
            buttons: low_in(x.buttons, b),
            ..x
        },
        _ => Sample { mode: b, ..x },
    }
}

impl Receiver {
    // Before the first byte.
    fn fresh(card: Card) -> Receiver
        ensures { result ≡ fresh_receiver card }
    {
        Receiver {
            session: Session {
                card,
                train: 0,
                desk: Desk::fresh(),
            },
            stated: 0,
            taken: 0,
            part: no_part(),
            status: Status::Open,
        }
    }

    // Starts a receiver on this card: refusal 2, then 5 with its place, before any byte.
    #[tactic(auto, unfolding(crate::specs::Receiver::start_receiver))]
    pub fn start(card: Card) -> Result<Receiver, Refusal>
        ensures { started_of result ≡ start_receiver card }
    {
        judge(card)?;
        Ok(Receiver::fresh(card))
    }

    // The status changed, all else as it was. By `with_status` of specs/.
    fn with_status(self, status: Status) -> Receiver
        ensures { result ≡ with_status status self }
    {
        Receiver { status, ..self }
    }

    // ---- what becomes of a byte

    // Nothing is shown.
    fn quiet(self) -> Received
        ensures { result ≡ quietly self }
    {
        Received {
            receiver: self,
            shown: Shown::Nothing,
        }
    }

    // It is refused: the status alone changes.
    #[tactic(auto, unfolding(crate::specs::Receiver::refused_with))]
    fn refuse(self, why: Refusal) -> Received
        ensures { result ≡ refused_with (number_of why) self }
    {
        let n = why.number();
        Received {
            receiver: self.with_status(Status::Refused(n)),
            shown: Shown::Refused(n),
        }
    }

    // It counts as taken; the session and the part of a sample after it. The status stays: the end is the sender's to announce. That one
    // more byte can be counted is a `requires` of the inner functions from here to `take_sample`, and no invariant of the type: `take` is
    // promised of every receiver handed in.
    fn past(self, session: Session, part: Sample) -> Receiver
        requires { self.taken < 65535 }
        ensures { result ≡ counted_in (with_part part (with_session session self)) }
    {
        Receiver {
            session,
            part,
            taken: self.taken + 1,
            ..self
        }
    }

    // ---- the head

    // The byte is the train type: a session is opened with it.
    #[tactic(auto, unfolding(crate::specs::Receiver::opened_with, session::specs::Session::open_session, crate::specs::Receiver::refused_with, session::specs::Session::judge_card))]
    fn take_train(self, train: u8) -> Received
        requires { self.taken < 65535 }
        ensures { result ≡ opened_with self (open_session self.session.card train) }
    {
        match Session::open(self.session.card, train) {
            Ok(session) => self.past(session, self.part).quiet(),
            Err(why) => self.refuse(why),
        }
    }

    #[tactic(auto, unfolding(crate::specs::Receiver::head_takes))]
    fn take_head(self, b: u8) -> Received
        requires { self.taken < 65535 }
        ensures { result ≡ head_takes self b }
    {
        if !head_fits(self.stated, self.taken, b) {
            return self.refuse(Refusal::BadRecording);
        }
        if self.taken == 5 {
            return self.take_train(b);
        }
        Receiver {
            stated: stated_with(self.stated, self.taken, b),
            taken: self.taken + 1,
            ..self
        }
        .quiet()
    }

    // ---- the samples

    // A sample is complete and has been run. `ended` is a number, 0 for none, as `Ride` says.
    #[tactic(auto, unfolding(crate::specs::Receiver::completed_by))]
    fn complete(self, turned: Turned) -> Received
        requires { self.taken < 65535 }
        ensures { result ≡ completed_by self turned }
    {
        let Turned { ride, shown } = turned;
        let receiver = if ride.ended == 0 {
            self.past(ride.session, no_part())
        } else {
            self.with_status(Status::Refused(ride.ended))
        };
        Received { receiver, shown }
    }

    #[tactic(auto, unfolding(crate::specs::Receiver::sample_takes))]
    fn take_sample(self, b: u8) -> Received
        requires { self.taken < 65535 }
        ensures { result ≡ sample_takes self b }
    {
        let place = self.taken % 6;
        if !part_fits(place, b) {
            return self.refuse(Refusal::SampleOutOfRange);
        }
        let part = part_with(self.part, place, b);
        if place == 5 {
            return self.complete(Ride::fresh(self.session).turn(part));
        }
        self.past(self.session, part).quiet()
    }

    // ---- a byte, and the end

    #[tactic(auto, unfolding(crate::specs::Receiver::open_takes))]
    fn take_open(self, b: u8) -> Received
        ensures { result ≡ open_takes self b }
    {
        if self.taken < 6 {
            return self.take_head(b);
        }
        if self.taken < self.stated {
            return self.take_sample(b);
        }
        self.refuse(Refusal::BadRecording)
    }

    // One byte more. A receiver that has refused stays as it is.
    #[tactic(auto, unfolding(crate::specs::Receiver::take_of, crate::specs::Receiver::take_as))]
    pub fn take(self, b: u8) -> Received
        ensures { result ≡ take_of self b }
    {
        match self.status {
            Status::Open => self.take_open(b),
            Status::Ended => self.refuse(Refusal::BadRecording),
            Status::Refused(_) => self.quiet(),
        }
    }

    #[tactic(auto, unfolding(crate::specs::Receiver::end_as))]
    fn end_open(self) -> Received
        ensures { result ≡ end_as Open self }
    {
        if 6 <= self.taken && self.taken == self.stated {
            return self.with_status(Status::Ended).quiet();
        }
        self.refuse(Refusal::BadRecording)
    }

    // The sender announces the end: 14 where bytes are missing.
    #[tactic(auto, unfolding(crate::specs::Receiver::end_of, crate::specs::Receiver::end_as))]
    pub fn end(self) -> Received
        ensures { result ≡ end_of self }
    {
        match self.status {
            Status::Open => self.end_open(),
            Status::Ended | Status::Refused(_) => self.quiet(),
        }
    }
}
