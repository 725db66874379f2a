// Running a ride: a session, and the samples of a recording one after the other, until one is refused.
ghost use Rattle.std.specs.Prelude.{◌≡◌};
ghost use Rattle.session.specs.Session.{opened_of};
ghost use Rattle.rides.specs.Recording.{sample_at};
ghost use Rattle.rides.specs.Ride.{start_ride, fresh_ride, turn_of, turn_at, shown_of, turn_shows};
ghost use Rattle.rides.specs.Why.{no_why, explained_by, explained_of, explained_at};

use crate::recording::{is_good, sample_at};
use card::Card;
use leaf::{Refusal, byte_at, ensure};
use session::{Asked, Reasoned, Sample, Session, Why};
use step::Answer;
use step::speed::Reason;

// The session after the samples run, and the number of the refusal that ended the ride, 0 while none has. The number stays one: `turn` is
// promised of every ride handed in, whatever number it ended with.
#[derive(Clone, Copy)]
pub struct Ride {
    pub session: Session,
    pub ended: u8,
}

// What a turn shows: the sample's answer, or the number that refused it; nothing once the ride has ended. Not an Option of a Result: what
// is printed of it is promised of every number, also of one that no refusal has.
#[derive(Clone, Copy)]
pub enum Shown {
    Answered(Answer),
    Refused(u8),
    Nothing,
}

#[derive(Clone, Copy)]
pub struct Turned {
    pub ride: Ride,
    pub shown: Shown,
}

// A turn, and why the S that it shows is what it is; where it shows no answer there is no reason, and all is 0. Not an Option: `Why.explained_of`,
// which stays, gives this one, and a turn is printed with a reason whatever it shows.
#[derive(Clone, Copy)]
pub struct Explained {
    pub turned: Turned,
    pub why: Why,
}

// The session that a recording starts on this card: 14, then what the opening refuses.
#[tactic(auto, unfolding(crate::specs::Ride::start_ride))]
pub fn start(card: Card, recording: &[u8]) -> Result<Session, Refusal>
    ensures { opened_of result ≡ start_ride card recording.now }
{
    ensure(is_good(recording), Refusal::BadRecording)?;
    Session::open(card, byte_at(recording, 5))
}

fn no_why() -> Why
    ensures { result ≡ no_why }
{
    Why {
        reason: Reason::None,
        speed: 0,
        age: 0,
        cause: 0,
        since: 0,
    }
}

fn explain(session: Session, told: Result<Reasoned, Refusal>) -> Explained
    ensures { result ≡ explained_by session told }
{
    match told {
        Ok(Reasoned { answer, why }) => Explained {
            turned: Turned {
                ride: Ride::fresh(session),
                shown: Shown::Answered(answer),
            },
            why,
        },
        Err(why) => {
            let n = why.number();
            Explained {
                turned: Turned {
                    ride: Ride { session, ended: n },
                    shown: Shown::Refused(n),
                },
                why: no_why(),
            }
        }
    }
}

impl Ride {
    // A ride before its first sample.
    pub fn fresh(session: Session) -> Ride
        ensures { result ≡ fresh_ride session }
    {
        Ride { session, ended: 0 }
    }

    // One more sample, and why. A ride that has ended stays as it is. `ended` is a number, 0 for none, as `Ride` says.
    #[tactic(auto, using(crate::proofs::Whys::asked_going))]
    pub fn turn_asking(self, x: Sample) -> Explained
        ensures { result ≡ explained_of self x }
    {
        if self.ended == 0 {
            let Asked { session, told } = self.session.ask(x);
            return explain(session, told);
        }
        Explained {
            turned: Turned {
                ride: self,
                shown: Shown::Nothing,
            },
            why: no_why(),
        }
    }

    // The same of the recording's sample that k samples stand before. Past its end a byte reads as 0.
    pub fn turn_asking_at(self, recording: &[u8], k: u16) -> Explained
        ensures { result ≡ explained_at self recording.now k }
    {
        self.turn_asking(sample_at(recording, k))
    }

    // One more sample.
    #[tactic(auto, using(crate::proofs::Runs::on_paper))]
    pub fn turn(self, x: Sample) -> Turned
        ensures value { result ≡ turn_of self x }
        ensures shown_value { shown_of result.shown ≡ turn_shows self x }
    {
        self.turn_asking(x).turned
    }

    // The turn of the recording's sample that k samples stand before. Past its end a byte reads as 0.
    #[tactic(auto, unfolding(crate::specs::Ride::turn_at))]
    pub fn turn_at(self, recording: &[u8], k: u16) -> Turned
        ensures value { result ≡ turn_at self recording.now k }
        ensures shown_value { shown_of result.shown ≡ turn_shows self (sample_at recording.now k) }
    {
        self.turn(sample_at(recording, k))
    }
}
