// A session: card, train type and desk. Opening makes one; each sample hands it in and hands it back with the answer, and where it is
// asked with the reason of the answer's S.
//
// No function has a `requires`. A session, or a sample, that document 01 refuses is refused by its number, and the session
// handed in comes back unchanged.
#![tactic(auto)]

ghost use Rattle.std.specs.Prelude.{◌≡◌, ◌*◌};
ghost use Rattle.session.specs.Types.{type_speed, type_allowed};
ghost use Rattle.session.specs.Session.{fresh_session, opened_of, judged_of, judge_card, open_session, card_inside, inside_of, codes_fit, mode_fits, accepted_as, carried, stepped, sample_of, outcome_of, answer_to};
ghost use Rattle.session.specs.Why.{why_from, why_now, asked_from, asked_of, sampled_from};

use card::{Card, check, is_in_range, is_known};
use desk::brake::Brake;
use desk::ranges::desk_inside;
use desk::state::Desk;
use leaf::{BUTTONS_TOP, CODE_TOP, Refusal, ensure};
use step::speed::{Reason, Standing, reason_at};
use step::{Answer, Input, step};

// What comes every 100 ms: odometer pulses, the beacon's code, the buttons newly pressed, the mode. The mode is a number: every other than 1
// and 2 may come, and is refused, 9 (`codes_fit`).
#[derive(Clone, Copy)]
pub struct Sample {
    pub pulses: u16,
    pub beacon: u8,
    pub buttons: u16,
    pub mode: u8,
}

impl Sample {
    // Are beacon, buttons and mode in range.
    fn is_in_range(self) -> bool
        ensures { result ≡ codes_fit self }
    {
        self.beacon <= CODE_TOP && self.buttons <= BUTTONS_TOP && 1 <= self.mode && self.mode <= 2
    }
}

// The card is what was handed in at the opening, its version and settings. The train type is a number: a session with any may be handed in,
// and is refused, 8, where there is none such (`inside_of`).
#[derive(Clone, Copy)]
pub struct Session {
    pub card: Card,
    pub train: u8,
    pub desk: Desk,
}

// The session after a sample, beside what it is answered with; where it is refused, the session handed in.
#[derive(Clone, Copy)]
pub struct Sampled {
    pub session: Session,
    pub outcome: Result<Answer, Refusal>,
}

// Why S is what it is: the value, hundredths of km/h, and age of the limit that sets it; the cause that stands (0: the brake is off), and how
// many samples ago the brake came on; and which limit it is, last in memory, where a ride that prints no reason pays least. The cause is the
// brake's number.
#[derive(Clone, Copy)]
pub struct Why {
    pub speed: u32,
    pub age: u16,
    pub cause: u8,
    pub since: u16,
    pub reason: Reason,
}

// What an accepted sample is answered with, and why.
#[derive(Clone, Copy)]
pub struct Reasoned {
    pub answer: Answer,
    pub why: Why,
}

// The session after a sample, beside what is told of it; where it is refused, the session handed in.
#[derive(Clone, Copy)]
pub struct Asked {
    pub session: Session,
    pub told: Result<Reasoned, Refusal>,
}

// Of the limit that sets S, and the brake.
fn why_from(named: Standing, brake: Brake) -> Why
    ensures { result ≡ why_from named brake }
{
    Why {
        reason: named.reason,
        speed: named.speed,
        age: named.age,
        cause: brake.cause,
        since: brake.age,
    }
}

impl Asked {
    // What is told, without the reason. Of another type, so by no struct update (`sampled_from`).
    fn answered(self) -> Sampled
        ensures { result ≡ sampled_from self.session self.told }
    {
        Sampled {
            session: self.session,
            outcome: self.told.map(|reasoned| reasoned.answer),
        }
    }
}

// T of a train type, km/h; 0 where there is no such type. A number, by `type_speed` of specs/, which cannot fail and which all that goes by T
// reckons with.
#[tactic(auto, unfolding(crate::specs::Types::type_speed))]
pub fn type_speed(train: u8) -> u8
    ensures { result ≡ type_speed train }
{
    match train {
        1 => 80,
        2 => 90,
        3 => 100,
        4 => 120,
        5 => 140,
        6 => 160,
        7 => 180,
        8 => 200,
        _ => 0,
    }
}

// Is the train type one of the eight, and no faster than vmax.
#[tactic(auto, unfolding(crate::specs::Types::type_allowed))]
pub fn type_allowed(train: u8, vmax: u8) -> bool
    ensures { result ≡ type_allowed train vmax }
{
    1 <= train && train <= 8 && type_speed(train) <= vmax
}

// Is the card's version known, and are the settings beside it in range: refusal 2, then 5 with its place, as the writer gives them.
#[tactic(auto, unfolding(crate::specs::Session::judge_card))]
pub fn judge(card: Card) -> Result<(), Refusal>
    ensures { judged_of result ≡ judge_card card }
{
    ensure(is_known(card.version), Refusal::NoSuchVersion)?;
    check(card.version, card.settings)
}

// Would opening judge it so.
#[tactic(auto, unfolding(crate::specs::Session::card_inside, crate::specs::Session::judge_card))]
fn card_inside(card: Card) -> bool
    ensures { result ≡ card_inside card }
{
    is_known(card.version) && is_in_range(card.version, card.settings)
}

impl Session {
    // A fresh session: in CONV, with the start row as main.
    fn fresh(card: Card, train: u8) -> Session
        ensures { result ≡ fresh_session card train }
    {
        Session {
            card,
            train,
            desk: Desk::fresh(),
        }
    }

    // Opens a session from a card and a train type: refusal 2, then 5 with its place, then 7.
    #[tactic(auto, unfolding(crate::specs::Session::open_session))]
    pub fn open(card: Card, train: u8) -> Result<Session, Refusal>
        ensures { opened_of result ≡ open_session card train }
    {
        judge(card)?;
        ensure(type_allowed(train, card.settings.vmax), Refusal::WrongTrain)?;
        Ok(Session::fresh(card, train))
    }

    // Is every number of the session in its range.
    #[tactic(auto, unfolding(crate::specs::Session::inside_of))]
    pub fn is_inside(self) -> bool
        ensures { result ≡ inside_of self }
    {
        card_inside(self.card)
            && type_allowed(self.train, self.card.settings.vmax)
            && desk_inside(self.desk)
    }

    // The travel of a sample, in tenths of a millimetre.
    fn travel(self, x: Sample) -> u32
        ensures { result ≡ x.pulses * self.card.settings.tick }
    {
        leaf::travel(x.pulses, self.card.settings.tick)
    }

    // Is the mode kept, or the train at standstill.
    fn keeps_mode(self, x: Sample) -> bool
        ensures { result ≡ mode_fits self x }
    {
        self.desk.bts == (x.mode == 2) || self.desk.brake.at_standstill(x.pulses)
    }

    // Is the sample accepted; else the first refusal that is due.
    #[tactic(auto, using(crate::proofs::Numbers::accepted_chain))]
    fn accept(self, x: Sample) -> Result<(), Refusal>
        ensures { result ≡ accepted_as self x }
    {
        ensure(self.is_inside(), Refusal::SessionOutOfRange)?;
        ensure(x.is_in_range(), Refusal::SampleOutOfRange)?;
        ensure(self.travel(x) <= 100_000, Refusal::TooFast)?;
        ensure(self.keeps_mode(x), Refusal::ModeWhileMoving)
    }

    // What the desk takes of an accepted sample.
    fn carry(self, x: Sample) -> Input
        ensures { result ≡ carried self x }
    {
        Input {
            m: self.travel(x),
            pulses: x.pulses,
            beacon: x.beacon,
            buttons: x.buttons,
            bts: x.mode == 2,
        }
    }

    // The sample is run: the session after it, its answer, and why.
    fn run(self, x: Input) -> Asked
        ensures { result ≡ asked_from self (stepped self x) }
    {
        let top = leaf::hundredths(type_speed(self.train));
        let stepped = step(self.desk, self.card, top, x);
        let next = stepped.desk;
        Asked {
            session: Session { desk: next, ..self },
            told: Ok(Reasoned {
                answer: stepped.answer,
                why: why_from(stepped.named, next.brake),
            }),
        }
    }

    // One sample, and why its answer's S is what it is.
    #[tactic(auto, using(crate::proofs::Asking::asked_accepted, crate::proofs::Asking::asked_refused), unfolding(crate::specs::Session::accepted_as))]
    pub fn ask(self, x: Sample) -> Asked
        ensures { result ≡ asked_of self x }
    {
        match self.accept(x) {
            Ok(()) => self.run(self.carry(x)),
            Err(why) => Asked {
                session: self,
                told: Err(why),
            },
        }
    }

    // One sample every 100 ms: pulses, beacon code 0..12, buttons newly pressed, mode 1 CONV or 2 BTS.
    #[tactic(auto, using(crate::proofs::Asking::asked_sampled, crate::proofs::Paper::on_paper))]
    pub fn sample(self, x: Sample) -> Sampled
        ensures value { result ≡ sample_of self x }
        ensures outcome_value { outcome_of result.outcome ≡ answer_to self x }
    {
        self.ask(x).answered()
    }

    // Why S is what it is in this session, as the last sample left it.
    #[tactic(auto, unfolding(crate::specs::Why::why_now))]
    pub fn why_now(self) -> Why
        ensures { result ≡ why_now self }
    {
        let top = leaf::hundredths(type_speed(self.train));
        why_from(
            reason_at(self.desk, self.card.settings, top),
            self.desk.brake,
        )
    }
}
