// Replaying a part of a ride: a quota of a recording's samples from a place on, run from a session that is handed in.
ghost use Rattle.std.specs.Prelude.{◌≡◌, ◌+◌, ◌≤◌};
ghost use Rattle.leaf.specs.Answers.{number_of};
ghost use Rattle.rides.specs.Replay.{step_of, later_of, end_at, so_far, ran_from, unrun_of, judged_as, replay_of};

use crate::recording::{is_good, samples};
use crate::ride::{Ride, Shown, Turned};
use leaf::{Refusal, ensure};
use session::Session;
use step::Answer;

// How a replay ended: unrefused, its quota or the recording used up; by the number that refuses recording or session; or by
// the number that refuses a sample, and how many samples of the recording stand before that one. Numbers, since a ride's end is one.
// `end_at` gives it that of any ride.
#[derive(Clone, Copy)]
pub enum End {
    Unrefused,
    Refused(u8),
    RefusedAt(u8, u16),
}

// The session after the samples run, the answer to the last of them, how many ran, and how it ended.
#[derive(Clone, Copy)]
pub struct Replayed {
    pub session: Session,
    pub last: Option<Answer>,
    pub ran: u16,
    pub end: End,
}

// A sample that is answered is one step. By `step_of` of specs/; a `From<Shown>` would not say what it counts.
fn step_of(shown: Shown) -> u16
    ensures { result ≡ step_of shown }
{
    u16::from(matches!(shown, Shown::Answered(_)))
}

// The answer that was last, and what is shown behind it. By `later_of`: `Shown` is no `Option`.
fn later(before: Option<Answer>, shown: Shown) -> Option<Answer>
    ensures { result ≡ later_of before shown }
{
    match shown {
        Shown::Answered(answer) => Some(answer),
        Shown::Refused(_) | Shown::Nothing => before,
    }
}

// Do the samples run; else the refusal of the recording, then that of the session.
#[tactic(auto, using(crate::proofs::Replays::judged_chain))]
fn judge(recording: &[u8], session: Session) -> Result<(), Refusal>
    ensures { result ≡ judged_as recording.now session }
{
    ensure(is_good(recording), Refusal::BadRecording)?;
    ensure(session.is_inside(), Refusal::SessionOutOfRange)
}

fn unrun(why: Refusal, session: Session) -> Replayed
    ensures { result ≡ unrun_of (number_of why) session }
{
    Replayed {
        session,
        last: None,
        ran: 0,
        end: End::Refused(why.number()),
    }
}

// Unrefused, or the number that ended the ride at this position. 0 is none, by `end_at` of specs/.
fn end_at(ended: u8, position: u16) -> End
    ensures { result ≡ end_at ended position }
{
    if ended == 0 {
        End::Unrefused
    } else {
        End::RefusedAt(ended, position)
    }
}

// What a ride has come to, of which so many samples ran from a place on. Place and count one by one, as `so_far` of specs/ takes
// them: the struct of what it gives is `Replayed`.
fn so_far(ride: Ride, last: Option<Answer>, place: u16, ran: u16) -> Replayed
    requires { place + ran ≤ 65535 }
    ensures { result ≡ so_far ride last place ran }
{
    Replayed {
        session: ride.session,
        last,
        ran,
        end: end_at(ride.ended, place + ran),
    }
}

// n samples from a place on, up to the first of them that is refused. `ended` is a number, 0 for none (`Ride`). Recording, place,
// session and n are what `ran_from` takes: a struct of them would be built for the one call.
fn run(recording: &[u8], place: u16, session: Session, n: u16) -> Replayed
    requires { place + n ≤ 65535 }
    ensures { result ≡ ran_from session recording.now place n }
{
    let mut going = Ride::fresh(session);
    let mut last = None;
    let mut ran: u16 = 0;
    for k in 0..n {
        if going.ended != 0 {
            return so_far(going, last, place, ran);
        }
        let Turned { ride, shown } = going.turn_at(recording, place + k);
        last = later(last, shown);
        ran += step_of(shown);
        going = ride;
    }
    so_far(going, last, place, ran)
}

// A quota of the recording's samples from a place on, which is the number of samples before it, run from this session: as many as
// the quota and the recording have, past whose end none are left, or those before the first that is refused. Place and quota
// may be any numbers. Refused are a bad recording, 14, and a session out of its ranges, 8, even where no sample would run;
// then a sample, with its number and position. The train type is the session's; the recording's is not looked at. Nothing before
// the place is read but the recording's head. The four are what document 02 d) hands in, and what `replay_of` takes.
#[tactic(auto, using(crate::proofs::Replays::not_run, crate::proofs::Replays::judged_run))]
pub fn replay(recording: &[u8], place: u64, session: Session, quota: u64) -> Replayed
    ensures { result ≡ replay_of recording.now place session quota }
{
    match judge(recording, session) {
        Err(why) => unrun(why, session),
        Ok(()) => {
            let n = samples(recording);
            let from = place.min(u64::from(n)) as u16;
            let due = quota.min(u64::from(n - from)) as u16;
            run(recording, from, session, due)
        }
    }
}
