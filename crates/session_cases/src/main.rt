// What no recording can show: a session that goes on after a refused sample, one that is handed in with another tick length, count of
// samples without pulses, last code, cause, version or pairs, or out of its ranges, openings, and a card under highest version 1. Each sample's
// line is S, lamps, cause, crossing icon, limit standing or not; or the refusal. The lines of stdout are worked from documents 01 and 02; what
// each case is after stands above it.
//
// The card is K of lessons/cards, with train type 8. At age k start gives 15000 - 10k hundredths of km/h and before-stop 6000 - 10k, and the
// limit is 11000 at age 0; the tick length is 100, and BTS has 70 km/h.
#![tactic(auto)]

mod pairs;

use card::card_in;
use case_lines::put_answer;
use leaf::Refusal;
use session::{Sample, Session};
use shell::{System, say};
use step::Answer;
use text::{put, put_refusal_of};

// Card K: length, version, vmax, tick length and BTS speed; eight rows of initial, final, delay and drop; functions, X, Y.
fn card_k() -> [u8; 44] {
    *b"\x00\x2C\x02\xC8\x00\x64\x46\
       \xB4\xAA\x00\x0A\x78\x50\x00\x0A\
       \x8C\x64\x00\x0A\x82\x5A\x00\x0A\
       \x3C\x14\x00\x0A\x64\x1E\x00\x01\
       \x6E\x32\x00\xC8\x96\x8C\x00\x0A\
       \x0F\x00\x14\x00\x0A"
}

// ---- what is written

// Each room of the program is of a fixed size: there is no heap, and it cannot run out of memory.
fn refusal(rt: &impl System, why: Refusal) {
    let mut line = [0u8; 4096];
    let at = put_refusal_of(&mut line, 0, why);
    let n = put(&mut line, at, b'\n');
    let _ = say(rt, &line[..n.min(line.len())]);
}

fn answer(rt: &impl System, a: Answer) {
    let mut line = [0u8; 4096];
    let n = put_answer(&mut line, 0, a, b'\n');
    let _ = say(rt, &line[..n.min(line.len())]);
}

fn outcome(rt: &impl System, o: Result<Answer, Refusal>) {
    match o {
        Ok(a) => answer(rt, a),
        Err(why) => refusal(rt, why),
    }
}

// ---- the session

// The session after a sample, whose line is written.
fn after(
    rt: &impl System,
    session: Session,
    pulses: u16,
    beacon: u8,
    buttons: u16,
    mode: u8,
) -> Session {
    let sampled = session.sample(Sample {
        pulses,
        beacon,
        buttons,
        mode,
    });
    let given = sampled.outcome;
    outcome(rt, given);
    sampled.session
}

// The same in CONV with no button pressed; beacon 0 is none.
fn reads(rt: &impl System, session: Session, pulses: u16, beacon: u8) -> Session {
    after(rt, session, pulses, beacon, 0, 1)
}

// Here and below by value, so that a case is one expression: `with_train(with_tick(long, 100), 0)` is handed to a call.
fn with_tick(mut session: Session, tick: u16) -> Session {
    session.card.settings.tick = tick;
    session
}

fn with_vmax(mut session: Session, vmax: u8) -> Session {
    session.card.settings.vmax = vmax;
    session
}

fn with_train(mut session: Session, train: u8) -> Session {
    session.train = train;
    session
}

fn with_stood(mut session: Session, stood: u16) -> Session {
    session.desk.brake.stood = stood;
    session
}

fn with_last_code(mut session: Session, code: u8) -> Session {
    session.desk.code = code;
    session
}

fn with_cause(mut session: Session, cause: u8) -> Session {
    session.desk.brake.cause = cause;
    session
}

// ---- cases

// The 8 is not read in BTS and is the last code. A mode change with pulses is refused, so the start row that leaving BTS set is one
// sample older after it, no more, and the 8 is not new. A sample without a beacon lets it be read: cause 4 at standstill, 256 + 1024.
fn mode_refused(rt: &impl System, session: Session) {
    let _ = say(
        rt,
        b"a mode change with pulses is refused, and changes nothing\n",
    );
    let first = reads(rt, session, 0, 7);
    let in_bts = after(rt, first, 0, 8, 0, 2);
    let left = reads(rt, in_bts, 0, 8);
    let kept = after(rt, left, 100, 0, 0, 2);
    let same_code = reads(rt, kept, 0, 8);
    let no_code = reads(rt, same_code, 0, 0);
    reads(rt, no_code, 0, 8);
}

// A beacon 7 sets before-stop and waits for 4, lamp 16. Four refusals later it is one sample old: the presses in refused samples have
// neither answered it nor armed override, and their codes, 13, 0 and 12, are not the last one: the 7 behind them is not new, so it
// makes no stop zone. Then a press does answer.
fn sample_refused(rt: &impl System, session: Session) {
    let _ = say(
        rt,
        b"beacon 13, button 11, mode 3 and 1001 pulses are refused, and change nothing\n",
    );
    let read = reads(rt, session, 100, 7);
    let beacon = after(rt, read, 100, 13, 16, 1);
    let button = after(rt, beacon, 100, 0, 2048 + 128, 1);
    let mode = after(rt, button, 0, 0, 16, 3);
    let pulses = after(rt, mode, 1001, 12, 16, 1);
    let older = reads(rt, pulses, 100, 7);
    after(rt, older, 100, 0, 16, 1);
}

// The tick length is 10..1000, the train type 1..8 and its T at most vmax. 8 comes before 9. Five refusals later, everything put back,
// the beacon 7 is one sample old.
fn session_refused(rt: &impl System, session: Session) {
    let _ = say(
        rt,
        b"a session out of its ranges is refused, and handed back as it was\n",
    );
    let read = reads(rt, session, 0, 7);
    let short = reads(rt, with_tick(read, 9), 0, 0);
    let long = reads(rt, with_tick(short, 1001), 0, 13);
    let none = reads(rt, with_train(with_tick(long, 100), 0), 0, 0);
    let nine = reads(rt, with_train(none, 9), 0, 0);
    let slow = reads(rt, with_vmax(with_train(nine, 8), 199), 0, 0);
    reads(rt, with_vmax(slow, 200), 0, 0);
}

// Behind a last code of 12 another 12 alarms as the first does, 2048, and brakes at standstill, 1024. A session with cause 6 is braked. 13
// and 7 are out of range.
fn code_and_cause(rt: &impl System, session: Session) {
    let _ = say(rt, b"a last code may be 12 and a cause 6, and no more\n");
    reads(rt, with_last_code(session, 12), 0, 12);
    reads(rt, with_last_code(session, 13), 0, 12);
    reads(rt, with_cause(session, 6), 0, 0);
    reads(rt, with_cause(session, 7), 0, 0);
}

// So many samples in CONV with these pulses. A session goes from sample to sample: the step is all that there is.
fn goes_on(rt: &impl System, session: Session, pulses: u16, samples: u16) -> Session {
    let mut going = session;
    for _ in 0..samples {
        going = reads(rt, going, pulses, 0);
    }
    going
}

// A beacon 8 at 36 km/h is cause 4 and sets stop, 40 km/h, with the lamp of increase. Then five samples without pulses, one that is refused,
// so many more without, and one that carries rearm.
fn run_with_refused(rt: &impl System, session: Session, more: u16) {
    let braked = reads(rt, session, 100, 8);
    let five = goes_on(rt, braked, 0, 5);
    let refused = after(rt, five, 1001, 0, 0, 1);
    after(rt, goes_on(rt, refused, 0, more), 0, 0, 1024, 1);
}

// Five, four and the last are ten: rearmed. With three they are nine: the brake stays on and lamp 10 dark.
fn run_unbroken(rt: &impl System, session: Session) {
    let _ = say(
        rt,
        b"a refused sample neither counts among ten without pulses nor breaks their run\n",
    );
    run_with_refused(rt, session, 4);
    let _ = say(rt, b"and with nine it is not standstill\n");
    run_with_refused(rt, session, 3);
}

// Nine before are enough for the mode to change, eight are not.
fn mode_by_count(rt: &impl System, session: Session) {
    let _ = say(
        rt,
        b"a session with a count of 9 changes its mode, with 8 it does not\n",
    );
    after(rt, with_stood(session, 9), 0, 0, 0, 2);
    after(rt, with_stood(session, 8), 0, 0, 0, 2);
}

// The count stops at 30,000, which is standstill still; more is out of range.
fn count_top(rt: &impl System, session: Session) {
    let _ = say(rt, b"a count may be 30,000, where it stops, and no more\n");
    let full = reads(rt, with_stood(session, 30000), 0, 0);
    after(rt, full, 0, 0, 0, 2);
    reads(rt, with_stood(session, 30001), 0, 0);
}

// 960 * 100 and seven times 1000 * 100 make 796,000 from the reading. With 31 * 129 = 3,999 more the second beacon 7 is the zone, its lamp
// dark before age 10; with 40 * 100 = 4,000 before-stop is set anew. No tick length divides 799,999, so no one card gives it. Too fast
// from the second sample on: cause 5.
fn second_seven(rt: &impl System, session: Session, tick: u16, pulses: u16) {
    let read = reads(rt, session, 0, 7);
    let answered = after(rt, read, 960, 0, 16, 1);
    let near = goes_on(rt, answered, 1000, 7);
    reads(rt, with_tick(near, tick), pulses, 7);
}

fn zone(rt: &impl System, session: Session) {
    let _ = say(rt, b"beacon 7 again at 799,999 is the stop zone\n");
    second_seven(rt, session, 31, 129);
    let _ = say(rt, b"and at 800,000 is none\n");
    second_seven(rt, session, 40, 100);
}

fn read_under_1(rt: &impl System, card: [u8; 44]) {
    let reading = card::read(&card, 1);
    match reading {
        Ok(_) => {
            let _ = say(rt, b"read\n");
        }
        Err(why) => refusal(rt, why),
    }
}

// Card K, and its first 39 bytes as a record of version 1.
fn highest_1(rt: &impl System) {
    let _ = say(
        rt,
        b"under highest 1 version 2 is refused and version 1 read\n",
    );
    let mut card = card_k();
    read_under_1(rt, card);
    card[1] = 39;
    card[2] = 1;
    read_under_1(rt, card);
}

fn rides(rt: &impl System, session: Session) {
    mode_refused(rt, session);
    sample_refused(rt, session);
    session_refused(rt, session);
    code_and_cause(rt, session);
    zone(rt, session);
}

fn standing(rt: &impl System, session: Session) {
    run_unbroken(rt, session);
    mode_by_count(rt, session);
    count_top(rt, session);
}

// The session that card K opens.
fn opened() -> Result<Session, Refusal> {
    let area = card_k();
    let card = card_in(&area, 2)?;
    Session::open(card, 8)
}

fn main(rt: HostRuntime) {
    let start = opened();
    match start {
        Ok(session) => {
            rides(&rt, session);
            standing(&rt, session);
            pairs::cases(&rt, session);
        }
        Err(why) => refusal(&rt, why),
    }
    highest_1(&rt);
}
