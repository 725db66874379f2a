// Document 02 g), "Limit beacons in pairs": openings beside every version, and sessions with pairs, on both sides of their lines.
use crate::{after, reads, refusal};
use card::{Card, Pairs, Settings};
use session::Session;
use shell::{System, say};
use sides::pairs::{First, FirstKind, FourLimits, Paired};

// ---- opening (02 g)

// Card C's: 30, 40, 50 and 70 km/h, 10 m.
fn pairs_c() -> Pairs {
    Pairs {
        ten_ten: 30,
        ten_eleven: 40,
        eleven_ten: 50,
        eleven_eleven: 70,
        distance: 10,
    }
}

// Here and below by value, so that what differs stands in a call's argument.
fn with_pairs(settings: Settings, pairs: Pairs) -> Settings {
    Settings { pairs, ..settings }
}

// As a version 1 card has them: functions, X and Y 0.
fn without_functions(settings: Settings) -> Settings {
    Settings {
        functions: 0,
        x: 0,
        y: 0,
        ..settings
    }
}

fn with_slow_vmax(settings: Settings) -> Settings {
    Settings {
        vmax: 79,
        ..settings
    }
}

// Version and settings one by one: this is where the card is made.
fn opens(rt: &impl System, version: u8, settings: Settings, train: u8) {
    let opened = Session::open(Card { version, settings }, train);
    match opened {
        Ok(_) => {
            let _ = say(rt, b"opened\n");
        }
        Err(why) => refusal(rt, why),
    }
}

// The same settings beside the versions 0 to 4.
fn opens_beside(rt: &impl System, settings: Settings) {
    for version in 0..=4 {
        opens(rt, version, settings, 8);
    }
}

// Version 1 has functions 0, at 39; the bytes of pairs, from 44 on, are 0 beside versions 1 and 2, and are not beside version 3.
fn versions(rt: &impl System, k: Settings) {
    let _ = say(rt, b"card K's settings open beside version 2 alone\n");
    opens_beside(rt, k);
    let _ = say(rt, b"without functions beside 1 and 2\n");
    opens_beside(rt, without_functions(k));
    let _ = say(rt, b"with pairs beside 3\n");
    opens_beside(rt, with_pairs(k, pairs_c()));
    let _ = say(rt, b"with pairs and without functions beside 3\n");
    opens_beside(rt, with_pairs(without_functions(k), pairs_c()));
}

// Of what is at fault 2 is first, then the first of the settings, then the train type.
fn opening_order(rt: &impl System, k: Settings) {
    let _ = say(rt, b"the opening refuses 2, then 5, then 7\n");
    opens(rt, 4, with_slow_vmax(k), 0);
    opens(rt, 3, with_slow_vmax(k), 0);
    opens(rt, 3, k, 0);
    opens(rt, 2, with_pairs(k, pairs_c()), 9);
    opens(rt, 2, k, 9);
    opens(rt, 3, with_pairs(k, pairs_c()), 0);
}

// ---- sessions with pairs (02 g)

// Here and below by value, as above.
fn with_version(mut session: Session, version: u8) -> Session {
    session.card.version = version;
    session
}

fn with_card_pairs(mut session: Session, pairs: Pairs) -> Session {
    session.card.settings.pairs = pairs;
    session
}

// With the paired limit of 30 km/h standing, of this age.
fn with_thirty(mut session: Session, age: u16) -> Session {
    session.desk.beside.paired.limits.thirty.on = true;
    session.desk.beside.paired.limits.thirty.age = age;
    session
}

// With that of 70 km/h not standing, its age this number.
fn with_no_seventy(mut session: Session, age: u16) -> Session {
    session.desk.beside.paired.limits.seventy.age = age;
    session
}

// With a 10 so far back as the first of a pair, before which no limit stood.
fn with_first(mut session: Session, distance: u32) -> Session {
    session.desk.beside.paired = Paired {
        first: First {
            kind: FirstKind::Ten,
            distance,
            own: true,
        },
        limits: FourLimits::none(),
    };
    session
}

// Versions 0 and 4 are none; version 1 has no functions, version 3 has pairs, and version 2 has none. 8 comes before 9. Put back, all is as
// it was.
fn version_refused(rt: &impl System, session: Session) {
    let _ = say(
        rt,
        b"a version is judged with the settings, and its session handed back as it was\n",
    );
    let none = reads(rt, with_version(session, 0), 0, 0);
    let first = reads(rt, with_version(none, 1), 0, 0);
    let third = reads(rt, with_version(first, 3), 0, 13);
    let fourth = reads(rt, with_version(third, 4), 0, 0);
    let pairs = reads(
        rt,
        with_card_pairs(with_version(fourth, 2), pairs_c()),
        0,
        0,
    );
    let three = reads(rt, with_version(pairs, 3), 0, 0);
    reads(
        rt,
        with_card_pairs(with_version(three, 2), Pairs::NONE),
        0,
        0,
    );
}

// Limit 30 stands and may go, 64. At 30,000 its age stops; 30,001 is out of range, of a limit that does not stand too.
fn paired_ages(rt: &impl System, session: Session) {
    let _ = say(
        rt,
        b"the age of a paired limit may be 30,000, where it stops, and no more\n",
    );
    let full = reads(rt, with_thirty(session, 30000), 0, 0);
    reads(rt, full, 0, 0);
    reads(rt, with_thirty(session, 30001), 0, 0);
    reads(rt, with_no_seventy(session, 30000), 0, 0);
    reads(rt, with_no_seventy(session, 30001), 0, 0);
}

// 6,000 m is where it stops: 100 pulses more change nothing.
fn first_distances(rt: &impl System, session: Session) {
    let _ = say(
        rt,
        b"the first of a pair may be 60,000,000 back, where it stops, and no more\n",
    );
    let far = reads(rt, with_first(session, 60000000), 100, 0);
    reads(rt, far, 100, 0);
    reads(rt, with_first(session, 60000001), 0, 0);
}

// It sets S, lights the limit's lamp and stands; the button takes it off at 0 km/h. At 30 km/h and above it may not go, and 35.28 km/h is more than
// 5 over: cause 5.
fn counts(rt: &impl System, session: Session) {
    let stands = reads(rt, with_thirty(session, 0), 0, 0);
    after(rt, stands, 0, 0, 64, 1);
    after(rt, stands, 98, 0, 64, 1);
}

// A paired limit counts whatever the version is.
fn paired_limit_counts(rt: &impl System, session: Session, paired: Session) {
    let _ = say(rt, b"a paired limit counts in a session of version 2\n");
    counts(rt, session);
    let _ = say(rt, b"as in one of version 3\n");
    counts(rt, paired);
}

// An 11 at 10 m, and at 9.9 m and 0.1 m more, makes a pair, 40 km/h, and waits for the limit's button. A tenth of a millimetre further off, or
// beside version 2, it sets the single limit, 110 km/h.
fn first_counts(rt: &impl System, session: Session, paired: Session) {
    let _ = say(
        rt,
        b"a first makes a pair on a card with pairs, no further off than they say\n",
    );
    reads(rt, with_first(paired, 100000), 0, 11);
    reads(rt, with_first(paired, 99000), 10, 11);
    reads(rt, with_first(paired, 99901), 1, 11);
    reads(rt, with_first(session, 0), 0, 11);
}

// Card K's session, and the same of version 3 with pairs.
pub(crate) fn cases(rt: &impl System, session: Session) {
    let settings = session.card.settings;
    versions(rt, settings);
    opening_order(rt, settings);
    version_refused(rt, session);
    let paired = with_card_pairs(with_version(session, 3), pairs_c());
    paired_ages(rt, paired);
    first_distances(rt, paired);
    paired_limit_counts(rt, session, paired);
    first_counts(rt, session, paired);
}
