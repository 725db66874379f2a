// A recording: its length in four bytes, version 1, train type, and six bytes a sample.
ghost use Rattle.std.specs.Prelude.{◌≡◌, min};
ghost use Rattle.rides.specs.Recording.{samples_in, most_samples, good_recording, sample_at};

use leaf::{byte_at, long_at, word_at};
use session::Sample;

// The most samples that a good recording has.
const MOST_SAMPLES: usize = 10_000;

// The whole samples behind the first six bytes.
fn whole_samples(recording: &[u8]) -> usize
    ensures { result ≡ samples_in recording.now }
{
    recording.len().saturating_sub(6) / 6
}

// How many samples a recording has, of those that a good one can have.
pub fn samples(recording: &[u8]) -> u16
    ensures { result ≡ min (samples_in recording.now) most_samples }
{
    whole_samples(recording).min(MOST_SAMPLES) as u16
}

// Is it exactly as long as stated, of 6 + 6n bytes with n up to 10,000, and of version 1. Every other is refused 14.
#[tactic(auto, unfolding(crate::specs::Recording::good_recording))]
pub fn is_good(recording: &[u8]) -> bool
    ensures { result ≡ good_recording recording.now }
{
    let stated = long_at(recording, 0) as usize;
    let n = whole_samples(recording);
    stated == recording.len()
        && 6 + 6 * n == recording.len()
        && n <= MOST_SAMPLES
        && byte_at(recording, 4) == 1
}

// The sample that k samples stand before. Past the recording's end a byte reads as 0. By `sample_at` of specs/; cost,
// which stands on no rides, and why_cases, which has a sample's six bytes alone, have their own.
pub fn sample_at(recording: &[u8], k: u16) -> Sample
    ensures { result ≡ sample_at recording.now k }
{
    let at = 6 + 6 * u32::from(k);
    Sample {
        pulses: word_at(recording, at),
        beacon: byte_at(recording, at as usize + 2),
        buttons: word_at(recording, at + 3),
        mode: byte_at(recording, at as usize + 5),
    }
}
