// A row's curve: the speed that one row of the card gives at an age.
#![tactic(auto)]

ghost use Rattle.std.specs.Prelude.{◌≡◌, ◌*◌, ◌-◌};
ghost use Rattle.curve.specs.Curve.{fallen_of, row_speed};

use card::Row;

// Hundredths of km/h of a row, `past` samples past its delay.
#[tactic(auto, unfolding(crate::specs::Curve::fallen_of))]
fn fallen(row: Row, past: u16) -> u32
    ensures { result ≡ fallen_of row.initial row.last row.drop past }
{
    leaf::hundredths(row.initial)
        .saturating_sub(leaf::travel(past, u16::from(row.drop)))
        .max(leaf::hundredths(row.last))
}

// Hundredths of km/h that a row gives at an age.
#[tactic(auto, unfolding(crate::specs::Curve::row_speed, crate::specs::Curve::curve_of))]
pub fn row_speed(row: Row, age: u16) -> u32
    ensures { result ≡ row_speed row age }
{
    let delay = u16::from(row.delay);
    if age <= delay {
        leaf::hundredths(row.initial)
    } else {
        fallen(row, age - delay)
    }
}
