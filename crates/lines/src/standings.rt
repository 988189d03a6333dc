// How the lines of a ramp stand: unmeasured, at 100, at 0 or in between.
ghost use Rattle.std.specs.Prelude.{◌≡◌};
ghost use Rattle.lines.specs.Standings.{count as count_of, standing, stands as stands_so};

use surveys::{Ramp, UNMEASURED};

#[derive(Clone, Copy, Debug, PartialEq, Eq)]
pub enum Standing {
    Unmeasured,
    Full,
    Zero,
    Between,
}

pub fn standing_of(ramp: &Ramp, reading: u16) -> Standing
    ensures { result ≡ standing ramp.now.near ramp.now.far reading }
{
    if reading == UNMEASURED {
        return Standing::Unmeasured;
    }
    match ramp.grade(reading).points() {
        0 => Standing::Zero,
        100 => Standing::Full,
        _ => Standing::Between,
    }
}

fn stands(ramp: &Ramp, sought: Standing, reading: u16) -> bool
    ensures { result ≡ stands_so ramp.now sought reading }
{
    standing_of(ramp, reading) == sought
}

// How many lines stand so.
pub fn count(ramp: &Ramp, sought: Standing) -> usize
    ensures { result ≡ count_of ramp.now sought }
{
    ramp.readings
        .iter()
        .filter(|reading| stands(ramp, sought, **reading))
        .count()
}
