// Ramp: percents from readings, which fall from 100 at one shoulder to 0 at the other.
ghost use Rattle.std.specs.Prelude.{◌≡◌};
ghost use Rattle.surveys.specs.Ramps.{graded, ramp as ramp_degrees};

use crate::survey::Survey;
use crate::table::entry_or;
use scales::{Percent, Scale};

// What stands in the table for a line that nobody has measured. Readings come as numbers, and 0 is this one, so it is no `None`.
pub const UNMEASURED: u16 = 0;

// Entry s of the readings, counted from 1, is statement s's. A reading up to the near shoulder gives 100, one beyond it and from the far
// shoulder on gives 0, and in between the grade falls evenly.
#[derive(Drop)]
pub struct Ramp {
    pub readings: Vec<u16>,
    pub near: u16,
    pub far: u16,
}

impl Ramp {
    // The grade of a line with this reading.
    pub fn grade(&self, reading: u16) -> Percent
        ensures { result ≡ graded self.now.near self.now.far reading }
    {
        if reading == UNMEASURED {
            return Percent::lowest();
        }
        if reading <= self.near {
            return Percent::highest();
        }
        if reading >= self.far {
            return Percent::lowest();
        }
        let left = u32::from(self.far - reading);
        let span = u32::from(self.far - self.near);
        Percent {
            // at most 100, since `left` is no more than `span`: the cast loses nothing
            value: (100 * left / span) as u8,
        }
    }
}

impl Survey for Ramp {
    type Grade = Percent;

    ghost degrees = { ramp_degrees };

    // Beyond the table, and at 0, nobody has measured.
    fn degree(&self, statement: u16) -> Percent {
        self.grade(entry_or(&self.readings, statement, UNMEASURED))
    }
}
