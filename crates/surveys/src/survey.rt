// What a survey is. Its meaning is a function from statement numbers to grades; asking answers that function's grade.
ghost use Rattle.std.specs.Prelude.{◌≡◌, ℕ};

use scales::Scale;

pub trait Survey {
    type Grade: Scale;

    ghost degrees: { Self → ℕ → Self.Grade };

    fn degree(&self, statement: u16) -> Self::Grade
        ensures { result ≡ degrees self.now statement };
}
