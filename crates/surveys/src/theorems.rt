// The theorems of surveys, each as the contract of a function. Without its proof the crate is refused.
ghost use Rattle.surveys.specs.Pins.{EntryIs, ListedIs, RampIs, JoinedIs};

use scales::Scale;

// Entry s of a table, counted from 1, is statement s's.
pub fn an_entry_is<T>()
    ensures { EntryIs T }
{}

// A table of grades gives each statement its entry, and lowest where it has none.
pub fn a_listed_degree_is<T>()
    ensures { ListedIs T }
{}

// A ramp gives 100 up to the near shoulder, falls evenly, and gives 0 from the far shoulder on and where nobody has measured.
pub fn a_ramp_is()
    ensures { RampIs }
{}

// Of two surveys the better counts.
pub fn a_joined_degree_is<G: Scale>()
    ensures { JoinedIs G.meaning }
{}
