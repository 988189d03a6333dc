// The theorems of board text, each as the contract of a function over any written scale. Without its proof the crate is
// refused.
ghost use Rattle.std.specs.Prelude.{ℕ};
ghost use Rattle.text.specs.FaultRows.{FaultsAreFirst, FaultsAreRows, RowsAreRefused};
ghost use Rattle.text.specs.Promises.{SampleLine, NumbersAreOne, LoadHasOneOutcome, OneSpelling, LoadAfterWrite, WriteAfterLoad, LoadedPast};
ghost use Rattle.text.specs.WorkedFaults.{WorkedFaults, OrderOfFaults};

use scales::Written;

// A number has one spelling in five columns, which reads as that number.
pub fn a_number_has_one_spelling()
    ensures { NumbersAreOne }
{}

// A load has one answer, and leaves one board, to the bit.
pub fn a_load_has_one_outcome<G: Written>()
    ensures { LoadHasOneOutcome G.Scale.meaning G.coding }
{}

// A refused load leaves the tables, and its fault is a row of the table of refusals.
pub fn faults_are_rows<G: Written>()
    ensures { FaultsAreRows G.Scale.meaning G.coding }
{}

// Where a row of the table of refusals holds of a text, its load is refused.
pub fn rows_are_refused<G: Written>()
    ensures { RowsAreRefused G.Scale.meaning G.coding }
{}

// The fault of a refused load comes first of the rows that hold: by line, then by column, then by number.
pub fn faults_are_first<G: Written>()
    ensures { FaultsAreFirst G.Scale.meaning G.coding }
{}

// Two texts that load to the same rules are the same text.
pub fn a_collection_has_one_spelling<G: Written>()
    ensures { OneSpelling G.Scale.meaning G.coding }
{}

// A load of what a write wrote gives the rules back, as grades.
pub fn what_is_written_loads<G: Written>()
    ensures { LoadAfterWrite G.Scale.meaning G.coding }
{}

// A write of what a load read gives the text back.
pub fn what_is_loaded_writes<G: Written>()
    ensures { WriteAfterLoad G.Scale.meaning G.coding }
{}

// A loaded board is the one that a clear and adds of its rules in rising marks leave, so it keeps the whole promise.
pub fn a_loaded_board_has_a_past<G: Written>()
    ensures { (degree : ℕ → G) → LoadedPast G.Scale.meaning G.coding degree }
{}

// The line of rule 1 of the sample board.
pub fn the_sample_line_is()
    ensures { SampleLine }
{}

// The worked faults of docs/TEXT.md.
pub fn worked_faults_hold()
    ensures { WorkedFaults }
{}

// Which fault a text with two of them has.
pub fn faults_come_in_order()
    ensures { OrderOfFaults }
{}
