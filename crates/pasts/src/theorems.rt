// The theorems of the board, each as the contract of a function over any survey. Without its proof the crate is refused.
ghost use Rattle.pasts.specs.Moves.{OneOutcome, SomeOutcome, ClearHasOneOutcome, WithdrawIsLocal, AddIsLocal, WantIsLocal, Wakes, FinishIsBounded, FinishCounts, FinishFits};
ghost use Rattle.pasts.specs.Promises.{StaysSound, StaysUsable, KeepsItsShelf, ReadIsSettled, WantsAreServed, KeepsItsPromise, PastIsForgotten, SameRulesAgree};
ghost use Rattle.pasts.specs.Rows.{RefusalsAreRows, RowsAreRefused, ClearRow, OrderOfChecks, RefusalsAreDue, DueIsRefused};

use scales::Scale;
use surveys::Survey;

// After every past the whole promise holds.
pub fn every_past_keeps_its_promise<V: Survey>(survey: &V)
    ensures { KeepsItsPromise V.Grade.Scale.meaning (V.degrees survey.now) }
{}

// After every past the tables are sound.
pub fn every_past_is_sound<V: Survey>(survey: &V)
    ensures { StaysSound V.Grade.Scale.meaning (V.degrees survey.now) }
{}

// On tables within their limits a call is refused only for what it asks.
pub fn every_past_is_usable<V: Survey>(survey: &V)
    ensures { StaysUsable V.Grade.Scale.meaning (V.degrees survey.now) }
{}

// The rules in the table are those in force.
pub fn every_past_keeps_its_shelf<V: Survey>(survey: &V)
    ensures { KeepsItsShelf V.Grade.Scale.meaning (V.degrees survey.now) }
{}

// Where none is active, a read of an open statement is accepted and answers its least grade as settled.
pub fn a_read_is_settled<V: Survey>(survey: &V)
    ensures { ReadIsSettled V.Grade.Scale.meaning (V.degrees survey.now) }
{}

// After a finish a read of each wanted statement answers its least grade as settled.
pub fn wants_are_served<V: Survey>(survey: &V)
    ensures { WantsAreServed V.Grade.Scale.meaning (V.degrees survey.now) }
{}

// What a resting statement has depends on the rules in force alone.
pub fn a_past_is_forgotten<V: Survey>(survey: &V)
    ensures { PastIsForgotten V.Grade.Scale.meaning (V.degrees survey.now) }
{}

// Boards with the same rules in force, under whatever marks, agree on each statement that rests on both.
pub fn same_rules_agree<V: Survey>(survey: &V)
    ensures { SameRulesAgree V.Grade.Scale.meaning (V.degrees survey.now) }
{}

// A call has no two outcomes.
pub fn a_call_has_one_outcome<V: Survey>(survey: &V)
    ensures { (t : _) → OneOutcome V.Grade.Scale.meaning (V.degrees survey.now) t }
{}

// Every call on any tables has an outcome; so a finish ends.
pub fn a_call_has_some_outcome<V: Survey>(survey: &V)
    ensures { (t : _) → SomeOutcome V.Grade.Scale.meaning (V.degrees survey.now) t }
{}

// A clear has an outcome, and no two.
pub fn a_clear_has_one_outcome<G: Scale>()
    ensures { (t : _) → ClearHasOneOutcome G.meaning t }
{}

// A withdraw alters only open statements that lead to the withdrawn rule's head.
pub fn a_withdraw_is_local<V: Survey>(survey: &V)
    ensures { (t : _) → WithdrawIsLocal V.Grade.Scale.meaning (V.degrees survey.now) t }
{}

// An add alters no grade, and no mark but its head's.
pub fn an_add_is_local<V: Survey>(survey: &V)
    ensures { (t : _) → AddIsLocal V.Grade.Scale.meaning (V.degrees survey.now) t }
{}

// A want alters no grade, and no mark but that of the unopened statement that it asks for.
pub fn a_want_is_local<V: Survey>(survey: &V)
    ensures { (t : _) → WantIsLocal V.Grade.Scale.meaning (V.degrees survey.now) t }
{}

// A finish takes at most so many steps as its budget.
pub fn a_finish_is_bounded<V: Survey>(survey: &V)
    ensures { (t : _) → FinishIsBounded V.Grade.Scale.meaning (V.degrees survey.now) t }
{}

// A finish that answers k leaves what k accepted steps leave.
pub fn a_finish_counts_its_steps<V: Survey>(survey: &V)
    ensures { (t : _) → FinishCounts V.Grade.Scale.meaning (V.degrees survey.now) t }
{}

// The number that a finish answers fits its type.
pub fn a_finish_fits<V: Survey>(survey: &V)
    ensures { (t : _) → FinishFits V.Grade.Scale.meaning (V.degrees survey.now) t }
{}

// A refusal leaves the tables, and its number says what was amiss.
pub fn refusals_are_rows<V: Survey>(survey: &V)
    ensures { (t : _) → RefusalsAreRows V.Grade.Scale.meaning (V.degrees survey.now) t }
{}

// Where a row of the table of refusals holds, the call is refused.
pub fn rows_are_refused<V: Survey>(survey: &V)
    ensures { (t : _) → RowsAreRefused V.Grade.Scale.meaning (V.degrees survey.now) t }
{}

// A clear is refused for the lengths of the tables alone.
pub fn a_clear_has_one_row<G: Scale>()
    ensures { (t : _) → ClearRow G.meaning t }
{}

// What an add, a withdraw and a want make active.
pub fn calls_wake<V: Survey>(survey: &V)
    ensures { (t : _) → Wakes V.Grade.Scale.meaning (V.degrees survey.now) t }
{}

// The number of a refusal says what the checks before it found too.
pub fn refusals_are_due<V: Survey>(survey: &V)
    ensures { (t : _) → RefusalsAreDue V.Grade.Scale.meaning (V.degrees survey.now) t }
{}

// The first check that is met refuses the call with its number.
pub fn what_is_due_is_refused<G: Scale>()
    ensures { (t : _) → DueIsRefused G.meaning t }
{}

// Which refusal comes where several rows hold, in worked cases.
pub fn checks_come_in_order<G: Scale>()
    ensures { OrderOfChecks G.meaning }
{}
