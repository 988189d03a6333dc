// The theorems of rules, each as the contract of a function over any scale. Without its proof the crate is refused.
ghost use Rattle.std.specs.Prelude.{ℕ};
ghost use Rattle.model.specs.Facts.{WorthsRise, LeastIsLeast, LeastIsFixed, LeadsIsDecided};
ghost use Rattle.model.specs.Pins.{WorthIsJoin, FormsAre, SonIs, MalformedIs};

use scales::Scale;

// Grades at or above others give worths at or above theirs.
pub fn worths_rise<G: Scale>()
    ensures { (degree : ℕ → G) → WorthsRise G.meaning degree }
{}

// The rounds come to rest at the least model of the rules.
pub fn the_least_model_is_least<G: Scale>()
    ensures { (degree : ℕ → G) → LeastIsLeast G.meaning degree }
{}

// Each grade of the least model is its statement's worth.
pub fn least_is_fixed<G: Scale>()
    ensures { (degree : ℕ → G) → LeastIsFixed G.meaning degree }
{}

// Whether one statement leads to another can be decided.
pub fn leading_is_decided<G: Scale>()
    ensures { LeadsIsDecided G }
{}

// A worth is the join of the survey's degree and the values of the statement's rules.
pub fn a_worth_is_a_join<G: Scale>()
    ensures { (degree : ℕ → G) → WorthIsJoin G.meaning degree }
{}

// What a rule of each form says.
pub fn forms_are<G: Scale>()
    ensures { FormsAre G.meaning }
{}

// Which statements are the sons of one.
pub fn a_son_is<G: Scale>()
    ensures { SonIs G }
{}

// Which places are malformed.
pub fn a_malformed_place_is<G: Scale>()
    ensures { MalformedIs G }
{}
