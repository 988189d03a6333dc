// The figures that the definitions are held against.
#![tactic(auto)]

ghost use Rattle.std.specs.Prelude.{◌≡◌};
ghost use Rattle.figures.specs.Figures.{Figures, sample_rules};

use model::{Form, Rule};
use scales::Percent;

// The rules of the sample board in the order of their marks: statements 1 and 2 rest on each other, and 2 on a fact.
pub fn sample_rules() -> [Rule<Percent>; 3]
    ensures { result ≡ sample_rules }
{
    [
        percent_rule(1, Form::All, 90, [2, 0, 0, 0]),
        percent_rule(2, Form::All, 80, [1, 0, 0, 0]),
        percent_rule(2, Form::Chain, 70, [0, 0, 0, 0]),
    ]
}

fn percent_rule(head: u16, form: Form, weight: u8, bodies: [u16; 4]) -> Rule<Percent>
    ensures { result ≡ record { head = head; form = form; weight = record { value = weight }; bodies = bodies } }
{
    let weight = Percent { value: weight };
    Rule {
        head,
        form,
        weight,
        bodies,
    }
}

// The whole list at once.
pub fn figures_hold()
    ensures { Figures }
{}
