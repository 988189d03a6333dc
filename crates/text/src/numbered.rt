// A rule with its mark.
ghost use Rattle.std.specs.Prelude.{◌≡◌, ◌-◌, ◌≤◌, slice_set};

use model::Rule;

#[derive(Clone, Copy)]
pub struct Numbered<G> {
    pub mark: u16,
    pub rule: Rule<G>,
}

impl<G: Copy> Numbered<G> {
    // The rule comes to the place that has its mark as its number, if there is such a place. Board has the same for its own
    // tables, and keeps it private.
    pub fn put(self, rules: &mut [Rule<G>])
        requires { 1 ≤ self.mark }
        ensures { rules.new ≡ slice_set rules.old (self.mark - 1) self.rule }
    {
        let i = self.mark as usize - 1;
        // after a write through get_mut no proof would know what the slice holds
        if i < rules.len() {
            rules[i] = self.rule;
        }
    }
}
