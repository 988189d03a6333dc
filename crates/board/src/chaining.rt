// Two chains over a board's rules, in lent tables: its rules by their heads, and their uses by the statements used. They are built
// backwards, so that they rise. Tables of numbers and no maps, since a board's calls take no memory; a number past the last place says
// that there is none.
ghost use Rattle.std.specs.Prelude.{◌≡◌, ℕ, ◌+◌, ◌*◌, ◌<◌, ◌≤◌, List, length, drop, if◌then◌else◌, nat_eq, slice_index, slice_set};
ghost use Rattle.index.specs.Chains.{place, Chained};
ghost use Rattle.index.specs.Uses.{heads, use_by, uses, used, Wide};
ghost use Rattle.board.specs.Indexed.{keys, keyed, chosen};

use model::Rule;
use scales::Scale;

// A board of no more statements and places than this is done by scans: chains would cost more than they save.
pub(crate) const FEW: usize = 16;

// The places of the rules by their keys, EACH to a rule: the first place with each key, and for each place the next with the same key.
// Where a rule has one place, its key is the head; where it has four, the keys are the statements used.
#[derive(Drop)]
pub(crate) struct Chain<'a, G, const EACH: usize> {
    pub(crate) rules: &'a [Rule<G>],
    pub(crate) first: &'a [u16],
    pub(crate) next: &'a [u16],
    ghost each: { 0 < EACH },
    ghost long: { length first.now ≡ 1025 },
    ghost room: { length (keyed EACH rules.now) ≤ length next.now },
    ghost starts: { (s : ℕ) → s < 1025 → slice_index first.now s ≡ place (keys EACH rules.now) s 0 },
    ghost goes_on: { (k : ℕ) → k < length (keyed EACH rules.now) → slice_index next.now k ≡ place (keys EACH rules.now) (slice_index (keys EACH rules.now) k) (k + 1) },
    ghost wide: { 1 < EACH → Wide rules.now },
}

// A board's rules by their heads.
pub(crate) type Heads<'a, G> = Chain<'a, G, 1>;

// Their uses by the statements used, four to a rule.
pub(crate) type Uses<'a, G> = Chain<'a, G, 4>;

impl<'a, G, const EACH: usize> Chain<'a, G, EACH> {
    // For each place with the key `s`, in rising order, its rule.
    pub(crate) fn of(&self, s: u16) -> RulesOf<'a, G, EACH>
        requires { s ≤ 1024 }
        ensures { chosen result.key (drop result.at (keyed EACH result.rules.now)) ≡ chosen s (keyed EACH self.now.rules.now) }
    {
        RulesOf {
            rules: self.rules,
            next: self.next,
            key: s,
            at: self.first[s as usize] as usize,
        }
    }
}

// The rules of the places with one key, from the place `at` on.
#[derive(Drop)]
pub(crate) struct RulesOf<'a, G, const EACH: usize> {
    pub(crate) rules: &'a [Rule<G>],
    pub(crate) next: &'a [u16],
    pub(crate) key: u16,
    pub(crate) at: usize,
    ghost each: { 0 < EACH },
    ghost room: { length (keyed EACH rules.now) ≤ length next.now },
    ghost here: { at < length (keyed EACH rules.now) → slice_index (keys EACH rules.now) at ≡ key },
    ghost goes_on: { (k : ℕ) → k < length (keyed EACH rules.now) → slice_index next.now k ≡ place (keys EACH rules.now) (slice_index (keys EACH rules.now) k) (k + 1) },
}

impl<'a, G, const EACH: usize> Iterator for RulesOf<'a, G, EACH> {
    ghost use Rattle.std.specs.Prelude.{drop};
    ghost use Rattle.std.specs.Iterator.{YieldsFirstRef, item_count};
    ghost use Rattle.board.specs.Indexed.{keyed, chosen};

    type Item = &'a Rule<G>;

    ghost next_gives = { YieldsFirstRef (λ s. chosen s.key (drop s.at (keyed EACH s.rules.now))) };

    ghost remaining = { item_count (λ s. chosen s.key (drop s.at (keyed EACH s.rules.now))) };

    fn next(&mut self) -> Option<&'a Rule<G>> {
        let rule = self.rules.get(self.at / EACH)?;
        self.at = self.next[self.at] as usize;
        Some(rule)
    }
}

impl<'a, G: Scale> Heads<'a, G> {
    // In tables that are as long as a board may be.
    pub(crate) fn by_heads(
        rules: &'a [Rule<G>],
        first: &'a mut [u16; 1025],
        next: &'a mut [u16; 4096],
    ) -> Heads<'a, G>
        requires few { length rules.now ≤ 4096 }
        requires keyed { (k : ℕ) → k < length rules.now → slice_index (heads rules.now) k ≤ 1024 }
        ensures { result.rules.now ≡ rules.now }
    {
        first.fill(rules.len() as u16);
        chain_heads(rules, first, next);
        Chain { rules, first, next }
    }
}

impl<'a, G: Scale> Uses<'a, G> {
    // In tables that are as long as a board may be.
    pub(crate) fn by_bodies(
        rules: &'a [Rule<G>],
        first: &'a mut [u16; 1025],
        next: &'a mut [u16; 16384],
    ) -> Uses<'a, G>
        requires few { length rules.now ≤ 4096 }
        requires keyed { (k : ℕ) → k < 4 * length rules.now → slice_index (used (uses rules.now)) k ≤ 1024 }
        ensures { result.rules.now ≡ rules.now }
    {
        first.fill((4 * rules.len()) as u16);
        chain_uses(rules, first, next);
        Chain { rules, first, next }
    }
}

// The place `i` comes before those with its key. Here and below the two tables come apart while they are filled: what a `Chain` says of
// them is true only at the end.
fn link(first: &mut [u16], next: &mut [u16], i: usize, key: u16)
    requires keyed { key < length first.old }
    requires within { i < length next.old }
    requires fits { i ≤ 65535 }
    ensures firsts { first.new ≡ slice_set first.old key i }
    ensures nexts { next.new ≡ slice_set next.old i (slice_index first.old key) }
{
    let k = key as usize;
    next[i] = first[k];
    first[k] = i as u16;
}

// The rules by their heads. `first` comes with no place in it. The loop counts, since it writes the places' numbers.
fn chain_heads<G: Scale>(rules: &[Rule<G>], first: &mut [u16], next: &mut [u16])
    requires few { length rules.now ≤ 4096 }
    requires room { length rules.now ≤ length next.old }
    requires keyed { (k : ℕ) → k < length rules.now → slice_index (heads rules.now) k < length first.old }
    requires empty { (s : ℕ) → s < length first.old → slice_index first.old s ≡ length rules.now }
    ensures { Chained 0 (heads rules.now) first.new next.new }
{
    for i in (0..rules.len()).rev() {
        link(first, next, i, rules[i].head);
    }
}

// The same of a use. The first place with the key 0, which the absent bodies have, is handed on in place of being kept in `first`: nearly
// all of the uses may have it, and none then waits for the one before.
fn link_use(first: &mut [u16], next: &mut [u16], i: usize, key: u16, absent: u16) -> u16
    requires keyed { key < length first.old }
    requires within { i < length next.old }
    requires fits { i ≤ 65535 }
    ensures { (keys : List ℕ) → i < length keys → slice_index keys i ≡ key → Chained (i + 1) keys (slice_set first.old 0 absent) next.old → Chained i keys (slice_set first.new 0 result) next.new }
{
    let k = key as usize;
    if k == 0 {
        next[i] = absent;
        return i as u16;
    }
    next[i] = first[k];
    first[k] = i as u16;
    absent
}

// The statements that the bodies of a rule with this head use. A blank place's use none.
fn used_by(head: u16, bodies: &[u16; 4]) -> [u16; 4]
    ensures sons { (j : ℕ) → j < 4 → slice_index result j ≡ (if nat_eq head 0 then 0 else slice_index bodies.now j) }
    ensures wide { length bodies.now ≡ 4 }
{
    if head == 0 { [0; 4] } else { *bodies }
}

// The uses of a rule, from the place `i` on.
fn link_rule<G>(first: &mut [u16], next: &mut [u16], i: usize, rule: &Rule<G>, absent: u16) -> u16
    requires keyed { (j : ℕ) → j < 4 → (use_by j rule.now).son < length first.old }
    requires within { i + 3 < length next.old }
    requires fits { i + 3 ≤ 65535 }
    ensures links { (keys : List ℕ) → i + 3 < length keys → ((j : ℕ) → j < 4 → slice_index keys (i + j) ≡ (use_by j rule.now).son) → Chained (i + 4) keys (slice_set first.old 0 absent) next.old → Chained i keys (slice_set first.new 0 result) next.new }
    ensures wide { length rule.now.bodies ≡ 4 }
{
    let [a, b, c, d] = used_by(rule.head, &rule.bodies);
    let absent = link_use(first, next, i + 3, d, absent);
    let absent = link_use(first, next, i + 2, c, absent);
    let absent = link_use(first, next, i + 1, b, absent);
    link_use(first, next, i, a, absent)
}

// The uses, four to a rule, by the statements used. `first` comes with no place in it. The loop counts, as that over the heads.
fn chain_uses<G: Scale>(rules: &[Rule<G>], first: &mut [u16], next: &mut [u16])
    requires few { length rules.now ≤ 4096 }
    requires room { 4 * length rules.now ≤ length next.old }
    requires keyed { (k : ℕ) → k < 4 * length rules.now → slice_index (used (uses rules.now)) k < length first.old }
    requires empty { (s : ℕ) → s < length first.old → slice_index first.old s ≡ 4 * length rules.now }
    ensures chains { Chained 0 (used (uses rules.now)) first.new next.new }
    ensures wide { Wide rules.now }
{
    let mut absent = (4 * rules.len()) as u16;
    for q in (0..rules.len()).rev() {
        absent = link_rule(first, next, 4 * q, &rules[q], absent);
    }
    if !first.is_empty() {
        first[0] = absent;
    }
}
