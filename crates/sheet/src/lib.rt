// The sheet in its lent slice: take counted before anything is written, and done in place.
#![tactic(auto)]

ghost use Rattle.std.specs.Prelude.{◌≡◌, true, false, ◌||◌, cond, eqb, ◌<◌, ◌≤◌, ◌+◌, MatchOption, length, take, drop, get_or, ◌++◌};
ghost use Rattle.table.specs.Lists.{increasing, insert_all, remove, insert};
ghost use Rattle.table.specs.Surgery.{Holds};
ghost use Rattle.panel.specs.Masks.{on};
ghost use Rattle.panel.specs.Rules.{valid_rule};
ghost use Rattle.panel.specs.Transitions.{state, spared};
ghost use Rattle.panel.specs.Contacts.{candidate};
ghost use Rattle.prime.specs.Sheets.{good_sheet, fresh_sheet, take_sheet};
ghost use Rattle.heirs.specs.Heirs.{heir_mask, picked};
ghost use Rattle.sheet.specs.Taking.{tally_of, Tallying, on_count, FirstOn, planted, visited, swept, Plantable, Visitable, Sweepable, rules_of, Became};

use panel::PanelSize;

// What a take strikes and adds.
#[derive(Clone, Copy, PartialEq, Eq, Debug, Default)]
pub struct Tally {
    pub struck: usize,
    pub added: usize,
}

// The relays whose candidates of the hit rule b are heirs. Only the stretch of its head is looked at.
pub fn heirs_of(sheet: &[u32], n: PanelSize, t: u32, b: u32) -> u32
    requires { (increasing sheet.now ≡ true) × (valid_rule n b ≡ true) × (spared t b ≡ false) }
    ensures { result ≡ heir_mask n t b sheet.now }
{
    let part = prime::stretch(sheet, panel::head_of(b));
    heirs::heir_mask(part, n, t, b)
}

// How many relays below n are on in the mask.
fn count_on(n: PanelSize, mask: u32) -> usize
    ensures { (result ≡ on_count n mask) × (result ≤ 10) }
{
    (0..n.relays()).filter(|&v| panel::is_on(v, mask)).count()
}

// What a take of t strikes and adds, before anything is written.
pub fn count_changes(sheet: &[u32], n: PanelSize, t: u32) -> Tally
    requires { good_sheet n sheet.now ≡ true }
    ensures { result ≡ tally_of n sheet.now t }
{
    let mut so = Tally::default();
    for &b in sheet {
        if !panel::is_spared(t, b) {
            so.struck += 1;
            so.added += count_on(n, heirs_of(sheet, n, t, b));
        }
    }
    so
}

// The lent words of a sheet, of which the first `have` are the table. That these are no more than there are stands in the contracts: as a ghost
// field here it is refused as an import cycle (`Taking` names the struct); with the struct in a file of its own it was not tried.
#[derive(Drop)]
struct Table<'a> {
    words: &'a mut [u32],
    have: usize,
}

impl<'a> Table<'a> {
    // The words of the table.
    fn rules(&self) -> &[u32]
        requires { self.now.have ≤ length self.now.words.now }
        ensures { result.now ≡ rules_of self.now }
    {
        &self.words[..self.have]
    }

    // The candidate of b on the relay v goes into its place, if the mask has v.
    fn plant_one(&mut self, v: u32, i: u32, b: u32, mask: u32)
        requires { (v < 10) × (b < 16777216) × (self.old.have ≤ length self.old.words.now) × (increasing (rules_of self.old) ≡ true) × (length (cond (on v mask) (insert (candidate b v i) (rules_of self.old)) (rules_of self.old)) ≤ length self.old.words.now) }
        ensures { Became self.old (cond (on v mask) (insert (candidate b v i) (rules_of self.old)) (rules_of self.old)) self.new }
    {
        if panel::is_on(v, mask) {
            let c = panel::candidate_on(b, v, i);
            table::insert_sorted(self.words, self.have, c);
            self.have += 1;
        }
    }

    // The candidates of b on the relays of the mask go into their places.
    fn plant(&mut self, n: PanelSize, i: u32, b: u32, mask: u32)
        requires { (b < 16777216) × (self.old.have ≤ length self.old.words.now) × Plantable n mask b i (rules_of self.old) (length self.old.words.now) }
        ensures { Became self.old (insert_all (picked n mask b i) (rules_of self.old)) self.new }
    {
        for v in 0..n.relays() {
            self.plant_one(v, i, b, mask);
        }
    }

    // The rule at a place goes, and its candidates on the relays of the mask come. The first of them takes over its room, so that only the
    // words between the two places move.
    fn replant(&mut self, at: usize, n: PanelSize, i: u32, mask: u32)
        requires { (get_or self.old.words.now at 0 < 16777216) × (at < self.old.have) × (self.old.have ≤ length self.old.words.now) × (increasing (rules_of self.old) ≡ true) × Plantable n mask (get_or self.old.words.now at 0) i (remove (get_or self.old.words.now at 0) (rules_of self.old)) (length self.old.words.now) }
        ensures { Became self.old (planted n mask (get_or self.old.words.now at 0) i (rules_of self.old)) self.new }
    {
        let b = self.words[at];
        let Some(u) = first_on(n, mask) else {
            table::remove_at(self.words, self.have, at);
            self.have -= 1;
            return;
        };
        let c = panel::candidate_on(b, u, i);
        table::replace_at(self.words, self.have, at, c);
        self.plant(n, i, b, mask - panel::power(u));
    }

    // The rule at a place is visited: it stays, or gives way to its heirs. A bool says which sweep it is: the definition `visited` takes one.
    fn visit(&mut self, at: usize, n: PanelSize, t: u32, all: bool)
        requires { Visitable all n t self.old.words.now self.old.have at }
        ensures { Became self.old (visited all n t (get_or self.old.words.now at 0) (rules_of self.old)) self.new }
    {
        let b = self.words[at];
        if panel::is_spared(t, b) {
            return;
        }
        let mask = heirs_of(self.rules(), n, t, b);
        if goes(all, mask) {
            self.replant(at, n, panel::state_of(t), mask);
        }
    }

    // The rules of the table are visited, from the last to the first. A bool, as in `visit`: the definition `swept` takes one.
    fn sweep(&mut self, n: PanelSize, t: u32, all: bool)
        requires { (self.old.have ≤ length self.old.words.now) × Sweepable all n t (length self.old.words.now) self.old.have (rules_of self.old) }
        ensures { Became self.old (swept all n t self.old.have (rules_of self.old)) self.new }
    {
        for at in (0..self.have).rev() {
            self.visit(at, n, t, all);
        }
    }
}

// The first relay below n that is on in the mask.
fn first_on(n: PanelSize, mask: u32) -> Option<u32>
    ensures { MatchOption result (FirstOn n mask n) (λ u. (u < n) × FirstOn n mask u) }
{
    (0..n.relays()).find(|&v| panel::is_on(v, mask))
}

// A hit rule goes now: all of them do, or it has no heir.
fn goes(all: bool, mask: u32) -> bool
    ensures { result ≡ (all || eqb mask 0) }
{
    all || mask == 0
}

// The first count words are a good sheet, and there is room for the new one: the new sheet stands in its place. A sweep from the end
// to the front retires the hit rules without an heir; a second one sets the heirs of the others in their places.
pub fn take_rules(sheet: &mut [u32], count: usize, n: PanelSize, t: u32) -> usize
    requires { (count ≤ length sheet.old) × (good_sheet n (take count sheet.old) ≡ true) × (length (take_sheet n (take count sheet.old) t) ≤ length sheet.old) }
    ensures { Holds sheet.new result (length sheet.old) (take_sheet n (take count sheet.old) t) }
{
    let mut table = Table {
        words: sheet,
        have: count,
    };
    table.sweep(n, t, false);
    table.sweep(n, t, true);
    table.have
}

// The fresh sheet: n rules with empty bodies, over the front of the slice.
// By index: after a `zip` over `iter_mut` a proof knows how many words there are and not which (docs/NOT_COVERED.md of Rattle; so the goal of `returns`).
pub fn write_fresh(sheet: &mut [u32], n: PanelSize)
    requires { n ≤ length sheet.old }
    ensures { sheet.new ≡ fresh_sheet n ++ drop n sheet.old }
{
    for h in 0..n.relays() {
        sheet[h as usize] = panel::rule_word(h, 0, 0);
    }
}
