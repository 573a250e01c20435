// Good sheets, judged; the stretch of a head; and what a sheet says of a state.
#![tactic(auto)]

ghost use Rattle.std.specs.Prelude.{◌≡◌, Bool, true, ◌&&◌, ◌∷◌, ◌≤◌, ◌^◌, ◌<◌};
ghost use Rattle.table.specs.Lists.{any, all, increasing};
ghost use Rattle.panel.specs.Rules.{head, valid_rule, narrows, of_head};
ghost use Rattle.prime.specs.Sheets.{good_sheet, antichain, apply_sheet};

use panel::PanelSize;

// The words are rules of a panel with n relays, strictly increasing.
#[tactic(auto, using(crate::proofs::Passes::rules_pass))]
fn are_rules(n: PanelSize, sheet: &[u32]) -> bool
    ensures { result ≡ (all (valid_rule n) sheet.now && increasing sheet.now) }
{
    let mut lo = 0;
    for &w in sheet {
        if w < lo || !panel::is_rule(n, w) {
            return false;
        }
        lo = w + 1;
    }
    true
}

// Some rule of the rest narrows w; only the stretch of one head need be looked at, since the words rise.
#[tactic(auto, using(crate::proofs::Passes::narrowed_pass))]
fn is_narrowed(w: u32, rest: &[u32]) -> bool
    requires { increasing (w ∷ rest.now) ≡ true }
    ensures { result ≡ any (λ r. narrows r w) rest.now }
{
    let h = panel::head_of(w);
    // `take_while` and `any` say the same, and are a quarter slower: this is the inner loop of each check of a sheet.
    for &r in rest {
        if panel::head_of(r) != h {
            return false;
        }
        if panel::contains_body(r, w) {
            return true;
        }
    }
    false
}

// No rule of the list narrows another.
fn is_antichain(sheet: &[u32]) -> bool
    requires { increasing sheet.now ≡ true }
    ensures { result ≡ antichain sheet.now }
{
    let mut left = sheet; // shrinks by a pattern, as the definition `antichain` goes
    while let [w, rest @ ..] = left {
        if is_narrowed(*w, rest) {
            return false;
        }
        left = rest;
    }
    true
}

// The words are a good sheet for n relays.
#[tactic(auto, using(crate::proofs::Passes::good_tests, crate::proofs::Passes::rules_increase))]
pub fn is_good_sheet(n: PanelSize, sheet: &[u32]) -> bool
    ensures { result ≡ good_sheet n sheet.now }
{
    are_rules(n, sheet) && is_antichain(sheet)
}

// The rules of the sheet s whose head is h.
#[tactic(auto, using(panel::proofs::Stretches::stretch_order, panel::proofs::Stretches::stretch_places))]
pub fn stretch(s: &[u32], h: u32) -> &[u32]
    requires { (h < 10) × (increasing s.now ≡ true) }
    ensures { result.now ≡ of_head h s.now }
{
    let from = table::place(s, h * panel::HEAD_STEP);
    let to = table::place(s, (h + 1) * panel::HEAD_STEP);
    &s[from..to]
}

// The state in which exactly the heads are on of which some rule covers x.
#[tactic(auto, using(crate::proofs::Passes::apply_pass))]
pub fn apply_rules(n: PanelSize, sheet: &[u32], x: u32) -> u32
    requires { all (valid_rule n) sheet.now ≡ true }
    ensures { result ≡ apply_sheet n sheet.now x }
{
    let mut on = 0;
    for &w in sheet {
        if panel::covers_state(w, x) {
            on |= panel::power(panel::head_of(w));
        }
    }
    on
}
