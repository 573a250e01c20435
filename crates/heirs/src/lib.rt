// Which candidates of a hit rule are heirs: one pass over a part of a sheet.
#![tactic(auto)]

ghost use Rattle.std.specs.Prelude.{◌≡◌, true, false, ◌≤◌, eqb};
ghost use Rattle.panel.specs.Rules.{head, valid_rule};
ghost use Rattle.table.specs.Lists.{all};
ghost use Rattle.panel.specs.Transitions.{spared};
ghost use Rattle.heirs.specs.Heirs.{heir_mask, near_all};

use panel::PanelSize;

// The contacts that single rules of the part have beyond b, as bits of the word. All are rules of its head.
#[tactic(auto, using(crate::proofs::Nearness::near_pass))]
fn near_part(part: &[u32], b: u32) -> u32
    requires { all (λ r. eqb (head r) (head b)) part.now ≡ true }
    ensures { result ≡ near_all b 0 part.now }
{
    let mut seen = 0;
    for &r in part {
        seen |= panel::near_rule(b, r);
    }
    seen
}

// The relays below n whose candidates of the hit rule b are heirs, as far as the part, rules of its head, tells.
pub fn heir_mask(part: &[u32], n: PanelSize, t: u32, b: u32) -> u32
    requires { (valid_rule n b ≡ true) × (spared t b ≡ false) × (all (λ r. eqb (head r) (head b)) part.now ≡ true) }
    ensures { result ≡ heir_mask n t b part.now }
{
    let seen = near_part(part, b);
    let free = panel::free_relays(n, b);
    let barred = panel::relays_against(seen, panel::state_of(t));
    free & !barred
}
