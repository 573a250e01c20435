// Panel words: sizes, states, transition words and rule words, and the tests on them.
#![tactic(auto)]

ghost use Rattle.std.specs.Prelude.{◌≡◌, true, ◌^◌, ◌<◌, ◌≤◌};
ghost use Rattle.panel.specs.Masks.{panel_size, on, bits_where};
ghost use Rattle.panel.specs.Rules.{rule_word, head, must_on, must_off, valid_rule, covers, contains, narrows};
ghost use Rattle.panel.specs.Transitions.{transition_word, state, next, observed, valid_transition, rests, spared};
ghost use Rattle.panel.specs.Contacts.{free, candidate, near, contact_place};

mod size;

pub use size::PanelSize;

// A word holds masks and states of 10 relays, one above the other.
const FIELD: u32 = 1024;

// From the word of a rule to that of the next head with the same body: the head stands above two masks.
pub const HEAD_STEP: u32 = FIELD * FIELD;

// A panel has 1 to 10 relays.
#[tactic(auto, unfolding(crate::specs::Masks::panel_size))]
pub fn is_panel_size(n: u32) -> bool
    ensures { result ≡ panel_size n }
{
    (1..=10).contains(&n)
}

// 2 to the v: the number of states of v relays, and the bit of the relay v.
pub fn power(v: u32) -> u32
    requires { v ≤ 10 }
    ensures { (result ≡ 2 ^ v) × (result ≤ 1024) }
{
    1u32 << v
}

// Relay v is on in the mask or state x.
#[tactic(auto, using(crate::proofs::Judging::on_tests))]
pub fn is_on(v: u32, x: u32) -> bool
    ensures { result ≡ on v x }
{
    v < 32 && (x >> v) % 2 == 1
}

#[tactic(auto, unfolding(crate::specs::Rules::rule_word))]
pub fn rule_word(h: u32, p: u32, m: u32) -> u32
    requires { (h < 16) × (p < 1024) × (m < 1024) }
    ensures { result ≡ rule_word h p m }
{
    h * HEAD_STEP + p * FIELD + m
}

#[tactic(auto, unfolding(crate::specs::Rules::head))]
pub fn head_of(w: u32) -> u32
    ensures { result ≡ head w }
{
    w / HEAD_STEP
}

#[tactic(auto, unfolding(crate::specs::Rules::must_on))]
pub fn must_on(w: u32) -> u32
    ensures { result ≡ must_on w }
{
    w / FIELD % FIELD
}

#[tactic(auto, unfolding(crate::specs::Rules::must_off))]
pub fn must_off(w: u32) -> u32
    ensures { result ≡ must_off w }
{
    w % FIELD
}

// The body of w covers the state i.
#[tactic(auto, using(crate::proofs::Words::covers_masks), unfolding(crate::specs::Masks::within, crate::specs::Masks::apart))]
pub fn covers_state(w: u32, i: u32) -> bool
    ensures { result ≡ covers w i }
{
    let p = must_on(w);
    let m = must_off(w);
    p & i == p && m & i == 0
}

// The body of w contains the body of r.
#[tactic(auto, using(crate::proofs::Words::contains_masks), unfolding(crate::specs::Masks::within))]
pub fn contains_body(w: u32, r: u32) -> bool
    ensures { result ≡ contains w r }
{
    let p = must_on(w);
    let m = must_off(w);
    let q = must_on(r);
    let k = must_off(r);
    q & p == q && k & m == k
}

// The rules w and r have one head, and the body of w contains the body of r.
#[tactic(auto, unfolding(crate::specs::Rules::narrows))]
pub fn narrows_rule(w: u32, r: u32) -> bool
    ensures { result ≡ narrows w r }
{
    head_of(w) == head_of(r) && contains_body(w, r)
}

// The word is one of a rule of a panel with n relays.
#[tactic(auto, using(crate::proofs::Judging::rule_tests))]
pub fn is_rule(n: PanelSize, w: u32) -> bool
    ensures { result ≡ valid_rule n w }
{
    let states = n.states();
    let p = must_on(w);
    let m = must_off(w);
    head_of(w) < n.relays() && p < states && m < states && p & m == 0
}

// That states are below 1,024 and relays below 10 stays a clause of the few functions that ask it: as numbers of C's they come with no type.
#[tactic(auto, unfolding(crate::specs::Transitions::transition_word))]
pub fn transition_word(i: u32, j: u32) -> u32
    requires { (i < 1024) × (j < 1024) }
    ensures { result ≡ transition_word i j }
{
    i * FIELD + j
}

#[tactic(auto, unfolding(crate::specs::Transitions::state))]
pub fn state_of(t: u32) -> u32
    ensures { result ≡ state t }
{
    t / FIELD
}

#[tactic(auto, unfolding(crate::specs::Transitions::next))]
pub fn next_of(t: u32) -> u32
    ensures { result ≡ next t }
{
    t % FIELD
}

// The relays that were read after the transition.
#[tactic(auto, unfolding(crate::specs::Transitions::observed))]
pub fn observed_in(t: u32) -> u32
    ensures { result ≡ observed t }
{
    FIELD - 1
}

// The word is one of a transition of a panel with n relays.
#[tactic(auto, unfolding(crate::specs::Transitions::valid_transition))]
pub fn is_transition(n: PanelSize, t: u32) -> bool
    ensures { result ≡ valid_transition n t }
{
    let states = n.states();
    state_of(t) < states && next_of(t) < states
}

// The relay h was observed after t, and is off.
#[tactic(auto, unfolding(crate::specs::Transitions::rests))]
pub fn does_rest(t: u32, h: u32) -> bool
    ensures { result ≡ rests t h }
{
    is_on(h, observed_in(t)) && !is_on(h, next_of(t))
}

// The transition t says nothing against the rule w.
#[tactic(auto, unfolding(crate::specs::Transitions::spared))]
pub fn is_spared(t: u32, w: u32) -> bool
    ensures { result ≡ spared t w }
{
    !(does_rest(t, head_of(w)) && covers_state(w, state_of(t)))
}

// The relay v is in neither mask of the body of w.
#[tactic(auto, unfolding(crate::specs::Contacts::free))]
pub fn is_free(v: u32, w: u32) -> bool
    ensures { result ≡ free v w }
{
    !is_on(v, must_on(w)) && !is_on(v, must_off(w))
}

// The rule w with one more contact, on the relay v, that disagrees with the state i.
#[tactic(auto, unfolding(crate::specs::Contacts::candidate))]
pub fn candidate_on(w: u32, v: u32, i: u32) -> u32
    requires { (v < 10) × (w < 16777216) }
    ensures { result ≡ candidate w v i }
{
    let bit = power(v);
    let contact = if is_on(v, i) { bit } else { bit * FIELD };
    w + contact
}

// The contact that r, a rule of one head with b, has beyond b, as its bit in the word, where it is the only one; else 0,
// the empty mask, which whoever gathers masks joins in.
#[tactic(auto, using(crate::proofs::Near::near_tests))]
pub fn near_rule(b: u32, r: u32) -> u32
    requires { head r ≡ head b }
    ensures { result ≡ near b r }
{
    let d = r & !b;
    // `is_power_of_two` is the word for it, and a sixth slower: this is the inner loop of take.
    if d & d.wrapping_sub(1) == 0 { d } else { 0 }
}

// The relays below n that are free in the body of w.
#[tactic(auto, using(crate::proofs::Near::free_room))]
pub fn free_relays(n: PanelSize, w: u32) -> u32
    requires { valid_rule n w ≡ true }
    ensures { result ≡ bits_where n (λ v. free v w) }
{
    n.states() - 1 - (must_on(w) | must_off(w))
}

// The relays whose contact that disagrees with the state i is among the bits seen.
pub fn relays_against(seen: u32, i: u32) -> u32
    ensures { result ≡ bits_where 10 (λ v. on (contact_place v i) seen) }
{
    (must_off(seen) & i) | (must_on(seen) & !i)
}
