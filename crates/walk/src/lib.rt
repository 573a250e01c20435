// Join: the walk over all rules of a panel, head by head, that keeps the smallest that both sheets permit.
#![tactic(auto)]

ghost use Rattle.std.specs.Prelude.{◌≡◌, true, not, ◌&&◌, ◌++◌, ◌*◌, ◌+◌, ◌<◌, ◌≤◌, length, take, drop};
ghost use Rattle.std.specs.Iterator.{YieldsFirst, item_count};
ghost use Rattle.table.specs.Lists.{between};
ghost use Rattle.panel.specs.Rules.{head, rules, of_head};
ghost use Rattle.prime.specs.Sheets.{sheet_where, join_sheet, good_sheet};
ghost use Rattle.spans.specs.Parts.{over, Laid};
ghost use Rattle.spans.specs.Fewer.{without, smaller, fewer};
ghost use Rattle.spans.specs.Steps.{Spot, Next};
ghost use Rattle.spans.specs.Touching.{touches, both_touch};

use panel::PanelSize;

// ---- the rules of a panel, one by one

// The rule w without its contact on the relay v.
#[tactic(auto, using(spans::proofs::Fewer::drop_room_on, spans::proofs::Fewer::drop_room_off, spans::proofs::Fewer::drop_on, spans::proofs::Fewer::drop_off, spans::proofs::Fewer::drop_none))]
fn drop_contact(w: u32, v: u32) -> u32
    requires { v < 10 }
    ensures { result ≡ without w v }
{
    let x = panel::power(v);
    if panel::is_on(v, panel::must_on(w)) {
        return w - x * 1024;
    }
    if panel::is_on(v, panel::must_off(w)) {
        return w - x;
    }
    w
}

// The next place of a walk: the next off-mask, the next on-mask, or the next head.
fn next_word(n: PanelSize, w: u32) -> u32
    requires { Spot n w × (head w < 10) }
    ensures { Next n w result }
{
    let size = n.states();
    let m = panel::must_off(w);
    let p = panel::must_on(w);
    if m + p + 1 < size {
        return w - m + ((m + p + 1) & (size - 1 - p));
    }
    if p + 1 < size {
        return w - m + 1024;
    }
    (panel::head_of(w) + 1) * 1048576
}

// The rules of a panel with n relays from the word `at` on and below `end`, in the order of their words.
#[derive(Drop)]
struct Rules {
    n: PanelSize,
    at: u32,
    end: u32,
    ghost small: { n ≤ 10 },
    ghost stands: { Spot n at },
    ghost inside: { end ≤ n * 1048576 },
}

impl Rules {
    // The rules of the head h.
    #[tactic(auto, unfolding(panel::specs::Rules::of_head))]
    fn of_head(n: PanelSize, h: u32) -> Rules
        requires { h < n }
        ensures { between result.at result.end (rules result.n) ≡ of_head h (rules n) }
    {
        Rules {
            n,
            at: h * 1048576,
            end: (h + 1) * 1048576,
        }
    }
}

impl Iterator for Rules {
    type Item = u32;

    ghost next_gives = { YieldsFirst (λ s. between s.at s.end (rules s.n)) };

    ghost remaining = { item_count (λ s. between s.at s.end (rules s.n)) };

    #[tactic(auto, using(crate::proofs::Keeping::rules_none, crate::proofs::Keeping::rules_more))]
    fn next(&mut self) -> Option<u32> {
        let w = self.at;
        if self.end <= w {
            return None;
        }
        self.at = next_word(self.n, w);
        Some(w)
    }
}

// ---- both sheets permit, inside one head

fn touches_word(s: &[u32], w: u32) -> bool
    ensures { result ≡ touches s.now w }
{
    s.iter().any(|&r| r & w == r)
}

#[tactic(auto, unfolding(spans::specs::Touching::both_touch))]
fn both_touch(a: &[u32], b: &[u32], w: u32) -> bool
    ensures { result ≡ both_touch a.now b.now w }
{
    touches_word(a, w) && touches_word(b, w)
}

// Both touch x, which is another word than w.
#[tactic(auto, unfolding(spans::specs::Fewer::smaller))]
fn is_smaller(a: &[u32], b: &[u32], w: u32, x: u32) -> bool
    ensures { result ≡ smaller (both_touch a.now b.now) w x }
{
    x != w && both_touch(a, b, x)
}

// The walk keeps w: both touch it, and with any one contact fewer they no longer do.
fn is_kept(n: PanelSize, a: &[u32], b: &[u32], w: u32) -> bool
    ensures { result ≡ (both_touch a.now b.now w && not (fewer n (both_touch a.now b.now) w)) }
{
    both_touch(a, b, w) && !(0..n.relays()).any(|v| is_smaller(a, b, w, drop_contact(w, v)))
}

// Counting and writing are apart: the filter that both go over has a closure in its type, and no function can hand that out.

// How many words of the head h are kept. A head that one side lacks has none.
#[tactic(auto, using(spans::proofs::Joining::head_none_left, spans::proofs::Joining::head_none_right))]
fn count_head(n: PanelSize, h: u32, a: &[u32], b: &[u32]) -> usize
    requires { h < n }
    ensures count { result ≡ length (of_head h (sheet_where n (both_touch a.now b.now))) }
    ensures few { result ≤ 1048576 }
{
    if a.is_empty() || b.is_empty() {
        return 0;
    }
    Rules::of_head(n, h)
        .filter(|&w| is_kept(n, a, b, w))
        .count()
}

// Writes the words of the head h that are kept over the front of out, and gives their number.
#[tactic(auto, using(crate::proofs::Keeping::over_none, spans::proofs::Joining::head_none_left, spans::proofs::Joining::head_none_right))]
fn write_head(n: PanelSize, h: u32, a: &[u32], b: &[u32], out: &mut [u32]) -> usize
    requires { (h < n) × (length (of_head h (sheet_where n (both_touch a.now b.now))) ≤ length out.old) }
    ensures count { result ≡ length (of_head h (sheet_where n (both_touch a.now b.now))) }
    ensures written { out.new ≡ over (of_head h (sheet_where n (both_touch a.now b.now))) out.old }
{
    if a.is_empty() || b.is_empty() {
        return 0;
    }
    let mut at = 0; // counted by hand, since the count is the answer too: `enumerate` would not leave it behind the loop
    for w in Rules::of_head(n, h).filter(|&w| is_kept(n, a, b, w)) {
        out[at] = w;
        at += 1;
    }
    at
}

// ---- join: of both sheets only the stretch of the head is looked at

// That a sheet is good stays a clause, and so does that words increase: the slices are lent anew at each call.

// How many rules the join of two good sheets has.
#[tactic(auto, using(spans::proofs::Walking::counted_start, crate::proofs::Keeping::sorted))]
pub fn count_join(n: PanelSize, a: &[u32], b: &[u32]) -> usize
    requires { (good_sheet n a.now ≡ true) × (good_sheet n b.now ≡ true) }
    ensures { result ≡ length (join_sheet n a.now b.now) }
{
    let mut count = 0;
    for h in 0..n.relays() {
        count += count_head(n, h, prime::stretch(a, h), prime::stretch(b, h));
    }
    count
}

// Writes the join of two good sheets over the front of out, and gives the number of its rules.
#[tactic(auto, using(crate::proofs::Keeping::sorted))]
pub fn write_join(n: PanelSize, a: &[u32], b: &[u32], out: &mut [u32]) -> usize
    requires { (good_sheet n a.now ≡ true) × (good_sheet n b.now ≡ true) × (length (join_sheet n a.now b.now) ≤ length out.old) }
    ensures { Laid out.old out.new result (join_sheet n a.now b.now) }
{
    let mut at = 0;
    for h in 0..n.relays() {
        at += write_head(
            n,
            h,
            prime::stretch(a, h),
            prime::stretch(b, h),
            &mut out[at..],
        );
    }
    at
}
