// The number of relays of a panel as a type, so that no clause has to say that it is at most 10.

ghost use Rattle.std.specs.Prelude.{◌≡◌, ℕ, cond, ◌^◌, ◌≤◌, Some, None};
ghost use Rattle.panel.specs.Masks.{panel_size};

use crate::{is_panel_size, power};
use std::marker::Model;

// A number of relays, at most 10. Clauses see the number.
#[derive(Clone, Copy, PartialEq, Eq, Debug)]
pub struct PanelSize {
    relays: u32,
}

impl Model for PanelSize {
    ghost Value = { ℕ };

    ghost view = { λ s. s.relays };

    ghost invariant = { λ s. s.relays ≤ 10 };

    ghost inverse = { λ n. record { relays = n } };
}

impl PanelSize {
    // The size of a panel of n relays, if there is such a panel.
    #[tactic(auto, unfolding(crate::specs::Masks::panel_size))]
    pub fn new(n: u32) -> Option<PanelSize>
        ensures { result ≡ cond (panel_size n) (Some n) None }
    {
        if is_panel_size(n) {
            Some(PanelSize { relays: n })
        } else {
            None
        }
    }

    // A number that is known to be at most 10.
    pub fn of(n: u32) -> PanelSize
        requires { n ≤ 10 }
        ensures { result ≡ n }
    {
        PanelSize { relays: n }
    }

    pub fn relays(self) -> u32
        ensures { (result ≡ self) × (result ≤ 10) }
    {
        self.relays
    }

    // 2 to the number of relays.
    pub fn states(self) -> u32
        ensures { (result ≡ 2 ^ self) × (result ≤ 1024) }
    {
        power(self.relays)
    }
}
