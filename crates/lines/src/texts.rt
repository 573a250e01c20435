// The lines of a text, one after another.
ghost use Rattle.std.specs.Prelude.{◌≡◌, ℕ, ◌≤◌, List, drop, length, map};
ghost use Rattle.std.specs.Iterator.{YieldsFirstBy, YieldsFirstRef, item_count};
ghost use Rattle.fields.specs.Texts.{lines_of};
ghost use Rattle.fields.specs.declared.Span.{Span};
ghost use Rattle.lines.specs.Placed.{placed_from};

use fields::Span;
use std::marker::Model;

// The lines of a text in turn, each with where it stands: it ends at LF, which is no part of it, and the last line may lack it.
// A contract reads it as the lines left.
#[derive(Drop)]
pub struct PlacedLines<'a> {
    text: &'a [u8],
    at: usize,
}

impl<'a> Model for PlacedLines<'a> {
    ghost Value = { List (Span × List ℕ) };

    ghost view = { λ s. placed_from s.at (lines_of (drop s.at s.text.now)) };

    ghost invariant = { λ s. s.at ≤ length s.text.now };
}

impl<'a> PlacedLines<'a> {
    pub fn new(text: &'a [u8]) -> PlacedLines<'a>
        ensures { result ≡ placed_from 0 (lines_of text.now) }
    {
        PlacedLines { text, at: 0 }
    }
}

impl<'a> Iterator for PlacedLines<'a> {
    type Item = (Span, &'a [u8]);

    ghost next_gives = { YieldsFirstBy (λ p. (p.0, p.1.now)) (λ lines. lines) };

    ghost remaining = { item_count (λ lines. lines) };

    fn next(&mut self) -> Option<(Span, &'a [u8])> {
        let text = self.text;
        let from = self.at;
        if from == text.len() {
            return None;
        }
        let to = fields::line_end(text, from);
        self.at = fields::past(to, text.len());
        Some((Span { from, to }, &text[from..to]))
    }
}

// The same without their places.
#[derive(Drop)]
pub struct Lines<'a> {
    placed: PlacedLines<'a>,
}

impl<'a> Model for Lines<'a> {
    ghost Value = { List (List ℕ) };

    ghost view = { λ s. map (λ p. p.1) s.placed };
}

impl<'a> Lines<'a> {
    pub fn new(text: &'a [u8]) -> Lines<'a>
        ensures { result ≡ lines_of text.now }
    {
        Lines {
            placed: PlacedLines::new(text),
        }
    }
}

impl<'a> Iterator for Lines<'a> {
    type Item = &'a [u8];

    ghost next_gives = { YieldsFirstRef (λ lines. lines) };

    ghost remaining = { item_count (λ lines. lines) };

    fn next(&mut self) -> Option<&'a [u8]> {
        let (_, line) = self.placed.next()?;
        Some(line)
    }
}
