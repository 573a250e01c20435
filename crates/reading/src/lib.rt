// Reading a text: the words of its rows, in a lent list.
#![tactic(auto)]

ghost use Rattle.std.specs.Prelude.{◌≡◌, [], ◌∷◌, ◌≤◌, length, IfOk};
ghost use Rattle.answers.specs.Refusals.{code_of};
ghost use Rattle.lines.specs.Bounds.{RowOk, LineOk};
ghost use Rattle.lines.specs.declared.Kind.TheVariants.{Recording};
ghost use Rattle.reading.specs.Rows.{matches_of, rule_of, row_words, line_words, words_in};
ghost use Rattle.reading.specs.Reading.{Puts, Adds, refusal, answer_of, list_of, ReadsLaid, Reads};

use answers::{Refusal, Refused};
use headers::Layout;
use lines::{Kind, Line, Lines, Masks, View};

// The code is a number, 0 where nothing was refused: so `Contract (read ..)` (public/specs/PublicCalls), the theorems of promises and C have it.
#[derive(Clone, Copy, PartialEq, Eq, Debug)]
pub struct ReadAnswer {
    pub code: u32,
    pub place: usize,
    pub n: u32,
    pub count: usize,
}

// The words that were read: the panel's size, and how many they are.
#[derive(Clone, Copy, PartialEq, Eq, Debug)]
pub struct WordsRead {
    pub n: u32,
    pub count: usize,
}

// `RowOk m` stays a clause: the definition `row_of` makes masks of any two cubes, so that not all `Masks` are such.

// A state matches the input part of a row.
fn matches(m: Masks, state: u32) -> bool
    requires { RowOk m }
    ensures { result ≡ matches_of m state }
{
    m.on & state == m.on && m.off & state == 0
}

// The word of a row's rule.
fn rule_of(m: Masks) -> u32
    requires { RowOk m }
    ensures { result ≡ rule_of m }
{
    panel::rule_word(judging::only_on(m.next), m.on, m.off)
}

// The words that stand in a lent list so far, from its start on.
// That the count is within the list is a clause and no ghost field: one in this file imports `Adds`, which names the struct.
#[derive(Drop)]
struct Words<'a> {
    list: &'a mut [u32],
    count: usize,
}

impl<'a> Words<'a> {
    // One word more, or `None` if the list is full.
    fn push(&mut self, word: u32) -> Option<()>
        ensures { Adds self.old (word ∷ []) self.new result }
    {
        if self.list.len() <= self.count {
            return None;
        }
        self.list[self.count] = word;
        self.count += 1;
        Some(())
    }

    // The words of a row's transitions, in increasing number of state.
    fn expand(&mut self, m: Masks) -> Option<()>
        requires { (self.old.count ≤ length self.old.list.now) × RowOk m }
        ensures { Adds self.old (row_words Recording m) self.new result }
    {
        // A matching state has every bit of the on-mask and none of the off-mask, so it lies from the one to below the end.
        let end = panel::power(m.width) - m.off;
        for state in m.on..end {
            if matches(m, state) {
                self.push(panel::transition_word(state, m.next))?;
            }
        }
        Some(())
    }

    // The words of a line: those of a row, by the kind of its text, or none.
    fn line(&mut self, kind: Kind, l: Line) -> Option<()>
        requires { (self.old.count ≤ length self.old.list.now) × LineOk l }
        ensures { Adds self.old (line_words kind l) self.new result }
    {
        match (lines::view_of(l), kind) {
            (View::Cells(m), Kind::Recording) => self.expand(m),
            (View::Cells(m), Kind::Sheet) => self.push(rule_of(m)),
            (View::EndMark | View::Aside, _) => Some(()),
        }
    }
}

// How many words the rows of a text have, put from the start of the list on.
fn fill(kind: Kind, text: &[u8], list: &mut [u32]) -> Option<usize>
    ensures { Puts (words_in kind text.now) list.old 0 list.new result }
{
    let mut words = Words { list, count: 0 };
    for line in Lines::new(text) {
        words.line(kind, lines::scan_line(line))?;
    }
    Some(words.count)
}

// Reads a text of a layout as far as its words: the panel's size and how many they are, or why it is refused and where. `finish` makes the answer of it.
pub fn read_words(lay: Layout, text: &[u8], list: &mut [u32]) -> Result<WordsRead, Refused>
    ensures read { ReadsLaid lay text.now list.old (list_of result list.new) (answer_of result) }
    ensures fits { IfOk result (λ p. p.count ≤ length list.new) }
{
    let n = judging::judge(lay, text).map_err(|place| Refused {
        why: Refusal::Faulty,
        place,
    })?;
    let count = fill(lay.kind, text, list).ok_or(Refusal::BookRoom)?;
    Ok(WordsRead { n, count })
}

// The answer to what was read, with zeros behind the words; all zeros if it is refused.
pub fn finish(read: Result<WordsRead, Refused>, list: &mut [u32]) -> ReadAnswer
    requires { IfOk read (λ p. p.count ≤ length list.old) }
    ensures answer { result ≡ answer_of read }
    ensures list { list.new ≡ list_of read list.old }
{
    match read {
        Ok(WordsRead { n, count }) => {
            table::clear_from(list, count);
            ReadAnswer {
                code: 0,
                place: 0,
                n,
                count,
            }
        }
        Err(Refused { why, place }) => {
            table::clear(list);
            refused(why.code(), place)
        }
    }
}

pub fn refused(code: u32, place: usize) -> ReadAnswer
    ensures { result ≡ refusal code place }
{
    ReadAnswer {
        code,
        place,
        n: 0,
        count: 0,
    }
}

// Reads a text of a layout.
pub fn read_laid(lay: Layout, text: &[u8], list: &mut [u32]) -> ReadAnswer
    ensures { ReadsLaid lay text.now list.old list.new result }
{
    let read = read_words(lay, text, list);
    finish(read, list)
}

// Reads a recording.
pub fn read(text: &[u8], list: &mut [u32]) -> ReadAnswer
    ensures { Reads text.now list.old list.new result }
{
    read_laid(judging::recording_layout(), text, list)
}
