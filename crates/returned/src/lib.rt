// Reading a sheet that came back: the words of its rules, in order, in a lent slice.
#![tactic(auto)]

ghost use Rattle.std.specs.Prelude.{◌≤◌, length, IfOk};
ghost use Rattle.reading.specs.Reading.{answer_of, list_of};
ghost use Rattle.returned.specs.Returned.{ReadsSheet};

use answers::{Refusal, Refused};
use panel::PanelSize;
use reading::{ReadAnswer, WordsRead};

// Reads a sheet as far as its words in order: refused with 11, 8 or 5, in this order. `reading::finish` makes the answer of it.
fn read_rules(text: &[u8], words: &mut [u32]) -> Result<WordsRead, Refused>
    ensures read { ReadsSheet text.now words.old (list_of result words.new) (answer_of result) }
    ensures fits { IfOk result (λ p. p.count ≤ length words.new) }
{
    let read = reading::read_words(judging::sheet_layout(), text, words)?;
    let rules = &mut words[..read.count];
    sorting::order(rules);
    if !prime::is_good_sheet(PanelSize::of(read.n), rules) {
        return Err(Refused::from(Refusal::Sheet));
    }
    Ok(read)
}

pub fn read_sheet(text: &[u8], words: &mut [u32]) -> ReadAnswer
    ensures { ReadsSheet text.now words.old words.new result }
{
    let read = read_rules(text, words);
    reading::finish(read, words)
}
