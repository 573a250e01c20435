// Learn: fresh, then take for each word of a list, then the self-check.
#![tactic(auto)]

ghost use Rattle.std.specs.Prelude.{◌≡◌, true, ◌<◌, length, MatchOption};
ghost use Rattle.table.specs.Lists.{all};
ghost use Rattle.panel.specs.Rules.{valid_rule};
ghost use Rattle.book.specs.Books.{states_up};
ghost use Rattle.answers.specs.Refusals.{refusal_code};
ghost use Rattle.inner.specs.Inner.{answer_done};
ghost use Rattle.calls.specs.Fresh.{fresh_code};
ghost use Rattle.learning.specs.Learn.{word_code, reproduced, Learned};
ghost use Rattle.learning.specs.Running.{answer_for, words_left, Fit, WordLearned, Through, Begun, Finished};

use answers::{Answer, Refusal, Refused};
use inner::Done;
use panel::PanelSize;

// The word t may be taken into the book: it is a transition of the panel, and nothing there stands in its way.
fn check_word(n: PanelSize, t: u32, book: &[u32], room: usize) -> Result<(), Refusal>
    requires { states_up book.now ≡ true }
    ensures { refusal_code result ≡ word_code n t room book.now }
{
    if !panel::is_transition(n, t) {
        return Err(Refusal::Word);
    }
    inner::check_booking(book, panel::state_of(t), panel::next_of(t), room)
}

// The word t, number k of the list, judged and then taken; a repeat is passed over.
fn learn_word(
    n: PanelSize,
    t: u32,
    k: usize,
    before: Done,
    book: &mut [u32],
    sheet: &mut [u32],
) -> Result<Done, Refused>
    requires { Fit n (answer_done before) book.old sheet.old }
    ensures { WordLearned n k t (answer_done before) book.old sheet.old (answer_for result) book.new sheet.new }
{
    let room = book.len();
    if let Err(why) = check_word(n, t, &book[..before.book_count], room) {
        return match why {
            Refusal::Known => Ok(before),
            _ => Err(Refused { why, place: k }),
        };
    }
    match inner::take_in(n, t, book, before.book_count, sheet, before.sheet_count) {
        Ok(now) => Ok(Done {
            struck: before.struck + now.struck,
            added: before.added + now.added,
            ..now
        }),
        Err(why) => Err(Refused { why, place: k }),
    }
}

// The fresh sheet to start from, for which there is room.
fn learn_start(n: PanelSize, sheet: &mut [u32]) -> Done
    requires { fresh_code n (length sheet.old) ≡ 0 }
    ensures { Begun n sheet.old (answer_done result) sheet.new }
{
    sheet::write_fresh(sheet, n);
    Done {
        sheet_count: n.relays() as usize,
        ..Done::default()
    }
}

// Every word of the list in turn, until one is refused.
fn learn_words(
    n: PanelSize,
    words: &[u32],
    start: Done,
    book: &mut [u32],
    sheet: &mut [u32],
) -> Result<Done, Refused>
    requires { Fit n (answer_done start) book.old sheet.old }
    ensures { Through n words.now (answer_done start) book.old sheet.old (answer_for result) book.new sheet.new }
{
    let mut so = start;
    for (k, &t) in words.iter().enumerate() {
        so = learn_word(n, t, k, so, book, sheet)?;
    }
    Ok(so)
}

// The place of the first word of the book that the sheet does not reproduce, if there is one.
fn first_unreproduced(n: PanelSize, book: &[u32], sheet: &[u32]) -> Option<usize>
    requires { all (valid_rule n) sheet.now ≡ true }
    ensures { MatchOption result (reproduced n sheet.now book.now ≡ length book.now) (λ k. (k ≡ reproduced n sheet.now book.now) × (k < length book.now)) }
{
    for (k, &t) in book.iter().enumerate() {
        if prime::apply_rules(n, sheet, panel::state_of(t)) != panel::next_of(t) {
            return Some(k);
        }
    }
    None
}

// The self-check, and the words beyond both tables cleared.
fn learn_end(n: PanelSize, so: Done, book: &mut [u32], sheet: &mut [u32]) -> Result<Done, Refused>
    requires { Fit n (answer_done so) book.old sheet.old }
    ensures { Finished n (answer_done so) book.old sheet.old (answer_for result) (words_left result book.new) (words_left result sheet.new) }
{
    if let Some(place) = first_unreproduced(n, &book[..so.book_count], &sheet[..so.sheet_count]) {
        return Err(Refused {
            why: Refusal::Unreproduced,
            place,
        });
    }
    table::clear_from(book, so.book_count);
    table::clear_from(sheet, so.sheet_count);
    Ok(so)
}

// Learn, with the reason and the place where it is refused; then both slices are still to be cleared.
fn try_learn(n: u32, words: &[u32], book: &mut [u32], sheet: &mut [u32]) -> Result<Done, Refused>
    ensures { Learned n words.now (length book.old) (length sheet.old) (words_left result book.new) (words_left result sheet.new) (answer_for result) }
{
    let n = calls::check_fresh(n, sheet.len())?;
    let start = learn_start(n, sheet);
    let so = learn_words(n, words, start, book, sheet)?;
    learn_end(n, so, book, sheet)
}

// Learns a list of transition words: book and sheet of the list, old contents of both slices ignored.
pub fn learn(n: u32, words: &[u32], book: &mut [u32], sheet: &mut [u32]) -> Answer
    ensures { Learned n words.now (length book.old) (length sheet.old) book.new sheet.new result }
{
    match try_learn(n, words, book, sheet) {
        Ok(done) => Answer::from(done),
        Err(refused) => {
            // A refused learn leaves nothing: 0 in every word of both slices.
            book.fill(0);
            sheet.fill(0);
            // From here on a refusal is its number: `Learned`, which `Contract` of the public calls names, has an answer with a code.
            Answer::refused(refused.why, refused.place, 0, 0)
        }
    }
}
