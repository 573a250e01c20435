// The public calls fresh, take and apply: each checks its own input, and answers for every input.
#![tactic(auto)]

ghost use Rattle.std.specs.Prelude.{◌≡◌, false, IfOk};
ghost use Rattle.answers.specs.Refusals.{refusal_code};
ghost use Rattle.inner.specs.Inner.{answer_of};
ghost use Rattle.calls.specs.Fresh.{fresh_code, Fresh};
ghost use Rattle.calls.specs.Take.{given_code, entry_code, Taken};
ghost use Rattle.calls.specs.Apply.{apply_code, apply_answer};

use answers::{Answer, Refusal, done_answer};
use inner::Done;
use panel::PanelSize;

// What apply gives: the common numbers, and the state.
#[derive(Clone, Copy, PartialEq, Eq, Debug)]
pub struct Applied {
    pub answer: Answer,
    pub state: u32,
}

// A panel has one to ten relays, and there is room for the n rules of its fresh sheet.
#[tactic(auto, using(std::proofs::lemmas::Bool::Decides::nat_tests), unfolding(crate::specs::Fresh::fresh_code))]
pub fn check_fresh(n: u32, room: usize) -> Result<PanelSize, Refusal>
    ensures code { refusal_code result ≡ fresh_code n room }
    ensures size { IfOk result (λ s. s ≡ n) }
{
    let n = PanelSize::new(n).ok_or(Refusal::PanelSize)?;
    if room < n.relays() as usize {
        return Err(Refusal::SheetRoom);
    }
    Ok(n)
}

// In the answers of the public calls a refusal is its number: `Fresh`, `Taken` and `apply_answer`, which their `Contract` names, have an answer with a code.

// Writes the fresh sheet: n rules with empty bodies.
pub fn fresh(n: u32, sheet: &mut [u32]) -> Answer
    ensures { Fresh n sheet.old sheet.new result }
{
    match check_fresh(n, sheet.len()) {
        Ok(n) => {
            sheet::write_fresh(sheet, n);
            let count = n.relays() as usize;
            table::clear_from(sheet, count);
            done_answer(0, count, 0, 0)
        }
        Err(why) => Answer::refused(why, 0, 0, 0),
    }
}

// The size, the counts, the book, the sheet and the transition are sound: refused with 2 to 6.
// Slices and counts come apart, as `take` and `take_unless` have them: C lends them so, and `Contract` of the public calls names each.
#[tactic(auto, using(std::proofs::lemmas::Bool::Decides::nat_tests), unfolding(crate::specs::Take::given_code, panel::specs::Masks::panel_size))]
fn check_given(
    spoilt: bool,
    n: u32,
    book: &[u32],
    book_count: usize,
    sheet: &[u32],
    sheet_count: usize,
    i: u32,
    j: u32,
) -> Result<PanelSize, Refusal>
    ensures code { refusal_code result ≡ given_code spoilt n book.now book_count sheet.now sheet_count i j }
    ensures size { IfOk result (λ s. s ≡ n) }
{
    let n = PanelSize::new(n).ok_or(Refusal::PanelSize)?;
    if spoilt || book.len() < book_count || sheet.len() < sheet_count {
        return Err(Refusal::Counts);
    }
    if !book::is_good_book(n, &book[..book_count]) {
        return Err(Refusal::Book);
    }
    if !prime::is_good_sheet(n, &sheet[..sheet_count]) {
        return Err(Refusal::Sheet);
    }
    let states = n.states();
    if states <= i || states <= j {
        return Err(Refusal::Word);
    }
    Ok(n)
}

// All that can be refused before the new sheet is known.
fn check_entry(
    spoilt: bool,
    n: u32,
    book: &[u32],
    book_count: usize,
    sheet: &[u32],
    sheet_count: usize,
    i: u32,
    j: u32,
) -> Result<PanelSize, Refusal>
    ensures code { refusal_code result ≡ entry_code spoilt n book.now book_count sheet.now sheet_count i j }
    ensures size { IfOk result (λ s. s ≡ n) }
{
    let n = check_given(spoilt, n, book, book_count, sheet, sheet_count, i, j)?;
    inner::check_booking(&book[..book_count], i, j, book.len())?;
    Ok(n)
}

// Take, with the reason where it is refused; then both slices stay as they are.
fn try_take(
    spoilt: bool,
    n: u32,
    i: u32,
    j: u32,
    book: &mut [u32],
    book_count: usize,
    sheet: &mut [u32],
    sheet_count: usize,
) -> Result<Done, Refusal>
    ensures { Taken spoilt n book.old book_count sheet.old sheet_count i j book.new sheet.new (answer_of book_count sheet_count result) }
{
    let n = check_entry(spoilt, n, book, book_count, sheet, sheet_count, i, j)?;
    let t = panel::transition_word(i, j);
    let done = inner::take_in(n, t, book, book_count, sheet, sheet_count)?;
    table::clear_from(book, done.book_count);
    table::clear_from(sheet, done.sheet_count);
    Ok(done)
}

// Take, refused with 3 also where `spoilt` says so.
pub fn take_unless(
    spoilt: bool,
    n: u32,
    i: u32,
    j: u32,
    book: &mut [u32],
    book_count: usize,
    sheet: &mut [u32],
    sheet_count: usize,
) -> Answer
    ensures { Taken spoilt n book.old book_count sheet.old sheet_count i j book.new sheet.new result }
{
    match try_take(spoilt, n, i, j, book, book_count, sheet, sheet_count) {
        Ok(done) => Answer::from(done),
        Err(why) => Answer::refused(why, 0, book_count, sheet_count),
    }
}

// Takes one transition into book and sheet.
pub fn take(
    n: u32,
    i: u32,
    j: u32,
    book: &mut [u32],
    book_count: usize,
    sheet: &mut [u32],
    sheet_count: usize,
) -> Answer
    ensures { Taken false n book.old book_count sheet.old sheet_count i j book.new sheet.new result }
{
    take_unless(false, n, i, j, book, book_count, sheet, sheet_count)
}

// The size, the count, the sheet and the state are sound: refused with 2, 3, 5 or 6.
#[tactic(auto, using(std::proofs::lemmas::Bool::Decides::nat_tests), unfolding(crate::specs::Apply::apply_code, panel::specs::Masks::panel_size))]
fn check_apply(n: u32, sheet: &[u32], sheet_count: usize, x: u32) -> Result<PanelSize, Refusal>
    ensures code { refusal_code result ≡ apply_code n sheet.now sheet_count x }
    ensures size { IfOk result (λ s. s ≡ n) }
{
    let n = PanelSize::new(n).ok_or(Refusal::PanelSize)?;
    if sheet.len() < sheet_count {
        return Err(Refusal::Counts);
    }
    if !prime::is_good_sheet(n, &sheet[..sheet_count]) {
        return Err(Refusal::Sheet);
    }
    if n.states() <= x {
        return Err(Refusal::Word);
    }
    Ok(n)
}

// Applies the sheet to a state: a relay is on in the answer exactly if some rule of it covers the state.
pub fn apply(n: u32, sheet: &[u32], sheet_count: usize, x: u32) -> Applied
    ensures { result ≡ apply_answer n sheet.now sheet_count x }
{
    match check_apply(n, sheet, sheet_count, x) {
        Ok(n) => Applied {
            answer: done_answer(0, 0, 0, 0),
            state: prime::apply_rules(n, &sheet[..sheet_count], x),
        },
        Err(why) => Applied {
            answer: Answer::refused(why, 0, 0, 0),
            state: 0,
        },
    }
}
