// Take where the input is known to be good: what stands in the way of a word, and the word taken into book and sheet in place.
#![tactic(auto)]

ghost use Rattle.std.specs.Prelude.{◌≡◌, true, ◌<◌};
ghost use Rattle.book.specs.Books.{states_up};
ghost use Rattle.panel.specs.Transitions.{transition_word};
ghost use Rattle.answers.specs.Refusals.{refusal_code};
ghost use Rattle.inner.specs.Booking.{booking_code};
ghost use Rattle.inner.specs.Inner.{answer_done, answer_of, Ready, Inner};

use answers::{Answer, Refusal, done_answer};
use panel::PanelSize;

// What a take leaves: how many words stand in both tables, and how many rules it struck and added.
#[derive(Clone, Copy, Default, PartialEq, Eq, Debug)]
pub struct Done {
    pub book_count: usize,
    pub sheet_count: usize,
    pub struck: usize,
    pub added: usize,
}

// The answer of a call that did it.
impl From<Done> for Answer {
    ghost from_gives = { λ done r. r ≡ answer_done done };

    fn from(done: Done) -> Answer {
        done_answer(done.book_count, done.sheet_count, done.struck, done.added)
    }
}

// This transition is told already, another of its state is, or the book is full: then it may not come in.
pub fn check_booking(book: &[u32], i: u32, j: u32, room: usize) -> Result<(), Refusal>
    requires { (i < 1024) × (j < 1024) × (states_up book.now ≡ true) }
    ensures { refusal_code result ≡ booking_code (transition_word i j) room book.now }
{
    match book::find_state(book, i) {
        Ok(k) if panel::next_of(book[k]) == j => Err(Refusal::Known),
        Ok(_) => Err(Refusal::Contradiction),
        Err(_) if room <= book.len() => Err(Refusal::BookRoom),
        Err(_) => Ok(()),
    }
}

// Take where nothing is left to refuse but 9: judged before a word is written. The words behind both tables are not cleared.
pub fn take_in(
    n: PanelSize,
    t: u32,
    book: &mut [u32],
    book_count: usize,
    sheet: &mut [u32],
    sheet_count: usize,
) -> Result<Done, Refusal>
    requires { Ready n t book.old book_count sheet.old sheet_count }
    ensures { Inner n t book.old book_count sheet.old sheet_count book.new sheet.new (answer_of book_count sheet_count result) }
{
    let change = sheet::count_changes(&sheet[..sheet_count], n, t);
    if sheet.len() < sheet_count + change.added - change.struck {
        return Err(Refusal::SheetRoom);
    }
    Ok(Done {
        book_count: book::put_word(book, book_count, t),
        sheet_count: sheet::take_rules(sheet, sheet_count, n, t),
        struck: change.struck,
        added: change.added,
    })
}
