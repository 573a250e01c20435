// The bench session as one record that the caller lends: a thin take around the one by value.
#![tactic(auto)]

ghost use Rattle.lent.specs.Lent.{TakesLent};

use answers::Answer;
use sessions::{Outcome, Session};

// Takes one transition through the lent session, and writes its five numbers back.
pub fn take_lent(
    session: &mut Session,
    book: &mut [u32],
    sheet: &mut [u32],
    i: u32,
    j: u32,
) -> Answer
    ensures { TakesLent session.old book.old sheet.old i j session.new book.new sheet.new result }
{
    let outcome = session.take(book, sheet, i, j);
    *session = outcome.session;
    outcome.answer
}

// The same for a caller that has a session by value: a record of its own is lent, and what is left in it is returned.
pub fn lend_to_take(
    session: Session,
    book: &mut [u32],
    sheet: &mut [u32],
    i: u32,
    j: u32,
) -> Outcome
    ensures { TakesLent session book.old sheet.old i j result.session book.new sheet.new result.answer }
{
    let mut session = session;
    let answer = take_lent(&mut session, book, sheet, i, j);
    Outcome { answer, session }
}
