// The public calls, all of them, each stated by the one `Contract`: what it is called with, what it answers, and what it leaves in every slice or record lent to it.
#![tactic(auto)]

ghost use Rattle.joining.specs.Joining.{piece};
ghost use Rattle.public.specs.PublicCalls.{fresh, take, learn, join, apply, session_start, session_take, session_take_lent, read, read_sheet, find_name, lookup, write_sheet, run, Contract};

use answers::Answer;
use calls::Applied;
use naming::Spot;
use reading::ReadAnswer;
use sessions::{Outcome, Session};
use writing::WriteAnswer;

// Writes the fresh sheet: n rules with empty bodies.
pub fn fresh(n: u32, sheet: &mut [u32]) -> Answer
    ensures { Contract (fresh n sheet.old) (result, sheet.new) }
{
    calls::fresh(n, sheet)
}

// Takes the transition from state i to state j into book and sheet.
pub fn take(
    n: u32,
    i: u32,
    j: u32,
    book: &mut [u32],
    book_count: usize,
    sheet: &mut [u32],
    sheet_count: usize,
) -> Answer
    ensures { Contract (take n book.old book_count sheet.old sheet_count i j) (result, book.new, sheet.new) }
{
    calls::take(n, i, j, book, book_count, sheet, sheet_count)
}

// Learns a list of transition words.
pub fn learn(n: u32, words: &[u32], book: &mut [u32], sheet: &mut [u32]) -> Answer
    ensures { Contract (learn n words.now book.old sheet.old) (result, book.new, sheet.new) }
{
    learning::learn(n, words, book, sheet)
}

// Joins two pieces, each a book and a sheet.
pub fn join(
    n: u32,
    a_book: &[u32],
    a_book_count: usize,
    a_sheet: &[u32],
    a_sheet_count: usize,
    b_book: &[u32],
    b_book_count: usize,
    b_sheet: &[u32],
    b_sheet_count: usize,
    book: &mut [u32],
    sheet: &mut [u32],
) -> Answer
    ensures { Contract (join n (piece a_book.now a_book_count a_sheet.now a_sheet_count) (piece b_book.now b_book_count b_sheet.now b_sheet_count) book.old sheet.old) (result, book.new, sheet.new) }
{
    joining::join(
        n,
        a_book,
        a_book_count,
        a_sheet,
        a_sheet_count,
        b_book,
        b_book_count,
        b_sheet,
        b_sheet_count,
        book,
        sheet,
    )
}

// The state that follows x by the sheet.
pub fn apply(n: u32, sheet: &[u32], sheet_count: usize, x: u32) -> Applied
    ensures { Contract (apply n sheet.now sheet_count x) result }
{
    calls::apply(n, sheet, sheet_count, x)
}

// Starts a session on a fresh sheet.
pub fn session_start(n: u32, sheet: &mut [u32]) -> Outcome
    ensures { Contract (session_start n sheet.old) (result, sheet.new) }
{
    Session::start(n, sheet)
}

// Takes one transition through a session by value.
pub fn session_take(
    session: Session,
    book: &mut [u32],
    sheet: &mut [u32],
    i: u32,
    j: u32,
) -> Outcome
    ensures { Contract (session_take session book.old sheet.old i j) (result, book.new, sheet.new) }
{
    session.take(book, sheet, i, j)
}

// The same through a record that is lent. Whoever has a record to lend calls `lent::take_lent`, which ensures this same contract (`lent_stated`).
pub fn session_take_lent(
    session: Session,
    book: &mut [u32],
    sheet: &mut [u32],
    i: u32,
    j: u32,
) -> Outcome
    ensures { Contract (session_take_lent session book.old sheet.old i j) (result.answer, result.session, book.new, sheet.new) }
{
    lent::lend_to_take(session, book, sheet, i, j)
}

// Reads a recording's text into transition words.
pub fn read(text: &[u8], list: &mut [u32]) -> ReadAnswer
    ensures { Contract (read text.now list.old) (result, list.new) }
{
    reading::read(text, list)
}

// Reads a sheet's text into rule words, in increasing order.
pub fn read_sheet(text: &[u8], words: &mut [u32]) -> ReadAnswer
    ensures { Contract (read_sheet text.now words.old) (result, words.new) }
{
    returned::read_sheet(text, words)
}

// Where the name of a column stands: in the panel's text, or else in the maker's.
pub fn find_name(panel: &[u8], maker: &[u8], column: usize) -> Spot
    ensures { Contract (find_name panel.now maker.now column) result }
{
    naming::find(panel, maker, column)
}

// The name of a column: a part of the panel's text, or else of the maker's.
pub fn lookup<'a>(panel: &'a [u8], maker: &'a [u8], column: usize) -> &'a [u8]
    ensures { Contract (lookup panel.entry maker.entry column) (result.now, result.ref_ptr.0, result.ref_ptr.1) }
{
    naming::lookup(panel, maker, column)
}

// Writes a sheet as text, with the names of its columns if each has one.
pub fn write_sheet<'a>(
    n: u32,
    sheet: &[u32],
    count: usize,
    panel: &'a [u8],
    maker: &'a [u8],
    out: &mut [u8],
) -> WriteAnswer
    ensures { Contract (write_sheet n sheet.now count panel.now maker.now out.old) (result, out.new) }
{
    writing::write_sheet(n, sheet, count, panel, maker, out)
}

// The whole program on slices: the length of what stands in `output`.
pub fn run(
    input: &[u8],
    list: &mut [u32],
    book: &mut [u32],
    sheet: &mut [u32],
    output: &mut [u8],
) -> usize
    ensures { Contract (run input.now list.old book.old sheet.old output.old) (result, list.new, book.new, sheet.new, output.new) }
{
    program::run(input, list, book, sheet, output)
}
