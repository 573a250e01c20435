// Join: two pieces of a recording, each a book and a sheet, judged and then joined into one of each.
#![tactic(auto)]

ghost use Rattle.std.specs.Prelude.{◌≡◌, true, false, take, IfOk, MatchResult};
ghost use Rattle.answers.specs.Refusals.{refusal_code};
ghost use Rattle.answers.specs.declared.Refusal.TheVariants.{Counts};
ghost use Rattle.joining.specs.Joining.{piece, exceeds, book_in, sheet_in, join_code, Joined};

use answers::{Answer, Refusal};
use panel::PanelSize;

// A piece as it is lent, with how many words of its book and of its sheet are in use.
#[derive(Clone, Copy)]
struct Piece<'a> {
    book: &'a [u32],
    book_count: usize,
    sheet: &'a [u32],
    sheet_count: usize,
}

// The words of a piece that are in use.
#[derive(Clone, Copy)]
struct InUse<'a> {
    book: &'a [u32],
    sheet: &'a [u32],
}

// What joining needs: the size of the panel, and the words in use of both pieces.
#[derive(Clone, Copy)]
struct Ready<'a> {
    n: PanelSize,
    a: InUse<'a>,
    b: InUse<'a>,
}

impl<'a> Piece<'a> {
    // Refused where a count exceeds its slice.
    #[tactic(auto, unfolding(crate::specs::Joining::exceeds))]
    fn in_use(self) -> Result<InUse<'a>, Refusal>
        ensures { let p = piece self.entry.book.now self.entry.book_count self.entry.sheet.now self.entry.sheet_count in
            MatchResult result (λ u. (exceeds p ≡ false) × (u.book.now ≡ book_in p) × (u.sheet.now ≡ sheet_in p)) (λ why. (why ≡ Counts) × (exceeds p ≡ true)) }
    {
        let book = self.book.get(..self.book_count).ok_or(Refusal::Counts)?;
        let sheet = self.sheet.get(..self.sheet_count).ok_or(Refusal::Counts)?;
        Ok(InUse { book, sheet })
    }
}

// The words in use of two pieces that can be joined, with so much room for the book and for the sheet. Nothing is written.
#[tactic(auto, using(crate::proofs::Judging::rising), unfolding(crate::specs::Joining::pieces_code, crate::specs::Joining::join_code, panel::specs::Masks::panel_size))]
fn judge<'a>(
    n: u32,
    a: Piece<'a>,
    b: Piece<'a>,
    book_room: usize,
    sheet_room: usize,
) -> Result<Ready<'a>, Refusal>
    ensures code { refusal_code result ≡ join_code n (piece a.entry.book.now a.entry.book_count a.entry.sheet.now a.entry.sheet_count) (piece b.entry.book.now b.entry.book_count b.entry.sheet.now b.entry.sheet_count) book_room sheet_room }
    ensures size { IfOk result (λ r. r.n ≡ n) }
    ensures books { IfOk result (λ r. (r.a.book.now ≡ take a.entry.book_count a.entry.book.now) × (r.b.book.now ≡ take b.entry.book_count b.entry.book.now)) }
    ensures sheets { IfOk result (λ r. (r.a.sheet.now ≡ take a.entry.sheet_count a.entry.sheet.now) × (r.b.sheet.now ≡ take b.entry.sheet_count b.entry.sheet.now)) }
{
    let n = PanelSize::new(n).ok_or(Refusal::PanelSize)?;
    let a = a.in_use()?;
    let b = b.in_use()?;
    if !book::is_good_book(n, a.book) || !book::is_good_book(n, b.book) {
        return Err(Refusal::Book);
    }
    if !prime::is_good_sheet(n, a.sheet) || !prime::is_good_sheet(n, b.sheet) {
        return Err(Refusal::Sheet);
    }
    if book::do_clash(a.book, b.book) {
        return Err(Refusal::Contradiction);
    }
    if book_room < book::count_union(a.book, b.book) {
        return Err(Refusal::BookRoom);
    }
    if sheet_room < walk::count_join(n, a.sheet, b.sheet) {
        return Err(Refusal::SheetRoom);
    }
    Ok(Ready { n, a, b })
}

// Joins two pieces: the union of the books, and the smallest bodies that both sheets permit. Refused, it changes nothing.
pub fn join(
    n: u32,
    a_book: &[u32],
    a_book_count: usize,
    a_sheet: &[u32],
    a_sheet_count: usize,
    b_book: &[u32],
    b_book_count: usize,
    b_sheet: &[u32],
    b_sheet_count: usize,
    book: &mut [u32],
    sheet: &mut [u32],
) -> Answer
    ensures { Joined n (piece a_book.now a_book_count a_sheet.now a_sheet_count) (piece b_book.now b_book_count b_sheet.now b_sheet_count) book.old sheet.old book.new sheet.new result }
{
    let a = Piece {
        book: a_book,
        book_count: a_book_count,
        sheet: a_sheet,
        sheet_count: a_sheet_count,
    };
    let b = Piece {
        book: b_book,
        book_count: b_book_count,
        sheet: b_sheet,
        sheet_count: b_sheet_count,
    };
    match judge(n, a, b, book.len(), sheet.len()) {
        Ok(ready) => {
            let books = book::write_union(ready.a.book, ready.b.book, book);
            table::clear_from(book, books);
            let sheets = walk::write_join(ready.n, ready.a.sheet, ready.b.sheet, sheet);
            table::clear_from(sheet, sheets);
            answers::done_answer(books, sheets, 0, 0)
        }
        Err(why) => Answer::refused(why, 0, 0, 0),
    }
}
