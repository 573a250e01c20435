// The calls under C's names: each makes the public call, stores the numbers of its answer, and returns the code.
#![tactic(auto)]

ghost use Rattle.std.specs.Prelude.{◌≡◌, ◌∷◌, [], cond, get_or};
ghost use Rattle.joining.specs.Joining.{piece};
ghost use Rattle.public.specs.PublicCalls.{fresh, take, learn, join, apply, session_start, session_take_lent, read, read_sheet, find_name, write_sheet, run};
ghost use Rattle.exports.specs.Numbers.{numbers, numbers_with, read_numbers, spot_numbers, session_numbers, session_in, Hands};
ghost use Rattle.exports.specs.Sizes.{narrowed, sized};

use answers::Answer;
use naming::Spot;
use reading::ReadAnswer;
use sessions::Session;

fn narrow(x: usize) -> u32
    ensures { result ≡ narrowed x }
{
    u32::try_from(x).unwrap_or(u32::MAX)
}

// C lends an array for each kind of answer, so each kind has its `put`.

// The six numbers of an answer.
fn put_answer(a: Answer, out: &mut [usize; 6]) -> u32
    ensures { (out.new ≡ numbers a) × (result ≡ a.code) }
{
    *out = [
        a.code as usize,
        a.place,
        a.book_count,
        a.sheet_count,
        a.struck,
        a.added,
    ];
    a.code
}

// The six numbers of an answer, and one more.
fn put_with(a: Answer, more: usize, out: &mut [usize; 7]) -> u32
    ensures { (out.new ≡ numbers_with a (more ∷ [])) × (result ≡ a.code) }
{
    *out = [
        a.code as usize,
        a.place,
        a.book_count,
        a.sheet_count,
        a.struck,
        a.added,
        more,
    ];
    a.code
}

// The four numbers of reading.
fn put_read(a: ReadAnswer, out: &mut [usize; 4]) -> u32
    ensures { (out.new ≡ read_numbers a) × (result ≡ a.code) }
{
    *out = [a.code as usize, a.place, a.n as usize, a.count];
    a.code
}

// The three numbers of a name.
fn put_spot(s: Spot, out: &mut [usize; 3]) -> usize
    ensures { (out.new ≡ spot_numbers s) × (result ≡ s.length) }
{
    // 0 for the panel's text, 1 for the maker's.
    *out = [usize::from(s.maker), s.start, s.length];
    s.length
}

// The five numbers of a session, the first as given.
fn put_session(first: usize, s: Session, out: &mut [usize; 5])
    ensures { out.new ≡ session_numbers (sized first s) }
{
    *out = [first, s.book_count, s.sheet_count, s.struck, s.added];
}

// The session that stands in five numbers.
fn session_in(x: &[usize; 5]) -> Session
    ensures { result ≡ sized (narrowed (get_or x.now 0 0)) (session_in x.now) }
{
    Session {
        n: narrow(x[0]),
        book_count: x[1],
        sheet_count: x[2],
        struck: x[3],
        added: x[4],
    }
}

#[unsafe(no_mangle)]
pub extern "C" fn ntekuzino_fresh(n: u32, sheet: &mut [u32], answer: &mut [usize; 6]) -> u32
    ensures { Hands (fresh n sheet.old) (sheet.new ∷ []) answer.new result }
{
    let a = public::fresh(n, sheet);
    put_answer(a, answer)
}

#[unsafe(no_mangle)]
pub extern "C" fn ntekuzino_take(
    n: u32,
    i: u32,
    j: u32,
    book: &mut [u32],
    book_count: usize,
    sheet: &mut [u32],
    sheet_count: usize,
    answer: &mut [usize; 6],
) -> u32
    ensures { Hands (take n book.old book_count sheet.old sheet_count i j) (book.new ∷ sheet.new ∷ []) answer.new result }
{
    let a = public::take(n, i, j, book, book_count, sheet, sheet_count);
    put_answer(a, answer)
}

#[unsafe(no_mangle)]
pub extern "C" fn ntekuzino_learn(
    n: u32,
    words: &[u32],
    book: &mut [u32],
    sheet: &mut [u32],
    answer: &mut [usize; 6],
) -> u32
    ensures { Hands (learn n words.now book.old sheet.old) (book.new ∷ sheet.new ∷ []) answer.new result }
{
    let a = public::learn(n, words, book, sheet);
    put_answer(a, answer)
}

#[unsafe(no_mangle)]
pub extern "C" fn ntekuzino_join(
    n: u32,
    a_book: &[u32],
    a_book_count: usize,
    a_sheet: &[u32],
    a_sheet_count: usize,
    b_book: &[u32],
    b_book_count: usize,
    b_sheet: &[u32],
    b_sheet_count: usize,
    book: &mut [u32],
    sheet: &mut [u32],
    answer: &mut [usize; 6],
) -> u32
    ensures { Hands (join n (piece a_book.now a_book_count a_sheet.now a_sheet_count) (piece b_book.now b_book_count b_sheet.now b_sheet_count) book.old sheet.old) (book.new ∷ sheet.new ∷ []) answer.new result }
{
    let a = public::join(
        n,
        a_book,
        a_book_count,
        a_sheet,
        a_sheet_count,
        b_book,
        b_book_count,
        b_sheet,
        b_sheet_count,
        book,
        sheet,
    );
    put_answer(a, answer)
}

#[unsafe(no_mangle)]
pub extern "C" fn ntekuzino_apply(
    n: u32,
    sheet: &[u32],
    sheet_count: usize,
    x: u32,
    answer: &mut [usize; 7],
) -> u32
    ensures { Hands (apply n sheet.now sheet_count x) [] answer.new result }
{
    let a = public::apply(n, sheet, sheet_count, x);
    put_with(a.answer, a.state as usize, answer)
}

#[unsafe(no_mangle)]
pub extern "C" fn ntekuzino_session_start(
    n: u32,
    sheet: &mut [u32],
    session: &mut [usize; 5],
    answer: &mut [usize; 6],
) -> u32
    ensures { Hands (session_start n sheet.old) (sheet.new ∷ session.new ∷ []) answer.new result }
{
    let o = public::session_start(n, sheet);
    let s = o.session;
    put_session(s.n as usize, s, session);
    put_answer(o.answer, answer)
}

// The first number of the session stays: one that fits is not changed by take, and with any other take is refused.
#[unsafe(no_mangle)]
pub extern "C" fn ntekuzino_session_take(
    session: &mut [usize; 5],
    book: &mut [u32],
    sheet: &mut [u32],
    i: u32,
    j: u32,
    answer: &mut [usize; 6],
) -> u32
    ensures { Hands (session_take_lent (session_in session.old) book.old sheet.old i j) (session.new ∷ book.new ∷ sheet.new ∷ []) answer.new result }
{
    let first = session[0];
    let s = session_in(session);
    let o = public::session_take_lent(s, book, sheet, i, j);
    put_session(first, o.session, session);
    put_answer(o.answer, answer)
}

#[unsafe(no_mangle)]
pub extern "C" fn ntekuzino_read(text: &[u8], list: &mut [u32], answer: &mut [usize; 4]) -> u32
    ensures { Hands (read text.now list.old) (list.new ∷ []) answer.new result }
{
    let a = public::read(text, list);
    put_read(a, answer)
}

#[unsafe(no_mangle)]
pub extern "C" fn ntekuzino_read_sheet(
    text: &[u8],
    words: &mut [u32],
    answer: &mut [usize; 4],
) -> u32
    ensures { Hands (read_sheet text.now words.old) (words.new ∷ []) answer.new result }
{
    let a = public::read_sheet(text, words);
    put_read(a, answer)
}

#[unsafe(no_mangle)]
pub extern "C" fn ntekuzino_write_sheet<'a>(
    n: u32,
    sheet: &[u32],
    sheet_count: usize,
    panel: &'a [u8],
    maker: &'a [u8],
    out: &mut [u8],
    answer: &mut [usize; 7],
) -> u32
    ensures { Hands (write_sheet n sheet.now sheet_count panel.now maker.now out.old) (out.new ∷ []) answer.new result }
{
    let a = public::write_sheet(n, sheet, sheet_count, panel, maker, out);
    put_with(a.answer, a.length, answer)
}

// Where the name of a column stands: the number of the text, the first byte there, and how many; 0, 0, 0 where there is none.
#[unsafe(no_mangle)]
pub extern "C" fn ntekuzino_lookup(
    panel: &[u8],
    maker: &[u8],
    column: usize,
    name: &mut [usize; 3],
) -> usize
    ensures { Hands (find_name panel.now maker.now column) [] name.new result }
{
    let s = public::find_name(panel, maker, column);
    put_spot(s, name)
}

// The whole program: the length of what stands in `output`.
#[unsafe(no_mangle)]
pub extern "C" fn ntekuzino_run(
    input: &[u8],
    list: &mut [u32],
    book: &mut [u32],
    sheet: &mut [u32],
    output: &mut [u8],
) -> usize
    ensures { Hands (run input.now list.old book.old sheet.old output.old) (list.new ∷ book.new ∷ sheet.new ∷ output.new ∷ []) [] result }
{
    public::run(input, list, book, sheet, output)
}
