// The program over lent slices: a recording's text in, its sheet or the line of a refusal out.
#![tactic(auto)]

ghost use Rattle.std.specs.Prelude.{◌≡◌, length};
ghost use Rattle.writing.specs.Writing.{Put};
ghost use Rattle.program.specs.Program.{refusal_line, if_room, Runs, Sheets};

use answers::Refusal;
use writing::Page;

// How long the line of a refusal is.
#[tactic(auto, using(crate::proofs::LineLaws::digits_few, crate::proofs::LineLaws::line_length_is))]
fn line_length(code: usize, place: usize) -> usize
    ensures { result ≡ length (refusal_line code place) }
{
    13 + writing::digits(code) + writing::digits(place)
}

// `refused C at P` at the start of `out`, if it fits; returns how long it is.
fn put_refusal(code: u32, place: usize, out: &mut [u8]) -> usize
    ensures { Put out.old 0 (if_room (length out.old) (refusal_line code place)) out.new result }
{
    let number = code as usize;
    if out.len() < line_length(number, place) {
        return 0;
    }
    let mut page = Page::new(out);
    page.bytes(b"refused ");
    page.number(number);
    page.header(b" at ", place);
    page.length()
}

// Learns the words of a text, and writes their sheet, with the text's own names, or the refusal.
fn put_learned(
    n: u32,
    text: &[u8],
    words: &[u32],
    book: &mut [u32],
    sheet: &mut [u32],
    out: &mut [u8],
) -> usize
    ensures { Sheets n text.now words.now book.old sheet.old out.old book.new sheet.new out.new result }
{
    // The answers of the public calls hold their code as a number (`Contract`, public/specs/PublicCalls), and so does the line that is printed.
    let learned = learning::learn(n, words, book, sheet);
    if learned.code != 0 {
        return put_refusal(learned.code, learned.place, out);
    }
    let w = writing::write_sheet(n, sheet, learned.sheet_count, text, b"", out);
    if w.answer.code != 0 {
        return put_refusal(w.answer.code, 0, out);
    }
    w.length
}

// The whole program: what stands in `output` afterwards, up to the length returned, is what it prints.
pub fn run(
    input: &[u8],
    list: &mut [u32],
    book: &mut [u32],
    sheet: &mut [u32],
    output: &mut [u8],
) -> usize
    ensures { Runs input.now list.old book.old sheet.old output.old list.new book.new sheet.new output.new result }
{
    if 24576 < input.len() {
        return put_refusal(Refusal::TooLong.code(), 0, output);
    }
    let read = reading::read(input, list);
    if read.code != 0 {
        return put_refusal(read.code, read.place, output);
    }
    put_learned(read.n, input, &list[..read.count], book, sheet, output)
}
