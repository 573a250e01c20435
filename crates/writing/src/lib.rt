// Writing a table of words as text, and a sheet as such a table: the codes in order, then the bytes.
#![tactic(auto)]

ghost use Rattle.std.specs.Prelude.{◌≡◌, ℕ, List, ◌∷◌, [], ◌+◌, ◌*◌, ◌^◌, ◌≤◌, ◌<◌, leb, length, take, IfOk};
ghost use Rattle.fields.specs.Decimals.{decimal};
ghost use Rattle.fields.specs.Fields.{fields_in};
ghost use Rattle.names.specs.Names.{spaced};
ghost use Rattle.writing.specs.TableText.{body_byte, head_byte, column_byte, columns, row_text, rows_text, header_text, name_text, name_lines, type_text, count_text, table_text};
ghost use Rattle.answers.specs.Refusals.{refusal_code};
ghost use Rattle.writing.specs.Writing.{Room, Wrote, count_length, names_left, names_length, text_length, write_code, write_answer, WritesNamed, Writes};

use answers::{Answer, Refusal};
use fields::Fields;
use panel::PanelSize;
use std::iter::Take;
use std::marker::Model;

// The common numbers, and the length of the text.
#[derive(Clone, Copy, PartialEq, Eq, Debug)]
pub struct WriteAnswer {
    pub answer: Answer,
    pub length: usize,
}

// What a column says of a word: of a rule its body or its head.
// No closures stand in its place: `table_text`, which theorems of roundtrip and promises cite, takes a `Table` of two columns.
#[derive(Clone, Copy, PartialEq, Eq, Debug)]
pub enum Column {
    Body,
    Head,
}

// How a table of words is written: whether `.p` stands there, and what the input and the output columns say of a word.
#[derive(Clone, Copy, PartialEq, Eq, Debug)]
pub struct Table {
    pub counted: bool,
    pub ins: Column,
    pub outs: Column,
}

// The first `count` fields of a line, as the names of the columns. No `Copy`: a model with a lifetime has none, so functions take it by `&`.
#[derive(Drop)]
struct Names<'a> {
    line: &'a [u8],
    count: u32,
}

impl<'a> Model for Names<'a> {
    ghost Value = { List (List ℕ) };

    ghost view = { λ s. take s.count (fields_in s.line.now) };
}

impl<'a> Names<'a> {
    // Written with a space before each, they still fit a `usize`: each has a byte of the line.
    fn each(&self) -> Take<Fields<'a>>
        ensures items { names_left result ≡ self.now }
        ensures few { length (spaced self.now) < 2 ^ 64 }
    {
        Fields::new(self.line).take(self.count as usize)
    }

    // How many bytes they are, each after one space.
    fn spaced_length(&self) -> usize
        ensures { result ≡ length (spaced self.now) }
    {
        let mut sum = 0;
        for name in self.each() {
            sum += 1 + name.len();
        }
        sum
    }
}

// Lent bytes, and how many of them are written.
#[derive(Drop)]
pub struct Page<'a> {
    out: &'a mut [u8],
    at: usize,
}

impl<'a> Page<'a> {
    // Nothing is written yet.
    pub fn new(out: &'a mut [u8]) -> Page<'a>
        ensures same_reference { result.out.ghost_name ≡ out.entry.ghost_name }
        ensures empty { (result.out.now ≡ out.old) × (result.at ≡ 0) }
    {
        Page { out, at: 0 }
    }

    // How many bytes are written.
    pub fn length(&self) -> usize
        ensures { result ≡ self.now.at }
    {
        self.at
    }

    fn byte(&mut self, b: u8)
        requires { Room self.old (b ∷ []) }
        ensures { Wrote self.old (b ∷ []) self.new }
    {
        self.out[self.at] = b;
        self.at += 1;
    }

    pub fn bytes(&mut self, s: &[u8])
        requires { Room self.old s.now }
        ensures { Wrote self.old s.now self.new }
    {
        // Not by `copy_from_slice`: an archive for C would then need `memmove` from outside. The place is a local up to the end: with a call of
        // `byte` for each, the text of a small sheet took an eighth more instructions.
        let mut at = self.at;
        for &b in s {
            self.out[at] = b;
            at += 1;
        }
        self.at = at;
    }

    // A number in decimal. By recursion, as `decimal` of fields/specs/Decimals is defined: the kit's `{}` is over std's own `decimal`, and four lines are plainer than a lemma that joins the two.
    pub fn number(&mut self, v: usize)
        requires { Room self.old (decimal v) }
        ensures { Wrote self.old (decimal v) self.new }
    {
        if 10 <= v {
            self.number(v / 10);
        }
        self.byte(b'0' + (v % 10) as u8);
    }

    // A keyword with a number.
    #[tactic(auto, using(crate::proofs::TextLaws::header_length, crate::proofs::TextLaws::wrote_header))]
    pub fn header(&mut self, key: &[u8], v: usize)
        requires { Room self.old (header_text key.now v) }
        ensures { Wrote self.old (header_text key.now v) self.new }
    {
        self.bytes(key);
        self.number(v);
        self.byte(b'\n');
    }

    // Each name after one space.
    fn spaced(&mut self, names: &Names)
        requires { Room self.old (spaced names.now) }
        ensures { Wrote self.old (spaced names.now) self.new }
    {
        for name in names.each() {
            self.byte(b' ');
            self.bytes(name);
        }
    }

    // A name line: its keyword and the names.
    #[tactic(auto, using(crate::proofs::NameLines::name_length, crate::proofs::NameLines::wrote_names))]
    fn names(&mut self, key: &[u8], names: &Names)
        requires { Room self.old (name_text key.now names.now) }
        ensures { Wrote self.old (name_text key.now names.now) self.new }
    {
        self.bytes(key);
        self.spaced(names);
        self.byte(b'\n');
    }

    // Both name lines, or nothing where there are no names.
    fn name_lines(&mut self, names: &Names)
        requires { Room self.old (name_lines names.now) }
        ensures { Wrote self.old (name_lines names.now) self.new }
    {
        if names.spaced_length() == 0 {
            return;
        }
        self.names(b".ilb", names);
        self.names(b".ob", names);
    }

    // The line `.type` with its word.
    #[tactic(auto, using(crate::proofs::TextLaws::type_length, crate::proofs::TextLaws::wrote_type))]
    fn type_line(&mut self, word: &[u8])
        requires { Room self.old (type_text word.now) }
        ensures { Wrote self.old (type_text word.now) self.new }
    {
        self.bytes(b".type ");
        self.bytes(word);
        self.byte(b'\n');
    }

    // The line `.p`, where the table has it.
    #[tactic(auto, unfolding(crate::specs::TableText::count_text), using(crate::proofs::PutLaws::wrote_none))]
    fn count_line(&mut self, counted: bool, k: usize)
        requires { Room self.old (count_text counted k) }
        ensures { Wrote self.old (count_text counted k) self.new }
    {
        if counted {
            self.header(b".p ", k);
        }
    }

    // One side of a row, from relay 0 on.
    #[tactic(auto, using(crate::proofs::TextLaws::no_columns, crate::proofs::TextLaws::columns_length, crate::proofs::TextLaws::wrote_column))]
    fn columns(&mut self, n: u32, w: u32, c: Column)
        requires { Room self.old (columns (column_byte c w) n) }
        ensures { Wrote self.old (columns (column_byte c w) n) self.new }
    {
        for v in 0..n {
            self.byte(column_byte(c, w, v));
        }
    }

    #[tactic(auto, using(crate::proofs::TextLaws::row_length, crate::proofs::TextLaws::columns_length))]
    fn row(&mut self, n: u32, w: u32, ins: Column, outs: Column)
        requires { Room self.old (row_text (column_byte ins) (column_byte outs) n w) }
        ensures { Wrote self.old (row_text (column_byte ins) (column_byte outs) n w) self.new }
    {
        self.columns(n, w, ins);
        self.byte(b' ');
        self.columns(n, w, outs);
        self.byte(b'\n');
    }

    fn rows(&mut self, n: u32, words: &[u32], ins: Column, outs: Column)
        requires { Room self.old (rows_text (column_byte ins) (column_byte outs) n words.now) }
        ensures { Wrote self.old (rows_text (column_byte ins) (column_byte outs) n words.now) self.new }
    {
        for &w in words {
            self.row(n, w, ins, outs);
        }
    }

    // The text of a table.
    #[tactic(auto, using(crate::proofs::TextLaws::table_parts))]
    fn table(&mut self, t: Table, word: &[u8], n: u32, names: &Names, words: &[u32])
        requires { Room self.old (table_text t word.now n names.now words.now) }
        ensures { Wrote self.old (table_text t word.now n names.now words.now) self.new }
    {
        self.header(b".i ", n as usize);
        self.header(b".o ", n as usize);
        self.name_lines(names);
        self.type_line(word);
        self.count_line(t.counted, words.len());
        self.rows(n, words, t.ins, t.outs);
        self.bytes(b".e\n");
    }
}

// What stands in the column of relay v for the body of the rule w.
#[tactic(auto, unfolding(crate::specs::TableText::body_byte))]
fn body_byte(w: u32, v: u32) -> u8
    ensures { result ≡ body_byte w v }
{
    if panel::is_on(v, panel::must_on(w)) {
        b'1'
    } else if panel::is_on(v, panel::must_off(w)) {
        b'0'
    } else {
        b'-'
    }
}

#[tactic(auto, unfolding(crate::specs::TableText::head_byte))]
fn head_byte(w: u32, v: u32) -> u8
    ensures { result ≡ head_byte w v }
{
    if v == panel::head_of(w) { b'1' } else { b'0' }
}

fn column_byte(c: Column, w: u32, v: u32) -> u8
    ensures { result ≡ column_byte c w v }
{
    match c {
        Column::Body => body_byte(w, v),
        Column::Head => head_byte(w, v),
    }
}

// The number of digits.
pub fn digits(v: usize) -> usize
    ensures { (result ≡ length (decimal v)) × (result ≤ v + 1) }
{
    v.max(1).ilog10() as usize + 1
}

// How long the line `.p` is, where the table has it.
#[tactic(auto, unfolding(crate::specs::Writing::count_length))]
fn count_length(counted: bool, count: usize) -> usize
    requires { count < 2 ^ 63 }
    ensures { (result ≡ count_length counted count) × (result ≤ count + 5) }
{
    if counted { 4 + digits(count) } else { 0 }
}

// The name lines and `count` rows are not longer than the room.
#[tactic(auto, using(crate::proofs::WriteLaws::rows_alone, crate::proofs::WriteLaws::lines_not, crate::proofs::WriteLaws::rows_behind))]
fn rest_fits(n: PanelSize, names: &Names, count: usize, room: usize) -> bool
    requires { room < 2 ^ 63 }
    ensures { result ≡ leb (names_length names.now + count * (2 * n + 2)) room }
{
    let row = 2 * n.relays() as usize + 2;
    let spaced = names.spaced_length();
    if spaced == 0 {
        return count <= room / row;
    }
    if room / 2 < spaced {
        return false;
    }
    let lines = 9 + 2 * spaced;
    room.checked_sub(lines)
        .is_some_and(|left| count <= left / row)
}

// The text of a table of `count` rows is not longer than the room.
#[tactic(auto, using(crate::proofs::WriteLaws::fits_not, crate::proofs::WriteLaws::fits_rest))]
fn text_fits(t: Table, word: &[u8], n: PanelSize, names: &Names, count: usize, room: usize) -> bool
    requires { (count < 2 ^ 63) × (length word.now ≤ 2) × (room < 2 ^ 63) }
    ensures { result ≡ leb (text_length t word.now n names.now count) room }
{
    let head = 18 + word.len() + 2 * digits(n.relays() as usize) + count_length(t.counted, count);
    // No `checked_sub` as above: of a closure that calls `rest_fits`, nothing is known without clauses of its own.
    head <= room && rest_fits(n, names, count, room - head)
}

// A sheet is a table with `.p`, of the bodies and heads of its rules.
const SHEET_TABLE: Table = Table {
    counted: true,
    ins: Column::Body,
    outs: Column::Head,
};

// The rules of a sheet that can be written; else 2, 3, 5 or 12, asked in this order.
#[tactic(auto, unfolding(crate::specs::Writing::write_code), using(crate::proofs::WriteLaws::size_small, crate::proofs::WriteLaws::text_kept))]
fn writable<'a>(
    n: u32,
    names: &Names,
    sheet: &'a [u32],
    count: usize,
    room: usize,
) -> Result<&'a [u32], Refusal>
    requires { room < 2 ^ 63 }
    ensures code { refusal_code result ≡ write_code n names.now sheet.now count room }
    ensures rules { IfOk result (λ rules. rules.now ≡ take count sheet.now) }
{
    let n = PanelSize::new(n).ok_or(Refusal::PanelSize)?;
    if sheet.len() < count {
        return Err(Refusal::Counts);
    }
    let rules = &sheet[..count];
    if !prime::is_good_sheet(n, rules) {
        return Err(Refusal::Sheet);
    }
    if !text_fits(SHEET_TABLE, b"f", n, names, count, room) {
        return Err(Refusal::TextRoom);
    }
    Ok(rules)
}

// The length of the sheet's text.
fn write_named(
    n: u32,
    names: &Names,
    sheet: &[u32],
    count: usize,
    out: &mut [u8],
) -> Result<usize, Refusal>
    ensures { WritesNamed n names.now sheet.now count out.old out.new (write_answer result) }
{
    let rules = writable(n, names, sheet, count, out.len())?;
    let mut page = Page::new(out);
    page.table(SHEET_TABLE, b"f", n, names, rules);
    Ok(page.length())
}

fn write_answer(written: Result<usize, Refusal>) -> WriteAnswer
    ensures { result ≡ write_answer written }
{
    let (code, length) = match written {
        Ok(length) => (0, length),
        Err(why) => (why.code(), 0),
    };
    WriteAnswer {
        answer: answers::plain_answer(code, 0, 0, 0),
        length,
    }
}

// With the names that the panel's text and the maker's give all columns, or none.
pub fn write_sheet<'a>(
    n: u32,
    sheet: &[u32],
    count: usize,
    panel: &'a [u8],
    maker: &'a [u8],
    out: &mut [u8],
) -> WriteAnswer
    ensures { Writes n sheet.now count panel.now maker.now out.old out.new result }
{
    let line = naming::name_line(panel, maker, n);
    let at = names::names_span(line);
    let names = Names {
        line: &line[at.from..at.to],
        count: n,
    };
    write_answer(write_named(n, &names, sheet, count, out))
}
