// One line of a text: what it says.
#![tactic(auto)]

ghost use Rattle.std.specs.Prelude.{◌≡◌, Some, map, unwrap_or, option_map};
ghost use Rattle.fields.specs.Fields.{fields_in};
ghost use Rattle.lines.specs.Lines.{meaning, key_of, row_of, row_line, columns_of, typed_of, key_line, class_of, line_of, keep_line, view_of};

mod texts;

use fields::{Columns, Fields, Mark, Stretch};
pub use texts::{Lines, PlacedLines};

// What a text is: `.type fr` stands in a recording and `.type f` in a sheet.
#[derive(Clone, Copy, PartialEq, Eq, Debug)]
pub enum Kind {
    Recording,
    Sheet,
}

// What a size or a name line belongs to: the inputs or the outputs.
#[derive(Clone, Copy, PartialEq, Eq, Debug)]
pub enum Part {
    Ins,
    Outs,
}

#[derive(Clone, Copy, PartialEq, Eq, Debug)]
pub enum Key {
    Size(Part),
    Names(Part),
    TypeWord,
    Count,
    Stop,
}

// A row: the relays that must be on, off and neither; the outputs that are `1` and `-`; the number of columns.
#[derive(Clone, Copy, PartialEq, Eq, Debug)]
pub struct Masks {
    pub on: u32,
    pub off: u32,
    pub free: u32,
    pub next: u32,
    pub unread: u32,
    pub width: u32,
}

// `Fault` is a line too, and no `None`: the definitions of headers and layouts, and `line_of` itself, are over every line.
#[derive(Clone, Copy, PartialEq, Eq, Debug)]
pub enum Line {
    Empty,
    Sized(Part, u32),
    Named(Part, u32),
    Typed(Kind),
    Rows(u64),
    Row(Masks),
    End,
    Fault,
}

// A line to those who only care for rows and the end mark: the cells of a row, the end mark, or neither.
#[derive(Clone, Copy, PartialEq, Eq, Debug)]
pub enum View {
    Cells(Masks),
    EndMark,
    Aside,
}

// The keywords: each is the first field of its line.
const KEYS: [(&[u8], Key); 8] = [
    (b".i", Key::Size(Part::Ins)),
    (b".o", Key::Size(Part::Outs)),
    (b".ilb", Key::Names(Part::Ins)),
    (b".ob", Key::Names(Part::Outs)),
    (b".type", Key::TypeWord),
    (b".p", Key::Count),
    (b".e", Key::Stop),
    (b".end", Key::Stop),
];

// What stands behind `.type`, and what a text is by it.
const KINDS: [(&[u8], Kind); 2] = [(b"fr", Kind::Recording), (b"f", Kind::Sheet)];

// What a word stands for in a table of words.
fn meaning<T: Copy>(table: &[(&[u8], T)], w: &[u8]) -> Option<T>
    ensures { result ≡ meaning (map (λ e. (e.0.now, e.1)) table.now) w.now }
{
    for (word, thing) in table {
        if w == *word {
            return Some(*thing);
        }
    }
    None
}

fn key_of(w: &[u8]) -> Option<Key>
    ensures { result ≡ key_of w.now }
{
    meaning(&KEYS, w)
}

// A number of columns is 1 to 10.
fn columns_of(n: u64) -> Option<u32>
    ensures { result ≡ columns_of (Some n) }
{
    match n {
        1..=10 => Some(n as u32),
        _ => None,
    }
}

fn kind_of(v: &[u8]) -> Option<Kind>
    ensures { unwrap_or (option_map Line.Typed result) Line.Fault ≡ typed_of v.now }
{
    meaning(&KINDS, v)
}

// A keyword, with what stands behind it; the end mark has nothing behind it.
fn key_line(k: Key, rest: &[u8]) -> Option<Line>
    ensures { unwrap_or result Line.Fault ≡ keep_line (key_line (Some k) (fields_in rest.now)) }
{
    match k {
        Key::Size(p) => Some(Line::Sized(p, columns_of(fields::read_number(fields::only(rest))?)?)),
        Key::Names(p) => Some(Line::Named(p, columns_of(names::names_count(rest)?)?)),
        Key::TypeWord => Some(Line::Typed(kind_of(fields::only(rest))?)),
        Key::Count => Some(Line::Rows(fields::read_number(fields::only(rest))?)),
        Key::Stop => Fields::new(rest).next().is_none().then_some(Line::End),
    }
}

fn row_of(a: Columns, b: Columns, width: u32) -> Line
    ensures { result ≡ row_of (Some a) (Some b) width }
{
    Line::Row(Masks {
        on: a.on,
        off: a.off,
        free: a.dashes,
        next: b.on,
        unread: b.dashes,
        width,
    })
}

// A row: two fields of one width, at most ten.
fn read_row(w: &[u8], v: &[u8]) -> Option<Line>
    ensures { unwrap_or result Line.Fault ≡ row_line w.now v.now }
{
    let n = w.len();
    if n != v.len() || 10 < n {
        return None;
    }
    let a = fields::read_cube(w)?;
    let b = fields::read_cube(v)?;
    Some(row_of(a, b, n as u32))
}

// A line of the field w, with what stands behind it.
fn classify(w: &[u8], rest: &[u8]) -> Option<Line>
    ensures { unwrap_or result Line.Fault ≡ keep_line (class_of w.now (fields_in rest.now)) }
{
    let Some(&b) = w.first() else {
        return Some(Line::Empty);
    };
    match fields::mark_of(b) {
        Mark::Digit(_) | Mark::Dash => read_row(w, fields::only(rest)),
        Mark::Dot => key_line(key_of(w)?, rest),
        _ => None,
    }
}

pub fn scan_line(line: &[u8]) -> Line
    ensures { result ≡ keep_line (line_of line.now) }
{
    let c = fields::run_end(line, 0, Stretch::Body);
    let s = &line[..c];
    let first = fields::field_at(s, 0);
    classify(&s[first.from..first.to], &s[first.to..]).unwrap_or(Line::Fault)
}

pub fn view_of(l: Line) -> View
    ensures { result ≡ view_of l }
{
    match l {
        Line::Row(m) => View::Cells(m),
        Line::End => View::EndMark,
        _ => View::Aside,
    }
}
