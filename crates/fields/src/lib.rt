// What stands below a line: bytes, stretches of bytes, fields, and what one field says.
#![tactic(auto)]

ghost use Rattle.std.specs.Prelude.{◌≡◌, Some, ◌+◌, ◌-◌, ◌*◌, ◌^◌, ◌≤◌, ◌<◌, length, drop};
ghost use Rattle.std.specs.Iterator.{YieldsFirstRef, item_count};
ghost use Rattle.fields.specs.Bytes.{mark_of, is_in, run};
ghost use Rattle.fields.specs.Texts.{past_of};
ghost use Rattle.fields.specs.Values.{column_of, cube_of, Small, digit_of, keep, number_of};
ghost use Rattle.fields.specs.Fields.{fields_in, fields_left, only_of, Spans};

// What one byte of a line is.
#[derive(Clone, Copy, PartialEq, Eq, Debug)]
pub enum Mark {
    Digit(u8),
    Dash,
    Space,
    Hash,
    Dot,
    Feed,
    Other,
}

// A kind of stretch: what `run_end` goes over. No closure in its place: `run`, over which texts are defined, takes it as a value.
#[derive(Clone, Copy, PartialEq, Eq, Debug)]
pub enum Stretch {
    Gap,
    Field,
    Body,
    Whole,
}

// The masks of a field of `0`, `1` and `-`, column 0 being bit 0.
#[derive(Clone, Copy, PartialEq, Eq, Debug)]
pub struct Columns {
    pub on: u32,
    pub off: u32,
    pub dashes: u32,
}

// Where a stretch of bytes stands. Of a field that is not there it is empty, at the end of the line: so `Spans` and `SpanIs` say.
#[derive(Clone, Copy, PartialEq, Eq, Debug)]
pub struct Span {
    pub from: usize,
    pub to: usize,
}

// A byte is a digit, a dash, a blank, the start of a comment, the dot of a keyword, the end of the line, or none of these.
#[tactic(auto, unfolding(crate::specs::Bytes::mark_of))]
pub fn mark_of(b: u8) -> Mark
    ensures { result ≡ mark_of b }
{
    match b {
        b'0'..=b'9' => Mark::Digit(b - b'0'),
        b'-' => Mark::Dash,
        b' ' | b'\t' => Mark::Space,
        b'#' => Mark::Hash,
        b'.' => Mark::Dot,
        b'\n' => Mark::Feed,
        _ => Mark::Other,
    }
}

fn is_in(k: Stretch, m: Mark) -> bool
    ensures { result ≡ is_in k m }
{
    match k {
        Stretch::Gap => matches!(m, Mark::Space),
        Stretch::Field => !matches!(m, Mark::Space),
        Stretch::Body => !matches!(m, Mark::Hash),
        Stretch::Whole => !matches!(m, Mark::Feed),
    }
}

// Where the stretch that starts at `from` ends.
pub fn run_end(s: &[u8], from: usize, k: Stretch) -> usize
    requires { from ≤ length s.now }
    ensures { (result ≡ from + run k (drop from s.now)) × (result ≤ length s.now) }
{
    match s[from..].iter().position(|&b| !is_in(k, mark_of(b))) {
        Some(n) => from + n,
        None => s.len(),
    }
}

// One column more in front of others, which move up by one bit.
fn column(m: Mark, c: Columns) -> Option<Columns>
    requires { Small (Some c) }
    ensures { result ≡ column_of m (Some c) }
{
    let moved = Columns {
        on: c.on * 2,
        off: c.off * 2,
        dashes: c.dashes * 2,
    };
    match m {
        Mark::Digit(0) => Some(Columns {
            off: moved.off + 1,
            ..moved
        }),
        Mark::Digit(1) => Some(Columns {
            on: moved.on + 1,
            ..moved
        }),
        Mark::Dash => Some(Columns {
            dashes: moved.dashes + 1,
            ..moved
        }),
        _ => None,
    }
}

// The masks of a field, from its last column to its first.
pub fn read_cube(s: &[u8]) -> Option<Columns>
    requires { length s.now ≤ 10 }
    ensures { result ≡ cube_of s.now }
{
    let mut c = Columns {
        on: 0,
        off: 0,
        dashes: 0,
    };
    for &b in s.iter().rev() {
        c = column(mark_of(b), c)?;
    }
    Some(c)
}

// A number is kept up to here: above every size, and above the number of rows that any text in memory has.
const MOST: u64 = 10_000_000_000_000_000_000;

// One digit more at the end of a number, which stays at 10^19.
fn digit(n: u64, m: Mark) -> Option<u64>
    ensures { result ≡ keep (digit_of (Some n) m) }
{
    match m {
        Mark::Digit(d) => Some(n.saturating_mul(10).saturating_add(u64::from(d)).min(MOST)),
        _ => None,
    }
}

// A decimal number without leading zeros; above 10^19 it is kept as 10^19.
pub fn read_number(s: &[u8]) -> Option<u64>
    ensures { result ≡ keep (number_of s.now) }
{
    if s.is_empty() {
        return None;
    }
    if s.len() > 1 && s[0] == b'0' {
        return None;
    }
    let mut n = 0;
    for &b in s {
        n = digit(n, mark_of(b))?;
    }
    Some(n)
}

// The field at or after a place.
pub fn field_at(s: &[u8], i: usize) -> Span
    requires { i ≤ length s.now }
    ensures { Spans s.now i result }
{
    let from = run_end(s, i, Stretch::Gap);
    let to = run_end(s, from, Stretch::Field);
    Span { from, to }
}

// The fields that are left of a line.
#[derive(Clone, Copy, Debug)]
pub struct Fields<'a> {
    rest: &'a [u8],
}

impl<'a> Fields<'a> {
    // The fields of a line, one after the other.
    pub fn new(s: &'a [u8]) -> Fields<'a>
        ensures { fields_left result ≡ fields_in s.now }
    {
        Fields { rest: s }
    }
}

impl<'a> Iterator for Fields<'a> {
    type Item = &'a [u8];

    ghost next_gives = { YieldsFirstRef fields_left };

    ghost remaining = { item_count fields_left };

    fn next(&mut self) -> Option<&'a [u8]> {
        let Span { from, to } = field_at(self.rest, 0);
        let field = &self.rest[from..to];
        self.rest = &self.rest[to..];
        if field.is_empty() { None } else { Some(field) }
    }
}

// The only field, or nothing if there is none or more than one.
pub fn only(s: &[u8]) -> &[u8]
    ensures { result.now ≡ only_of (fields_in s.now) }
{
    let mut left = Fields::new(s);
    match (left.next(), left.next()) {
        (Some(field), None) => field,
        _ => &[],
    }
}

// Where the line that starts at a place ends.
pub fn line_end(text: &[u8], at: usize) -> usize
    requires { at ≤ length text.now }
    ensures { (result ≡ at + run Stretch.Whole (drop at text.now)) × (result ≤ length text.now) }
{
    run_end(text, at, Stretch::Whole)
}

// Where the next line starts.
pub fn past(e: usize, n: usize) -> usize
    requires { n < 2 ^ 63 }
    ensures { result ≡ past_of e n }
{
    if e < n { e + 1 } else { e }
}
