// The names of a name line: judged, counted and compared.
#![tactic(auto)]

ghost use Rattle.std.specs.Prelude.{◌≡◌, ◌≤◌, length};
ghost use Rattle.fields.specs.Fields.{fields_in, fields_left};
ghost use Rattle.names.specs.Names.{name_byte, name_ok, holds, names_count, same_fields, names_in, NamesAt};
ghost use Rattle.names.specs.Spans.{field_at, name_span, SpanIs};

use fields::{Fields, Span, Stretch};

// A letter, a digit or an underscore.
#[tactic(auto, unfolding(crate::specs::Names::name_byte))]
fn name_byte(b: u8) -> bool
    ensures { result ≡ name_byte b }
{
    b.is_ascii_alphanumeric() || b == b'_'
}

// A name has 1 to 16 of these.
fn name_ok(w: &[u8]) -> bool
    ensures { result ≡ name_ok w.now }
{
    (1..=16).contains(&w.len()) && w.iter().all(|&b| name_byte(b))
}

// Whether a field stands among others.
fn has_field(w: &[u8], mut others: Fields<'_>) -> bool
    ensures { result ≡ holds w.now (fields_left others.entry) }
{
    others.any(|v| w == v)
}

// How many names the fields are, if all are names and no two the same.
pub fn names_count(s: &[u8]) -> Option<u64>
    ensures { result ≡ names_count (fields_in s.now) }
{
    let mut count = 0;
    let mut left = Fields::new(s);
    // No `for`: it would hold the iterator, of which the fields behind w are asked.
    while let Some(w) = left.next() {
        if !name_ok(w) || has_field(w, left) {
            return None;
        }
        count += 1;
    }
    Some(count)
}

// Whether two lines have the same fields, one by one.
fn same_fields(a: &[u8], b: &[u8]) -> bool
    ensures { result ≡ same_fields (fields_in a.now) (fields_in b.now) }
{
    Fields::new(a).eq(Fields::new(b))
}

// Where the fields after the first stand: from its end to the comment.
pub fn names_span(line: &[u8]) -> Span
    ensures { NamesAt line.now result }
{
    let c = fields::run_end(line, 0, Stretch::Body);
    let p = fields::field_at(&line[..c], 0);
    Span { from: p.to, to: c }
}

// Whether two lines have the same fields after their first.
pub fn same_names(a: &[u8], b: &[u8]) -> bool
    ensures { result ≡ same_fields (names_in a.now) (names_in b.now) }
{
    let p = names_span(a);
    let q = names_span(b);
    same_fields(&a[p.from..p.to], &b[q.from..q.to])
}

// Field number k, counted from a place on.
fn field_number(s: &[u8], from: usize, k: usize) -> Span
    requires { from ≤ length s.now }
    ensures { SpanIs s.now (field_at s.now from k) result }
{
    let mut i = from;
    for _ in 0..k {
        i = fields::field_at(s, i).to;
    }
    fields::field_at(s, i)
}

// (It begins as `names_span` does, whose contract says which names stand there, and not where.)
// Where the name of a column stands in a name line: that many fields after the first.
pub fn name_span(line: &[u8], column: usize) -> Span
    ensures { SpanIs line.now (name_span line.now column) result }
{
    let c = fields::run_end(line, 0, Stretch::Body);
    let keyword = fields::field_at(&line[..c], 0);
    field_number(&line[..c], keyword.to, column)
}
