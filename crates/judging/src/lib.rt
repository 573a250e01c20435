// The verdict on a text of a layout: line by line, by what stood before.
#![tactic(auto)]

ghost use Rattle.std.specs.Prelude.{◌≡◌, ◌^◌, ◌<◌};
ghost use Rattle.names.specs.Names.{names_in};
ghost use Rattle.headers.specs.Layouts.{recording, sheet, layout_of, asks};
ghost use Rattle.headers.specs.Headers.{has_header, lacks, ready_of, only_on, row_fits, open_of, fits_of, header_allowed, row_allowed, end_allowed, allowed_of, named, is_names, agrees_of, with_header, next_of};
ghost use Rattle.headers.specs.Verdicts.{finish_of, judge_of};

use headers::{Header, Layout, Seen, State};
use lines::{Kind, Line, Lines, Masks, Part};

// Every header, in the order in which a missing one is looked for.
const EVERY_HEADER: [Header; 6] = [
    Header::Size(Part::Ins),
    Header::Size(Part::Outs),
    Header::Names(Part::Ins),
    Header::Names(Part::Outs),
    Header::TypeWord,
    Header::Count,
];

// What is asked of a text of a kind.
pub fn layout_of(kind: Kind) -> Layout
    ensures { result ≡ layout_of kind }
{
    Layout {
        kind,
        typed: true,
        dashes: true,
        unread: false,
        single: kind == Kind::Sheet,
    }
}

// What is asked of a recording.
pub fn recording_layout() -> Layout
    ensures { result ≡ recording }
{
    layout_of(Kind::Recording)
}

// What is asked of a sheet.
pub fn sheet_layout() -> Layout
    ensures { result ≡ sheet }
{
    layout_of(Kind::Sheet)
}

// Headers may stand: no row and no end mark yet.
#[tactic(auto, unfolding(headers::specs::Headers::open_of))]
fn is_open(st: State) -> bool
    ensures { result ≡ open_of st }
{
    !st.ended && st.rows == 0
}

// No size is given yet, or it is the same.
#[tactic(auto, unfolding(headers::specs::Headers::fits_of))]
fn fits(size: u32, n: u32) -> bool
    ensures { result ≡ fits_of size n }
{
    size == 0 || size == n
}

fn has_header(s: Seen, h: Header) -> bool
    ensures { result ≡ has_header s h }
{
    match h {
        Header::Size(Part::Ins) => s.ins,
        Header::Size(Part::Outs) => s.outs,
        Header::Names(Part::Ins) => s.in_names,
        Header::Names(Part::Outs) => s.out_names,
        Header::TypeWord => s.word,
        Header::Count => s.count,
    }
}

fn asks_header(lay: Layout, s: Seen, h: Header) -> bool
    ensures { result ≡ asks lay s h }
{
    match h {
        Header::Size(_) => true,
        Header::Names(Part::Ins) => s.out_names,
        Header::Names(Part::Outs) => s.in_names,
        Header::TypeWord => lay.typed,
        Header::Count => false,
    }
}

// A header must stand before the first row and the end mark, and does not yet.
#[tactic(auto, unfolding(headers::specs::Headers::lacks))]
fn lacks_header(lay: Layout, s: Seen, h: Header) -> bool
    ensures { result ≡ lacks lay s h }
{
    !has_header(s, h) && asks_header(lay, s, h)
}

// No header is missing.
#[tactic(auto, unfolding(headers::specs::Headers::ready_of, headers::specs::Headers::lacks_none))]
fn is_ready(lay: Layout, s: Seen) -> bool
    ensures { result ≡ ready_of lay s }
{
    EVERY_HEADER.iter().all(|&h| !lacks_header(lay, s, h))
}

// The relay whose bit is the only one on; 10 if there is none: no Option, since the definition `only_on`, over which `row_fits` and the
// words of a rule are stated, says 10.
pub fn only_on(x: u32) -> u32
    ensures { result ≡ only_on x }
{
    (0..10).find(|&h| x == panel::power(h)).unwrap_or(10)
}

// What a row of a text of this layout may hold.
#[tactic(auto, unfolding(headers::specs::Headers::row_fits))]
fn row_fits(lay: Layout, m: Masks) -> bool
    ensures { result ≡ row_fits lay m }
{
    (lay.dashes || m.free == 0)
        && (lay.unread || m.unread == 0)
        && (!lay.single || only_on(m.next) < 10)
}

// A header may stand here, if it fits.
#[tactic(auto, unfolding(headers::specs::Headers::header_allowed))]
fn header_allowed(st: State, h: Header, fits: bool) -> bool
    ensures { result ≡ header_allowed st h fits }
{
    is_open(st) && !has_header(st.seen, h) && fits
}

// The end mark, or a row, may stand here: only blank lines and comments follow the end mark.
#[tactic(auto, unfolding(headers::specs::Headers::end_allowed))]
fn end_allowed(lay: Layout, st: State) -> bool
    ensures { result ≡ end_allowed lay st }
{
    !st.ended && is_ready(lay, st.seen)
}

#[tactic(auto, unfolding(headers::specs::Headers::row_allowed))]
fn row_allowed(lay: Layout, st: State, m: Masks) -> bool
    ensures { result ≡ row_allowed lay st m }
{
    end_allowed(lay, st) && st.size == m.width && row_fits(lay, m)
}

// What may stand where the lines before led to a state.
fn allowed(lay: Layout, st: State, l: Line) -> bool
    ensures { result ≡ allowed_of lay st l }
{
    match l {
        Line::Empty => true,
        Line::Sized(p, n) => header_allowed(st, Header::Size(p), fits(st.size, n)),
        Line::Named(p, n) => header_allowed(st, Header::Names(p), fits(st.size, n)),
        Line::Typed(kind) => header_allowed(st, Header::TypeWord, lay.kind == kind),
        Line::Rows(_) => header_allowed(st, Header::Count, true),
        Line::Row(m) => row_allowed(lay, st, m),
        Line::End => end_allowed(lay, st),
        Line::Fault => false,
    }
}

fn with_header(s: Seen, h: Header) -> Seen
    ensures { result ≡ with_header s h }
{
    match h {
        Header::Size(Part::Ins) => Seen { ins: true, ..s },
        Header::Size(Part::Outs) => Seen { outs: true, ..s },
        Header::Names(Part::Ins) => Seen {
            in_names: true,
            ..s
        },
        Header::Names(Part::Outs) => Seen {
            out_names: true,
            ..s
        },
        Header::TypeWord => Seen { word: true, ..s },
        Header::Count => Seen { count: true, ..s },
    }
}

// The state after a line that is allowed, line number k.
fn next(st: State, l: Line, k: usize) -> State
    requires { st.rows < 2 ^ 63 }
    ensures { result ≡ next_of st l k }
{
    match l {
        Line::Empty | Line::Fault => st,
        Line::Sized(p, n) => State {
            seen: with_header(st.seen, Header::Size(p)),
            size: n,
            ..st
        },
        Line::Named(p, n) => State {
            seen: with_header(st.seen, Header::Names(p)),
            size: n,
            ..st
        },
        Line::Typed(_) => State {
            seen: with_header(st.seen, Header::TypeWord),
            ..st
        },
        Line::Rows(want) => State {
            seen: with_header(st.seen, Header::Count),
            want,
            place: k,
            ..st
        },
        Line::Row(_) => State {
            rows: st.rows + 1,
            ..st
        },
        Line::End => State { ended: true, ..st },
    }
}

// A name line stood there.
#[tactic(auto, unfolding(headers::specs::Headers::named))]
fn is_named(s: Seen) -> bool
    ensures { result ≡ named s }
{
    s.in_names || s.out_names
}

fn is_names(l: Line) -> bool
    ensures { result ≡ is_names l }
{
    matches!(l, Line::Named(..))
}

// The names of a name line are those of the name line before it, if there is one; `held` is that line.
fn agrees(s: Seen, held: &[u8], l: Line, line: &[u8]) -> bool
    ensures { result ≡ agrees_of s (names_in held.now) l (names_in line.now) }
{
    !is_names(l) || !is_named(s) || names::same_names(held, line)
}

// What is judged at the end of the text, k being the number after the last line.
#[tactic(auto, unfolding(headers::specs::Verdicts::finish_of))]
fn finish(st: State, k: usize) -> Result<u32, usize>
    ensures { result ≡ finish_of st k }
{
    if !st.ended {
        Err(k)
    } else if st.seen.count && st.want != st.rows {
        Err(st.place)
    } else {
        Ok(st.size)
    }
}

pub fn judge(lay: Layout, text: &[u8]) -> Result<u32, usize>
    ensures { result ≡ judge_of lay text.now }
{
    let mut st = State::default();
    let mut held: &[u8] = &[]; // the name line that stood there
    let mut k = 1; // the number of the line, and after the loop that after the last: `enumerate` would lose that
    for line in Lines::new(text) {
        let l = lines::scan_line(line);
        if !allowed(lay, st, l) || !agrees(st.seen, held, l, line) {
            return Err(k);
        }
        st = next(st, l, k);
        if is_names(l) {
            held = line;
        }
        k += 1;
    }
    finish(st, k)
}
