// The name of a column: a part of the panel's text, or else of the maker's.
#![tactic(auto)]

ghost use Rattle.std.specs.Prelude.{◌≡◌, cond, Some};
ghost use Rattle.names.specs.Spans.{bytes_of};
ghost use Rattle.lines.specs.declared.Part.TheVariants.{Ins};
ghost use Rattle.lines.specs.Lines.{view_of};
ghost use Rattle.headers.specs.Accepted.{is_header};
ghost use Rattle.headers.specs.Places.{is_aside};
ghost use Rattle.headers.specs.declared.Header.TheVariants.{Names};
ghost use Rattle.naming.specs.Naming.{home_of, judge_either, naming_of, source_of, spot_of, Within, PartOf};
ghost use Rattle.naming.specs.Columns.{name_line};

use fields::Span;
use lines::{Line, Part, PlacedLines, View};

// The `.ilb` line of a text: how many columns the text has, and where the line stands in it.
#[derive(Clone, Copy, PartialEq, Eq, Debug)]
pub struct NameLine {
    pub columns: u32,
    pub at: Span,
}

// What a text says of names: both readers refuse it with 11, it has no name lines, or its name line. Three cases, each of which leads on
// differently, so neither an Option nor a Result.
#[derive(Clone, Copy, PartialEq, Eq, Debug)]
pub enum Naming {
    Refused,
    Nameless,
    Named(NameLine),
}

// The name line that two texts give: whether it stands in the maker's text, as a `Spot` has it, or in the panel's.
#[derive(Clone, Copy, PartialEq, Eq, Debug)]
pub struct Source {
    pub maker: bool,
    pub names: NameLine,
}

impl Source {
    // The bytes of the line, in the text that it stands in.
    fn line<'a>(self, panel: &'a [u8], maker: &'a [u8]) -> &'a [u8]
        requires { source_of panel.now maker.now ≡ Some self }
        ensures { result.now ≡ bytes_of self.names.at (cond self.maker maker.now panel.now) }
    {
        let text = if self.maker { maker } else { panel };
        &text[self.names.at.from..self.names.at.to]
    }
}

// A part of the panel's text or of the maker's. A name that is not there is the empty part at the start of the panel's text, and no `None`:
// `Contract (find_name ..)` (public/specs/PublicCalls) and the three numbers of C hold it.
#[derive(Clone, Copy, PartialEq, Eq, Debug)]
pub struct Spot {
    pub maker: bool,
    pub start: usize,
    pub length: usize,
}

// Whether a line is the `.ilb` line.
fn names_inputs(l: Line) -> bool
    ensures { result ≡ is_header (Names Ins) l }
{
    matches!(l, Line::Named(Part::Ins, _))
}

// Whether a line is neither a row nor the end mark.
fn is_aside(l: Line) -> bool
    ensures { result ≡ is_aside (view_of l) }
{
    matches!(lines::view_of(l), View::Aside)
}

// Where the `.ilb` line of a text stands.
fn find_home(text: &[u8]) -> Option<Span>
    ensures { result ≡ home_of text.now }
{
    for (at, line) in PlacedLines::new(text) {
        let l = lines::scan_line(line);
        if names_inputs(l) {
            return Some(at);
        }
        if !is_aside(l) {
            return None; // name lines stand before the first row
        }
    }
    None
}

// The verdict on a text of either kind.
#[tactic(auto, unfolding(crate::specs::Naming::judge_either))]
fn judge_either(text: &[u8]) -> Result<u32, usize>
    ensures { result ≡ judge_either text.now }
{
    let recording = judging::judge(judging::recording_layout(), text);
    recording.or_else(|_| judging::judge(judging::sheet_layout(), text))
}

#[tactic(auto, unfolding(crate::specs::Naming::naming_of))]
fn naming_of(text: &[u8]) -> Naming
    ensures { result ≡ naming_of text.now }
{
    let Ok(columns) = judge_either(text) else {
        return Naming::Refused;
    };
    match find_home(text) {
        Some(at) => Naming::Named(NameLine { columns, at }),
        None => Naming::Nameless,
    }
}

// The maker's text is read only where the panel's has no name lines.
#[tactic(auto, unfolding(crate::specs::Naming::source_of))]
fn source_of(panel: &[u8], maker: &[u8]) -> Option<Source>
    ensures { result ≡ source_of panel.now maker.now }
{
    match naming_of(panel) {
        Naming::Refused => None,
        Naming::Named(names) => Some(Source {
            maker: false,
            names,
        }),
        Naming::Nameless => match naming_of(maker) {
            Naming::Named(names) => Some(Source { maker: true, names }),
            _ => None,
        },
    }
}

// Where the name of a column stands.
#[tactic(auto, unfolding(crate::specs::Naming::spot_of), using(crate::proofs::SourceLaws::spot_within))]
pub fn find(panel: &[u8], maker: &[u8], column: usize) -> Spot
    ensures { (result ≡ spot_of panel.now maker.now column) × Within panel.now maker.now result }
{
    match source_of(panel, maker) {
        Some(s) if column < s.names.columns as usize => {
            let name = names::name_span(s.line(panel, maker), column);
            Spot {
                maker: s.maker,
                start: s.names.at.from + name.from,
                length: name.to - name.from,
            }
        }
        _ => Spot {
            maker: false,
            start: 0,
            length: 0,
        },
    }
}

// The name of a column, as a part of one of the two texts.
pub fn lookup<'a>(panel: &'a [u8], maker: &'a [u8], column: usize) -> &'a [u8]
    ensures { PartOf panel.entry maker.entry (spot_of panel.now maker.now column) result.now result.ref_ptr.0 result.ref_ptr.1 }
{
    let s = find(panel, maker, column);
    let text = if s.maker { maker } else { panel };
    &text[s.start..s.start + s.length]
}

// The name line that two texts give, if it names every column below n; else nothing.
#[tactic(auto, unfolding(crate::specs::Columns::name_line))]
pub fn name_line<'a>(panel: &'a [u8], maker: &'a [u8], n: u32) -> &'a [u8]
    ensures { result.now ≡ name_line panel.now maker.now n }
{
    match source_of(panel, maker) {
        Some(s) if n <= s.names.columns => s.line(panel, maker),
        _ => &[],
    }
}
