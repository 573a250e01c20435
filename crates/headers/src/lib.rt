// What a layout asks of a text, which headers there are, and what is known after some lines: types only, `judging` has the code.
#![tactic(auto)]

use lines::{Kind, Part};

// What is asked of a text: the word of its type line, and whether that line is required; whether `-` may stand in inputs and in
// outputs; whether exactly one output of a row is `1`.
#[derive(Clone, Copy, PartialEq, Eq, Debug)]
pub struct Layout {
    pub kind: Kind,
    pub typed: bool,
    pub dashes: bool,
    pub unread: bool,
    pub single: bool,
}

// A header: `.i` or `.o`, `.ilb` or `.ob`, `.type`, `.p`.
#[derive(Clone, Copy, PartialEq, Eq, Debug)]
pub enum Header {
    Size(Part),
    Names(Part),
    TypeWord,
    Count,
}

// Which headers stood there.
#[derive(Clone, Copy, PartialEq, Eq, Debug, Default)]
pub struct Seen {
    pub ins: bool,
    pub outs: bool,
    pub in_names: bool,
    pub out_names: bool,
    pub word: bool,
    pub count: bool,
}

// What is known after some lines: which headers stood there; the size, 0 where not given yet; the number of `.p` and its line;
// how many rows; whether the end mark stood there.
#[derive(Clone, Copy, PartialEq, Eq, Debug, Default)]
pub struct State {
    pub seen: Seen,
    // 0, and no Option: `row_allowed`, `next_of` and `finish_of` (headers/specs) say 0 where no size is given, and speak of every number.
    pub size: u32,
    // The number and the place are read only where `seen` has `.p`: no Option, since `has_header` and `with_header` treat the six headers alike.
    pub want: u64,
    pub place: usize,
    pub rows: u64,
    pub ended: bool,
}
