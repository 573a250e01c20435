// The answer that every call gives, a code, a place, both counts, struck and added; and the refusals that have codes.
#![tactic(auto)]

ghost use Rattle.std.specs.Prelude.{◌≡◌};
ghost use Rattle.answers.specs.Answers.{plain, done};
ghost use Rattle.answers.specs.Refusals.{code_of};

// Why a call refuses, in the order of the codes.
#[derive(Clone, Copy, PartialEq, Eq, Debug)]
pub enum Refusal {
    Known = 1,
    PanelSize = 2,
    Counts = 3,
    Book = 4,
    Sheet = 5,
    Word = 6,
    Contradiction = 7,
    BookRoom = 8,
    SheetRoom = 9,
    Unreproduced = 10,
    Faulty = 11,
    TextRoom = 12,
    TooLong = 13,
}

impl Refusal {
    // The number that C, the desk and the documents know it by.
    pub fn code(self) -> u32
        ensures { result ≡ code_of self }
    {
        self as u32
    }
}

// Why a call refuses, and the place that it names: of a word, of a line, or 0 where there is none.
#[derive(Clone, Copy, PartialEq, Eq, Debug)]
pub struct Refused {
    pub why: Refusal,
    pub place: usize,
}

impl From<Refusal> for Refused {
    ghost from_gives = { λ why r. r ≡ record { why = why; place = 0 } };

    fn from(why: Refusal) -> Refused {
        Refused { why, place: 0 }
    }
}

// The code is a number, 0 where nothing was refused: so `Contract` of every public call, the theorems of handover and C have it.
#[derive(Clone, Copy, PartialEq, Eq, Debug)]
pub struct Answer {
    pub code: u32,
    pub place: usize,
    pub book_count: usize,
    pub sheet_count: usize,
    pub struck: usize,
    pub added: usize,
}

impl Answer {
    // A refusal, with a place and counts; struck and added are 0.
    pub fn refused(why: Refusal, place: usize, book_count: usize, sheet_count: usize) -> Answer
        ensures { result ≡ plain (code_of why) place book_count sheet_count }
    {
        plain_answer(why.code(), place, book_count, sheet_count)
    }
}

// A code with a place and counts; struck and added are 0. The code is a number here, as `Answer` has it; a refusal comes by `Answer::refused`.
pub fn plain_answer(code: u32, place: usize, book_count: usize, sheet_count: usize) -> Answer
    ensures { result ≡ plain code place book_count sheet_count }
{
    Answer {
        code,
        place,
        book_count,
        sheet_count,
        struck: 0,
        added: 0,
    }
}

// Done, with the new counts and what was struck and added.
pub fn done_answer(book_count: usize, sheet_count: usize, struck: usize, added: usize) -> Answer
    ensures { result ≡ done book_count sheet_count struck added }
{
    Answer {
        code: 0,
        place: 0,
        book_count,
        sheet_count,
        struck,
        added,
    }
}
