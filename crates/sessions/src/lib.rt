// The bench session by value: it is started like fresh, and keeps n, both counts and running totals from take to take.
#![tactic(auto)]

ghost use Rattle.std.specs.Prelude.{◌≡◌};
ghost use Rattle.sessions.specs.Sessions.{totals_fit, session_after, Summable, Starts, Takes};

use answers::Answer;

#[derive(Clone, Copy, PartialEq, Eq, Debug, Default)]
pub struct Session {
    pub n: u32,
    pub book_count: usize,
    pub sheet_count: usize,
    pub struck: usize,
    pub added: usize,
}

// What start and take give: the answer, and the session after the call.
#[derive(Clone, Copy, PartialEq, Eq, Debug)]
pub struct Outcome {
    pub answer: Answer,
    pub session: Session,
}

impl Session {
    // A session on a fresh sheet; a refused start gives five zeros.
    pub fn start(n: u32, sheet: &mut [u32]) -> Outcome
        ensures { Starts n sheet.old sheet.new result }
    {
        let answer = calls::fresh(n, sheet);
        // The code is a number here, as `Starts` and `Takes`, which `Contract` of the public calls names, have it.
        if answer.code != 0 {
            return Outcome {
                answer,
                session: Session::default(),
            };
        }
        let session = Session {
            n,
            sheet_count: n as usize,
            ..Session::default()
        };
        Outcome { answer, session }
    }

    // Neither total is above 1,000,000,000, and n + added is sheet count + struck; no sum here can wrap.
    #[tactic(auto, using(std::proofs::lemmas::Bool::Decides::nat_tests), unfolding(crate::specs::Sessions::totals_fit))]
    fn totals_fit(self) -> bool
        ensures { result ≡ totals_fit self }
    {
        self.struck <= 1000000000
            && self.added <= 1000000000
            && self.sheet_count.checked_add(self.struck) == Some(self.n as usize + self.added)
    }

    // After code 0 the new counts and the larger totals; after any other code the session as it was.
    #[tactic(auto, unfolding(crate::specs::Sessions::session_after))]
    fn after(self, answer: Answer) -> Session
        requires { Summable self answer }
        ensures { result ≡ session_after self answer }
    {
        if answer.code == 0 {
            return Session {
                book_count: answer.book_count,
                sheet_count: answer.sheet_count,
                struck: self.struck + answer.struck,
                added: self.added + answer.added,
                ..self
            };
        }
        self
    }

    // Takes one transition, refused with 3 also where the totals do not fit.
    pub fn take(self, book: &mut [u32], sheet: &mut [u32], i: u32, j: u32) -> Outcome
        ensures { Takes self book.old sheet.old i j book.new sheet.new result }
    {
        let spoilt = !self.totals_fit();
        let answer = calls::take_unless(
            spoilt,
            self.n,
            i,
            j,
            book,
            self.book_count,
            sheet,
            self.sheet_count,
        );
        Outcome {
            answer,
            session: self.after(answer),
        }
    }
}
