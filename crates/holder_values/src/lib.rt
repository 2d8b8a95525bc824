// A holder by value: each call hands back the next holder with its reply (contract 7.2). The calls are those in place, on its arrays. One
// method over a closure would be no plainer: each call is lent other arrays of the holder.
#![tactic(auto)]

ghost use Rattle.std.specs.Prelude.{◌≡◌};
ghost use Rattle.verdict.specs.Named.{CellNamed};
ghost use Rattle.calls.specs.Calls.{by};
ghost use Rattle.calls.specs.Replies.{reply_fields};
ghost use Rattle.holder_answers.specs.Arrays.{draft_in, answer_of, draft_of};
ghost use Rattle.holder_answers.specs.Run.{fresh_holder};
ghost use Rattle.holder_values.specs.Values.{kept, reached};

use calls::{Action, Answer, Call, Question, Reading};
use chart::{Point, Refusal};
use holder_answers::Draft;
use holder_memory::{HEADS, LETTERS, NUMBERS, ROW_BYTES};

// The letters of the drafts, the rows and the edges of the slots, and the heads.
#[repr(C)]
#[derive(Clone, Copy)]
pub struct Holder {
    pub letters: [u8; LETTERS],
    pub rows: [u8; ROW_BYTES],
    pub numbers: [i16; NUMBERS],
    pub heads: [u16; HEADS],
}

// A reply, and the next holder.
#[derive(Clone, Copy)]
pub struct Answered {
    pub reply: Result<Answer, Refusal>,
    pub holder: Holder,
}

// What a party drafts, and the holder.
#[derive(Clone, Copy)]
pub struct Drafted {
    pub drafting: Result<Draft, Refusal>,
    pub holder: Holder,
}

// A fresh holder.
pub fn fresh() -> Holder
    ensures { kept result ≡ fresh_holder }
{
    Holder {
        letters: [0; LETTERS],
        rows: [0; ROW_BYTES],
        numbers: [0; NUMBERS],
        heads: [0; HEADS],
    }
}

impl Holder {
    // Any call.
    pub fn answer(self, call: Call) -> Answered
        ensures { reached result ≡ answer_of (kept self) call }
    {
        let party = call.party;
        let action = call.action;
        match action {
            Action::Begin { start } => self.begin(party, start),
            Action::Add { letter } => self.add(party, letter),
            Action::Drop => self.drop(party),
            Action::Clear { place } => self.clear(party, place),
            Action::Close { place } => self.close(party, place),
            Action::Ask { place, question } => self.ask(party, place, question),
        }
    }

    pub fn ask(self, party: u8, place: u8, question: Question) -> Answered
        ensures { reached result ≡ answer_of (kept self) (by party (Action.Ask place question)) }
    {
        match question {
            Question::Cell(cell) => self.query(party, place, cell),
            Question::Row(row) => self.row(party, place, row),
            Question::Reading(reading) => self.reading(party, place, reading),
            Question::Piece(position) => self.piece(party, place, position),
        }
    }

    pub fn begin(mut self, party: u8, start: Point) -> Answered
        ensures { reached result ≡ answer_of (kept self) (by party (Action.Begin start)) }
    {
        let reply = holder_calls::begin(&mut self.heads, party, start);
        Answered {
            reply,
            holder: self,
        }
    }

    pub fn drop(mut self, party: u8) -> Answered
        ensures { reached result ≡ answer_of (kept self) (by party Action.Drop) }
    {
        let reply = holder_calls::drop(&mut self.heads, party);
        Answered {
            reply,
            holder: self,
        }
    }

    pub fn clear(mut self, party: u8, place: u8) -> Answered
        ensures { reached result ≡ answer_of (kept self) (by party (Action.Clear place)) }
    {
        let reply = holder_calls::clear(&mut self.heads, party, place);
        Answered {
            reply,
            holder: self,
        }
    }

    pub fn query(self, party: u8, place: u8, cell: Point) -> Answered
        ensures { reached result ≡ answer_of (kept self) (by party (Action.Ask place (Question.Cell cell))) }
    {
        let reply = holder_calls::query(&self.rows, &self.heads, party, place, cell);
        Answered {
            reply,
            holder: self,
        }
    }

    pub fn row(self, party: u8, place: u8, row: u16) -> Answered
        ensures { reached result ≡ answer_of (kept self) (by party (Action.Ask place (Question.Row row))) }
    {
        let reply = holder_calls::row(&self.rows, &self.heads, party, place, row);
        Answered {
            reply,
            holder: self,
        }
    }

    pub fn reading(self, party: u8, place: u8, reading: Reading) -> Answered
        ensures { reached result ≡ answer_of (kept self) (by party (Action.Ask place (Question.Reading reading))) }
    {
        let reply = holder_calls::reading(&self.numbers, &self.heads, party, place, reading);
        Answered {
            reply,
            holder: self,
        }
    }

    pub fn piece(self, party: u8, place: u8, position: u16) -> Answered
        ensures { reached result ≡ answer_of (kept self) (by party (Action.Ask place (Question.Piece position))) }
    {
        let reply = holder_calls::piece(&self.numbers, &self.heads, party, place, position);
        Answered {
            reply,
            holder: self,
        }
    }

    pub fn draft(self, party: u8) -> Drafted
        ensures { (result.drafting ≡ draft_of (kept self) party) × (result.holder ≡ self) }
    {
        let drafting = holder_calls::draft(&self.heads, party);
        Drafted {
            drafting,
            holder: self,
        }
    }

    pub fn add(mut self, party: u8, letter: u8) -> Answered
        ensures { reached result ≡ answer_of (kept self) (by party (Action.Add letter)) }
    {
        let reply = holder_calls::add(&mut self.letters, &mut self.heads, party, letter);
        Answered {
            reply,
            holder: self,
        }
    }

    pub fn close(mut self, party: u8, place: u8) -> Answered
        ensures answer { reached result ≡ answer_of (kept self) (by party (Action.Close place)) }
        ensures named { CellNamed (draft_in (kept self) party) (reply_fields result.reply) }
    {
        let reply = holder_closes::close(
            &self.letters,
            &mut self.rows,
            &mut self.numbers,
            &mut self.heads,
            party,
            place,
        );
        Answered {
            reply,
            holder: self,
        }
    }
}
