// The situations on the road, run on real boards: 1 to 10 again, and 11. Each call is made twice: as a value on one board, and on another
// as bytes, as a console sends it. A line for each row: what was called, and what came back.

#![tactic(auto)]

mod rows;

use cells::Cell;
use records::{Answer, Call, Refusal, Reply};
use rows::{Row, SITUATIONS};
use std::fmt;
use steps::Board;

fn main(rt: HostRuntime) {
    // A part of a line that does not go out is left out, and the run goes on.
    Run::fresh().all(&rt);
}

// One of the two boards: its record, its words, and how many of these are lent. The words lie in it, so that the program
// stands on nothing of the system but printing.
#[derive(Drop)]
struct Side {
    board: Board,
    words: [u32; Side::WORDS],
    length: usize,
}

impl Side {
    // The most words that a situation lends.
    const WORDS: usize = 4100;

    // A fresh board of so many words.
    fn fresh(length: usize) -> Side {
        Side {
            board: Board::fresh(),
            words: [0; Side::WORDS],
            length,
        }
    }

    // The words that are lent. The length is cut here, since a ghost field that bounds it does not go with lending the words on.
    fn lent(&mut self) -> &mut [u32] {
        let lent = self.length.min(Side::WORDS);
        &mut self.words[..lent]
    }

    // A call as a value.
    fn call(&mut self, call: Call) -> Answer {
        let answered = lanes::call(self.board, self.lent(), call);
        self.board = answered.board;
        answered.answer
    }

    // A call as a console sends it: its record is written, the record is served, and the answer's record is read. A call that has no
    // record goes nowhere: RECORD.
    fn send(&mut self, call: Call) -> Result<Reply, Refusal> {
        let mut asked = [0; records::CALL_BYTES];
        let mut told = [0; records::ANSWER_BYTES];
        records::write(&mut asked, 0, call)?;
        let served = lanes::serve(self.board, self.lent(), &asked, &mut told);
        self.board = served.board;
        records::read(&told, 0).ok_or(Refusal::Record)
    }

    // The four words of a cell; four zeros where there is no such cell.
    fn cell(&self, number: usize) -> Cell {
        cells::cell_at(&self.words, number)
    }
}

// The run: the board that calls go to as values and the one that they go to as bytes, and how many checks there were and were wrong.
#[derive(Drop)]
struct Run {
    by_value: Side,
    as_bytes: Side,
    checks: u32,
    wrong: u32,
}

impl Run {
    fn fresh() -> Run {
        Run {
            by_value: Side::fresh(0),
            as_bytes: Side::fresh(0),
            checks: 0,
            wrong: 0,
        }
    }

    // Every situation, then how many checks there were and how many were wrong.
    fn all(&mut self, rt: &impl Print) {
        for (situation, rows) in (1u32..).zip(SITUATIONS) {
            for (step, row) in rows.iter().enumerate() {
                let _ = print!(rt; "{situation}.{step} ");
                self.row(rt, *row);
            }
        }
        let _ = println!(rt; "{} checks, {} wrong", self.checks, self.wrong);
    }

    // One row.
    fn row(&mut self, rt: &impl Print, row: Row) {
        match row {
            Row::Fresh(words) => {
                self.by_value = Side::fresh(words);
                self.as_bytes = Side::fresh(words);
                let _ = println!(rt; "board {words}");
            }
            Row::GoesOn => {
                let _ = println!(rt; "goes on");
            }
            Row::Called(call, wanted) => self.called(rt, call, wanted),
            Row::Holds(number, wanted) => self.holds(rt, number, wanted),
        }
    }

    // A call, as a value on one board and as bytes on the other.
    fn called(&mut self, rt: &impl Print, call: Call, wanted: Answer) {
        let answer = self.by_value.call(call);
        let reply = self.as_bytes.send(call);
        let sent = reply.and_then(|reply| reply.answer);
        let _ = print!(rt; "{}", Asked(call));
        self.check(
            rt,
            Said(answer),
            (answer != wanted).then_some(Said(wanted)),
            (reply != reply_to(call, wanted)).then_some(Said(sent)),
        );
    }

    // The four words of a cell, the same on both boards.
    fn holds(&mut self, rt: &impl Print, number: usize, wanted: Cell) {
        let cell = self.by_value.cell(number);
        let sent = self.as_bytes.cell(number);
        let _ = print!(rt; "cell {number}");
        self.check(
            rt,
            Words(cell),
            (cell != wanted).then_some(Words(wanted)),
            (cell != sent).then_some(Words(sent)),
        );
    }

    // Says what came back; where document 01 says something else, what that is; and where something else came back as bytes, what that is.
    fn check<T: fmt::Display + Drop>(
        &mut self,
        rt: &impl Print,
        back: T,
        paper: Option<T>,
        bytes: Option<T>,
    ) {
        let wrong = paper.is_some() || bytes.is_some();
        self.checks = self.checks.saturating_add(1);
        self.wrong = self.wrong.saturating_add(u32::from(wrong));
        let _ = print!(rt; " -> {back}");
        if let Some(paper) = paper {
            let _ = print!(rt; ", document 01 says {paper}");
        }
        if let Some(bytes) = bytes {
            let _ = print!(rt; ", as bytes {bytes}");
        }
        let _ = println!(rt);
    }
}

// What is to come back as bytes: the answer with the call's place, or RECORD for a call whose place or key does not go into its record.
fn reply_to(call: Call, answer: Answer) -> Result<Reply, Refusal> {
    let place = records::place_of(call);
    if place < 256 && records::key_of(call) < 65536 {
        Ok(Reply { place, answer })
    } else {
        Err(Refusal::Record)
    }
}

// A call: the kind, the place, the key if it names one, and the value if it names one.
#[derive(Clone, Copy)]
struct Asked(Call);

impl fmt::Display for Asked {
    fn fmt<W: fmt::Write>(&self, f: &mut fmt::Formatter<W>) -> fmt::Result {
        match self.0 {
            Call::Start { place } => write!(f, "start {place}"),
            Call::Read { place, key } => write!(f, "read {place} {key}"),
            Call::Update { place, key, value } => write!(f, "update {place} {key} {value}"),
            Call::Prepare { place } => write!(f, "prepare {place}"),
            Call::Commit { place } => write!(f, "commit {place}"),
            Call::Rollback { place } => write!(f, "rollback {place}"),
        }
    }
}

// An answer's name and value.
#[derive(Clone, Copy)]
struct Said(Answer);

impl fmt::Display for Said {
    fn fmt<W: fmt::Write>(&self, f: &mut fmt::Formatter<W>) -> fmt::Result {
        match self.0 {
            Ok(value) => write!(f, "OK {value}"),
            Err(refusal) => write!(f, "{refusal} 0"),
        }
    }
}

// A cell's four words.
#[derive(Clone, Copy)]
struct Words(Cell);

impl fmt::Display for Words {
    fn fmt<W: fmt::Write>(&self, f: &mut fmt::Formatter<W>) -> fmt::Result {
        let c = self.0;
        write!(f, "{} {} {} {}", c.word, c.value, c.number, c.commit)
    }
}
