// Lane calls: one call, a run of call records into answer records, and one turn of the desk.

#![tactic(auto)]

ghost use Rattle.std.specs.Prelude.{◌≡◌, ◌*◌, ◌/◌, ◌≤◌, cond, ◌&&◌, leb, length, take};
ghost use Rattle.records.specs.Format.{answer_bytes, call_bytes, put_at};
ghost use Rattle.steps.specs.Store.{lent};
ghost use Rattle.steps.specs.Step.{outcome, step};
ghost use Rattle.lanes.specs.Serve.{serving, serve_into};
ghost use Rattle.lanes.specs.Desk.{desk_words, more_after, at_end, turn_on, fresh_desk, turned_in, turn_put, turn_into};

use cells::Cell;
use records::{ANSWER_BYTES, CALL_BYTES, Call, Refusal, Reply};
use steps::{Answered, Board};

pub mod stream;

// Why serving stopped: fewer bytes than a call record are left, bytes that are no call, or no room for one more answer.
#[derive(Clone, Copy, Debug, PartialEq, Eq)]
pub enum Stop {
    End = 0,
    Record = 1,
    Room = 2,
}

// How far serving got: the new record, how many bytes of calls were taken and of answers written, and why it stopped.
#[derive(Clone, Copy, Debug, PartialEq, Eq)]
pub struct Served {
    pub board: Board,
    pub taken: usize,
    pub written: usize,
    pub stop: Stop,
}

// The step that a call names.
pub fn call(board: Board, cells: &mut [u32], call: Call) -> Answered
    ensures { outcome result cells.new ≡ step (lent board cells.old) call }
{
    match call {
        Call::Start { place } => board.start(cells, place),
        Call::Read { place, key } => board.read(cells, place, key),
        Call::Update { place, key, value } => board.update(cells, place, key, value),
        Call::Prepare { place } => board.prepare(cells, place),
        Call::Commit { place } => board.commit(cells, place),
        Call::Rollback { place } => board.rollback(cells, place),
    }
}

// RECORD with place 0 and value 0.
const NO_CALL: Reply = Reply {
    place: 0,
    answer: Err(Refusal::Record),
};

// Answers call records one after another: to the end of the whole records, to bytes that are no call (RECORD is written for them, and
// they are not taken), or until no room is left for one more answer.
pub fn serve(mut board: Board, cells: &mut [u32], calls: &[u8], answers: &mut [u8]) -> Served
    ensures { serving result cells.new answers.new
        ≡ serve_into (lent board cells.old) calls.now answers.old }
{
    let whole = calls.len() / CALL_BYTES;
    let records = whole.min(answers.len() / ANSWER_BYTES);
    // By offsets: once a `chunks_exact_mut` over `answers` is done, a proof knows nothing of what was written through it.
    for i in 0..records {
        let (at, to) = (CALL_BYTES * i, ANSWER_BYTES * i);
        let Some(c) = records::read::<Call>(calls, at) else {
            let _ = records::write(answers, to, NO_CALL);
            return Served {
                board,
                taken: at,
                written: to + ANSWER_BYTES,
                stop: Stop::Record,
            };
        };
        let done = call(board, cells, c);
        let (place, answer) = (records::place_of(c), done.answer);
        // A value goes into its four bytes, so the answer is written; the proof rests on this line.
        prove!(records::value(answer) <= u32::MAX);
        let _ = records::write(answers, to, Reply { place, answer });
        board = done.board;
    }
    Served {
        board,
        taken: CALL_BYTES * records,
        written: ANSWER_BYTES * records,
        stop: last_stop(whole, records),
    }
}

// Why serving stopped after records that were all calls.
fn last_stop(whole: usize, records: usize) -> Stop
    ensures { result ≡ cond (leb whole records) Stop.End Stop.Room }
{
    if whole <= records {
        Stop::End
    } else {
        Stop::Room
    }
}

// The desk between two turns: the record, and how many bytes at the front of its input are a cut record. The bytes themselves lie with
// the caller, since the desk's memory is fixed and lent.
#[derive(Clone, Copy, Debug, PartialEq, Eq)]
pub struct Desk {
    pub board: Board,
    pub left: usize,
}

// What a turn came to: the desk after it, how many bytes of answers there are to send, and whether there is more to do.
#[derive(Clone, Copy, Debug, PartialEq, Eq)]
pub struct Turned {
    pub desk: Desk,
    pub written: usize,
    // A flag beside values: they hold either way, as the desk has to send what it wrote after its last turn too.
    pub more: bool,
}

impl Desk {
    // A turn answers at most so many calls.
    pub const CALLS: usize = 1000;

    // Its input: so many calls, and all but a byte of one more.
    pub const INPUT: usize = CALL_BYTES * Self::CALLS + (CALL_BYTES - 1);

    // Its output: an answer to each.
    pub const OUTPUT: usize = ANSWER_BYTES * Self::CALLS;

    // The words of its cells.
    pub const WORDS: usize = Cell::WORDS * Board::CELLS;

    // A fresh board, and no byte left.
    pub fn fresh() -> Self
        ensures { result ≡ fresh_desk }
    {
        Desk {
            board: Board::fresh(),
            left: 0,
        }
    }

    // 1,024 cells, every word 0.
    #[tactic(auto, unfolding(cells::specs::Cells::words_of))]
    pub fn words() -> [u32; Desk::WORDS]
        ensures { result ≡ desk_words }
    {
        [0; Desk::WORDS]
    }

    // One turn: `got` bytes of the input stand in `bytes` behind those that are left; none is the end of the input. Says how many bytes
    // of `answers` to send, and whether there is more to do. What is lent has room for the answers to all that goes in.
    pub fn turn(
        self,
        cells: &mut [u32; Desk::WORDS],
        bytes: &mut [u8; Desk::INPUT],
        got: usize,
        answers: &mut [u8; Desk::OUTPUT],
    ) -> Turned
        ensures { turned_in result cells.new bytes.new answers.new
            ≡ turn_into self cells.old bytes.old got answers.old }
    {
        let left = self.left.min(bytes.len());
        if got == 0 {
            return Turned {
                desk: Desk { left, ..self },
                written: finish(left, answers),
                more: false,
            };
        }
        let have = left + got.min(bytes.len() - left);
        turn_on(self.board, cells, bytes, have, answers)
    }
}

impl Turned {
    // For a loop of a caller's own: whether the desk goes on, as there is more to do, and what it had to send was sent.
    pub fn goes_on(self, sent: bool) -> bool
        ensures { result ≡ (self.more && sent) }
    {
        self.more && sent
    }
}

// Answers all whole records in the first `have` bytes, and moves what is left of these to the front.
fn turn_on(
    board: Board,
    cells: &mut [u32],
    bytes: &mut [u8],
    have: usize,
    answers: &mut [u8],
) -> Turned
    requires { (have ≤ length bytes.old) × (answer_bytes * (have / call_bytes) ≤ length answers.old) }
    ensures { turned_in result cells.new bytes.new answers.new
        ≡ turn_put bytes.old answers.old (turn_on (lent board cells.old) (take have bytes.old)) }
{
    let s = serve(board, cells, &bytes[..have], answers);
    bytes.copy_within(s.taken..have, 0);
    Turned {
        desk: Desk {
            board: s.board,
            left: have - s.taken,
        },
        written: s.written,
        more: more_after(s.stop),
    }
}

// Whether there is more to do after such a stop.
fn more_after(stop: Stop) -> bool
    ensures { result ≡ more_after stop }
{
    stop == Stop::End
}

// The end of the input, with so many bytes left: writes RECORD for a cut record, and says how many bytes were written.
fn finish(left: usize, answers: &mut [u8]) -> usize
    requires { answer_bytes ≤ length answers.old }
    ensures { (result ≡ length (at_end left)) × (answers.new ≡ put_at answers.old 0 (at_end left)) }
{
    if left == 0 {
        return 0;
    }
    let _ = records::write(answers, 0, NO_CALL);
    ANSWER_BYTES
}
