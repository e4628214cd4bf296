// Calls and answers, and their records: a call's ten bytes, an answer's eight.

#![tactic(auto)]

ghost use Rattle.std.specs.Prelude.{ℕ, Bool, List, [], Option, Some, None, ◌&&◌, ◌≡◌, take, drop};
ghost use Rattle.records.specs.Answers.{number_of, name_of, value_of, place_of};
ghost use Rattle.records.specs.Format.{call_bytes, call_fits, call_record, call_in, kind_of, key_of, new_value_of, call_of};
ghost use Rattle.records.specs.Format.{answer_bytes, reply_fits, answer_record, answer_in, answer_of};
ghost use Rattle.records.specs.Format.{goes_in, wrote, written};
ghost use Rattle.records.specs.Kinds.{call_in_none, answer_in_none};

use std::error::Error;
use std::fmt;

#[derive(Clone, Copy, Debug, PartialEq, Eq)]
pub enum Call {
    Start { place: u32 },
    Read { place: u32, key: u32 },
    Update { place: u32, key: u32, value: u32 },
    Prepare { place: u32 },
    Commit { place: u32 },
    Rollback { place: u32 },
}

// Why a call is refused, with the number that document 01 gives it.
#[derive(Clone, Copy, Debug, PartialEq, Eq)]
pub enum Refusal {
    Board = 1,
    Place = 2,
    Busy = 3,
    Idle = 4,
    Worn = 5,
    Spoiled = 6,
    Held = 7,
    Key = 8,
    Conflict = 9,
    Prepared = 10,
    Full = 11,
    Record = 12,
}

// By its name.
impl fmt::Display for Refusal {
    ghost output = { λ r. Some (name_of r) };

    fn fmt<W: fmt::Write>(&self, f: &mut fmt::Formatter<W>) -> fmt::Result {
        f.write_str(match self {
            Refusal::Board => "BOARD",
            Refusal::Place => "PLACE",
            Refusal::Busy => "BUSY",
            Refusal::Idle => "IDLE",
            Refusal::Worn => "WORN",
            Refusal::Spoiled => "SPOILED",
            Refusal::Held => "HELD",
            Refusal::Key => "KEY",
            Refusal::Conflict => "CONFLICT",
            Refusal::Prepared => "PREPARED",
            Refusal::Full => "FULL",
            Refusal::Record => "RECORD",
        })
    }
}

impl Error for Refusal {}

// What comes back: OK with a value, or a refusal.
pub type Answer = Result<u32, Refusal>;

// An answer with the place byte of its record.
#[derive(Clone, Copy, Debug, PartialEq, Eq)]
pub struct Reply {
    pub place: u32,
    pub answer: Answer,
}

// A call's record is ten bytes, an answer's eight.
pub const CALL_BYTES: usize = 10;

pub const ANSWER_BYTES: usize = 8;

// One kind of record: how many bytes it is, which values have one, and which bytes those are.
pub trait Record: Copy {
    ghost size: { ℕ };

    ghost fits: { Self → Bool };

    ghost bytes: { Self → List ℕ };

    ghost found: { List ℕ → Option Self };

    // The value whose record stands at the front of the bytes.
    fn find(s: &[u8]) -> Option<Self>
        ensures { result ≡ found (take size s.now) };

    // Puts the value's record at the front of the bytes: OK with 0, or RECORD with every byte as it was. Each kind asks for its own room, since
    // its record is an array of its own length.
    fn put(self, s: &mut [u8]) -> Answer
        ensures { wrote result s.new ≡ written (fits self) s.old 0 (bytes self) };

    // No record stands in no bytes. A law's proof has to stand in specs/, so what else holds of both kinds is theorems of each (`Promises`).
    ghost found_none: { found [] ≡ None };
}

// Takes the record at an offset: the value that it is of; none, which is RECORD, where no record stands.
pub fn read<R: Record>(bytes: &[u8], at: usize) -> Option<R>
    ensures { result ≡ R.found (take R.size (drop at bytes.now)) }
{
    R::find(bytes.get(at..)?)
}

// Writes a value's record from an offset: OK with 0, or RECORD with every byte as it was. An answer and no `Result<(), _>`, since document
// 01 gives it a value too.
pub fn write<R: Record>(bytes: &mut [u8], at: usize, value: R) -> Answer
    ensures { wrote result bytes.new ≡ written (R.fits value) bytes.old at (R.bytes value) }
{
    if bytes.len() < at {
        return Err(Refusal::Record);
    }
    value.put(&mut bytes[at..])
}

// A call's record: 43 4C, kind, place byte, key in two bytes, value in four.
impl Record for Call {
    ghost size = { call_bytes };

    ghost fits = { call_fits };

    ghost bytes = { call_record };

    ghost found = { call_in };

    ghost found_none = { call_in_none };

    fn find(s: &[u8]) -> Option<Call> {
        let &[c, l, kind, place, k0, k1, v0, v1, v2, v3, ..] = s else {
            return None;
        };
        let key = u32::from(u16::from_le_bytes([k0, k1]));
        let value = u32::from_le_bytes([v0, v1, v2, v3]);
        let call = call_of(kind, u32::from(place), key, value);
        let marked = (c == MARK_C) & (l == MARK_L);
        let named = (kind == kind_of(call))
            & ((key == key_of(call)) & (value == new_value_of(call)));
        (marked & named).then_some(call)
    }

    fn put(self, s: &mut [u8]) -> Answer {
        if s.len() < CALL_BYTES {
            return Err(Refusal::Record);
        }
        if !goes_in(place_of(self), key_of(self), new_value_of(self)) {
            return Err(Refusal::Record);
        }
        let kind = kind_of(self);
        let [place, ..] = place_of(self).to_le_bytes();
        let [k0, k1, ..] = key_of(self).to_le_bytes();
        let [v0, v1, v2, v3] = new_value_of(self).to_le_bytes();
        s[..CALL_BYTES].copy_from_slice(&[MARK_C, MARK_L, kind, place, k0, k1, v0, v1, v2, v3]);
        Ok(0)
    }
}

// An answer's record: 41 4E, refusal number 0 to 12, place byte, value in four bytes.
impl Record for Reply {
    ghost size = { answer_bytes };

    ghost fits = { reply_fits };

    ghost bytes = { answer_record };

    ghost found = { answer_in };

    ghost found_none = { answer_in_none };

    fn find(s: &[u8]) -> Option<Reply> {
        let &[a, n, no, place, v0, v1, v2, v3, ..] = s else {
            return None;
        };
        let val = u32::from_le_bytes([v0, v1, v2, v3]);
        let answer = answer_of(no, val);
        let reply = Reply {
            place: u32::from(place),
            answer,
        };
        let marked = (a == MARK_A) & (n == MARK_N);
        let named = (no == number(answer)) & (val == value(answer));
        (marked & named).then_some(reply)
    }

    fn put(self, s: &mut [u8]) -> Answer {
        if s.len() < ANSWER_BYTES {
            return Err(Refusal::Record);
        }
        if !goes_in(self.place, 0, value(self.answer)) {
            return Err(Refusal::Record);
        }
        let no = number(self.answer);
        let [place, ..] = self.place.to_le_bytes();
        let [v0, v1, v2, v3] = value(self.answer).to_le_bytes();
        s[..ANSWER_BYTES].copy_from_slice(&[MARK_A, MARK_N, no, place, v0, v1, v2, v3]);
        Ok(0)
    }
}

// The marks: CL before a call, AN before an answer.
const MARK_C: u8 = 0x43;

const MARK_L: u8 = 0x4c;

const MARK_A: u8 = 0x41;

const MARK_N: u8 = 0x4e;

// The number that document 01 gives an answer.
pub fn number(a: Answer) -> u8
    ensures { result ≡ number_of a }
{
    match a {
        Ok(_) => 0,
        Err(refusal) => refusal as u8,
    }
}

// The value of an answer: a refusal's is 0.
pub fn value(a: Answer) -> u32
    ensures { result ≡ value_of a }
{
    a.unwrap_or(0)
}

// The place that a call names.
pub fn place_of(c: Call) -> u32
    ensures { result ≡ place_of c }
{
    match c {
        Call::Start { place }
        | Call::Read { place, .. }
        | Call::Update { place, .. }
        | Call::Prepare { place }
        | Call::Commit { place }
        | Call::Rollback { place } => place,
    }
}

// The kind of a call in its record, where it is a byte.
fn kind_of(c: Call) -> u8
    ensures { result ≡ kind_of c }
{
    match c {
        Call::Start { .. } => 1,
        Call::Read { .. } => 2,
        Call::Update { .. } => 3,
        Call::Prepare { .. } => 4,
        Call::Commit { .. } => 5,
        Call::Rollback { .. } => 6,
    }
}

// The key that a call names, in its record too: zero except in kinds 2 and 3.
pub fn key_of(c: Call) -> u32
    ensures { result ≡ key_of c }
{
    match c {
        Call::Read { key, .. } | Call::Update { key, .. } => key,
        _ => 0,
    }
}

// The value of a call in its record: zero except in kind 3.
fn new_value_of(c: Call) -> u32
    ensures { result ≡ new_value_of c }
{
    match c {
        Call::Update { value, .. } => value,
        _ => 0,
    }
}

// Whether a place goes into a byte and a key into two; a value always goes into four.
fn goes_in(place: u32, key: u32, value: u32) -> bool
    ensures { result ≡ (goes_in 1 place && (goes_in 2 key && goes_in 4 value)) }
{
    (place < 256) & (key < 65536)
}

// The call that a record's kind, place, key and value name. A byte that is no kind gives a call of another kind, which `find` refuses, so
// no `TryFrom` with an error of its own is needed.
fn call_of(kind: u8, place: u32, key: u32, value: u32) -> Call
    ensures { result ≡ call_of kind place key value }
{
    match kind {
        1 => Call::Start { place },
        2 => Call::Read { place, key },
        3 => Call::Update { place, key, value },
        4 => Call::Prepare { place },
        5 => Call::Commit { place },
        _ => Call::Rollback { place },
    }
}

// The answer that a record's number and value name. A byte past 12 gives RECORD, which `find` refuses in the same way.
fn answer_of(number: u8, value: u32) -> Answer
    ensures { result ≡ answer_of number value }
{
    match number {
        0 => Ok(value),
        1 => Err(Refusal::Board),
        2 => Err(Refusal::Place),
        3 => Err(Refusal::Busy),
        4 => Err(Refusal::Idle),
        5 => Err(Refusal::Worn),
        6 => Err(Refusal::Spoiled),
        7 => Err(Refusal::Held),
        8 => Err(Refusal::Key),
        9 => Err(Refusal::Conflict),
        10 => Err(Refusal::Prepared),
        11 => Err(Refusal::Full),
        _ => Err(Refusal::Record),
    }
}
