// Stored streams of call records, served in pieces of several sizes by what the desk makes of standard input and output. A line for each
// check: the answers are those that are stored beside the stream.

#![tactic(auto)]

ghost use Rattle.std.specs.Prelude.{◌≡◌, ◌≤◌, ◌++◌, Some, OnOk, length, take};
ghost use Rattle.lanes.specs.Desk.{desk_of};

use lanes::{Desk, Stop, stream};
use std::io::{Read, Write};
use std::rt::Files;
use std::{fs, io};
use steps::Board;

// The room for a file, and for what is served of it.
const ROOM: usize = 65536;

// The streams, and where the answers to each are stored.
const STREAMS: [(&str, &str); 21] = [
    ("empty", "empty.answers"),
    ("example", "example.answers"),
    ("out_of_range", "out_of_range.answers"),
    // A record cut at each length, at the end of the input.
    ("cut_1", "cut_1.answers"),
    ("cut_2", "cut_2.answers"),
    ("cut_3", "cut_3.answers"),
    ("cut_4", "cut_4.answers"),
    ("cut_5", "cut_5.answers"),
    ("cut_6", "cut_6.answers"),
    ("cut_7", "cut_7.answers"),
    ("cut_8", "cut_8.answers"),
    ("cut_9", "cut_9.answers"),
    // Bytes that are no call, with calls before and behind them.
    ("bad_first", "bad_first.answers"),
    ("bad_mark", "bad_mark.answers"),
    ("bad_kind_0", "bad_kind_0.answers"),
    ("bad_kind_7", "bad_kind_7.answers"),
    ("bad_key", "bad_key.answers"),
    ("bad_value", "bad_value.answers"),
    // Many calls of every kind; the second ends in a cut record, the third is longer than a turn's input and has bytes that are no call
    // midway.
    ("mixed", "mixed.answers"),
    ("mixed_cut", "mixed_cut.answers"),
    ("bad_midway", "bad_midway.answers"),
];

// How many bytes a read brings at most: one, less than a record, a record, more, and all that there is room for.
const SIZES: [usize; 5] = [1, 3, 10, 64, 65536];

// How many bytes there is room for, for the 24 of the example's answers: too little, just enough, and more.
const ROOMS: [usize; 6] = [0, 7, 8, 23, 24, 65536];

// Every stream in pieces of every size, then the example with every room. A line that does not go out is left out, and the run goes on.
fn main(rt: HostRuntime) {
    let mut input = [0; ROOM];
    let mut want = [0; ROOM];
    for (name, stored) in STREAMS {
        let n = load(&rt, name, &mut input);
        let m = load(&rt, stored, &mut want);
        for size in SIZES {
            in_pieces(&rt, name, &input[..n], size, &want[..m]);
        }
    }
    let n = load(&rt, "example", &mut input);
    for room in ROOMS {
        with_room(&rt, &input[..n], room);
    }
}

// Reads a file into a buffer, and says how many bytes it has: none of a file that cannot be opened.
fn load(rt: &(impl Files + Eprint), name: &str, buffer: &mut [u8]) -> usize
    ensures { (result ≤ length buffer.new) × (result ≡ length (take result buffer.new)) }
{
    match fs::open(rt, name) {
        Ok(mut file) => read_full(&mut file, buffer),
        Err(error) => {
            let _ = eprintln!(rt; "{name}: {error}");
            0
        }
    }
}

// Reads until the buffer is full, the file ends or a read fails, and says how many bytes came.
fn read_full(file: &mut impl Read, buffer: &mut [u8]) -> usize
    ensures { (result ≤ length buffer.new) × (result ≡ length (take result buffer.new)) }
{
    let mut done = 0;
    while done < buffer.len() {
        let n = file.read(&mut buffer[done..]).unwrap_or(0);
        if n == 0 {
            break;
        }
        done += n;
    }
    done
}

// Bytes that a reader brings in pieces of at most so many, and of one at least.
#[derive(Drop)]
struct Pieces<'a> {
    rest: &'a [u8],
    size: usize,
}

impl Read for Pieces<'_> {
    ghost remaining = { λ p. Some p.rest.now };

    fn read(&mut self, buf: &mut [u8]) -> io::Result<usize> {
        let n = self.size.max(1).min(buf.len());
        self.rest.read(&mut buf[..n])
    }
}

// The bytes that a writer has taken, as far as there is room for them.
#[derive(Drop)]
struct Taken {
    bytes: [u8; ROOM],
    count: usize,
}

impl Taken {
    // None yet.
    fn none() -> Taken
        ensures { result.count ≡ 0 }
    {
        Taken {
            bytes: [0; ROOM],
            count: 0,
        }
    }
}

impl Write for Taken {
    ghost contents = { λ t. Some (take t.count t.bytes) };

    fn write(&mut self, buf: &[u8]) -> io::Result<usize> {
        if ROOM <= self.count {
            return Ok(0);
        }
        let n = buf.len().min(ROOM - self.count);
        self.bytes[self.count..self.count + n].copy_from_slice(&buf[..n]);
        self.count += n;
        Ok(n)
    }

    fn flush(&mut self) -> io::Result<()> {
        Ok(())
    }
}

// What the desk writes for the input in pieces of a size, behind what was taken before.
fn served(input: &[u8], size: usize, answers: &mut Taken) -> io::Result<()>
    ensures { OnOk result (take answers.new.count answers.new.bytes ≡ take answers.old.count answers.old.bytes ++ desk_of input.now) }
{
    stream::desk(&mut Pieces { rest: input, size }, answers)
}

// Serves the input in pieces of a size, and compares the answers with those that are stored.
fn in_pieces(rt: &impl Print, name: &str, input: &[u8], size: usize, want: &[u8]) {
    let mut answers = Taken::none();
    let _ = served(input, size, &mut answers);
    let count = answers.count;
    let verdict = if answers.bytes.get(..count) == Some(want) {
        "as stored"
    } else {
        "NOT AS STORED"
    };
    let _ = println!(rt; "{name} in pieces of {size}: {count} bytes, {verdict}");
}

// How far serving gets with room for so many bytes of answers, and why it stops.
fn with_room(rt: &impl Print, input: &[u8], room: usize) {
    let mut answers = [0; ROOM];
    let Some(lent) = answers.get_mut(..room) else {
        return;
    };
    let s = lanes::serve(Board::fresh(), &mut Desk::words(), input, lent);
    let stop = match s.stop {
        Stop::End => "END",
        Stop::Record => "RECORD",
        Stop::Room => "ROOM",
    };
    let _ = println!(rt;
        "example with room for {room}: {} taken, {} written, {stop}",
        s.taken, s.written
    );
}
