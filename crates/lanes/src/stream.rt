// The desk over a reader and a writer, turn after turn.

ghost use Rattle.std.specs.Prelude.{◌≡◌, OnOk};
ghost use Rattle.lanes.specs.Loop.{Ran, AllServed};

use crate::Desk;
use std::io;
use std::io::{Read, Write};

// What the desk program does: on a fresh board it reads call records to the end and writes an answer to each. A read that fails ends
// the input as its end does, and its error is handed back once what came before it is answered; a write that fails ends it at once.
pub fn desk<R: Read, W: Write>(input: &mut R, output: &mut W) -> io::Result<()>
    ensures { OnOk result (AllServed (R.remaining input.old) (W.contents output.old) (W.contents output.new)) }
{
    run(
        input,
        output,
        &mut [0; Desk::WORDS],
        &mut [0; Desk::INPUT],
        &mut [0; Desk::OUTPUT],
    )
}

// The same in memory that the caller lends, whatever is in it. Turn after turn: a read behind the bytes that are left, the answers to the
// whole records that there are then, and a write. It stops at the end of the input or at bytes that are no call. No input outlasts the
// count of turns.
pub fn run<R: Read, W: Write>(
    input: &mut R,
    output: &mut W,
    cells: &mut [u32; Desk::WORDS],
    bytes: &mut [u8; Desk::INPUT],
    answers: &mut [u8; Desk::OUTPUT],
) -> io::Result<()>
    ensures ran { Ran bytes.old answers.old cells.new bytes.new answers.new }
    ensures served { OnOk result (AllServed (R.remaining input.old) (W.contents output.old) (W.contents output.new)) }
{
    *cells = Desk::words();
    let mut desk = Desk::fresh();
    for _turn in 0..u64::MAX {
        let read = input.read(&mut bytes[desk.left..]);
        let got = *read.as_ref().unwrap_or(&0);
        let t = desk.turn(cells, bytes, got, answers);
        output.write_all(&answers[..t.written])?;
        if !t.more {
            read?;
            return Ok(());
        }
        desk = t.desk;
    }
    Err(io::Error::from(io::ErrorKind::TimedOut))
}
