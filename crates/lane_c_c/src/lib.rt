// The archive for C: what `lane_c` has, exported under the same names and with the same promises.

#![tactic(auto)]

ghost use Rattle.std.specs.Prelude.{◌≡◌};
ghost use Rattle.lane_c.specs.Call.{crossed, lane_call};
ghost use Rattle.lane_c.specs.Serve.{handed, lane_serve};

use lane_c::LaneServed;

// One call on a record held as words: the refusal number in the upper and the value in the lower 32 bits.
#[unsafe(no_mangle)]
pub extern "C" fn lane_call(
    words: &mut [u32],
    cells: &mut [u32],
    kind: u32,
    place: u32,
    key: u32,
    value: u32,
) -> u64
    ensures { crossed result words.new cells.new ≡ lane_call words.old cells.old kind place key value }
{
    lane_c::lane_call(words, cells, kind, place, key, value)
}

// Call records answered one after another, on a record held as words.
#[unsafe(no_mangle)]
pub extern "C" fn lane_serve(
    words: &mut [u32],
    cells: &mut [u32],
    calls: &[u8],
    answers: &mut [u8],
) -> LaneServed
    ensures { handed result words.new cells.new answers.new
        ≡ lane_serve words.old cells.old calls.now answers.old }
{
    lane_c::lane_serve(words, cells, calls, answers)
}
