// The lane board for C and Rust: a record crosses as words.

#![tactic(auto)]

ghost use Rattle.std.specs.Prelude.{◌≡◌, length};
ghost use Rattle.records.specs.Answers.{number_of, value_of};
ghost use Rattle.lane_c.specs.Call.{call_named, upper, lower, crossed, step_on_words, lane_call};
ghost use Rattle.lane_c.specs.Serve.{why_of, handed, lane_serve};
ghost use Rattle.lane_c.specs.Words.{place_words, record_words, state_word, state_of, words_of_place, place_of_words, place_fits};
ghost use Rattle.lane_c.specs.Words.{record_of, words_of_record, well_formed};

use lanes::Stop;
use records::{Answer, Call, Refusal};
use std::array;
use steps::{Board, Place, State};

// How far `lane_serve` got: bytes of calls taken, bytes of answers written, and why it stopped.
#[repr(C)]
#[derive(Clone, Copy, Debug, PartialEq, Eq)]
pub struct LaneServed {
    pub taken: u64,
    pub written: u64,
    pub why: u32,
}

// How many words a place is.
const PLACE_WORDS: usize = 3;

// Behind the places, the start count and the commit count.
const STARTS: usize = PLACE_WORDS * Board::PLACES;

const COMMITS: usize = STARTS + 1;

// All words of a record.
const WORDS: usize = COMMITS + 1;

// One call on a record held as words: the refusal number in the upper and the value in the lower 32 bits.
#[unsafe(no_mangle)]
#[tactic(auto, unfolding(crate::specs::Call::lane_call))]
pub extern "C" fn lane_call(
    words: &mut [u32],
    cells: &mut [u32],
    kind: u32,
    place: u32,
    key: u32,
    value: u32,
) -> u64
    ensures { crossed result words.new cells.new ≡ lane_call words.old cells.old kind place key value }
{
    let Some(call) = call_named(kind, place, key, value) else {
        return answer_word(Err(Refusal::Record));
    };
    step_on_words(words, cells, call)
}

// Call records answered one after another, on a record held as words.
#[unsafe(no_mangle)]
#[tactic(auto, using(crate::proofs::Words::well_length), unfolding(crate::specs::Serve::lane_serve))]
pub extern "C" fn lane_serve(
    words: &mut [u32],
    cells: &mut [u32],
    calls: &[u8],
    answers: &mut [u8],
) -> LaneServed
    ensures { handed result words.new cells.new answers.new
        ≡ lane_serve words.old cells.old calls.now answers.old }
{
    if !well_formed(words) {
        // A number of the C interface: 3 is BOARD.
        return LaneServed {
            taken: 0,
            written: 0,
            why: 3,
        };
    }
    let before = load(words);
    let served = lanes::serve(before, cells, calls, answers);
    save(words, served.board);
    LaneServed {
        taken: served.taken as u64,
        written: served.written as u64,
        why: why_of(served.stop),
    }
}

// A call on a record held as words: BOARD where they are none, otherwise its step. That the words are asked about here and in `lane_serve`,
// and not in `load`: as an `Option`, `load` left a goal of `from_fn` open.
#[tactic(auto, using(crate::proofs::Words::well_length))]
fn step_on_words(words: &mut [u32], cells: &mut [u32], call: Call) -> u64
    ensures { crossed result words.new cells.new ≡ step_on_words words.old cells.old call }
{
    if !well_formed(words) {
        return answer_word(Err(Refusal::Board));
    }
    let before = load(words);
    let done = lanes::call(before, cells, call);
    save(words, done.board);
    answer_word(done.answer)
}

// The call that a kind names, a number of the C interface: one that is no kind is refused at once, and key and value are passed over where
// the kind has none, other than in a record.
fn call_named(kind: u32, place: u32, key: u32, value: u32) -> Option<Call>
    ensures { result ≡ call_named kind place key value }
{
    Some(match kind {
        1 => Call::Start { place },
        2 => Call::Read { place, key },
        3 => Call::Update { place, key, value },
        4 => Call::Prepare { place },
        5 => Call::Commit { place },
        6 => Call::Rollback { place },
        _ => return None,
    })
}

// An answer as one word: its number above its value.
fn answer_word(a: Answer) -> u64
    ensures { (upper result ≡ number_of a) × (lower result ≡ value_of a) }
{
    (u64::from(records::number(a)) << 32) | u64::from(records::value(a))
}

// The number of a reason to stop.
fn why_of(stop: Stop) -> u32
    ensures { result ≡ why_of stop }
{
    stop as u32
}

// The word of a state.
fn state_word(state: State) -> u32
    ensures { result ≡ state_word state }
{
    state as u32
}

// The state of a word. `State` and u32 are both other crates' types, so `TryFrom` cannot be written here.
fn state_of(word: u32) -> State
    ensures { result ≡ state_of word }
{
    match word {
        0 => State::Idle,
        1 => State::Open,
        2 => State::Spoiled,
        _ => State::Prepared,
    }
}

// The place of its words.
fn place_of(block: [u32; PLACE_WORDS]) -> Place
    ensures { result ≡ place_of_words block }
{
    let [state, number, view] = block;
    Place {
        state: state_of(state),
        number,
        view,
    }
}

// The words of a place.
fn words_of(p: Place) -> [u32; PLACE_WORDS]
    ensures { result ≡ words_of_place p }
{
    [state_word(p.state), p.number, p.view]
}

// A place put into its words, one by one: copied as an array of three they took up to twice as long.
fn put_place(block: &mut [u32], p: Place)
    requires { length block.old ≡ place_words }
    ensures { block.new ≡ words_of_place p }
{
    [block[0], block[1], block[2]] = words_of(p);
}

// Whether words are a place: no state word above 3.
fn place_fits(block: &[u32; PLACE_WORDS]) -> bool
    ensures { result ≡ place_fits block.now }
{
    block[0] <= 3
}

// Whether the words are a record: as many as a record is, and each place's are a place.
fn well_formed(words: &[u32]) -> bool
    ensures { result ≡ well_formed words.now }
{
    let (places, _) = words.as_chunks::<PLACE_WORDS>();
    words.len() == WORDS && places.iter().all(|p| place_fits(p))
}

// The record from its words.
fn load(words: &[u32]) -> Board
    requires { length words.now ≡ record_words }
    ensures { result ≡ record_of words.now }
{
    let (places, _) = words.as_chunks::<PLACE_WORDS>();
    Board {
        places: array::from_fn(|i| place_of(places[i])),
        starts: words[STARTS],
        commits: words[COMMITS],
    }
}

// The record put into its words, a place at a time: the library says nothing of what is written through `as_chunks_mut`.
fn save(words: &mut [u32], b: Board)
    requires { length words.old ≡ record_words }
    ensures { words.new ≡ words_of_record b }
{
    for (i, p) in b.places.iter().enumerate() {
        let at = PLACE_WORDS * i;
        put_place(&mut words[at..at + PLACE_WORDS], *p);
    }
    words[STARTS] = b.starts;
    words[COMMITS] = b.commits;
}
