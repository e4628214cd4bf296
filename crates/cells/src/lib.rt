// The cells of a lane board: four lent words to a cell. Which word is which is known here alone; that there are four, also to whoever lends them.

#![tactic(auto)]

ghost use Rattle.std.specs.Prelude.{◌≡◌, Bool, map, ◌+◌, ◌<◌, ◌≤◌, length, get_or, set, IfSome};
ghost use Rattle.std.specs.Iterator.{YieldsFirst, item_count};
ghost use Rattle.cells.specs.declared.Cell.{Cell};
ghost use Rattle.cells.specs.Cells.{no_cell, cells_of, with_cells, count_of, whole_cells};
ghost use Rattle.cells.specs.Cells.{empty, of_key, committed, own, foreign, seen_by};
ghost use Rattle.cells.specs.Rules.{foreign_with, has_cell, keeps, look_of};
ghost use Rattle.cells.specs.Rules.{foreign_of, clashes, valued, stamped, wiped, newer, between};
ghost use Rattle.cells.specs.Search.{Gives, Leaves, four_have, NextIs, newest_of, no_look, look_turn};
ghost use Rattle.cells.specs.Tables.{raised, tops_of, any_cell, up_to, outdated_by, surpassed_in, held_in};

#[derive(Clone, Copy, Debug, PartialEq, Eq)]
pub struct Cell {
    pub word: u32,
    pub value: u32,
    pub number: u32,
    pub commit: u32,
}

// What a read and an update ask of a key's cells.
#[derive(Clone, Copy, Debug, PartialEq, Eq)]
pub struct Looked {
    pub own: Option<usize>,
    pub foreign: bool,
    pub conflict: bool,
    pub newest: Cell,
}

impl Cell {
    // Four words to a cell
    pub const WORDS: usize = 4;

    // Four zeros
    pub fn none() -> Cell
        ensures { result ≡ no_cell }
    {
        Cell {
            word: 0,
            value: 0,
            number: 0,
            commit: 0,
        }
    }

    // 0 marks an empty cell
    pub fn empty(self) -> bool
        ensures { result ≡ empty self }
    {
        self.word == 0
    }

    // A cell of the key, for any key: the sum is taken where it cannot wrap
    pub fn of_key(self, key: u32) -> bool
        ensures { result ≡ of_key key self }
    {
        self.word as u64 == key as u64 + 1
    }

    // Nonempty, with a commit number above 0
    pub fn committed(self) -> bool
        ensures { result ≡ committed self }
    {
        (self.word != 0) & (0 < self.commit)
    }

    // Nonempty, uncommitted and with the transaction's number
    pub fn own(self, number: u32) -> bool
        ensures { result ≡ own number self }
    {
        (self.word != 0) & (self.commit == 0) & (self.number == number)
    }

    // Nonempty, uncommitted and with another number
    pub fn foreign(self, number: u32) -> bool
        ensures { result ≡ foreign number self }
    {
        (self.word != 0) & (self.commit == 0) & (self.number != number)
    }

    // Committed, with a commit number that is at most the view
    pub fn seen_by(self, view: u32) -> bool
        ensures { result ≡ seen_by view self }
    {
        self.committed() & (self.commit <= view)
    }

    // Foreign, or committed with a commit number above the view
    pub fn clashes(self, number: u32, view: u32) -> bool
        ensures { result ≡ clashes number view self }
    {
        self.foreign(number) | (self.committed() & (view < self.commit))
    }

    // d is a committed cell of the same key with a number above this one's
    pub fn newer(self, d: Cell) -> bool
        ensures { result ≡ newer self d }
    {
        (d.word == self.word) & d.committed() & (self.commit < d.commit)
    }

    // d is newer, and its number is at most the view
    pub fn between(self, d: Cell, view: u32) -> bool
        ensures { result ≡ between self view d }
    {
        self.newer(d) && d.commit <= view
    }

    // A foreign cell of the key that has the other number. Most cells have another key, and are asked no more
    fn foreign_of(self, key: u32, number: u32, other: u32) -> bool
        ensures { result ≡ foreign_of key number other self }
    {
        self.of_key(key) && self.foreign(number) & (self.number == other)
    }

    // The cell takes the value
    pub fn valued(self, value: u32) -> Cell
        ensures { result ≡ valued value self }
    {
        Cell { value, ..self }
    }

    // An own cell takes the commit number
    pub fn stamped(self, number: u32, commit: u32) -> Cell
        ensures { result ≡ stamped number commit self }
    {
        if self.own(number) {
            Cell { commit, ..self }
        } else {
            self
        }
    }

    // An own cell becomes four zeros
    pub fn wiped(self, number: u32) -> Cell
        ensures { result ≡ wiped number self }
    {
        if self.own(number) { Cell::none() } else { self }
    }
}

// How many whole cells the words are
pub fn count(cells: &[u32]) -> usize
    ensures { result ≡ count_of (length cells.now) }
{
    cells.len() / Cell::WORDS
}

// Whether a number of words is 1 to so many whole cells
pub fn whole(words: usize, most: usize) -> bool
    ensures { result ≡ whole_cells most words }
{
    (words % Cell::WORDS == 0) & (1..=most).contains(&(words / Cell::WORDS))
}

// The cell of a number; four zeros for a number that no cell has. Which word is which is written out here, in `put_cell` and in `Cells`, as
// a cell is read, written and walked over
pub fn cell_at(cells: &[u32], i: usize) -> Cell
    ensures { result ≡ get_or (cells_of cells.now) i no_cell }
{
    if count(cells) <= i {
        return Cell::none();
    }
    let w = Cell::WORDS * i;
    Cell {
        word: cells[w],
        value: cells[w + 1],
        number: cells[w + 2],
        commit: cells[w + 3],
    }
}

// One cell is written whole; for a number that no cell has every word stays
pub fn put_cell(cells: &mut [u32], i: usize, c: Cell)
    ensures { cells.new ≡ with_cells cells.old (set (cells_of cells.old) i c) }
{
    if count(cells) <= i {
        return;
    }
    let w = Cell::WORDS * i;
    cells[w] = c.word;
    cells[w + 1] = c.value;
    cells[w + 2] = c.number;
    cells[w + 3] = c.commit;
}

// The cells of lent words, one after the other
#[derive(Drop)]
struct Cells<'a>(&'a [u32]);

impl<'a> Iterator for Cells<'a> {
    type Item = Cell;

    ghost next_gives = { YieldsFirst (λ s. cells_of s.0.now) };

    ghost remaining = { item_count (λ s. cells_of s.0.now) };

    fn next(&mut self) -> Option<Cell> {
        let [word, value, number, commit, rest @ ..] = self.0 else {
            return None;
        };
        self.0 = rest;
        Some(Cell {
            word: *word,
            value: *value,
            number: *number,
            commit: *commit,
        })
    }
}

// Whether a foreign cell of the key has the other number
pub fn foreign_with(cells: &[u32], key: u32, number: u32, other: u32) -> bool
    ensures { result ≡ foreign_with key number other (cells_of cells.now) }
{
    Cells(cells).any(|c| c.foreign_of(key, number, other))
}

// Whether the cell's key has a committed cell with a number above the cell's. By number: by `Cells` it took from 1.0 to 1.7 times as long, as
// its code lay, and by `next`, which asks all of a test of eight cells, more than twice as long
pub fn outdated(cells: &[u32], c: Cell) -> bool
    ensures { result ≡ has_cell (newer c) (cells_of cells.now) }
{
    for i in 0..count(cells) {
        if c.newer(cell_at(cells, i)) {
            return true;
        }
    }
    false
}

// Whether a view keeps the cell: it is at least the cell's number, and sees no newer one
pub fn kept(cells: &[u32], c: Cell, view: u32) -> bool
    ensures { result ≡ keeps (cells_of cells.now) c view }
{
    if view < c.commit {
        return false;
    }
    let mut from = 0;
    while let Some(at) = next(cells, from, |d| d.word == c.word) {
        if c.between(cell_at(cells, at), view) {
            return false;
        }
        from = at + 1;
    }
    true
}

// Every own cell takes the commit number
pub fn stamp(cells: &mut [u32], number: u32, commit: u32)
    ensures { cells.new ≡ with_cells cells.old (map (stamped number commit) (cells_of cells.old)) }
{
    change_own(cells, number, |c| c.stamped(number, commit));
}

// Every own cell becomes four zeros
pub fn wipe(cells: &mut [u32], number: u32)
    ensures { cells.new ≡ with_cells cells.old (map (wiped number) (cells_of cells.old)) }
{
    change_own(cells, number, |c| c.wiped(number));
}

// Every cell with the number takes a change; one that leaves every other cell as it is has then changed all
fn change_own<F: Fn(Cell) -> Cell>(cells: &mut [u32], number: u32, change: F)
    requires { F.IsAlwaysCallable change }
    ensures { (f : Cell → Cell) → Gives (F.post change) f → Leaves number f → cells.new ≡ with_cells cells.old (map f (cells_of cells.old)) }
{
    let mut from = 0;
    while let Some(i) = next(cells, from, |c| c.number == number) {
        let changed = change(cell_at(cells, i));
        put_cell(cells, i, changed);
        from = i + 1;
    }
}

// Whether one of four cells from i on passes
fn four_have<F: Fn(Cell) -> bool>(cells: &[u32], i: usize, test: &F) -> bool
    requires callable { F.IsAlwaysCallable test.now }
    requires inside { i + 3 < count_of (length cells.now) }
    ensures { (p : Cell → Bool) → Gives (F.post test.now) p → result ≡ four_have p i (cells_of cells.now) }
{
    test(cell_at(cells, i))
        | test(cell_at(cells, i + 1))
        | test(cell_at(cells, i + 2))
        | test(cell_at(cells, i + 3))
}

// The first cell from `from` on that passes. Eight are looked at in one go, with no branch for each: by a branch for each cell a
// search of 1,024 took from 1.2 to 1.9 times as long. The searches are no iterator, since `change_own` writes between two of them, and a
// second form for the two callers that only read would be no plainer
fn next<F: Fn(Cell) -> bool>(cells: &[u32], from: usize, test: F) -> Option<usize>
    requires { F.IsAlwaysCallable test }
    ensures inside { IfSome result (λ at. (from ≤ at) × (at < count_of (length cells.now))) }
    ensures first { (p : Cell → Bool) → Gives (F.post test) p → NextIs p from (cells_of cells.now) result }
{
    let n = count(cells);
    let mut i = from;
    while i < n {
        if 8 <= n - i && !(four_have(cells, i, &test) | four_have(cells, i + 4, &test)) {
            i += 8;
            continue;
        }
        if test(cell_at(cells, i)) {
            return Some(i);
        }
        i += 1;
    }
    None
}

impl Cell {
    // The newest that the view sees so far, after this cell
    fn newest_of(self, best: Cell, view: u32) -> Cell
        ensures { result ≡ newest_of view best self }
    {
        if self.seen_by(view) & (best.commit < self.commit) {
            self
        } else {
            best
        }
    }
}

impl Looked {
    // Nothing seen yet
    fn none() -> Looked
        ensures { result ≡ no_look }
    {
        Looked {
            own: None,
            foreign: false,
            conflict: false,
            newest: Cell::none(),
        }
    }

    // What is known after one more cell of the key
    fn with(self, i: usize, c: Cell, number: u32, view: u32) -> Looked
        ensures { result ≡ look_turn number view i c self }
    {
        Looked {
            own: self.own.or(c.own(number).then_some(i)),
            foreign: self.foreign | c.foreign(number),
            conflict: self.conflict | c.clashes(number, view),
            newest: c.newest_of(self.newest, view),
        }
    }
}

// All that a read or an update asks of the key's cells, in one pass. Number and view are two arguments: they are two fields of the
// caller's place, and `clashes` is the one test that takes both
pub fn look(cells: &[u32], key: u32, number: u32, view: u32) -> Looked
    ensures { result ≡ look_of key number view (cells_of cells.now) }
{
    let mut seen = Looked::none();
    // The key's word, since words of 32 bits are compared several at a time: by `of_key`, whose sum has 64, a search of 1,024 cells took up to
    // 1.4 times as long
    let Some(word) = key.checked_add(1) else {
        return seen;
    };
    let mut from = 0;
    while let Some(at) = next(cells, from, |c| c.word == word) {
        seen = seen.with(at, cell_at(cells, at), number, view);
        from = at + 1;
    }
    seen
}

// How many first words have a place in a table of newest numbers: 0 and those of 256 keys
pub const TOPS: usize = 257;

// For each first word below TOPS the greatest commit number of its cells, of all of them and of those that a view sees: two tables, since
// each question asks one of them and its contract names that one
#[derive(Clone, Copy, Debug, PartialEq, Eq)]
pub struct Tops {
    pub all: [u32; TOPS],
    pub seen: [u32; TOPS],
}

// The number of a first word is raised to a higher one
fn raise(t: &mut [u32; TOPS], w: usize, n: u32)
    ensures { t.new ≡ raised t.old w n }
{
    if w < TOPS && t[w] < n {
        t[w] = n;
    }
}

// Both tables for every key at once, in one pass
pub fn tops_of(cells: &[u32], view: u32) -> Tops
    ensures { result ≡ record { all = tops_of any_cell (cells_of cells.now); seen = tops_of (up_to view) (cells_of cells.now) } }
{
    let mut all = [0; TOPS];
    let mut seen = [0; TOPS];
    // By number: by `Cells`, which counts words at each step, a transaction took 3 % longer
    for i in 0..count(cells) {
        let c = cell_at(cells, i);
        if c.commit == 0 {
            continue;
        }
        let w = c.word as usize;
        raise(&mut all, w, c.commit);
        if view < c.commit {
            continue;
        }
        raise(&mut seen, w, c.commit);
    }
    Tops { all, seen }
}

impl Tops {
    // Whether the cell's key has a committed cell with a number above the cell's, by the table where the first word is in it
    pub fn outdated_by(&self, cells: &[u32], c: Cell) -> bool
        ensures { result ≡ outdated_by self.now.all (cells_of cells.now) c }
    {
        match self.all.get(c.word as usize) {
            Some(top) => c.commit < *top,
            None => outdated(cells, c),
        }
    }

    // Whether the table of the view knows of a newer cell that the view sees
    pub fn surpassed(&self, c: Cell) -> bool
        ensures { result ≡ surpassed_in self.now.seen c }
    {
        self.seen
            .get(c.word as usize)
            .is_some_and(|top| c.commit < *top)
    }

    // Whether the table of the view knows that the view keeps the cell
    pub fn held_by(&self, c: Cell, view: u32) -> bool
        ensures { result ≡ held_in self.now.seen c view }
    {
        self.seen
            .get(c.word as usize)
            .is_some_and(|top| (c.commit <= view) & (*top <= c.commit))
    }
}
