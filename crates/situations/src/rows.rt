// Document 01's situations, in its words.

use Row::{Called, Fresh, GoesOn, Holds};
use cells::Cell;
use records::Answer;
use records::Call::{self, Commit, Prepare, Read, Rollback, Start, Update};
use records::Refusal::{Board, Busy, Conflict, Full, Held, Idle, Key, Place, Prepared, Spoiled};

// What a situation has done: a call and the answer that is to come back, or a look at a cell and the words that it is to hold. It begins
// on a fresh board of so many words, or goes on with the board of the one before it.
#[derive(Clone, Copy)]
pub enum Row {
    Fresh(usize),
    GoesOn,
    Called(Call, Answer),
    Holds(usize, Cell),
}

// The situations in their order, from 1 on: a row for each line that is printed, so that rows which two lengths share stand twice.
#[rattlefmt::skip]
pub const SITUATIONS: &[&[Row]] = &[
    // 1. start at 0, read key 7: 0
    &[
        Fresh(16),
        Called(Start { place: 0 }, Ok(1)),
        Called(Read { place: 0, key: 7 }, Ok(0)),
    ],
    // 2. place 0 starts and updates 7 to 12; place 1 starts and reads 7: 0. Place 0 commits. Place 1 reads 7: still 0. Place 1 updates
    // 7 to 0: CONFLICT. This is the second release.
    &[
        Fresh(16),
        Called(Start { place: 0 }, Ok(1)),
        Called(Update { place: 0, key: 7, value: 12 }, Ok(0)),
        Called(Start { place: 1 }, Ok(2)),
        Called(Read { place: 1, key: 7 }, Ok(0)),
        Called(Commit { place: 0 }, Ok(1)),
        Called(Read { place: 1, key: 7 }, Ok(0)),
        Called(Update { place: 1, key: 7, value: 0 }, Err(Conflict)),
    ],
    // 3. after 2, place 1 reads: SPOILED; rolls back: OK; starts: transaction 3; reads 7: 12
    &[
        GoesOn,
        Called(Read { place: 1, key: 7 }, Err(Spoiled)),
        Called(Rollback { place: 1 }, Ok(0)),
        Called(Start { place: 1 }, Ok(3)),
        Called(Read { place: 1, key: 7 }, Ok(12)),
    ],
    // 4. 0 and 1 open; 0 updates 5; 1 updates 5: CONFLICT. 0 rolls back; 1 reads 5: SPOILED still.
    &[
        Fresh(16),
        Called(Start { place: 0 }, Ok(1)),
        Called(Start { place: 1 }, Ok(2)),
        Called(Update { place: 0, key: 5, value: 1 }, Ok(0)),
        Called(Update { place: 1, key: 5, value: 2 }, Err(Conflict)),
        Called(Rollback { place: 0 }, Ok(0)),
        Called(Read { place: 1, key: 5 }, Err(Spoiled)),
    ],
    // 5. 0 and 1 open, both read 1 and 2; 0 updates 1, 1 updates 2; both commit
    &[
        Fresh(16),
        Called(Start { place: 0 }, Ok(1)),
        Called(Start { place: 1 }, Ok(2)),
        Called(Read { place: 0, key: 1 }, Ok(0)),
        Called(Read { place: 0, key: 2 }, Ok(0)),
        Called(Read { place: 1, key: 1 }, Ok(0)),
        Called(Read { place: 1, key: 2 }, Ok(0)),
        Called(Update { place: 0, key: 1, value: 3 }, Ok(0)),
        Called(Update { place: 1, key: 2, value: 4 }, Ok(0)),
        Called(Commit { place: 0 }, Ok(1)),
        Called(Commit { place: 1 }, Ok(2)),
    ],
    // 6. 0 and 1 open; 0 updates 9 to 3 and prepares; 1 reads 9: PREPARED. 0 rolls back; 1 reads 9: 0.
    &[
        Fresh(16),
        Called(Start { place: 0 }, Ok(1)),
        Called(Start { place: 1 }, Ok(2)),
        Called(Update { place: 0, key: 9, value: 3 }, Ok(0)),
        Called(Prepare { place: 0 }, Ok(0)),
        Called(Read { place: 1, key: 9 }, Err(Prepared)),
        Called(Rollback { place: 0 }, Ok(0)),
        Called(Read { place: 1, key: 9 }, Ok(0)),
    ],
    // 7. one cell. Commit key 0 with commit number 1. A new transaction updating key 0: FULL; key 1: FULL.
    &[
        Fresh(4),
        Called(Start { place: 0 }, Ok(1)),
        Called(Update { place: 0, key: 0, value: 1 }, Ok(0)),
        Called(Commit { place: 0 }, Ok(1)),
        Called(Start { place: 0 }, Ok(2)),
        Called(Update { place: 0, key: 0, value: 5 }, Err(Full)),
        Called(Update { place: 0, key: 1, value: 5 }, Err(Full)),
    ],
    // 8. two cells. Commit key 0 as 1 with commit number 1, then as 2 with commit number 2. A new transaction updates key 0 to 3: OK, in
    // cell 0.
    &[
        Fresh(8),
        Called(Start { place: 0 }, Ok(1)),
        Called(Update { place: 0, key: 0, value: 1 }, Ok(0)),
        Called(Commit { place: 0 }, Ok(1)),
        Called(Start { place: 0 }, Ok(2)),
        Called(Update { place: 0, key: 0, value: 2 }, Ok(0)),
        Called(Commit { place: 0 }, Ok(2)),
        Called(Start { place: 0 }, Ok(3)),
        Called(Update { place: 0, key: 0, value: 3 }, Ok(0)),
        Holds(0, Cell { word: 1, value: 3, number: 3, commit: 0 }),
        Holds(1, Cell { word: 1, value: 2, number: 2, commit: 2 }),
    ],
    // 9. as 8, but place 5 opened between the two commits and stays open: FULL
    &[
        Fresh(8),
        Called(Start { place: 0 }, Ok(1)),
        Called(Update { place: 0, key: 0, value: 1 }, Ok(0)),
        Called(Commit { place: 0 }, Ok(1)),
        Called(Start { place: 5 }, Ok(2)),
        Called(Start { place: 0 }, Ok(3)),
        Called(Update { place: 0, key: 0, value: 2 }, Ok(0)),
        Called(Commit { place: 0 }, Ok(2)),
        Called(Start { place: 0 }, Ok(4)),
        Called(Update { place: 0, key: 0, value: 3 }, Err(Full)),
        Called(Read { place: 5, key: 0 }, Ok(1)),
        // the same with the second writer's start before that of place 5
        Fresh(8),
        Called(Start { place: 0 }, Ok(1)),
        Called(Update { place: 0, key: 0, value: 1 }, Ok(0)),
        Called(Commit { place: 0 }, Ok(1)),
        Called(Start { place: 0 }, Ok(2)),
        Called(Start { place: 5 }, Ok(3)),
        Called(Update { place: 0, key: 0, value: 2 }, Ok(0)),
        Called(Commit { place: 0 }, Ok(2)),
        Called(Start { place: 0 }, Ok(4)),
        Called(Update { place: 0, key: 0, value: 3 }, Err(Full)),
        Called(Read { place: 5, key: 0 }, Ok(1)),
    ],
    // 10. key 255 is taken, 256 is KEY; place 15 is taken, 16 is PLACE. Place 256 and key 65,536 have no record: as bytes they are RECORD.
    &[
        Fresh(16),
        Called(Start { place: 15 }, Ok(1)),
        Called(Update { place: 15, key: 255, value: 6 }, Ok(0)),
        Called(Read { place: 15, key: 255 }, Ok(6)),
        Called(Update { place: 15, key: 256, value: 6 }, Err(Key)),
        Called(Read { place: 15, key: 256 }, Err(Key)),
        Called(Start { place: 16 }, Err(Place)),
        Called(Start { place: 255 }, Err(Place)),
        Called(Start { place: 256 }, Err(Place)),
        Called(Read { place: 15, key: 65535 }, Err(Key)),
        Called(Read { place: 15, key: 65536 }, Err(Key)),
    ],
    // 11. lengths 4 and 4,096 are in shape
    &[
        Fresh(4),
        Called(Start { place: 0 }, Ok(1)),
        Called(Read { place: 0, key: 7 }, Ok(0)),
        Called(Update { place: 0, key: 7, value: 12 }, Ok(0)),
        Called(Prepare { place: 0 }, Ok(0)),
        Called(Commit { place: 0 }, Ok(1)),
        Called(Start { place: 0 }, Ok(2)),
        Called(Rollback { place: 0 }, Ok(0)),
        Fresh(4096),
        Called(Start { place: 0 }, Ok(1)),
        Called(Read { place: 0, key: 7 }, Ok(0)),
        Called(Update { place: 0, key: 7, value: 12 }, Ok(0)),
        Called(Prepare { place: 0 }, Ok(0)),
        Called(Commit { place: 0 }, Ok(1)),
        Called(Start { place: 0 }, Ok(2)),
        Called(Rollback { place: 0 }, Ok(0)),
        // 0, 6 and 4,100 are BOARD
        Fresh(0),
        Called(Start { place: 0 }, Err(Board)),
        Called(Read { place: 0, key: 7 }, Err(Board)),
        Called(Update { place: 0, key: 7, value: 12 }, Err(Board)),
        Called(Prepare { place: 0 }, Err(Board)),
        Called(Commit { place: 0 }, Err(Board)),
        Called(Rollback { place: 0 }, Err(Board)),
        Fresh(6),
        Called(Start { place: 0 }, Err(Board)),
        Called(Read { place: 0, key: 7 }, Err(Board)),
        Called(Update { place: 0, key: 7, value: 12 }, Err(Board)),
        Called(Prepare { place: 0 }, Err(Board)),
        Called(Commit { place: 0 }, Err(Board)),
        Called(Rollback { place: 0 }, Err(Board)),
        Fresh(4100),
        Called(Start { place: 0 }, Err(Board)),
        Called(Read { place: 0, key: 7 }, Err(Board)),
        Called(Update { place: 0, key: 7, value: 12 }, Err(Board)),
        Called(Prepare { place: 0 }, Err(Board)),
        Called(Commit { place: 0 }, Err(Board)),
        Called(Rollback { place: 0 }, Err(Board)),
        // place 16 on length 6: BOARD
        Fresh(6),
        Called(Start { place: 16 }, Err(Board)),
        Called(Read { place: 16, key: 256 }, Err(Board)),
        Called(Update { place: 16, key: 256, value: 1 }, Err(Board)),
        Called(Prepare { place: 16 }, Err(Board)),
        Called(Commit { place: 16 }, Err(Board)),
        Called(Rollback { place: 16 }, Err(Board)),
        // update of key 256 while spoiled: SPOILED
        Fresh(16),
        Called(Start { place: 0 }, Ok(1)),
        Called(Start { place: 1 }, Ok(2)),
        Called(Update { place: 0, key: 5, value: 1 }, Ok(0)),
        Called(Update { place: 1, key: 5, value: 2 }, Err(Conflict)),
        Called(Update { place: 1, key: 256, value: 1 }, Err(Spoiled)),
        // the other checks in their order, on the same board: PLACE before IDLE, IDLE before KEY, SPOILED before KEY, HELD before KEY
        GoesOn,
        Called(Read { place: 16, key: 256 }, Err(Place)),
        Called(Commit { place: 16 }, Err(Place)),
        Called(Read { place: 2, key: 256 }, Err(Idle)),
        Called(Commit { place: 2 }, Err(Idle)),
        Called(Rollback { place: 2 }, Err(Idle)),
        Called(Read { place: 1, key: 256 }, Err(Spoiled)),
        Called(Prepare { place: 1 }, Err(Spoiled)),
        Called(Commit { place: 1 }, Err(Spoiled)),
        Called(Start { place: 1 }, Err(Busy)),
        Called(Start { place: 0 }, Err(Busy)),
        Called(Prepare { place: 0 }, Ok(0)),
        Called(Start { place: 0 }, Err(Busy)),
        Called(Read { place: 0, key: 256 }, Err(Held)),
        Called(Update { place: 0, key: 256, value: 1 }, Err(Held)),
        Called(Prepare { place: 0 }, Err(Held)),
        Called(Commit { place: 0 }, Ok(1)),
        Called(Rollback { place: 1 }, Ok(0)),
        Holds(0, Cell { word: 6, value: 1, number: 1, commit: 1 }),
        Holds(1, Cell { word: 0, value: 0, number: 0, commit: 0 }),
    ],
];
