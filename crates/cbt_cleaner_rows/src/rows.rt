//! What is asked of a row, and its answer.
//!
//! `share ATRS NOW ROWS` asks for the records of each active cleaner, and `beat ME NOW ROWS` for the
//! cleaners whose rows the cleaner ME removes. A row of the client record is `N:BEAT:EXPIRES`: the
//! cleaner's number, the time of its last beat and how long that counts, in milliseconds.

use anyhow::Result;
use cbt_base::{Hlc, Id, List, NoMemory};
use cbt_book::Share;
use cbt_lost::Cleaner;
use cbt_model::{Actor, Answer, ClientRow, Reply, Step, fits};
use cbt_record::{is_active, share};
use std::alloc::{AllocError, Global};

/// The largest number of a cleaner.
const MOST: u32 = 20;

/// Puts the answer to a row at the end.
pub fn answer(alloc: Global, told: &mut String, row: &str) -> Result<()> {
    let rows = rows_of(alloc, row)?;
    let mut words = row.split(' ');
    let asked = words.next().unwrap_or("");
    let first = number_of(words.next().unwrap_or(""));
    let now = time_of(words.next().unwrap_or(""));
    if asked == "beat" {
        return beaten(alloc, told, first, now, rows);
    }
    shares(told, u16::try_from(first).unwrap_or(0), now, &rows)?;
    drop(rows);
    Ok(())
}

// The rows of the client record, behind the first three words.
fn rows_of(alloc: Global, row: &str) -> Result<List<(Id, ClientRow)>, NoMemory> {
    let mut rows = List::new(alloc);
    for word in row.split(' ').skip(3) {
        rows.push(row_of(word))?;
    }
    Ok(rows)
}

fn number_of(word: &str) -> u32 {
    word.parse::<u32>().unwrap_or(0)
}

fn time_of(word: &str) -> u64 {
    word.parse::<u64>().unwrap_or(0)
}

// The identifier of a cleaner; that of the first one for 0.
fn id_of(number: u32) -> Id {
    Id::cleaner(number.max(1))
}

fn row_of(word: &str) -> (Id, ClientRow) {
    let mut parts = word.split(':');
    let number = number_of(parts.next().unwrap_or(""));
    let beat = time_of(parts.next().unwrap_or(""));
    let expires = time_of(parts.next().unwrap_or(""));
    let mut clock = Hlc { last: 0 };
    let row = ClientRow {
        heartbeat: clock.mutate(beat),
        expires,
        num_atrs: 1,
    };
    (id_of(number), row)
}

// The number of a cleaner; 0 for another identifier.
fn cleaner_of(id: Id) -> u32 {
    (1..=MOST).find(|number| id_of(*number) == id).unwrap_or(0)
}

// The records that fall to each active cleaner.
fn shares(
    told: &mut String,
    atrs: u16,
    now: u64,
    rows: &List<(Id, ClientRow)>,
) -> Result<(), AllocError> {
    for (id, row) in rows.iter() {
        if is_active(row, now) {
            let number = cleaner_of(*id);
            write!(told, " {number}:")?;
            push_records(told, share(rows, *id, now), atrs)?;
        }
    }
    Ok(())
}

fn push_records(told: &mut String, mine: Share, atrs: u16) -> Result<(), AllocError> {
    for record in 0..atrs {
        if mine.has(record) {
            write!(told, " {record}")?;
        }
    }
    Ok(())
}

// The cleaners whose rows this one removes when it has read the client record.
fn beaten(
    alloc: Global,
    told: &mut String,
    me: u32,
    now: u64,
    rows: List<(Id, ClientRow)>,
) -> Result<()> {
    let mut cleaner = Cleaner::begin(alloc, id_of(me), 1, 1, 60_000)?;
    if read(alloc, &mut cleaner, now, Reply::Clients(rows))? {
        push_removed(alloc, told, &cleaner)?;
    }
    drop(cleaner);
    Ok(())
}

fn push_removed(alloc: Global, told: &mut String, cleaner: &Cleaner) -> Result<()> {
    if let Some(Step::Beat { gone, .. }) = cleaner.next(alloc)? {
        for id in gone.iter() {
            let number = cleaner_of(*id);
            write!(told, " {number}")?;
        }
    }
    Ok(())
}

// The cleaner learns what it reads of the client record. Whether that fits its step.
fn read(alloc: Global, cleaner: &mut Cleaner, now: u64, reply: Reply) -> Result<bool, NoMemory> {
    let Some(step) = cleaner.next(alloc)? else {
        return Ok(false);
    };
    if !fits(&step, &reply) {
        return Ok(false);
    }
    let answer = Answer {
        place: 0,
        now,
        reply,
    };
    cleaner.learn(alloc, answer)?;
    Ok(true)
}
