//! What no case of `scripts/` shows: the events and logs of runs, and streams that fail.

use crate::log_lines::logged;
use crate::ran::Ran;
use crate::still::still;
use cbt_base::{List, NoMemory, StepClock, Text};
use cbt_model::{Event, Fate, Step};
use cbt_streams::{MemSink, MemSource};
use std::alloc::Global;
use std::test::Fail;

// Without a clock line, so the clock that the program is given is read.
const ONE_REPLACE: &[u8] = b"doc a {\"n\":1}\nclient c1\nbegin\nreplace a {\"n\":2}\ncommit\n";

const REPORT: &[u8] =
    b"history 6\ncommitted 1\ntxn c1 1 committed\ndoc a {\"n\":2}\nstaged 0\ndead 0\nentries 0\n";

/// Scripts, and the logs of their clients: each try with the places of its calls, from the first to one
/// past the last, and each operation that was answered. Calls of others lie between. An operation that came
/// back late or was cut off is not told, and one without a call lies where the one before it ended.
const LOGS: [(&[u8], &str); 8] = [
    (
        b"clock 1000 1\ndoc a {\"n\":1}\nclient c1\nbegin\nreplace a {\"n\":2}\ncommit\n",
        "logs 1.1: 0-6 (1 0-3)",
    ),
    (
        b"clock 1000 1\ndoc a {\"n\":0}\nclient c1\nbegin\nget a as x\nreplace a {\"n\":@x.n+1}\ncommit\nclient c2\nbegin\nget a as x\nreplace a {\"n\":@x.n+1}\ncommit\norder c1 c2 c1* c2*\n",
        "logs 1.1: 0-7 (1 0-1) (2 2-4) 2.1: 1-11 (1 1-2) (2 7-9) 11-17 (1 11-12) (2 12-14)",
    ),
    (
        b"clock 1000 1\ndoc a {\"n\":1}\nclient c1\nbegin\nneed 1 == 1\nget a as x\nneed some x\nreplace a {\"n\":@x.n+1}\nget a as y\nremove a\ncommit\n",
        "logs 1.1: 0-7 (1 0-0) (2 0-1) (3 1-1) (4 1-3) (5 3-3) (6 3-4)",
    ),
    (
        b"clock 1000 1\ndoc a {\"n\":1}\nclient c1\nbegin\nget a as x\nreplace a {\"n\":2}\ncommit\norder c1*2 +20000 c1*\n",
        "logs 1.1: 0-6 (1 0-1)",
    ),
    (
        b"clock 1000 1\ndoc a {\"n\":1}\nclient c1\nbegin\nget a as x\nreplace a {\"n\":2}\ncommit\nstop c1 2\n",
        "logs 1.1: 0-2 (1 0-1)",
    ),
    (
        b"clock 1000 1\ndoc a {\"n\":1}\nclient c1\nbegin\nreplace a {\"n\":2}\ncommit\nlost c1 4\nlost c1 6\nlost c1 8\n",
        "logs 1.1: 0-12 (1 0-3) 12-18 (1 12-15)",
    ),
    (
        b"clock 1000 1\ndoc a {\"n\":1}\nclient c1\nbegin\nreplace a {\"n\":2}\ncommit\nbegin\ncommit\nbegin\nneed 1 == 2\ncommit\nbegin\nget a as x\ncommit\n",
        "logs 1.1: 0-6 (1 0-3) 1.2: 6-6 1.3: 6-6 (1 6-6) 1.4: 6-7 (1 6-7)",
    ),
    (b"clock 1000 1\nclient c1\n", "logs"),
];

// What a run left, and what it wrote.
#[derive(Drop)]
struct Seen {
    ran: Ran,
    written: List<u8>,
}

// Runs the program on an input; reads and writes with these numbers fail.
fn run(
    alloc: Global,
    words: &[&str],
    input: &[u8],
    failing_reads: &[u64],
    failing_writes: &[u64],
) -> Result<Seen, NoMemory> {
    let mut all = List::new(alloc);
    for word in words {
        all.push(Text::from_str(alloc, word)?)?;
    }
    let bytes = List::from_slice(alloc, input)?;
    let mut src = MemSource::new(bytes, 4099, List::from_slice(alloc, failing_reads)?);
    let mut out = MemSink::new(
        List::new(alloc),
        5,
        List::from_slice(alloc, failing_writes)?,
    );
    let clock = StepClock {
        next: 1000,
        step: 1,
    };
    let ran = still(alloc, all.as_slice(), &mut src, &mut out, clock);
    let MemSink {
        bytes,
        chunk: _,
        fails: _,
        calls: _,
        faults: _,
    } = out;
    Ok(Seen {
        ran,
        written: bytes,
    })
}

// What an event of `one_replace` is to be, by its step.
fn is_in_place(place: usize, event: &Event) -> bool {
    let step = match &event.step {
        Step::ReadDoc { doc } => place == 0 && doc.as_str() == "a",
        Step::AddEntry { atr, exp, .. } => place == 1 && *atr == 12 && *exp == 15_000,
        Step::Stage { doc, .. } => place == 2 && doc.as_str() == "a",
        Step::Commit { lists, .. } => place == 3 && lists.rep.len() == 1,
        Step::Publish { cas, .. } => place == 4 && *cas == 1_001_979_904,
        Step::DropEntry { guarded, .. } => place == 5 && !*guarded,
        _ => false,
    };
    step && event.actor == 1 && event.fate == Fate::Plain && event.reading == 1000 + place as u64
}

#[test]
fn one_replace(rt: HostRuntime) -> Result<(), Fail> {
    let seen = run(rt.alloc(), &["sim"], ONE_REPLACE, &[], &[])?;
    assert_eq!(rt; seen.ran.status, 0);
    assert_eq!(rt; seen.written.as_slice(), REPORT);
    let book = seen.ran.book.as_ref().expect(&rt, "a book");
    assert_eq!(rt; book.kept.history.len(), 6);
    for (place, event) in book.kept.history.iter().enumerate() {
        assert!(rt; is_in_place(place, event), "at {place}");
    }
    assert_eq!(rt; book.clients.len(), 1);
    Ok(())
}

#[test]
fn stream_faults(rt: HostRuntime) -> Result<(), Fail> {
    let seen = run(rt.alloc(), &["sim"], ONE_REPLACE, &[1], &[])?;
    assert_eq!(rt; seen.ran.status, 3);
    assert_eq!(rt; seen.written.len(), 0);
    let seen = run(rt.alloc(), &["sim"], ONE_REPLACE, &[], &[1])?;
    assert_eq!(rt; seen.ran.status, 4);
    assert_eq!(rt; seen.written.len(), 0);
    let book = seen.ran.book.as_ref().expect(&rt, "a book");
    assert_eq!(rt; book.kept.history.len(), 6);
    Ok(())
}

#[test]
fn logs(rt: HostRuntime) -> Result<(), Fail> {
    for (script, told) in LOGS {
        let seen = run(rt.alloc(), &["sim"], script, &[], &[])?;
        let book = seen.ran.book.as_ref().expect(&rt, "a book");
        assert_eq!(rt; logged(rt.alloc(), &book.clients)?.as_str(), told);
    }
    Ok(())
}
