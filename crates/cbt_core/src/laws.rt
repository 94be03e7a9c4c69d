//! What holds of every run of licensed actors, however their calls interleave, are lost or come late.
//! Each function does nothing: what it ensures is the law. They take no memory.

ghost use Rattle.std.specs.Prelude.{◌≡◌, ℕ, ◌≤◌, List, Option, length};
ghost use Rattle.cbt_json.specs.declared.value.Json.{Json};
ghost use Rattle.cbt_book.specs.declared.book.Book.{Book};
ghost use Rattle.cbt_model.specs.Fresh.{IsFresh};
ghost use Rattle.cbt_model.specs.declared.events.Event.{Event};
ghost use Rattle.cbt_model.specs.declared.states.State.{State};
ghost use Rattle.cbt_core.specs.Committed.{table_at, table_of, commits_count};
ghost use Rattle.cbt_core.specs.Invariant.{StampsRise, AddedOnce, DecidedOnce, HeldWhilePending, ListedWhenDecided, GoneWhenFinished, ShownStays, CommitsOwnWrites};
ghost use Rattle.cbt_core.specs.Laws.{NeverBoth, CommitsOnce, NoCommitDecided, DocumentsCommitted, NoUpdateLost, ContendedByOthers, MovedByOther, BlockedByAnother, PassesLeaveNothing, AttemptsLeaveNothing, LostByEviction, AtMostOnce};
ghost use Rattle.cbt_core.specs.Lawful.{IsLawfulRun};
ghost use Rattle.cbt_core.specs.Openings.{AreFresh, IsSound};
ghost use Rattle.cbt_core.specs.Right.{AnswersRight, MomentsRise};
ghost use Rattle.cbt_core.specs.Runs.{LogsFollow};
ghost use Rattle.cbt_core.specs.Stops.{StopsKept, ClientsComplete, CleanersComplete};
ghost use Rattle.cbt_core.specs.declared.case.Case.{Case};

/// An opening in which nobody has written is sound, and every attempt is new to it.
pub fn fresh_openings()
    ensures sound { (s : State) → IsFresh s → IsSound s }
    ensures fresh { (s : State) (h : List Event) → IsFresh s → AreFresh s h }
{}

/// The interleaving invariant: what is so after every prefix of the history.
pub fn invariant()
    ensures stamps { (case : Case) (book : Book) → IsLawfulRun case book → StampsRise book.kept.opening book.kept.history }
    ensures added { (case : Case) (book : Book) → IsLawfulRun case book → AddedOnce book.kept.opening book.kept.history }
    ensures decided { (case : Case) (book : Book) → IsLawfulRun case book → DecidedOnce book.kept.opening book.kept.history }
    ensures held { (case : Case) (book : Book) → IsLawfulRun case book → HeldWhilePending book.kept.opening book.kept.history }
    ensures listed { (case : Case) (book : Book) → IsLawfulRun case book → ListedWhenDecided book.kept.opening book.kept.history }
    ensures gone { (case : Case) (book : Book) → IsLawfulRun case book → GoneWhenFinished book.kept.opening book.kept.history }
    ensures shown { (case : Case) (book : Book) → IsLawfulRun case book → ShownStays book.kept.opening book.kept.history }
{}

/// No attempt both commits and is rolled back, and none commits twice; no commit is answered that its
/// entry is decided.
pub fn k1()
    ensures never_both { (case : Case) (book : Book) → IsLawfulRun case book → NeverBoth book.kept.opening book.kept.history }
    ensures once { (case : Case) (book : Book) → IsLawfulRun case book → CommitsOnce book.kept.opening book.kept.history }
    ensures undecided { (case : Case) (book : Book) → IsLawfulRun case book → NoCommitDecided book.kept.opening book.kept.history }
{}

/// The committed table at a place of a history is the one after as many commits as stand below that
/// place.
pub fn tables_count_commits()
    ensures { (writes : ℕ → List ℕ → Option (Option Json)) (s0 : State) (h : List Event) (i : ℕ) (d : List ℕ)
        → i ≤ length h → table_at writes s0 h i d ≡ table_of writes s0 h (commits_count s0 h i) d }
{}

/// At every place of the history each document resolves to what the committed table has for it: the
/// opening's documents, and over them the write sets of the commits so far, as the logs tell them. The
/// entry of a committed attempt lists its own writes by kind, and what it has staged are these.
pub fn k2()
    ensures documents { (case : Case) (book : Book) → IsLawfulRun case book → LogsFollow case book → DocumentsCommitted case book }
    ensures own_writes { (case : Case) (book : Book) → IsLawfulRun case book → LogsFollow case book → CommitsOwnWrites case book }
{}

/// Each answer about a document is right: it tells the attempt's own write, or else what the committed
/// table has at one moment of the operation's span. A client's moments rise. Where an operation was
/// answered Contended, other actors changed its document eight times in its span. Where one was answered
/// Moved, another actor changed its document between the own reading or staging on which the write stood
/// and the call that was refused. Where one was answered Blocked, it was by an attempt of another
/// transaction, or by one whose entry stood in the opening.
pub fn k3()
    ensures answers { (case : Case) (book : Book) → IsLawfulRun case book → LogsFollow case book → AnswersRight case book }
    ensures moments { (case : Case) (book : Book) → IsLawfulRun case book → LogsFollow case book → MomentsRise book }
    ensures contended { (case : Case) (book : Book) → IsLawfulRun case book → LogsFollow case book → ContendedByOthers case book }
    ensures moved { (case : Case) (book : Book) → IsLawfulRun case book → LogsFollow case book → MovedByOther case book }
    ensures blocked { (case : Case) (book : Book) → IsLawfulRun case book → LogsFollow case book → BlockedByAnother case book }
{}

/// A pass that ended Ok leaves nothing: from its end on no attempt that it covered has an entry, and no
/// document that a commit or an abort of such an attempt listed is staged by it. The same holds of an
/// attempt that sent its entry, from its own end on, where it ended committed and complete, rolled back,
/// or with its entry lost. Where an entry was lost another actor had dropped it under its guard.
pub fn k4()
    ensures passes { (case : Case) (book : Book) → IsLawfulRun case book → LogsFollow case book → PassesLeaveNothing book }
    ensures attempts { (case : Case) (book : Book) → IsLawfulRun case book → LogsFollow case book → AttemptsLeaveNothing book }
    ensures lost { (case : Case) (book : Book) → IsLawfulRun case book → LogsFollow case book → LostByEviction book }
{}

/// No update is lost: between the moment at which a committed attempt read a document that it wrote and
/// its commit, no other attempt commits a write of that document.
pub fn k5()
    ensures none_lost { (case : Case) (book : Book) → IsLawfulRun case book → LogsFollow case book → NoUpdateLost case book }
{}

/// At most one attempt of a transaction commits, and once. A transaction that ended Committed has its
/// commit at the place kept, and one whose end tells of none has none.
pub fn k6()
    ensures at_most_once { (case : Case) (book : Book) → IsLawfulRun case book → LogsFollow case book → AtMostOnce book }
{}

/// A client that made another number of calls than its stop names, or has no stop, began and ended all
/// its transactions, and such a cleaner all its rounds.
pub fn completeness()
    ensures clients { (case : Case) (book : Book) → LogsFollow case book → StopsKept case book → ClientsComplete case book }
    ensures cleaners { (case : Case) (book : Book) → LogsFollow case book → StopsKept case book → CleanersComplete case book }
{}
