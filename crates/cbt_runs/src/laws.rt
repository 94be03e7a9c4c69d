//! What a run of driven actors is, where each actor promises something of the calls that it stands for.
//! Each function does nothing: what it ensures is the law. They take no memory.

ghost use Rattle.std.specs.Prelude.{◌≡◌, List, length};
ghost use Rattle.cbt_book.specs.declared.book.Book.{Book};
ghost use Rattle.cbt_core.specs.Runs.{terms_of, AreLicensed, IsLegalRun, IsWithinLimits, LogsFollow};
ghost use Rattle.cbt_core.specs.Stops.{StopsKept};
ghost use Rattle.cbt_core.specs.declared.case.Case.{Case};
ghost use Rattle.cbt_runs.specs.Driven.{AreDriven};
ghost use Rattle.cbt_runs.specs.Promises.{AreAll, PromiseLicence, PromiseLogs, PromiseStops};
ghost use Rattle.cbt_runs.specs.Stopped.{AreStopped, StayWithin};

use cbt_model::Actor;

/// Driven actors leave a legal run of licensed actors, whose logs follow their plans.
pub fn driven_runs<A: Actor>()
    ensures legal { (case : Case) (book : Book) (workers worked sweep swept : List A) → AreAll case book workers sweep
        → AreDriven A.Actor (terms_of case) book.kept workers worked sweep swept
        → IsWithinLimits case → book.kept.opening ≡ case.opening → IsLegalRun case book }
    ensures licensed { (case : Case) (book : Book) (workers worked sweep swept : List A) → AreAll case book workers sweep
        → AreDriven A.Actor (terms_of case) book.kept workers worked sweep swept
        → PromiseLicence A.Actor case workers sweep → AreLicensed case book }
    ensures follow { (case : Case) (book : Book) (workers worked sweep swept : List A) → AreAll case book workers sweep
        → AreDriven A.Actor (terms_of case) book.kept workers worked sweep swept
        → PromiseLogs A.Actor case book workers worked sweep swept → LogsFollow case book }
{}

/// Where they were stopped by their stops alone, stops are kept.
pub fn stops_are_kept<A: Actor>()
    ensures { (case : Case) (book : Book) (workers worked sweep swept : List A) → AreAll case book workers sweep
        → AreDriven A.Actor (terms_of case) book.kept workers worked sweep swept
        → StayWithin case.stops (length workers) book.kept → AreStopped A.Actor case.stops book.kept workers worked sweep swept
        → PromiseStops A.Actor case book workers worked sweep swept → StopsKept case book }
{}
