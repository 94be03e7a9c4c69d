//! What stops are kept by. Each function does nothing: what it ensures is the law. They take no memory.

ghost use Rattle.std.specs.Prelude.{ℕ};
ghost use Rattle.cbt_book.specs.declared.book.Book.{Book};
ghost use Rattle.cbt_core.specs.Lawful.{IsLawfulRun};
ghost use Rattle.cbt_core.specs.Runs.{own_of};
ghost use Rattle.cbt_core.specs.Staying.{StaysAsShown};
ghost use Rattle.cbt_core.specs.declared.case.Case.{Case};

/// In every run of licensed actors, what an actor's calls were shown stays so on its own list.
pub fn shown_stays()
    ensures { (case : Case) (book : Book) → IsLawfulRun case book → (actor : ℕ) → StaysAsShown (own_of book actor) }
{}
