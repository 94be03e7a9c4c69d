//! What the calls of a read come to, whatever fitting answers they had. Each function does nothing: what
//! it ensures is the law. They take no memory.

ghost use Rattle.std.specs.Prelude.{◌≡◌, ◌≢◌, ℕ, ◌+◌, ◌≤◌, List, ◌∷◌, length, Some, None};
ghost use Rattle.cbt_model.specs.declared.events.Made.{Made};
ghost use Rattle.cbt_book.specs.Calls.{GetCalls};
ghost use Rattle.cbt_book.specs.Outcomes.{EndsFailed, IsContended};
ghost use Rattle.cbt_book.specs.ReadAt.{IsReadAt, Reading};
ghost use Rattle.cbt_read.specs.OpenReads.{LeavesOpen};
ghost use Rattle.cbt_read.specs.Phases.{calls_left, end_of, step_of};
ghost use Rattle.cbt_read.specs.Standing.{StandsFor};
ghost use Rattle.cbt_read.specs.declared.gets.Get.{Get};

use crate::ends::GetEnd;

/// What a read has ended with is so by its calls: the document was read as it was seen, it changed hands
/// at each of nine readings, or the newest call failed, at the place named.
pub fn gets_end_right()
    ensures value { (get : Get) (mine : List Made) (seen : Reading) → StandsFor get mine
        → end_of get ≡ Some (GetEnd.Value seen) → IsReadAt get.doc seen mine }
    ensures contended { (get : Get) (mine : List Made) → StandsFor get mine
        → end_of get ≡ Some GetEnd.Contended → IsContended get.doc mine }
    ensures failed { (get : Get) (mine : List Made) (place : ℕ) → StandsFor get mine
        → end_of get ≡ Some (GetEnd.CallFailed place) → EndsFailed place mine }
{}

/// After each call a read has made only readings, few for the stagings that it met, and has so many calls
/// left that it makes at most 17. Where none is left it asks for none.
pub fn gets_stay_bounded()
    ensures calls { (get : Get) (mine : List Made) → StandsFor get mine → GetCalls get.doc mine }
    ensures few { (get : Get) (mine : List Made) → StandsFor get mine
        → length mine + calls_left get ≤ 17 }
    ensures at_end { (get : Get) → calls_left get ≡ 0 → step_of get ≡ None }
{}

/// A read asks for a call exactly where it has not ended, and its newest call then leaves it open.
pub fn gets_go_on()
    ensures ended { (get : Get) → end_of get ≢ None → step_of get ≡ None }
    ensures asks { (get : Get) → end_of get ≡ None → step_of get ≢ None }
    ensures leaves_open { (get : Get) (newest : Made) (older : List Made)
        → StandsFor get (newest ∷ older) → end_of get ≡ None → LeavesOpen get.doc newest }
{}
