//! What is so of each run of the program. The function does nothing: what it ensures is the law. It takes
//! no memory.

ghost use Rattle.cbt_book.specs.declared.book.Book.{Book};
ghost use Rattle.cbt_script.specs.declared.script.Script.{Script};
ghost use Rattle.cbtx.specs.Headline.{IsRight, IsRunOf};

use cbt_core::{fresh_openings, k1, k2, k3, k4, k5, k6};
use cbt_script::openings_are_fresh;

/// What the laws over runs say holds of each run of a script.
pub fn runs_are_right()
    ensures { (script : Script) (book : Book) → IsRunOf script book → IsRight script book }
{
    openings_are_fresh();
    fresh_openings();
    k1();
    k2();
    k3();
    k4();
    k5();
    k6();
}
