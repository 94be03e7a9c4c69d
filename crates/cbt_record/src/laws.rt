//! That the shares go round. The function does nothing: what it ensures is the law. It takes no memory.

ghost use Rattle.std.specs.Prelude.{◌≡◌, ℕ, true, ◌&&◌, List, count_by};
ghost use Rattle.cbt_model.specs.Fitting.{ids_rise};
ghost use Rattle.cbt_model.specs.declared.entries.ClientRow.{ClientRow};
ghost use Rattle.cbt_book.specs.OwnLists.{In};
ghost use Rattle.cbt_book.specs.Shares.{has_record, is_active, share_of};

/// Where the ids rise and some row is active, each transaction record belongs to exactly one of the
/// cleaners whose rows are active, by the share that each of them has.
pub fn records_have_one_cleaner()
    ensures { (rows : List (ℕ × ClientRow)) (row : ℕ × ClientRow) (now atr : ℕ) → ids_rise rows ≡ true
        → In row rows → is_active now row.1 ≡ true
        → count_by (λ r. is_active now r.1 && has_record (share_of rows r.0 now) atr) rows ≡ 1 }
{}
