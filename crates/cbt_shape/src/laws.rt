//! Laws of names and stamps: what is written is read back, and nothing else is read.
ghost use Rattle.std.specs.Prelude.{◌≡◌, ℕ, ◌^◌, ◌<◌, List, Some};
ghost use Rattle.std.specs.Ordering.{nat_cmp};
ghost use Rattle.cbt_base.specs.Ids.{id_text};
ghost use Rattle.cbt_subdoc.specs.Members.{name_cmp};
ghost use Rattle.cbt_subdoc.specs.Values.{macro_text};
ghost use Rattle.cbt_shape.specs.Names.{id_in, atr_name, atr_in};
ghost use Rattle.cbt_shape.specs.Numbers.{macro_in};

/// A law: an identifier, a transaction record's number and a stamp are read back.
pub fn names_read_back()
    ensures ids { (n : ℕ) → n < 2 ^ 128 → id_in (id_text n) ≡ Some n }
    ensures atrs { (n : ℕ) → n < 2 ^ 16 → atr_in (atr_name n) ≡ Some n }
    ensures stamps { (n : ℕ) → n < 2 ^ 64 → macro_in (macro_text n) ≡ Some n }
{}

/// A law: only what is written so is read.
pub fn only_names_are_read()
    ensures ids { (text : List ℕ) (n : ℕ) → id_in text ≡ Some n → text ≡ id_text n }
    ensures atrs { (text : List ℕ) (n : ℕ) → atr_in text ≡ Some n → text ≡ atr_name n }
    ensures stamps { (text : List ℕ) (n : ℕ) → macro_in text ≡ Some n → text ≡ macro_text n }
{}

/// A law: the texts of identifiers rise as these do.
pub fn id_texts_rise()
    ensures { (m n : ℕ) → m < 2 ^ 128 → n < 2 ^ 128 → name_cmp (id_text m) (id_text n) ≡ nat_cmp m n }
{}
