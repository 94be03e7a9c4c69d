//! Laws of maps and identifiers, for contracts above to rest on. Each function does nothing: what it
//! ensures is the law.

ghost use Rattle.std.specs.Prelude.{◌≡◌, ◌≢◌, ℕ, ◌+◌, ◌^◌, ◌<◌, ◌≤◌, List, Some, None, if◌then◌else◌, length};
ghost use Rattle.std.specs.Ordering.{is_eq};
ghost use Rattle.cbt_base.specs.Keyed.{at_key, with_pair, without_key, Rises};
ghost use Rattle.cbt_base.specs.Ids.{attempt_number, cleaner_number, id_text, owner_fields, txn_number};

/// Look-ups after an insertion, for keys of any order: the key that was set has the new value, and
/// each other key has what it had.
pub fn get_after_insert<K: Ord, V>()
    ensures value { (m : List (K × V)) (k q : K) (v : V)
        → at_key K.cmp (with_pair K.cmp m k v) q ≡ (if is_eq (K.cmp q k) then Some v else at_key K.cmp m q) }
    ensures rises { (m : List (K × V)) (k : K) (v : V) → Rises K.cmp m → Rises K.cmp (with_pair K.cmp m k v) }
{}

/// Look-ups after a removal: the key that went has no value, and each other key has what it had.
pub fn get_after_remove<K: Ord, V>()
    ensures value { (m : List (K × V)) (k q : K) → Rises K.cmp m
        → at_key K.cmp (without_key K.cmp m k) q ≡ (if is_eq (K.cmp q k) then None else at_key K.cmp m q) }
    ensures rises { (m : List (K × V)) (k : K) → Rises K.cmp m → Rises K.cmp (without_key K.cmp m k) }
{}

/// Different arguments give different identifiers.
pub fn identifiers_differ()
    // An attempt's number gives its client, its transaction and its own number back.
    ensures attempts { (c d s t m n : ℕ) → c < 2 ^ 32 → d < 2 ^ 32 → s < 2 ^ 16 → t < 2 ^ 16 → m < 2 ^ 32 → n < 2 ^ 32
        → attempt_number c s m ≡ attempt_number d t n → (c ≡ d) × (s ≡ t) × (m ≡ n) }

    // A transaction's number is what its attempts have in common, and no attempt has it.
    ensures transactions { (c s m : ℕ) → c < 2 ^ 32 → s < 2 ^ 16 → m < 2 ^ 32 → txn_number (attempt_number c s m) ≡ owner_fields c s }
    ensures apart { (c d s t m : ℕ) → c < 2 ^ 32 → d < 2 ^ 32 → s < 2 ^ 16 → t < 2 ^ 16 → m < 2 ^ 32 → 1 ≤ m
        → attempt_number c s m ≢ owner_fields d t }

    // A cleaner's number gives it back, and no attempt has it.
    ensures cleaners { (m n : ℕ) → m < 2 ^ 32 → n < 2 ^ 32 → cleaner_number m ≡ cleaner_number n → m ≡ n }
    ensures no_attempt { (c s m n : ℕ) → c < 2 ^ 32 → s < 2 ^ 16 → m < 2 ^ 32 → n < 2 ^ 32 → 1 ≤ m
        → attempt_number c s m ≢ cleaner_number n }
{}

/// Different identifiers have different texts, and each text has 36 bytes.
pub fn id_texts_differ()
    ensures differ { (m n : ℕ) → m < 2 ^ 128 → n < 2 ^ 128 → id_text m ≡ id_text n → m ≡ n }
    ensures long { (n : ℕ) → length (id_text n) ≡ 36 }
{}
