//! The laws that tie reading to the grammar.

ghost use Rattle.std.specs.Prelude.{◌≡◌, ◌+◌, ◌++◌, ◌≤◌, ℕ, List, length, drop, false, Ok, Err};
ghost use Rattle.class_model.specs.declared.constant_pool.Pool.{Pool};
ghost use Rattle.class_model.specs.Constants.{IsPool};
ghost use Rattle.class_model.specs.Spelling as spelling;
ghost use Rattle.class_text.specs.Reading.{Fault, bad_index, fault_place, is_cut, IsBytes};
ghost use Rattle.class_text.specs.Meanings.{IsMeantInPool};
ghost use Rattle.class_text.specs.Pool.{pool_at, OnlyGoodBefore, IsWrongAt};

/// A pool that is read is spelled by the bytes that it takes, and each spelling of a pool is read, whatever follows. So
/// bytes begin with the text of at most one pool.
pub fn pool_laws()
    ensures taken { (end : ℕ) (bytes : List ℕ) (p : Pool) (rest : List ℕ) → IsBytes bytes
        → pool_at end bytes ≡ Ok (p, rest)
        → IsPool p × (bytes ≡ spelling.pool p ++ rest) }
    ensures again { (end : ℕ) (p : Pool) (rest : List ℕ) → IsPool p
        → pool_at end (spelling.pool p ++ rest) ≡ Ok (p, rest) }
{}

/// Before the place of a fault only constants stand that are good by themselves, behind the count, unless the fault is
/// the count's own.
pub fn place_law()
    ensures { (end : ℕ) (bytes : List ℕ) (fault : Fault) → IsBytes bytes → length bytes ≤ end
        → pool_at end bytes ≡ Err fault
        → OnlyGoodBefore end bytes (fault_place fault) }
{}

/// A wrong index in a pool is the count's, or the first that leads elsewhere: the constants before it lead where they may.
pub fn target_law()
    ensures { (end : ℕ) (bytes : List ℕ) (at : ℕ) → IsBytes bytes → length bytes ≤ end
        → pool_at end bytes ≡ Err (bad_index at)
        → IsWrongAt end bytes at }
{}

/// What each fault of the pool that begins at a place of a file says: fewer than 2^32 bytes are left behind a cut; the
/// byte there is that tag, of no constant or of one that takes two numbers; a text there isn't modified UTF-8; the index
/// is the count, which is 0, or that of the first constant that leads elsewhere.
pub fn pool_fault_law()
    ensures { (file : List ℕ) (start : ℕ) (fault : Fault) → IsBytes file → start ≤ length file
        → pool_at (length file) (drop start file) ≡ Err fault
        → IsMeantInPool file start (length file) fault }
{}

/// A fault other than a cut stays where more bytes follow. So no text that begins with such bytes is that of a pool.
pub fn continued_law()
    ensures stays { (end : ℕ) (bytes more : List ℕ) (fault : Fault) → IsBytes bytes
        → is_cut fault ≡ false → pool_at end bytes ≡ Err fault
        → pool_at (end + length more) (bytes ++ more) ≡ Err fault }
    ensures none { (end : ℕ) (bytes more : List ℕ) (fault : Fault) → IsBytes bytes
        → is_cut fault ≡ false → pool_at end bytes ≡ Err fault
        → (p : Pool) (rest : List ℕ) → IsPool p → bytes ++ more ≡ spelling.pool p ++ rest → ⊥ }
{}
