//! The laws that tie the reading of class files to the grammar.

ghost use Rattle.std.specs.Prelude.{◌≡◌, ◌⊎◌, ◌+◌, ◌++◌, ◌^◌, ◌<◌, ◌≤◌, ℕ, List, length, take, true, false, Ok, Err};
ghost use Rattle.class_model.specs.declared.class_file.Class.{Class};
ghost use Rattle.class_model.specs.declared.constant_pool.Pool.{Pool};
ghost use Rattle.class_model.specs.Attributes.{Place};
ghost use Rattle.class_model.specs.Constants.{IsPool};
ghost use Rattle.class_model.specs.Shape.{Shaped};
ghost use Rattle.class_model.specs.Spelling as spelling;
ghost use Rattle.class_text.specs.Reading.{Fault, cut_short, is_cut, fault_place, place, IsBytes};
ghost use Rattle.class_text.specs.Elements.{leads_to_text};
ghost use Rattle.class_text.specs.Attributes.{content_at, code_content_at, code_at};
ghost use Rattle.class_text.specs.Classes.{class_of, class_at_front};
ghost use Rattle.class_text.specs.Meanings.{IsMeant};
ghost use Rattle.class_text.specs.Places.{IsOnlyCut, IsGoodBefore, IsWithin, IsCutBefore, Stops, IsInFile, IsInCode, is_left};

/// A class that is read is shaped and is spelled by the bytes, and the text of each shaped class is read. So a text has
/// at most one class.
pub fn class_laws()
    ensures taken { (bytes : List ℕ) (c : Class) → IsBytes bytes → class_of bytes ≡ Ok c
        → Shaped c × (bytes ≡ spelling.class c) }
    ensures again { (c : Class) → Shaped c → class_of (spelling.class c) ≡ Ok c }
    ensures once { (c d : Class) → Shaped c → Shaped d → spelling.class c ≡ spelling.class d
        → c ≡ d }
{}

/// A fault other than a cut stays where more bytes follow. So no text that begins with such bytes is that of a class.
pub fn class_continued_law()
    ensures stays { (bytes more : List ℕ) (fault : Fault) → IsBytes bytes → is_cut fault ≡ false
        → class_of bytes ≡ Err fault
        → class_of (bytes ++ more) ≡ Err fault }
    ensures none { (bytes more : List ℕ) (fault : Fault) → IsBytes bytes → is_cut fault ≡ false
        → class_of bytes ≡ Err fault
        → (c : Class) → Shaped c → bytes ++ more ≡ spelling.class c → ⊥ }
{}

/// What stands before the place of a fault is not what is wrong: read alone, the bytes before it are only cut, there or
/// earlier, and before bytes that are left they are a whole class. Each shorter front is only cut too. Reading stops
/// behind a front that is cut where it ends: the fault is named there, or the content of an attribute begins there and
/// has it, read under the pool of the file. A fault is at a byte of the file; a cut may be at its end.
pub fn class_place_law()
    ensures good { (bytes : List ℕ) (fault : Fault) → IsBytes bytes → class_of bytes ≡ Err fault
        → IsGoodBefore fault (class_of (take (fault_place fault) bytes)) }
    ensures shorter { (bytes : List ℕ) (fault : Fault) (n : ℕ) → IsBytes bytes
        → n < fault_place fault → class_of bytes ≡ Err fault
        → IsOnlyCut n (class_of (take n bytes)) }
    ensures stops { (bytes : List ℕ) (fault : Fault) → IsBytes bytes → class_of bytes ≡ Err fault
        → is_left fault ≡ false
        → Stops class_at_front (IsInFile bytes) (length bytes) bytes fault }
    ensures within { (bytes : List ℕ) (fault : Fault) → IsBytes bytes → class_of bytes ≡ Err fault
        → IsWithin (length bytes) fault }
{}

/// What each fault says of the bytes at its place: the magic and the major version there are others; a text there isn't
/// modified UTF-8; the byte there is that tag; the index there is the count of the pool, which is 0, or that of the first
/// constant that leads elsewhere, or stands behind the pool and isn't one of the numbers that the reading looks for there,
/// which are those of what is wanted; the name of an attribute stands there, with what is wrong with its content, or that
/// no code may stand there; the name of a second attribute stands there, right behind attributes of which one has this
/// known name; the method there lacks its code; a whole class stands before. Where 2^32 bytes follow a cut, whatever they
/// are, nothing is cut there or before.
pub fn class_fault_law()
    ensures says { (file : List ℕ) (fault : Fault) → IsBytes file → class_of file ≡ Err fault
        → IsMeant file fault }
    ensures lengthened { (bytes more : List ℕ) (at next : ℕ) → IsBytes bytes
        → IsBytes (bytes ++ more) → 2 ^ 32 ≤ length more
        → class_of bytes ≡ Err (cut_short at) → class_of (bytes ++ more) ≡ Err (cut_short next)
        → at < next }
{}

/// The content of an attribute is looked at once it is whole, so the bytes of a file before a place in it are cut where
/// it begins. Within the content the same law holds: its bytes before the place of a fault, read alone, are only cut.
/// Reading code stops at the place of a fault, or at the content of one of its own attributes, which has it; code that
/// is bad as a whole is named by the place of its attribute.
pub fn content_place_law()
    ensures content { (pool : Pool) (stand : Place) (name at end : ℕ) (bytes : List ℕ)
        (fault : Fault) → IsPool pool → leads_to_text pool name ≡ true
        → IsBytes bytes → at + length bytes < end
        → content_at pool stand name at end bytes ≡ Err fault → place end bytes ≤ fault_place fault
        → IsCutBefore (content_at pool stand name at) end bytes fault }
    ensures code { (pool : Pool) (name at end : ℕ) (bytes : List ℕ) (fault : Fault) → IsPool pool
        → leads_to_text pool name ≡ true
        → IsBytes bytes → at + length bytes < end
        → code_content_at pool name at end bytes ≡ Err fault → place end bytes ≤ fault_place fault
        → IsCutBefore (code_content_at pool name at) end bytes fault }
    ensures inner { (pool : Pool) (name at end : ℕ) (bytes : List ℕ) (fault : Fault) → IsPool pool
        → IsBytes bytes → at + length bytes < end
        → code_at pool name at end bytes ≡ Err fault
        → (fault_place fault ≡ at) ⊎ Stops (code_at pool name at) (IsInCode pool) end bytes fault }
{}
