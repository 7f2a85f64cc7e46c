//! What printed texts have in common.

ghost use Rattle.std.specs.Prelude.{◌≡◌, ℕ, List, ◌<◌, ◌^◌, All, IsUtf8, flat_map, encode_utf8_all};
ghost use Rattle.std.specs.List.{AllByRecursion};
ghost use Rattle.class_model.specs.ModifiedUtf8.{IsModifiedUtf8, Spells};
ghost use Rattle.line_text.specs.Lines.{line_of_char, line_of_units, line_of_name, line_of_path, IsOneLine, IsPlain};

/// What is printed stands within one line.
pub fn one_line_law()
    ensures units { (units : List ℕ) → AllByRecursion (λ u. u < 2 ^ 16) units → IsOneLine (line_of_units units) }
    ensures name { (name : List ℕ) → IsModifiedUtf8 name → IsOneLine (line_of_name name) }
    ensures path { (path : List ℕ) → IsUtf8 path → IsOneLine (line_of_path path) }
{}

/// Printable ASCII without a backslash is printed as it is.
pub fn plain_law()
    ensures name { (name : List ℕ) → All IsPlain name → line_of_name name ≡ name }
    ensures path { (path : List ℕ) → All IsPlain path → line_of_path path ≡ path }
{}

/// A name is printed as the units that it spells, and a path as its characters.
pub fn spelled_law()
    ensures name { (units name : List ℕ) → Spells units name → line_of_name name ≡ line_of_units units }
    ensures path { (cs : List ℕ) → line_of_path (encode_utf8_all cs) ≡ flat_map line_of_char cs }
{}
