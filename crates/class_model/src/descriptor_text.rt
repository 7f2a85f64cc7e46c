//! The grammar of descriptors (JVMS 4.3).

ghost use Rattle.std.specs.Prelude.{◌≡◌, ◌==◌, ◌<◌, ◌≤◌, IfSome, length, option_map, option_and_then, IfNone, position, if◌then◌else◌};
ghost use Rattle.class_model.specs.Descriptors.{is_semicolon, class_up_to, is_primitive, component_at, deeper, field_type_at, is_field_descriptor, is_return_descriptor, is_method_descriptor, field_types_at, slots};
ghost use Rattle.class_model.specs.TypeForms.{component, type_of, wrapped, are_within};

use crate::class_names::is_class_name;

/// A field type at the front of a descriptor: a component, and the dimensions of the array round it, if any.
#[derive(Clone, Copy, Debug)]
pub struct TypeForm<'a> {
    pub dimensions: u8,
    /// One of `B C D F I J S Z`, or `L` for a class.
    pub letter: u8,
    /// The name of the class. It is empty for other letters.
    pub class: &'a [u8],
}

fn semicolon(bytes: &[u8]) -> Option<usize>
    ensures value { result ≡ position is_semicolon bytes.now }
    ensures within { IfSome result (λ n. n < length bytes.now) }
{
    bytes.iter().position(|b| *b == b';')
}

fn is_primitive(letter: u8) -> bool
    ensures { result ≡ is_primitive letter }
{
    matches!(
        letter,
        b'B' | b'C' | b'D' | b'F' | b'I' | b'J' | b'S' | b'Z'
    )
}

fn class_in(bytes: &[u8]) -> Option<(TypeForm<'_>, &[u8])>
    ensures shown { option_map (λ r. (component r.0, r.1.now)) result
        ≡ option_and_then (class_up_to bytes.now) (position is_semicolon bytes.now) }
    ensures plain { IfSome result (λ r. r.0.dimensions ≡ 0) }
{
    let end = semicolon(bytes)?;
    let (class, _) = bytes.split_at(end);
    let (_, rest) = bytes.split_at(end + 1);
    if !is_class_name(class) {
        return None;
    }
    let form = TypeForm {
        dimensions: 0,
        letter: b'L',
        class,
    };
    Some((form, rest))
}

#[tactic(auto, unfolding(crate::specs::Descriptors::component_at))]
fn component_in(bytes: &[u8]) -> Option<(TypeForm<'_>, &[u8])>
    ensures shown { option_map (λ r. (component r.0, r.1.now)) result ≡ component_at bytes.now }
    ensures plain { IfSome result (λ r. r.0.dimensions ≡ 0) }
{
    let (first, rest) = bytes.split_first()?;
    if is_primitive(*first) {
        let form = TypeForm {
            dimensions: 0,
            letter: *first,
            class: &[],
        };
        return Some((form, rest));
    }
    if *first != b'L' {
        return None;
    }
    class_in(rest)
}

/// The bytes after an opening bracket, if there is one.
#[tactic(auto, unfolding(crate::specs::Descriptors::field_type_at, crate::specs::Descriptors::component_at))]
fn bracket(bytes: &[u8]) -> Option<&[u8]>
    ensures some { IfSome result (λ rest. field_type_at bytes.now ≡ option_and_then deeper (field_type_at rest.now)) }
    ensures shorter { IfSome result (λ rest. length rest.now < length bytes.now) }
    ensures none { IfNone result (field_type_at bytes.now ≡ component_at bytes.now) }
{
    let (first, rest) = bytes.split_first()?;
    if *first == b'[' { Some(rest) } else { None }
}

fn array_in(dimensions: u8, bytes: &[u8]) -> Option<(TypeForm<'_>, &[u8])>
    ensures { option_map (λ r. (type_of r.0, r.1.now)) result ≡ wrapped dimensions (component_at bytes.now) }
{
    let (found, rest) = component_in(bytes)?;
    let form = TypeForm {
        dimensions,
        letter: found.letter,
        class: found.class,
    };
    Some((form, rest))
}

/// The field type at the front of the bytes, and the bytes after it (JVMS 4.3.2). `None` where no type of at most 255
/// dimensions stands there.
pub fn field_type_in(bytes: &[u8]) -> Option<(TypeForm<'_>, &[u8])>
    ensures { option_map (λ r. (type_of r.0, r.1.now)) result ≡ field_type_at bytes.now }
{
    let mut rest = bytes;
    let mut dimensions = 0u8;
    loop {
        match bracket(rest) {
            None => return array_in(dimensions, rest),
            Some(more) => {
                if dimensions == 255 {
                    return None;
                }
                dimensions += 1;
                rest = more;
            }
        }
    }
}

/// Whether a text is a field descriptor.
#[tactic(auto, unfolding(crate::specs::Descriptors::field_type))]
pub fn is_field_descriptor(bytes: &[u8]) -> bool
    ensures { result ≡ is_field_descriptor bytes.now }
{
    match field_type_in(bytes) {
        Some((_, rest)) => rest.is_empty(),
        None => false,
    }
}

/// Whether a text is a return descriptor: a field descriptor, or `V`.
pub fn is_return_descriptor(bytes: &[u8]) -> bool
    ensures { result ≡ is_return_descriptor bytes.now }
{
    if let [b'V'] = bytes {
        return true;
    }
    is_field_descriptor(bytes)
}

impl TypeForm<'_> {
    /// The slots that a value of the type takes: 2 for a long or a double, else 1.
    pub fn slots(self) -> u8
        ensures value { result ≡ slots (type_of self.entry) }
        ensures few { result ≤ 2 }
    {
        if self.dimensions > 0 {
            return 1;
        }
        match self.letter {
            b'J' | b'D' => 2,
            _ => 1,
        }
    }
}

/// Whether the bytes after the opening parenthesis are parameters of at most so many slots, and a result.
fn parameters_fit(most: u8, bytes: &[u8]) -> bool
    ensures { result ≡ are_within most 0 (field_types_at (length bytes.now) bytes.now) }
{
    let mut rest = bytes;
    let mut used = 0u16;
    while let Some((first, after)) = rest.split_first() {
        if *first == b')' {
            return is_return_descriptor(after);
        }
        match field_type_in(rest) {
            None => return false,
            Some((found, more)) => {
                used += u16::from(found.slots());
                if used > u16::from(most) {
                    return false;
                }
                rest = more;
            }
        }
    }
    false
}

/// Whether a text is a method descriptor whose parameters take at most so many slots, without `this` (JVMS 4.3.3).
#[tactic(auto, unfolding(crate::specs::Descriptors::method_type, crate::specs::Descriptors::is_method_descriptor))]
pub fn is_method_descriptor(most: u8, bytes: &[u8]) -> bool
    ensures { result ≡ is_method_descriptor most bytes.now }
{
    match bytes.split_first() {
        Some((b'(', rest)) => parameters_fit(most, rest),
        _ => false,
    }
}
