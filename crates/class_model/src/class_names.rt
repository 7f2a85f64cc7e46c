//! The grammar of names (JVMS 4.2).

ghost use Rattle.std.specs.Prelude.{◌≡◌};
ghost use Rattle.std.specs.List.{list_all, list_any};
ghost use Rattle.class_model.specs.ClassNames.{may_stand, is_angle, is_unqualified, is_method_name, is_class_name};

fn may_stand(byte: u8) -> bool
    ensures { result ≡ may_stand byte }
{
    !(byte == b'.' || byte == b';' || byte == b'[' || byte == b'/')
}

fn all_may_stand(name: &[u8]) -> bool
    ensures { result ≡ list_all may_stand name.now }
{
    name.iter().all(|b| may_stand(*b))
}

fn has_angle(name: &[u8]) -> bool
    ensures { result ≡ list_any is_angle name.now }
{
    name.iter().any(|b| *b == b'<' || *b == b'>')
}

/// Whether a text is the unqualified name of a field or a local variable (JVMS 4.2.2).
#[tactic(auto, unfolding(crate::specs::ClassNames::is_unqualified))]
pub fn is_unqualified(name: &[u8]) -> bool
    ensures { result ≡ is_unqualified name.now }
{
    if name.is_empty() {
        return false;
    }
    all_may_stand(name)
}

/// Whether a text is the name of a method, `<init>` and `<clinit>` among them (JVMS 4.2.2).
#[tactic(auto, unfolding(crate::specs::ClassNames::is_method_name))]
pub fn is_method_name(name: &[u8]) -> bool
    ensures { result ≡ is_method_name name.now }
{
    if name == b"<init>".as_slice() {
        return true;
    }
    if name == b"<clinit>".as_slice() {
        return true;
    }
    if !is_unqualified(name) {
        return false;
    }
    !has_angle(name)
}

/// Whether a text is the binary name of a class or interface in its internal form (JVMS 4.2.1).
pub fn is_class_name(name: &[u8]) -> bool
    ensures { result ≡ is_class_name name.now }
{
    let mut is_fresh = true;
    for byte in name {
        if *byte == b'/' {
            if is_fresh {
                return false;
            }
            is_fresh = true;
        } else if may_stand(*byte) {
            is_fresh = false;
        } else {
            return false;
        }
    }
    !is_fresh
}
