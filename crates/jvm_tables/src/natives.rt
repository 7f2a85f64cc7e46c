//! The table of natives: the methods of external classes that the machine itself runs.

ghost use Rattle.std.specs.Prelude.{◌≡◌, ◌<◌, ◌^◌, IsTrue, length, option_map, slice_get};
ghost use Rattle.jvm_tables.specs.Externals.{method_said, said as external_said, external_of};
ghost use Rattle.jvm_tables.specs.Natives.{native_from, native_of, natives, all_stated, stated, said, is_native, stands_on, is_list, is_throwable};
ghost use Rattle.jvm_tables.specs.declared.natives.Callback.{Callback};
ghost use Rattle.jvm_tables.specs.Callbacks.{called_back};
ghost use Rattle.jvm_tables.specs.Once.{all_apart, classes_known, can_be_called};

use crate::externals::{ExternalMethod, ExternalRow, Family, external};

/// The method that a native calls back, on an argument or an element.
#[derive(Clone, Copy, Drop)]
pub enum Callback {
    ToString,
    Equals,
    /// `Consumer.accept`.
    Accept,
    /// `Function.apply`.
    Apply,
    /// `BiFunction.apply`.
    ApplyTwo,
    /// `Predicate.test`.
    Test,
}

/// The row of a native method.
#[derive(Clone, Copy, Drop)]
pub struct NativeRow {
    /// Its place in the table.
    pub at: u32,
    /// The class that has it, or the first one of the family that has it.
    pub class: &'static str,
    /// Whether each class of a family has it, or that class alone.
    pub family: Family,
    pub name: &'static str,
    pub descriptor: &'static str,
    pub is_static: bool,
    pub calls_back: Option<Callback>,
}

/// What the table states of a native: its class, family, name and descriptor, whether it is static,
/// and what it calls back.
pub type NativeFacts = (
    &'static str,
    Family,
    &'static str,
    &'static str,
    bool,
    Option<Callback>,
);

// The facts in the order of `NativeFacts`; a row ends early where it calls nothing back.
macro_rules! row {
    ($class:literal: $family:ident, $name:literal, $descriptor:literal, $is_static:literal) => {
        ($class, Family::$family, $name, $descriptor, $is_static, None)
    };
    ($class:literal: $family:ident, $name:literal, $descriptor:literal, $is_static:literal, $calls_back:ident) => {
        ($class, Family::$family, $name, $descriptor, $is_static, Some(Callback::$calls_back))
    };
}

/// The natives.
pub static NATIVES: [NativeFacts; 118] = [
    row!("java/lang/Object": Alone, "<init>", "()V", false),
    row!("java/lang/Object": Alone, "toString", "()Ljava/lang/String;", false),
    row!("java/lang/Object": Alone, "hashCode", "()I", false),
    row!("java/lang/Object": Alone, "equals", "(Ljava/lang/Object;)Z", false),
    row!("java/lang/Object": Arrays, "clone", "()Ljava/lang/Object;", false),
    row!("java/lang/String": Alone, "length", "()I", false),
    row!("java/lang/String": Alone, "isEmpty", "()Z", false),
    row!("java/lang/String": Alone, "charAt", "(I)C", false),
    row!("java/lang/String": Alone, "substring", "(I)Ljava/lang/String;", false),
    row!("java/lang/String": Alone, "substring", "(II)Ljava/lang/String;", false),
    row!("java/lang/String": Alone, "indexOf", "(Ljava/lang/String;)I", false),
    row!("java/lang/String": Alone, "startsWith", "(Ljava/lang/String;)Z", false),
    row!("java/lang/String": Alone, "endsWith", "(Ljava/lang/String;)Z", false),
    row!("java/lang/String": Alone, "concat", "(Ljava/lang/String;)Ljava/lang/String;", false),
    row!("java/lang/String": Alone, "compareTo", "(Ljava/lang/String;)I", false),
    row!("java/lang/String": Alone, "equals", "(Ljava/lang/Object;)Z", false),
    row!("java/lang/String": Alone, "hashCode", "()I", false),
    row!("java/lang/String": Alone, "toString", "()Ljava/lang/String;", false),
    row!("java/lang/String": Alone, "contains", "(Ljava/lang/CharSequence;)Z", false),
    row!("java/lang/String": Alone, "valueOf", "(I)Ljava/lang/String;", true),
    row!("java/lang/String": Alone, "valueOf", "(J)Ljava/lang/String;", true),
    row!("java/lang/String": Alone, "valueOf", "(Z)Ljava/lang/String;", true),
    row!("java/lang/String": Alone, "valueOf", "(C)Ljava/lang/String;", true),
    row!("java/lang/String": Alone, "valueOf", "(Ljava/lang/Object;)Ljava/lang/String;", true, ToString),
    row!("java/lang/StringBuilder": Alone, "<init>", "()V", false),
    row!("java/lang/StringBuilder": Alone, "<init>", "(Ljava/lang/String;)V", false),
    row!("java/lang/StringBuilder": Alone, "toString", "()Ljava/lang/String;", false),
    row!("java/lang/StringBuilder": Alone, "length", "()I", false),
    row!("java/lang/StringBuilder": Alone, "append", "(Ljava/lang/String;)Ljava/lang/StringBuilder;", false),
    row!("java/lang/StringBuilder": Alone, "append", "(I)Ljava/lang/StringBuilder;", false),
    row!("java/lang/StringBuilder": Alone, "append", "(J)Ljava/lang/StringBuilder;", false),
    row!("java/lang/StringBuilder": Alone, "append", "(C)Ljava/lang/StringBuilder;", false),
    row!("java/lang/StringBuilder": Alone, "append", "(Z)Ljava/lang/StringBuilder;", false),
    row!("java/lang/StringBuilder": Alone, "append", "(Ljava/lang/Object;)Ljava/lang/StringBuilder;", false, ToString),
    row!("java/lang/Integer": Alone, "valueOf", "(I)Ljava/lang/Integer;", true),
    row!("java/lang/Integer": Alone, "parseInt", "(Ljava/lang/String;)I", true),
    row!("java/lang/Integer": Alone, "toString", "(I)Ljava/lang/String;", true),
    row!("java/lang/Integer": Alone, "sum", "(II)I", true),
    row!("java/lang/Integer": Alone, "intValue", "()I", false),
    row!("java/lang/Integer": Alone, "longValue", "()J", false),
    row!("java/lang/Integer": Alone, "equals", "(Ljava/lang/Object;)Z", false),
    row!("java/lang/Integer": Alone, "hashCode", "()I", false),
    row!("java/lang/Integer": Alone, "toString", "()Ljava/lang/String;", false),
    row!("java/lang/Long": Alone, "valueOf", "(J)Ljava/lang/Long;", true),
    row!("java/lang/Long": Alone, "parseLong", "(Ljava/lang/String;)J", true),
    row!("java/lang/Long": Alone, "toString", "(J)Ljava/lang/String;", true),
    row!("java/lang/Long": Alone, "sum", "(JJ)J", true),
    row!("java/lang/Long": Alone, "intValue", "()I", false),
    row!("java/lang/Long": Alone, "longValue", "()J", false),
    row!("java/lang/Long": Alone, "equals", "(Ljava/lang/Object;)Z", false),
    row!("java/lang/Long": Alone, "hashCode", "()I", false),
    row!("java/lang/Long": Alone, "toString", "()Ljava/lang/String;", false),
    row!("java/lang/Boolean": Alone, "valueOf", "(Z)Ljava/lang/Boolean;", true),
    row!("java/lang/Boolean": Alone, "booleanValue", "()Z", false),
    row!("java/lang/Boolean": Alone, "equals", "(Ljava/lang/Object;)Z", false),
    row!("java/lang/Boolean": Alone, "hashCode", "()I", false),
    row!("java/lang/Boolean": Alone, "toString", "()Ljava/lang/String;", false),
    row!("java/lang/Math": Alone, "abs", "(I)I", true),
    row!("java/lang/Math": Alone, "abs", "(J)J", true),
    row!("java/lang/Math": Alone, "max", "(II)I", true),
    row!("java/lang/Math": Alone, "max", "(JJ)J", true),
    row!("java/lang/Math": Alone, "min", "(II)I", true),
    row!("java/lang/Math": Alone, "min", "(JJ)J", true),
    row!("java/util/Objects": Alone, "requireNonNull", "(Ljava/lang/Object;)Ljava/lang/Object;", true),
    row!("java/util/Objects": Alone, "equals", "(Ljava/lang/Object;Ljava/lang/Object;)Z", true, Equals),
    row!("java/lang/Enum": Alone, "<init>", "(Ljava/lang/String;I)V", false),
    row!("java/lang/Enum": Alone, "name", "()Ljava/lang/String;", false),
    row!("java/lang/Enum": Alone, "ordinal", "()I", false),
    row!("java/lang/Enum": Alone, "toString", "()Ljava/lang/String;", false),
    row!("java/util/ArrayList": Alone, "<init>", "()V", false),
    row!("java/util/ArrayList": Alone, "<init>", "(I)V", false),
    row!("java/util/Collection": Lists, "size", "()I", false),
    row!("java/util/Collection": Lists, "isEmpty", "()Z", false),
    row!("java/util/Collection": Lists, "get", "(I)Ljava/lang/Object;", false),
    row!("java/util/Collection": Lists, "set", "(ILjava/lang/Object;)Ljava/lang/Object;", false),
    row!("java/util/Collection": Lists, "add", "(Ljava/lang/Object;)Z", false),
    row!("java/util/Collection": Lists, "contains", "(Ljava/lang/Object;)Z", false, Equals),
    row!("java/util/Collection": Lists, "indexOf", "(Ljava/lang/Object;)I", false, Equals),
    row!("java/util/Collection": Lists, "iterator", "()Ljava/util/Iterator;", false),
    row!("java/util/Collection": Lists, "forEach", "(Ljava/util/function/Consumer;)V", false, Accept),
    row!("java/util/Collection": Lists, "toString", "()Ljava/lang/String;", false, ToString),
    row!("java/util/Collection": Lists, "equals", "(Ljava/lang/Object;)Z", false),
    row!("java/util/Collection": Lists, "hashCode", "()I", false),
    row!("java/util/List": Alone, "of", "()Ljava/util/List;", true),
    row!("java/util/List": Alone, "of", "(Ljava/lang/Object;)Ljava/util/List;", true),
    row!("java/util/List": Alone, "of", "(Ljava/lang/Object;Ljava/lang/Object;)Ljava/util/List;", true),
    row!("java/util/List": Alone, "of", "(Ljava/lang/Object;Ljava/lang/Object;Ljava/lang/Object;)Ljava/util/List;", true),
    row!("java/util/List": Alone, "of", "(Ljava/lang/Object;Ljava/lang/Object;Ljava/lang/Object;Ljava/lang/Object;)Ljava/util/List;", true),
    row!("java/util/List": Alone, "of", "(Ljava/lang/Object;Ljava/lang/Object;Ljava/lang/Object;Ljava/lang/Object;Ljava/lang/Object;)Ljava/util/List;", true),
    row!("java/util/List": Alone, "of", "(Ljava/lang/Object;Ljava/lang/Object;Ljava/lang/Object;Ljava/lang/Object;Ljava/lang/Object;Ljava/lang/Object;)Ljava/util/List;", true),
    row!("java/util/List": Alone, "of", "(Ljava/lang/Object;Ljava/lang/Object;Ljava/lang/Object;Ljava/lang/Object;Ljava/lang/Object;Ljava/lang/Object;Ljava/lang/Object;)Ljava/util/List;", true),
    row!("java/util/List": Alone, "of", "(Ljava/lang/Object;Ljava/lang/Object;Ljava/lang/Object;Ljava/lang/Object;Ljava/lang/Object;Ljava/lang/Object;Ljava/lang/Object;Ljava/lang/Object;)Ljava/util/List;", true),
    row!("java/util/List": Alone, "of", "(Ljava/lang/Object;Ljava/lang/Object;Ljava/lang/Object;Ljava/lang/Object;Ljava/lang/Object;Ljava/lang/Object;Ljava/lang/Object;Ljava/lang/Object;Ljava/lang/Object;)Ljava/util/List;", true),
    row!("java/util/List": Alone, "of", "(Ljava/lang/Object;Ljava/lang/Object;Ljava/lang/Object;Ljava/lang/Object;Ljava/lang/Object;Ljava/lang/Object;Ljava/lang/Object;Ljava/lang/Object;Ljava/lang/Object;Ljava/lang/Object;)Ljava/util/List;", true),
    row!("java/util/List": Alone, "of", "([Ljava/lang/Object;)Ljava/util/List;", true),
    row!("java/util/Iterator": Alone, "hasNext", "()Z", false),
    row!("java/util/Iterator": Alone, "next", "()Ljava/lang/Object;", false),
    row!("java/lang/Throwable": Throwables, "<init>", "()V", false),
    row!("java/lang/Throwable": Throwables, "<init>", "(Ljava/lang/String;)V", false),
    row!("java/lang/Throwable": Throwables, "<init>", "(Ljava/lang/String;Ljava/lang/Throwable;)V", false),
    row!("java/lang/Throwable": Throwables, "<init>", "(Ljava/lang/Throwable;)V", false, ToString),
    row!("java/lang/Throwable": Throwables, "getMessage", "()Ljava/lang/String;", false),
    row!("java/lang/Throwable": Throwables, "getCause", "()Ljava/lang/Throwable;", false),
    row!("java/lang/Throwable": Throwables, "addSuppressed", "(Ljava/lang/Throwable;)V", false),
    row!("java/lang/Throwable": Throwables, "toString", "()Ljava/lang/String;", false),
    row!("mill/Lists": Alone, "map", "(Ljava/util/List;Ljava/util/function/Function;)Ljava/util/List;", true, Apply),
    row!("mill/Lists": Alone, "filter", "(Ljava/util/List;Ljava/util/function/Predicate;)Ljava/util/List;", true, Test),
    row!("mill/Lists": Alone, "fold", "(Ljava/util/List;Ljava/lang/Object;Ljava/util/function/BiFunction;)Ljava/lang/Object;", true, ApplyTwo),
    row!("mill/Lists": Alone, "each", "(Ljava/util/List;Ljava/util/function/Consumer;)V", true, Accept),
    row!("mill/Fs": Alone, "read", "(Lmill/PathRef;Ljava/lang/String;)Ljava/lang/String;", true),
    row!("mill/Fs": Alone, "size", "(Lmill/PathRef;Ljava/lang/String;)J", true),
    row!("mill/Fs": Alone, "list", "(Lmill/PathRef;)Ljava/util/List;", true),
    row!("mill/Fs": Alone, "write", "(Ljava/lang/String;Ljava/lang/String;)V", true),
    row!("mill/Fs": Alone, "dest", "(Ljava/lang/String;)Lmill/PathRef;", true),
    row!("mill/PathRef": Alone, "sub", "(Ljava/lang/String;)Lmill/PathRef;", false),
    row!("mill/Log": Alone, "info", "(Ljava/lang/String;)V", true),
    row!("mill/Env": Alone, "get", "(Ljava/lang/String;)Ljava/lang/String;", true),
    row!("mill/Env": Alone, "now", "()J", true),
];

/// The row of a native, by its class, name and descriptor. A class of arrays has its name as in a
/// Class constant, as `[I`.
#[tactic(auto, unfolding(crate::specs::Natives::natives))]
pub fn native_row(class: &[u8], name: &[u8], descriptor: &[u8]) -> Option<NativeRow>
    ensures { option_map said result ≡ native_of class.now name.now descriptor.now }
{
    find_native(&NATIVES, class, name, descriptor)
}

/// The row at a place of the table.
#[tactic(auto, unfolding(crate::specs::Natives::natives))]
pub fn native_at(at: u32) -> Option<NativeRow>
    ensures { option_map said result ≡ option_map (λ row. (at, row)) (slice_get natives at) }
{
    native_among(&NATIVES, at)
}

fn native_among(rows: &[NativeFacts], at: u32) -> Option<NativeRow>
    ensures { option_map said result ≡ option_map (λ row. (at, row)) (slice_get (all_stated rows.now) at) }
{
    let place = at as usize;
    if place < rows.len() {
        Some(stated_row(at, &rows[place]))
    } else {
        None
    }
}

fn find_native(
    rows: &[NativeFacts],
    class: &[u8],
    name: &[u8],
    descriptor: &[u8],
) -> Option<NativeRow>
    requires { length rows.now < 2 ^ 32 }
    ensures { option_map said result ≡ native_from 0 class.now name.now descriptor.now (all_stated rows.now) }
{
    for (at, facts) in rows.iter().enumerate() {
        if is_native(facts, class, name, descriptor) {
            return Some(stated_row(at as u32, facts));
        }
    }
    None
}

// Whether the row is that of a method.
fn is_native(facts: &NativeFacts, class: &[u8], name: &[u8], descriptor: &[u8]) -> bool
    ensures { result ≡ is_native class.now name.now descriptor.now (stated facts.now) }
{
    facts.2.as_bytes() == name
        && facts.3.as_bytes() == descriptor
        && stands_on(facts.0, facts.1, class)
}

// Whether a native of that class and family stands on a class.
fn stands_on(owner: &str, family: Family, class: &[u8]) -> bool
    ensures { result ≡ stands_on owner.now family class.now }
{
    match family {
        Family::Alone => owner.as_bytes() == class,
        Family::Arrays => matches!(class, [b'[', ..]),
        Family::Lists => is_list(external(class)),
        Family::Throwables => is_throwable(external(class)),
    }
}

fn is_list(row: Option<ExternalRow>) -> bool
    ensures { result ≡ is_list (option_map external_said row) }
{
    matches!(
        row,
        Some(ExternalRow {
            family: Family::Lists,
            ..
        })
    )
}

fn is_throwable(row: Option<ExternalRow>) -> bool
    ensures { result ≡ is_throwable (option_map external_said row) }
{
    matches!(
        row,
        Some(ExternalRow {
            family: Family::Throwables,
            ..
        })
    )
}

fn stated_row(at: u32, facts: &NativeFacts) -> NativeRow
    ensures { said result ≡ (at, stated facts.now) }
{
    let (class, family, name, descriptor, is_static, calls_back) = *facts;
    NativeRow {
        at,
        class,
        family,
        name,
        descriptor,
        is_static,
        calls_back,
    }
}

impl Callback {
    /// The method, by the class that declares it.
    pub fn method(self) -> ExternalMethod
        ensures { method_said result ≡ called_back self }
    {
        let object = "java/lang/Object";
        let (class, name, descriptor) = match self {
            Callback::ToString => (object, "toString", "()Ljava/lang/String;"),
            Callback::Equals => (object, "equals", "(Ljava/lang/Object;)Z"),
            Callback::Accept => (
                "java/util/function/Consumer",
                "accept",
                "(Ljava/lang/Object;)V",
            ),
            Callback::Apply => (
                "java/util/function/Function",
                "apply",
                "(Ljava/lang/Object;)Ljava/lang/Object;",
            ),
            Callback::ApplyTwo => (
                "java/util/function/BiFunction",
                "apply",
                "(Ljava/lang/Object;Ljava/lang/Object;)Ljava/lang/Object;",
            ),
            Callback::Test => (
                "java/util/function/Predicate",
                "test",
                "(Ljava/lang/Object;)Z",
            ),
        };
        ExternalMethod {
            class,
            name,
            descriptor,
        }
    }
}

/// No class has two natives of one name and descriptor.
#[tactic(auto, unfolding(crate::specs::Natives::natives, crate::specs::Externals::externals))]
pub fn natives_occur_once()
    ensures { IsTrue (all_apart natives) }
{}

/// The class of each native is in the table of external classes.
#[tactic(auto, unfolding(crate::specs::Natives::natives, crate::specs::Externals::externals))]
pub fn native_classes_are_external()
    ensures { IsTrue (classes_known natives) }
{}

/// What natives call back is a native of objects, or the abstract method of an external interface.
pub fn callbacks_can_be_called()
    ensures { (callback : Callback) → IsTrue (can_be_called (called_back callback)) }
{}
