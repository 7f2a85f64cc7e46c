//! The table of external classes: the classes and interfaces that code may use and no build has.

ghost use Rattle.std.specs.Prelude.{◌≡◌, ◌<◌, ◌^◌, IsTrue, length, option_map, slice_get};
ghost use Rattle.jvm_tables.specs.Externals.{External, external_from, external_of, externals, all_stated, stated, said, method_said, method_named, names_rise};
ghost use Rattle.jvm_tables.specs.Hierarchy.{all_agree, all_end};

/// The classes that have natives together.
#[derive(Clone, Copy, Drop)]
pub enum Family {
    /// A class with natives of its own alone.
    Alone,
    /// `java/util/Collection` and what is below it.
    Lists,
    /// `java/lang/Throwable` and what is below it.
    Throwables,
    /// The classes of arrays, which are no rows of the table.
    Arrays,
}

/// A method by name.
#[derive(Clone, Copy, Drop)]
pub struct ExternalMethod {
    pub class: &'static str,
    pub name: &'static str,
    pub descriptor: &'static str,
}

/// The row of an external class or interface. Names have slashes.
#[derive(Clone, Copy, Drop)]
pub struct ExternalRow {
    /// Its place in the table.
    pub at: u32,
    pub class: &'static str,
    /// `None` for `java/lang/Object` alone, which stands above the interfaces too.
    pub super_class: Option<&'static str>,
    pub interfaces: &'static [&'static str],
    pub is_interface: bool,
    /// No object is of this class itself. Interfaces are abstract.
    pub is_abstract: bool,
    /// Whether a class of the build may have it as its super class.
    pub is_extensible: bool,
    pub family: Family,
    /// The method that an object of an interface must have.
    pub abstract_method: Option<ExternalMethod>,
}

/// What the table states of a class: its name, super class and interfaces, whether it is an
/// interface, abstract and extensible, its family, and name and descriptor of its abstract method.
pub type ExternalFacts = (
    &'static str,
    Option<&'static str>,
    &'static [&'static str],
    bool,
    bool,
    bool,
    Family,
    Option<(&'static str, &'static str)>,
);

// The facts in the order of `ExternalFacts`.
macro_rules! row {
    ($class:literal: $super_class:expr, [$($interface:literal)?], $is_interface:literal, $is_abstract:literal, $is_extensible:literal, $family:ident, $method:expr) => {
        ($class, $super_class, &[$($interface)?], $is_interface, $is_abstract, $is_extensible, Family::$family, $method)
    };
}

/// The external classes, in the order of the bytes of their names.
pub static EXTERNALS: [ExternalFacts; 61] = [
    row!("java/io/IOException": Some("java/lang/Exception"), [], false, false, true, Throwables, None),
    row!("java/lang/AbstractMethodError": Some("java/lang/IncompatibleClassChangeError"), [], false, false, true, Throwables, None),
    row!("java/lang/ArithmeticException": Some("java/lang/RuntimeException"), [], false, false, true, Throwables, None),
    row!("java/lang/ArrayIndexOutOfBoundsException": Some("java/lang/IndexOutOfBoundsException"), [], false, false, true, Throwables, None),
    row!("java/lang/ArrayStoreException": Some("java/lang/RuntimeException"), [], false, false, true, Throwables, None),
    row!("java/lang/AutoCloseable": Some("java/lang/Object"), [], true, true, false, Alone, Some(("close", "()V"))),
    row!("java/lang/Boolean": Some("java/lang/Object"), [], false, false, false, Alone, None),
    row!("java/lang/CharSequence": Some("java/lang/Object"), [], true, true, false, Alone, None),
    row!("java/lang/ClassCastException": Some("java/lang/RuntimeException"), [], false, false, true, Throwables, None),
    row!("java/lang/Comparable": Some("java/lang/Object"), [], true, true, false, Alone, Some(("compareTo", "(Ljava/lang/Object;)I"))),
    row!("java/lang/Enum": Some("java/lang/Object"), [], false, true, true, Alone, None),
    row!("java/lang/Error": Some("java/lang/Throwable"), [], false, false, true, Throwables, None),
    row!("java/lang/Exception": Some("java/lang/Throwable"), [], false, false, true, Throwables, None),
    row!("java/lang/ExceptionInInitializerError": Some("java/lang/LinkageError"), [], false, false, true, Throwables, None),
    row!("java/lang/IllegalArgumentException": Some("java/lang/RuntimeException"), [], false, false, true, Throwables, None),
    row!("java/lang/IllegalStateException": Some("java/lang/RuntimeException"), [], false, false, true, Throwables, None),
    row!("java/lang/IncompatibleClassChangeError": Some("java/lang/LinkageError"), [], false, false, true, Throwables, None),
    row!("java/lang/IndexOutOfBoundsException": Some("java/lang/RuntimeException"), [], false, false, true, Throwables, None),
    row!("java/lang/InstantiationError": Some("java/lang/IncompatibleClassChangeError"), [], false, false, true, Throwables, None),
    row!("java/lang/Integer": Some("java/lang/Number"), [], false, false, false, Alone, None),
    row!("java/lang/Iterable": Some("java/lang/Object"), [], true, true, false, Alone, None),
    row!("java/lang/LinkageError": Some("java/lang/Error"), [], false, false, true, Throwables, None),
    row!("java/lang/Long": Some("java/lang/Number"), [], false, false, false, Alone, None),
    row!("java/lang/Math": Some("java/lang/Object"), [], false, false, false, Alone, None),
    row!("java/lang/NegativeArraySizeException": Some("java/lang/RuntimeException"), [], false, false, true, Throwables, None),
    row!("java/lang/NoClassDefFoundError": Some("java/lang/LinkageError"), [], false, false, true, Throwables, None),
    row!("java/lang/NoSuchFieldError": Some("java/lang/IncompatibleClassChangeError"), [], false, false, true, Throwables, None),
    row!("java/lang/NoSuchMethodError": Some("java/lang/IncompatibleClassChangeError"), [], false, false, true, Throwables, None),
    row!("java/lang/NullPointerException": Some("java/lang/RuntimeException"), [], false, false, true, Throwables, None),
    row!("java/lang/Number": Some("java/lang/Object"), [], false, true, false, Alone, None),
    row!("java/lang/NumberFormatException": Some("java/lang/IllegalArgumentException"), [], false, false, true, Throwables, None),
    row!("java/lang/Object": None, [], false, false, true, Alone, None),
    row!("java/lang/Runnable": Some("java/lang/Object"), [], true, true, false, Alone, Some(("run", "()V"))),
    row!("java/lang/RuntimeException": Some("java/lang/Exception"), [], false, false, true, Throwables, None),
    row!("java/lang/String": Some("java/lang/Object"), ["java/lang/CharSequence"], false, false, false, Alone, None),
    row!("java/lang/StringBuilder": Some("java/lang/Object"), ["java/lang/CharSequence"], false, false, false, Alone, None),
    row!("java/lang/StringIndexOutOfBoundsException": Some("java/lang/IndexOutOfBoundsException"), [], false, false, true, Throwables, None),
    row!("java/lang/Throwable": Some("java/lang/Object"), [], false, false, true, Throwables, None),
    row!("java/lang/UnsatisfiedLinkError": Some("java/lang/LinkageError"), [], false, false, true, Throwables, None),
    row!("java/lang/UnsupportedOperationException": Some("java/lang/RuntimeException"), [], false, false, true, Throwables, None),
    row!("java/util/ArrayList": Some("java/lang/Object"), ["java/util/List"], false, false, false, Lists, None),
    row!("java/util/Collection": Some("java/lang/Object"), ["java/lang/Iterable"], true, true, false, Lists, None),
    row!("java/util/Iterator": Some("java/lang/Object"), [], true, true, false, Alone, None),
    row!("java/util/List": Some("java/lang/Object"), ["java/util/Collection"], true, true, false, Lists, None),
    row!("java/util/NoSuchElementException": Some("java/lang/RuntimeException"), [], false, false, true, Throwables, None),
    row!("java/util/Objects": Some("java/lang/Object"), [], false, false, false, Alone, None),
    row!("java/util/function/BiFunction": Some("java/lang/Object"), [], true, true, false, Alone, Some(("apply", "(Ljava/lang/Object;Ljava/lang/Object;)Ljava/lang/Object;"))),
    row!("java/util/function/BinaryOperator": Some("java/lang/Object"), ["java/util/function/BiFunction"], true, true, false, Alone, None),
    row!("java/util/function/Consumer": Some("java/lang/Object"), [], true, true, false, Alone, Some(("accept", "(Ljava/lang/Object;)V"))),
    row!("java/util/function/Function": Some("java/lang/Object"), [], true, true, false, Alone, Some(("apply", "(Ljava/lang/Object;)Ljava/lang/Object;"))),
    row!("java/util/function/Predicate": Some("java/lang/Object"), [], true, true, false, Alone, Some(("test", "(Ljava/lang/Object;)Z"))),
    row!("java/util/function/Supplier": Some("java/lang/Object"), [], true, true, false, Alone, Some(("get", "()Ljava/lang/Object;"))),
    row!("java/util/function/UnaryOperator": Some("java/lang/Object"), ["java/util/function/Function"], true, true, false, Alone, None),
    row!("mill/BadValue": Some("java/lang/RuntimeException"), [], false, false, true, Throwables, None),
    row!("mill/Denied": Some("java/lang/RuntimeException"), [], false, false, true, Throwables, None),
    row!("mill/Env": Some("java/lang/Object"), [], false, false, false, Alone, None),
    row!("mill/FixedList": Some("java/lang/Object"), ["java/util/List"], false, false, false, Lists, None),
    row!("mill/Fs": Some("java/lang/Object"), [], false, false, false, Alone, None),
    row!("mill/Lists": Some("java/lang/Object"), [], false, false, false, Alone, None),
    row!("mill/Log": Some("java/lang/Object"), [], false, false, false, Alone, None),
    row!("mill/PathRef": Some("java/lang/Object"), [], false, false, false, Alone, None),
];

/// The row of an external class, by its name with slashes.
#[tactic(auto, unfolding(crate::specs::Externals::externals))]
pub fn external(class: &[u8]) -> Option<ExternalRow>
    ensures { option_map said result ≡ external_of class.now }
{
    find_external(&EXTERNALS, class)
}

/// The row at a place of the table.
#[tactic(auto, unfolding(crate::specs::Externals::externals))]
pub fn external_at(at: u32) -> Option<ExternalRow>
    ensures { option_map said result ≡ option_map (λ row. (at, row)) (slice_get externals at) }
{
    external_among(&EXTERNALS, at)
}

fn external_among(rows: &[ExternalFacts], at: u32) -> Option<ExternalRow>
    ensures { option_map said result ≡ option_map (λ row. (at, row)) (slice_get (all_stated rows.now) at) }
{
    let place = at as usize;
    if place < rows.len() {
        Some(external_row(at, &rows[place]))
    } else {
        None
    }
}

fn find_external(rows: &[ExternalFacts], class: &[u8]) -> Option<ExternalRow>
    requires { length rows.now < 2 ^ 32 }
    ensures { option_map said result ≡ external_from 0 class.now (all_stated rows.now) }
{
    for (at, facts) in rows.iter().enumerate() {
        if facts.0.as_bytes() == class {
            return Some(external_row(at as u32, facts));
        }
    }
    None
}

fn external_row(at: u32, facts: &ExternalFacts) -> ExternalRow
    ensures { said result ≡ (at, stated facts.now) }
{
    let (class, super_class, interfaces, is_interface, is_abstract, is_extensible, family, method) =
        *facts;
    let abstract_method = method_row(class, method);
    ExternalRow {
        at,
        class,
        super_class,
        interfaces,
        is_interface,
        is_abstract,
        is_extensible,
        family,
        abstract_method,
    }
}

fn method_row(
    class: &'static str,
    method: Option<(&'static str, &'static str)>,
) -> Option<ExternalMethod>
    ensures { option_map method_said result ≡ method_named class.now (option_map (λ m. (m.0.now, m.1.now)) method.entry) }
{
    match method {
        None => None,
        Some((name, descriptor)) => Some(ExternalMethod {
            class,
            name,
            descriptor,
        }),
    }
}

/// The names are in rising order, so no class has two rows.
#[tactic(auto, unfolding(crate::specs::Externals::externals))]
pub fn external_names_rise()
    ensures { IsTrue (names_rise externals) }
{}

/// The rows agree with one another: super classes and interfaces are classes and interfaces of the
/// table, and flags and families follow from them.
#[tactic(auto, unfolding(crate::specs::Externals::externals))]
pub fn externals_agree()
    ensures { IsTrue (all_agree externals) }
{}

/// No external class is above itself.
#[tactic(auto, unfolding(crate::specs::Externals::externals))]
pub fn external_supers_end()
    ensures { IsTrue (all_end externals) }
{}
