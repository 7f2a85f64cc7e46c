//! The facts that the table of instructions states of one opcode.

ghost use Rattle.std.specs.Prelude.{◌≡◌, map, option_map};

/// The kind of a value in a local or on the operand stack. A long fills two slots.
#[derive(Clone, Copy, Debug, PartialEq, Eq, Drop)]
pub enum ValueKind {
    Int,
    Long,
    Reference,
}

/// The operands that follow an opcode in the code (JVMS 6.5), big-endian.
#[derive(Clone, Copy, Drop)]
pub enum Form {
    /// None.
    Bare,
    /// A signed byte.
    Byte,
    /// A signed number of two bytes.
    Short,
    /// The number of a constant, in one byte.
    ByteConstant,
    /// The number of a constant, in two bytes.
    Constant,
    /// The number of a local, in one byte, or in two after `wide`.
    Local,
    /// The number of a local and a signed byte, or two bytes of each after `wide`.
    LocalIncrement,
    /// A signed offset of two bytes.
    Branch,
    /// A signed offset of four bytes.
    WideBranch,
    /// Padding, the default, the bounds and an offset for each key between them.
    TableSwitch,
    /// Padding, the default, the number of pairs and the pairs of key and offset.
    LookupSwitch,
    /// The number of a constant, a count in one byte, and a byte of 0.
    InterfaceCall,
    /// The number of a constant, and two bytes of 0.
    CallSite,
    /// The code of an element type, in one byte.
    ElementType,
    /// The number of a constant, and the number of dimensions in one byte.
    Dimensions,
    /// A load, a store or `iinc`, with wider operands.
    Wide,
}

/// The values that an instruction takes off the operand stack or puts there, the last on top.
#[derive(Clone, Copy, Drop)]
pub enum Operands {
    Nothing,
    Int,
    Long,
    Reference,
    IntInt,
    LongLong,
    LongInt,
    ReferenceInt,
    ReferenceIntInt,
    ReferenceIntLong,
    ReferenceIntReference,
    ReferenceReference,
    /// So many slots, whatever they hold, none of them half of a long.
    Slots(u8),
    /// What the constant that the instruction names says: its value, or the types of its descriptor.
    ByConstant,
    /// A reference, and on it what the constant says.
    ReferenceByConstant,
    /// An int for each dimension that the instruction names.
    IntForEachDimension,
    /// Floats or doubles among them: such code is refused, so they are not told.
    Float,
}

impl Operands {
    ghost use Rattle.jvm_tables.specs.Kinds.{kinds_of};

    /// The kinds of the values, the last on top. `None` where the row alone does not tell them: for
    /// slots of any kind, and for what the constant or the dimensions say.
    pub fn kinds(self) -> Option<&'static [ValueKind]>
        ensures { option_map (λ kinds. kinds.now) result ≡ kinds_of self }
    {
        match self {
            Operands::Nothing => Some(&[]),
            Operands::Int => Some(&[ValueKind::Int]),
            Operands::Long => Some(&[ValueKind::Long]),
            Operands::Reference => Some(&[ValueKind::Reference]),
            Operands::IntInt => Some(&[ValueKind::Int, ValueKind::Int]),
            Operands::LongLong => Some(&[ValueKind::Long, ValueKind::Long]),
            Operands::LongInt => Some(&[ValueKind::Long, ValueKind::Int]),
            Operands::ReferenceInt => Some(&[ValueKind::Reference, ValueKind::Int]),
            Operands::ReferenceIntInt => Some(&[
                ValueKind::Reference,
                ValueKind::Int,
                ValueKind::Int,
            ]),
            Operands::ReferenceIntLong => Some(&[
                ValueKind::Reference,
                ValueKind::Int,
                ValueKind::Long,
            ]),
            Operands::ReferenceIntReference => {
                Some(&[ValueKind::Reference, ValueKind::Int, ValueKind::Reference])
            }
            Operands::ReferenceReference => Some(&[ValueKind::Reference, ValueKind::Reference]),
            Operands::Slots(_)
            | Operands::ByConstant
            | Operands::ReferenceByConstant
            | Operands::IntForEachDimension
            | Operands::Float => None,
        }
    }
}

/// The constant that an instruction names, by the tags that it may have (JVMS 4.4).
#[derive(Clone, Copy, Drop)]
pub enum ConstantUse {
    /// It names none.
    Nothing,
    /// Integer, String, Class, MethodHandle or MethodType; a Float is float use.
    Loadable,
    /// Long; a Double is float use.
    LoadableLong,
    Class,
    Field,
    Method,
    /// Methodref or InterfaceMethodref.
    AnyMethod,
    InterfaceMethod,
    /// InvokeDynamic.
    CallSite,
}

/// Where control goes after an instruction that throws nothing.
#[derive(Clone, Copy, Drop)]
pub enum Flow {
    /// On to the next instruction.
    Next,
    /// To the target or on to the next instruction.
    Branch,
    /// To the target.
    Jump,
    /// To one of the targets of a switch.
    Switch,
    /// Back to the caller.
    Return,
    /// To a handler: it only throws.
    Throw,
}

/// What an instruction may throw. `Throws::classes` has the classes of each group.
#[derive(Clone, Copy, Drop)]
pub enum Throws {
    Nothing,
    /// A division by zero.
    Division,
    /// No array, an array of another kind, or an index outside it.
    ArrayAccess,
    /// These, or an element that the array cannot hold.
    ArrayStore,
    /// No array, or an object that is none.
    ArrayLength,
    /// A negative length.
    NewArray,
    /// A negative length, or an absent class.
    NewReferenceArray,
    /// A constant that cannot be loaded.
    Constant,
    /// An absent class, or an object of another class.
    Cast,
    /// An absent class.
    ClassTest,
    /// No object.
    Monitor,
    /// No object, one of another class, or an absent class or field.
    Field,
    /// Any throwable: it throws one, calls a method or initialises a class.
    Anything,
}

impl Throws {
    ghost use Rattle.jvm_tables.specs.Thrown.{thrown};

    /// The names of the classes that may be thrown; `None` where any throwable may.
    pub fn classes(self) -> Option<&'static [&'static str]>
        ensures { option_map (λ classes. map (λ class. class.now) classes.now) result ≡ thrown self }
    {
        match self {
            Throws::Nothing => Some(&[]),
            Throws::Division => Some(&["java/lang/ArithmeticException"]),
            Throws::ArrayAccess => Some(&[
                "java/lang/NullPointerException",
                "java/lang/IncompatibleClassChangeError",
                "java/lang/ArrayIndexOutOfBoundsException",
            ]),
            Throws::ArrayStore => Some(&[
                "java/lang/NullPointerException",
                "java/lang/IncompatibleClassChangeError",
                "java/lang/ArrayIndexOutOfBoundsException",
                "java/lang/ArrayStoreException",
            ]),
            Throws::ArrayLength => {
                Some(&[
                    "java/lang/NullPointerException",
                    "java/lang/IncompatibleClassChangeError",
                ])
            }
            Throws::NewArray => Some(&["java/lang/NegativeArraySizeException"]),
            Throws::NewReferenceArray => {
                Some(&[
                    "java/lang/NoClassDefFoundError",
                    "java/lang/NegativeArraySizeException",
                ])
            }
            Throws::Constant => Some(&["java/lang/UnsupportedOperationException"]),
            Throws::Cast => {
                Some(&[
                    "java/lang/NoClassDefFoundError",
                    "java/lang/ClassCastException",
                ])
            }
            Throws::ClassTest => Some(&["java/lang/NoClassDefFoundError"]),
            Throws::Monitor => Some(&["java/lang/NullPointerException"]),
            Throws::Field => Some(&[
                "java/lang/NoClassDefFoundError",
                "java/lang/NoSuchFieldError",
                "java/lang/IncompatibleClassChangeError",
                "java/lang/NullPointerException",
            ]),
            Throws::Anything => None,
        }
    }
}

/// What an instruction does (JVMS 6.5). Opcodes that differ only in their operand form or in an
/// operand that they imply share one.
#[derive(Clone, Copy, Drop)]
pub enum Operation {
    Nop,
    PushNull,
    PushInt,
    PushLong,
    PushConstant,
    PushLongConstant,
    LoadInt,
    LoadLong,
    LoadReference,
    StoreInt,
    StoreLong,
    StoreReference,
    LoadIntElement,
    LoadLongElement,
    LoadReferenceElement,
    /// Of an array of byte or of boolean.
    LoadByteElement,
    LoadCharElement,
    LoadShortElement,
    StoreIntElement,
    StoreLongElement,
    StoreReferenceElement,
    /// Into an array of byte or of boolean.
    StoreByteElement,
    StoreCharElement,
    StoreShortElement,
    Pop,
    Pop2,
    Dup,
    DupX1,
    DupX2,
    Dup2,
    Dup2X1,
    Dup2X2,
    Swap,
    AddInt,
    AddLong,
    SubtractInt,
    SubtractLong,
    MultiplyInt,
    MultiplyLong,
    DivideInt,
    DivideLong,
    RemainderInt,
    RemainderLong,
    NegateInt,
    NegateLong,
    ShiftLeftInt,
    ShiftLeftLong,
    ShiftRightInt,
    ShiftRightLong,
    UnsignedShiftRightInt,
    UnsignedShiftRightLong,
    AndInt,
    AndLong,
    OrInt,
    OrLong,
    XorInt,
    XorLong,
    IncrementInt,
    IntToLong,
    LongToInt,
    IntToByte,
    IntToChar,
    IntToShort,
    CompareLong,
    /// Branches where an int is 0, and so on.
    IfEq,
    IfNe,
    IfLt,
    IfGe,
    IfGt,
    IfLe,
    /// Branches where two ints are equal, and so on.
    IfIntsEq,
    IfIntsNe,
    IfIntsLt,
    IfIntsGe,
    IfIntsGt,
    IfIntsLe,
    IfReferencesEq,
    IfReferencesNe,
    IfNull,
    IfNonNull,
    Goto,
    TableSwitch,
    LookupSwitch,
    ReturnInt,
    ReturnLong,
    ReturnReference,
    Return,
    GetStatic,
    PutStatic,
    GetField,
    PutField,
    InvokeVirtual,
    InvokeSpecial,
    InvokeStatic,
    InvokeInterface,
    InvokeDynamic,
    New,
    NewArray,
    NewReferenceArray,
    NewMultiArray,
    ArrayLength,
    Throw,
    CheckCast,
    InstanceOf,
    MonitorEnter,
    MonitorExit,
    Wide,
    /// An instruction on floats or doubles, which is float use.
    Float,
}

/// The row of an opcode.
#[derive(Clone, Copy, Drop)]
pub struct OpRow {
    pub opcode: u8,
    pub operation: Operation,
    pub form: Form,
    /// In bytes, with the opcode and without `wide`; 0 where the operands decide it.
    pub length: u8,
    /// The constant that the opcode itself pushes or the local that it names, as the 3 of
    /// `iconst_3` and of `iload_3`; 0 for others.
    pub implied: i8,
    pub constant: ConstantUse,
    pub takes: Operands,
    pub gives: Operands,
    /// The kind of the local that it reads.
    pub reads: Option<ValueKind>,
    /// The kind of the local that it writes.
    pub writes: Option<ValueKind>,
    pub flow: Flow,
    pub throws: Throws,
    /// Whether it initialises the class of its constant, or the one that declares the member.
    pub initialises: bool,
    /// Whether `wide` may go before it.
    pub takes_wide: bool,
    /// Whether it is an opcode on floats or doubles, which is float use.
    pub is_float: bool,
}
