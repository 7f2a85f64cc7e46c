//! Operations on ints.

ghost use Rattle.std.specs.Prelude.{◌≡◌};
ghost use Rattle.mill_top.specs.LinkedFiles.{operation_opcode, operation_of};
ghost use Rattle.mill_top.specs.Scratch.{apply};

/// An operation on two ints, which wraps in 32 bits (JVMS 6.5).
#[derive(Clone, Copy, Debug, PartialEq, Eq)]
pub enum Operation {
    /// `iadd`.
    Sum,
    /// `isub`.
    Difference,
    /// `imul`.
    Product,
}

impl Operation {
    /// The operation of an instruction, or `None` for all others.
    pub fn of(opcode: u8) -> Option<Operation>
        ensures { result ≡ operation_of opcode }
    {
        match opcode {
            0x60 => Some(Operation::Sum),
            0x64 => Some(Operation::Difference),
            0x68 => Some(Operation::Product),
            _ => None,
        }
    }

    /// The operation's instruction.
    pub fn opcode(self) -> u8
        ensures { result ≡ operation_opcode self }
    {
        match self {
            Operation::Sum => 0x60,
            Operation::Difference => 0x64,
            Operation::Product => 0x68,
        }
    }

    /// The operation's result.
    #[tactic(auto, using(std::proofs::lemmas::Int::wraps))]
    pub fn apply(self, left: i32, right: i32) -> i32
        ensures { result ≡ apply self left right }
    {
        match self {
            Operation::Sum => left.wrapping_add(right),
            Operation::Difference => left.wrapping_sub(right),
            Operation::Product => left.wrapping_mul(right),
        }
    }
}
