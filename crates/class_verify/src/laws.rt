//! What verification promises of code to the machine that runs it.

ghost use Rattle.class_verify.specs.Laws.{EachIsSafe, EachGivenIsSafe};
ghost use Rattle.class_verify.specs.LawsOfConstants.{EachFieldIsNamed, EachMethodIsNamed, EachSiteIsNamed, EachMethodFits};
ghost use Rattle.class_verify.specs.LawsOfEntries.{EachBegins, EachEntryIsTold};
ghost use Rattle.class_verify.specs.LawsOfFamilies.{EachFamilyFits};
ghost use Rattle.class_verify.specs.LawsOfInstructions.{EachIsPlaced, EachLeavesByParts, EachPartIsLeft, EachExchanges, EachMoves};
ghost use Rattle.class_verify.specs.LawsOfShapes.{EachBodyIsFormed, EachShapeIsFormed, EachStaysFormed, EachHandlerHasRoom, FitsItself, FitsThrough, EachIsMonotone};

/// In code that fits, at each instruction that has a shape before it: it decodes, uses no float, names no unknown call
/// site, and finds there what it takes. What it leaves is within the limits, and fits the shape at each target and at
/// the next instruction where control goes on; each of these begins an instruction. Each handler whose range has the pc
/// accepts the locals, and a return has the kind of the method's result.
#[tactic(auto, using(crate::proofs::Safe::each_is_safe, crate::proofs::Given::each_given_is_safe))]
pub fn code_that_fits_is_safe()
    ensures found { EachIsSafe }
    ensures given { EachGivenIsSafe }
{}

/// Code that fits begins with the shape that its descriptor tells: nothing on the stack, and in the locals the slots of
/// `this`, where the method is no static one, and of the parameters. It fits the shape at the first instruction.
#[tactic(auto, using(crate::proofs::Given::each_begins, crate::proofs::Entries::each_entry_is_told))]
pub fn code_that_fits_begins()
    ensures met { EachBegins }
    ensures kinds { EachEntryIsTold }
{}

/// An instruction that is decoded stands at its pc, with the row of its opcode, and the next one is behind it. What it
/// leaves is told in parts: the local that it reads and writes, the values that it takes and gives, or the slots that
/// it moves.
pub fn instructions_leave_by_parts()
    ensures placed { EachIsPlaced }
    ensures parts { EachLeavesByParts }
    ensures whole { EachPartIsLeft }
    ensures exchanged { EachExchanges }
    ensures moved { EachMoves }
{}

/// Each shape of a method has both slots of its longs, keeps the limit of the stack, and has as many locals as the code
/// has; so does what an instruction leaves. Wherever a handler catches there is room for the thrown reference.
pub fn shapes_are_formed()
    ensures bodies { EachBodyIsFormed }
    ensures shapes { EachShapeIsFormed }
    ensures left { EachStaysFormed }
    ensures handlers { EachHandlerHasRoom }
{}

/// Fitting is an order, and an instruction keeps it: what it leaves of a shape that only fits fits what it leaves of
/// the exact one.
pub fn shapes_that_fit_leave_so()
    ensures itself { FitsItself }
    ensures through { FitsThrough }
    ensures left { EachIsMonotone }
{}

/// Code fits where each instruction has a shape, also where control never comes: with these shapes the rules hold at
/// each, and the file writes its frames for them, one behind each instruction from which control doesn't go on.
pub fn code_with_shapes_fits()
    ensures { EachFamilyFits }
{}

/// In code that fits the constant of an instruction on a field or a method is a member of a tag that it may name, whose
/// descriptor spells a type, and that of an invokedynamic has a call site. Each method of a verified program that has
/// code has a body that fits.
pub fn constants_name_members()
    ensures fields { EachFieldIsNamed }
    ensures methods { EachMethodIsNamed }
    ensures sites { EachSiteIsNamed }
    ensures bodies { EachMethodFits }
{}
