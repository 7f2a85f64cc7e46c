//! The rows.

ghost use Rattle.body_rows.specs.Numbers.{SumWraps, LeastByMinusOne, DivisionByZero, RemainderSign, ShiftByOneMore, Endless, JustEnough, TooFew};
ghost use Rattle.body_rows.specs.Objects.{ArrayLength, NegativeSize, Caught, LengthOfText};
ghost use Rattle.body_rows.specs.Calls.{SumOfThree, InitialisedOnce, LambdaGives};

/// Each body ends as JVMS chapter 6 has it, with the budget that it is given.
pub fn bodies_end_as_stated()
    ensures sum_wraps { SumWraps }
    ensures least_by_minus_one { LeastByMinusOne }
    ensures division_by_zero { DivisionByZero }
    ensures remainder_sign { RemainderSign }
    ensures shift_by_one_more { ShiftByOneMore }
    ensures endless { Endless }
    ensures just_enough { JustEnough }
    ensures too_few { TooFew }
    ensures array_length { ArrayLength }
    ensures negative_size { NegativeSize }
    ensures caught { Caught }
    ensures length_of_text { LengthOfText }
    ensures sum_of_three { SumOfThree }
    ensures initialised_once { InitialisedOnce }
    ensures lambda_gives { LambdaGives }
{}
