//! Rows that have code, and what stands together.

ghost use Rattle.std.specs.Prelude.{◌≡◌, IfSome, is_some, true};
ghost use Rattle.native_calls.specs.Rows.{is_among, is_coded, rows_of, rows_of_numbers, rows_of_one, rows_of_others, rows_of_two, takes_numbers, takes_one, takes_others, takes_two};

use std::marker::Model;

/// Natives of one object.
#[derive(Clone, Copy, Drop)]
pub(crate) enum Ones {
    Objects,
    Numbers,
    Boxes,
    Lists,
    Throwables,
    Outside,
}

/// Natives of two objects.
#[derive(Clone, Copy, Drop)]
pub(crate) enum Twos {
    Texts,
    Pairs,
    Elements,
    Places,
}

/// Natives of numbers, and of an object and a number.
#[derive(Clone, Copy, Drop)]
pub(crate) enum Numbers {
    Int,
    Long,
    Ints,
    Longs,
    At,
    LongAt,
}

/// Natives that take something else.
#[derive(Clone, Copy, Drop)]
pub(crate) enum Others {
    Three,
    Part,
    Set,
    Enum,
    Nothing,
    ListOf,
}

/// Natives by what they take.
#[derive(Clone, Copy, Drop)]
pub(crate) enum Group {
    One(Ones),
    Two(Twos),
    Numbers(Numbers),
    Others(Others),
}

/// A row of the table of natives that has code.
#[derive(Drop)]
pub struct CodedRow {
    pub(crate) at: u32,
    pub(crate) group: Group,
}

impl Model for CodedRow {
    ghost use Rattle.std.specs.Prelude.{◌≡◌, ℕ, true};
    ghost use Rattle.native_calls.specs.Rows.{is_among, rows_of};

    ghost Value = { ℕ };

    ghost view = { λ row. row.at };

    ghost invariant = { λ row. is_among (rows_of row.group) row.at ≡ true };
}

fn is_among(rows: &[u32], at: u32) -> bool
    ensures { result ≡ is_among rows.now at }
{
    rows.iter().any(|row| at == *row)
}

fn group_of_one(at: u32) -> Option<Ones>
    ensures some { is_some result ≡ takes_one at }
    ensures row { IfSome result (λ group. is_among (rows_of_one group) at ≡ true) }
{
    if is_among(&[0, 1, 2, 4, 5, 6, 16, 17, 23], at) {
        Some(Ones::Objects)
    } else if is_among(&[24, 26, 27, 35, 38, 39, 41, 42], at) {
        Some(Ones::Numbers)
    } else if is_among(&[44, 47, 48, 50, 51, 53, 55, 56, 63], at) {
        Some(Ones::Boxes)
    } else if is_among(&[66, 67, 68, 69, 71, 72, 78, 80, 82], at) {
        Some(Ones::Lists)
    } else if is_among(&[94, 95, 96, 97, 101, 102, 104], at) {
        Some(Ones::Throwables)
    } else if is_among(&[113, 115, 116], at) {
        Some(Ones::Outside)
    } else {
        None
    }
}

fn group_of_two(at: u32) -> Option<Twos>
    ensures some { is_some result ≡ takes_two at }
    ensures row { IfSome result (λ group. is_among (rows_of_two group) at ≡ true) }
{
    if is_among(&[3, 10, 11, 12, 13, 14, 15, 18], at) {
        Some(Twos::Texts)
    } else if is_among(&[25, 28, 33, 40, 49, 54, 64], at) {
        Some(Twos::Pairs)
    } else if is_among(&[75, 76, 77, 79, 81, 98, 100, 103], at) {
        Some(Twos::Elements)
    } else if is_among(&[105, 106, 108, 109, 110, 112, 114], at) {
        Some(Twos::Places)
    } else {
        None
    }
}

fn group_of_numbers(at: u32) -> Option<Numbers>
    ensures some { is_some result ≡ takes_numbers at }
    ensures row { IfSome result (λ group. is_among (rows_of_numbers group) at ≡ true) }
{
    if is_among(&[19, 21, 22, 34, 36, 52, 57], at) {
        Some(Numbers::Int)
    } else if is_among(&[20, 43, 45, 58], at) {
        Some(Numbers::Long)
    } else if is_among(&[37, 59, 61], at) {
        Some(Numbers::Ints)
    } else if is_among(&[46, 60, 62], at) {
        Some(Numbers::Longs)
    } else if is_among(&[7, 8, 29, 31, 32, 70, 73], at) {
        Some(Numbers::At)
    } else if is_among(&[30], at) {
        Some(Numbers::LongAt)
    } else {
        None
    }
}

fn group_of_others(at: u32) -> Option<Others>
    ensures some { is_some result ≡ takes_others at }
    ensures row { IfSome result (λ group. is_among (rows_of_others group) at ≡ true) }
{
    if is_among(&[99, 107], at) {
        Some(Others::Three)
    } else if is_among(&[9], at) {
        Some(Others::Part)
    } else if is_among(&[74], at) {
        Some(Others::Set)
    } else if is_among(&[65], at) {
        Some(Others::Enum)
    } else if is_among(&[117], at) {
        Some(Others::Nothing)
    } else if is_among(&[83, 84, 85, 86, 87, 88, 89, 90, 91, 92, 93], at) {
        Some(Others::ListOf)
    } else {
        None
    }
}

fn group_of(at: u32) -> Option<Group>
    ensures some { is_some result ≡ is_coded at }
    ensures row { IfSome result (λ group. is_among (rows_of group) at ≡ true) }
{
    if let Some(group) = group_of_one(at) {
        return Some(Group::One(group));
    }
    if let Some(group) = group_of_two(at) {
        return Some(Group::Two(group));
    }
    if let Some(group) = group_of_numbers(at) {
        return Some(Group::Numbers(group));
    }
    match group_of_others(at) {
        Some(group) => Some(Group::Others(group)),
        None => None,
    }
}

impl CodedRow {
    /// The row of a place in the table, where it has code.
    pub fn of(at: u32) -> Option<CodedRow>
        ensures some { is_some result ≡ is_coded at }
        ensures row { IfSome result (λ row. row ≡ at) }
    {
        match group_of(at) {
            Some(group) => Some(CodedRow { at, group }),
            None => None,
        }
    }
}
