//! Numbers of texts, equal where the texts are.

ghost use Rattle.std.specs.Prelude.{◌≡◌, ℕ, ◌⊎◌, List, Some, IfOk};
ghost use Rattle.const_pool.specs.TextNumbers.{number_by};

use class_model::Pool;
use std::alloc::{AllocError, Global};
use std::collections::BTreeMap;

/// The numbers of texts.
type NumbersByText<'a> = BTreeMap<&'a [u8], u16>;

/// The number that a text has, or a number that is fresh.
fn number_of_text<'a>(
    numbers: &mut NumbersByText<'a>,
    text: &'a [u8],
    fresh: u16,
) -> Result<u16, AllocError>
    ensures number { IfOk result (λ number. number_by numbers.new text.now ≡ Some number) }
    ensures kept { (other : List ℕ) (number : ℕ) → number_by numbers.old other ≡ Some number
        → number_by numbers.new other ≡ Some number }
    ensures added { (other : List ℕ) (number : ℕ) → number_by numbers.new other ≡ Some number
        → (number_by numbers.old other ≡ Some number) ⊎ ((other ≡ text.now) × (number ≡ fresh)) }
{
    if let Some(number) = numbers.get(text) {
        return Ok(*number);
    }
    numbers.insert(text, fresh)?;
    Ok(fresh)
}

/// The texts of a pool that were asked for, each with the number of a constant that has it. The text of a constant is
/// compared at the first question alone, and then with a logarithmic number of others.
#[derive(Drop)]
pub struct TextNumbers<'a> {
    by_text: NumbersByText<'a>,
    by_constant: BTreeMap<u16, u16>,
}

impl<'a> TextNumbers<'a> {
    ghost use Rattle.std.specs.Prelude.{◌≡◌, Some, IfOk};
    ghost use Rattle.class_model.specs.declared.constant_pool.Pool.{Pool};
    ghost use Rattle.class_text.specs.Attributes.{text_or_empty};
    ghost use Rattle.const_pool.specs.TextNumbers.{number_in, AreNumbersOf, Grows};

    /// The numbers of no texts.
    pub(crate) fn new(alloc: Global) -> TextNumbers<'a>
        ensures { (pool : Pool) → AreNumbersOf pool result }
    {
        TextNumbers {
            by_text: BTreeMap::new(alloc),
            by_constant: BTreeMap::new(alloc),
        }
    }

    /// The number of a constant's text.
    pub(crate) fn number_of(&mut self, pool: &'a Pool, constant: u16) -> Result<u16, AllocError>
        ensures number { AreNumbersOf pool.now self.old
            → IfOk result (λ number. number_in self.new (text_or_empty pool.now constant)
            ≡ Some number) }
        ensures grows { AreNumbersOf pool.now self.old → Grows pool.now self.old self.new }
    {
        if let Some(number) = self.by_constant.get(&constant) {
            return Ok(*number);
        }
        let text = pool.text_or_empty(constant);
        let number = number_of_text(&mut self.by_text, text, constant)?;
        self.by_constant.insert(constant, number)?;
        Ok(number)
    }
}
