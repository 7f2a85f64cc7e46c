//! Texts of a pool that members share.

ghost use Rattle.std.specs.Prelude.{◌≡◌, [], Some, None, IfOk, IfSome, unwrap_or, slice_index_or};
ghost use Rattle.class_model.specs.Constants.{text_at};
ghost use Rattle.class_index.specs.Texts.{AreTexts};

use class_model::{Pool, Raw};
use sqlite_items::Items;
use std::alloc::{AllocError, Global};
use std::marker::Model;
use std::rc::Rc;

/// A text of which all that have it share one copy.
#[derive(Drop)]
pub struct SharedText {
    text: Rc<Raw>,
}

impl Model for SharedText {
    ghost use Rattle.std.specs.Prelude.{List, ℕ};

    ghost Value = { List ℕ };

    ghost view = { λ t. t.text.value };
}

impl SharedText {
    /// A copy of a text.
    pub(crate) fn copy_of(alloc: Global, text: &[u8]) -> Result<SharedText, AllocError>
        ensures { IfOk result (λ copy. copy ≡ text.now) }
    {
        let text = Rc::new(alloc, Items::from_slice(alloc, text)?)?;
        Ok(SharedText { text })
    }

    /// The same text, which takes no memory.
    fn share(&self) -> Result<SharedText, AllocError>
        ensures { IfOk result (λ same. same ≡ self.now) }
    {
        let text = self.text.clone()?;
        Ok(SharedText { text })
    }

    /// Its bytes.
    pub fn as_slice(&self) -> &[u8]
        ensures { result.now ≡ self.now }
    {
        self.text.as_ref().as_slice()
    }
}

/// The texts of a pool by their numbers, so far as they were asked for.
pub(crate) type Texts = Vec<Option<SharedText>>;

/// Room for the texts of a pool.
pub(crate) fn no_texts(alloc: Global, pool: &Pool) -> Result<Texts, AllocError>
    ensures { IfOk result (λ texts. AreTexts pool.now texts.items) }
{
    let numbers = pool.constants.len();
    let mut texts = Vec::with_capacity(alloc, numbers)?;
    for _ in 0..numbers {
        texts.push(None)?;
    }
    Ok(texts)
}

/// The text of a number, if it was asked for before.
fn text_before(texts: &[Option<SharedText>], number: u16) -> Option<&SharedText>
    ensures { IfSome result (λ text. slice_index_or texts.now number None ≡ Some text.now) }
{
    match texts.get(usize::from(number)) {
        Some(Some(text)) => Some(text),
        _ => None,
    }
}

/// The text of a number, nothing where there is none. It is copied where it is asked for first.
pub(crate) fn text_of(
    alloc: Global,
    pool: &Pool,
    texts: &mut Texts,
    number: u16,
) -> Result<SharedText, AllocError>
    requires { AreTexts pool.now texts.old.items }
    ensures value { IfOk result (λ text. text ≡ unwrap_or (text_at pool.now number) []) }
    ensures texts { AreTexts pool.now texts.new.items }
{
    if let Some(text) = text_before(texts.as_slice(), number) {
        return text.share();
    }
    let text = SharedText::copy_of(alloc, pool.text_or_empty(number))?;
    let at = usize::from(number);
    if at < texts.len() {
        texts[at] = Some(text.share()?);
    }
    Ok(text)
}
