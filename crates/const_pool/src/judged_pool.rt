//! A pool with the table of its texts.

ghost use Rattle.std.specs.Prelude.{◌≡◌};

use crate::text_forms::TextTable;
use class_model::{Constant, Pool};
use std::marker::Model;

/// A pool each of whose texts has been judged, so that no question about a text looks at its bytes again.
#[derive(Drop)]
pub struct JudgedPool {
    pool: Pool,
    texts: TextTable,
}

impl Model for JudgedPool {
    ghost use Rattle.class_model.specs.declared.constant_pool.Pool.{Pool};
    ghost use Rattle.class_model.specs.contracts.constant_pool.Pool as pool_type;
    ghost use Rattle.const_pool.specs.TextForms.{IsTableOf};

    ghost Value = { Pool };

    ghost coded = { pool_type.the_row.coded };

    ghost view = { λ p. p.pool };

    ghost invariant = { λ p. IsTableOf p.pool p.texts };
}

impl JudgedPool {
    ghost use Rattle.std.specs.Prelude.{◌≡◌, [], is_some, option_copied, unwrap_or, if◌then◌else◌};
    ghost use Rattle.class_model.specs.ClassNames.{is_method_name, is_unqualified};
    ghost use Rattle.class_model.specs.Constants.{class_at, constant_at, is_some_that, text_at};
    ghost use Rattle.class_model.specs.Descriptors.{is_field_descriptor, is_method_descriptor, is_return_descriptor};
    ghost use Rattle.class_model.specs.Shape.{is_plain_class};
    ghost use Rattle.const_pool.specs.TextForms.{IsTableOf};

    pub(crate) fn of(pool: Pool, texts: TextTable) -> JudgedPool
        requires { IsTableOf pool texts }
        ensures { result ≡ pool }
    {
        JudgedPool { pool, texts }
    }

    /// The pool alone.
    pub fn as_pool(&self) -> &Pool
        ensures { result.now ≡ self.now }
    {
        &self.pool
    }

    /// The pool alone, where its texts are judged no more.
    pub fn into_pool(self) -> Pool
        ensures { result ≡ self }
    {
        self.pool
    }

    /// Whether a class or interface stands there that is no array class.
    #[tactic(auto, unfolding(class_model::specs::Shape::is_plain_class, class_model::specs::Constants::class_at))]
    pub fn is_plain_class(&self, index: u16) -> bool
        ensures { result ≡ is_plain_class self.now index }
    {
        match self.pool.constant(index) {
            Some(Constant::Class(name)) => self.texts.is_class_name(&self.pool, *name),
            _ => false,
        }
    }

    pub fn is_field_name(&self, index: u16) -> bool
        ensures { result ≡ is_some_that is_unqualified (text_at self.now index) }
    {
        self.texts.is_field_name(&self.pool, index)
    }

    pub fn is_method_name(&self, index: u16) -> bool
        ensures { result ≡ is_some_that is_method_name (text_at self.now index) }
    {
        self.texts.is_method_name(&self.pool, index)
    }

    /// Whether a field descriptor stands there.
    pub fn is_field_type(&self, index: u16) -> bool
        ensures { result ≡ is_some_that is_field_descriptor (text_at self.now index) }
    {
        self.texts.is_field_type(&self.pool, index)
    }

    /// Whether a field descriptor or `V` stands there.
    pub fn is_return_type(&self, index: u16) -> bool
        ensures { result ≡ is_some_that is_return_descriptor (text_at self.now index) }
    {
        self.texts.is_return_type(&self.pool, index)
    }

    /// Whether the descriptor of a static method stands there, or of one with `this`.
    pub fn is_method_type(&self, is_static: bool, index: u16) -> bool
        ensures { result ≡ is_some_that (is_method_descriptor (if is_static then 255 else 254))
            (text_at self.now index) }
    {
        self.texts.is_method_type(&self.pool, is_static, index)
    }
}
