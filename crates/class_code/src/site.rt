//! The call sites of bootstrap methods that are known, as data (JVMS 4.7.23).

ghost use Rattle.std.specs.Prelude.{◌≡◌, option_map, option_copied, option_and_then};
ghost use Rattle.class_model.specs.Constants.{constant_at};
ghost use Rattle.class_code.specs.Sites.{lambda_by, recipe_of, concatenation_by, site_by, written_site};
ghost use Rattle.class_code.specs.Parts.{lambda_site, concatenation_site, site};

use crate::bootstraps::{bootstrap_at, is_concatenating, is_metafactory};
use crate::constants::{descriptor_at, name_at};
use crate::named::{HandleView, handle_at, method_type_at};
use crate::types::returned_of;
use class_model::{Bootstrap, Class, Constant, Pool};

/// A lambda's site. Its descriptor takes the captured values and gives the interface.
#[derive(Clone, Copy, Debug)]
pub struct LambdaView<'a> {
    /// The name of the interface's method.
    pub method: &'a [u8],
    pub descriptor: &'a [u8],
    /// The type of the interface's method.
    pub erased: &'a [u8],
    pub implementing: HandleView<'a>,
    /// The type that the interface's method has at this site.
    pub instantiated: &'a [u8],
}

impl<'a> LambdaView<'a> {
    ghost use Rattle.std.specs.Prelude.{◌≡◌, option_copied};
    ghost use Rattle.class_code.specs.Parts.{lambda_site};
    ghost use Rattle.class_code.specs.Sites.{interface};

    /// The interface that the lambda has.
    pub fn interface(self) -> Option<&'a [u8]>
        ensures { option_copied result ≡ interface (lambda_site self.entry) }
    {
        match returned_of(self.descriptor) {
            Some(returned) => returned.class(),
            None => None,
        }
    }
}

/// A concatenation's site. Its descriptor takes the arguments; its constants are by their numbers.
#[derive(Clone, Copy, Debug)]
pub struct ConcatenationView<'a> {
    pub descriptor: &'a [u8],
    pub recipe: &'a [u8],
    pub constants: &'a [u16],
}

#[derive(Clone, Copy, Debug)]
pub enum SiteView<'a> {
    Lambda(LambdaView<'a>),
    Concatenation(ConcatenationView<'a>),
}

fn lambda_by<'a>(
    pool: &'a Pool,
    method: &'a [u8],
    descriptor: &'a [u8],
    arguments: &[u16],
) -> Option<LambdaView<'a>>
    ensures { option_map lambda_site result ≡ lambda_by pool.now method.now descriptor.now arguments.now }
{
    let [erased, implementing, instantiated] = arguments else {
        return None;
    };
    let Some(erased) = method_type_at(pool, *erased) else {
        return None;
    };
    let Some(implementing) = handle_at(pool, *implementing) else {
        return None;
    };
    match method_type_at(pool, *instantiated) {
        Some(instantiated) => Some(LambdaView {
            method,
            descriptor,
            erased,
            implementing,
            instantiated,
        }),
        None => None,
    }
}

pub(crate) fn recipe_at(pool: &Pool, number: u16) -> Option<&[u8]>
    ensures { option_copied result ≡ option_and_then (recipe_of pool.now) (constant_at pool.now number) }
{
    match pool.constant(number) {
        Some(Constant::Text(text)) => pool.text(*text),
        _ => None,
    }
}

fn concatenation_by<'a>(
    pool: &'a Pool,
    descriptor: &'a [u8],
    arguments: &'a [u16],
) -> Option<ConcatenationView<'a>>
    ensures { option_map concatenation_site result ≡ concatenation_by pool.now descriptor.now arguments.now }
{
    match arguments.split_first() {
        Some((recipe, constants)) => match recipe_at(pool, *recipe) {
            Some(recipe) => Some(ConcatenationView {
                descriptor,
                recipe,
                constants,
            }),
            None => None,
        },
        None => None,
    }
}

fn site_by<'a>(
    pool: &'a Pool,
    method: &'a [u8],
    descriptor: &'a [u8],
    bootstrap: &'a Bootstrap,
) -> Option<SiteView<'a>>
    ensures { option_map site result ≡ site_by pool.now method.now descriptor.now bootstrap.now }
{
    let arguments = bootstrap.arguments.as_slice();
    if is_metafactory(pool, bootstrap) {
        return match lambda_by(pool, method, descriptor, arguments) {
            Some(lambda) => Some(SiteView::Lambda(lambda)),
            None => None,
        };
    }
    if is_concatenating(pool, bootstrap) {
        return match concatenation_by(pool, descriptor, arguments) {
            Some(concatenation) => Some(SiteView::Concatenation(concatenation)),
            None => None,
        };
    }
    None
}

/// What the file says of a site by an entry of the class's table of bootstrap methods and a name and type, whether or
/// not its parts go together. `None` for another bootstrap method, and where an argument is of another sort.
#[tactic(auto, unfolding(crate::specs::Sites::written_site))]
pub fn written_site(class: &Class, bootstrap: u16, name_type: u16) -> Option<SiteView<'_>>
    ensures { option_map site result ≡ written_site class.now bootstrap name_type }
{
    let Some(method) = name_at(&class.pool, name_type) else {
        return None;
    };
    let Some(descriptor) = descriptor_at(&class.pool, name_type) else {
        return None;
    };
    match bootstrap_at(class, bootstrap) {
        Some(bootstrap) => site_by(&class.pool, method, descriptor, bootstrap),
        None => None,
    }
}
