//! The lambda sites of a program.

ghost use Rattle.std.specs.Prelude.{◌≡◌, ◌<◌, ◌^◌, slice_get, option_map, option_and_then, unwrap_or};
ghost use Rattle.class_code.specs.Codes.{code_in};
ghost use Rattle.class_code.specs.Parts as parts;
ghost use Rattle.class_code.specs.Parts.{lambda_site};
ghost use Rattle.jvm_resolve.specs.Ends as ends;
ghost use Rattle.program_lookups.specs.Names.{dynamic_by, dynamic_at, site_of, lambda_of, lambda_at, lambda_in, class_at, no_lambda, origin_of};

use crate::classes::Classes;
use class_code::{HandleView, LambdaView, MemberView, SiteView, code_of, written_site};
use class_model::{Class, ClassId, Constant, Member, SiteId};
use jvm_resolve::OriginView;

const INVOKEDYNAMIC: u8 = 186;

/// The number of the constant of an invokedynamic at a pc of a method.
fn dynamic_at(pc: u32, method: &Member) -> Option<u16>
    ensures { result ≡ option_and_then (dynamic_at pc) (code_in method.now.attributes) }
{
    let view = code_of(method.attributes.as_slice())?;
    dynamic_in(view.code, pc as usize)
}

fn dynamic_in(code: &[u8], pc: usize) -> Option<u16>
    requires { pc < 2 ^ 32 }
    ensures { result ≡ dynamic_by code.now pc (slice_get code.now pc) }
{
    if *code.get(pc)? != INVOKEDYNAMIC {
        return None;
    }
    let high = u16::from(*code.get(pc + 1)?);
    let low = u16::from(*code.get(pc + 2)?);
    Some(high * 256 + low)
}

fn site_of<'a>(class: &'a Class, constant: &Constant) -> Option<SiteView<'a>>
    ensures { option_map parts.site result ≡ site_of class.now constant.now }
{
    match constant {
        Constant::InvokeDynamic {
            bootstrap,
            name_type,
        } => written_site(class, *bootstrap, *name_type),
        _ => None,
    }
}

fn lambda_of(site: Option<SiteView<'_>>) -> Option<LambdaView<'_>>
    ensures { option_map lambda_site result
        ≡ option_and_then lambda_of (option_map parts.site site.entry) }
{
    match site {
        Some(SiteView::Lambda(lambda)) => Some(lambda),
        _ => None,
    }
}

fn lambda_at<'a>(pc: u32, class: &'a Class, method: &Member) -> Option<LambdaView<'a>>
    ensures { option_map lambda_site result ≡ lambda_at pc class.now method.now }
{
    let Some(number) = dynamic_at(pc, method) else {
        return None;
    };
    match class.pool.constant(number) {
        Some(constant) => lambda_of(site_of(class, constant)),
        None => None,
    }
}

fn lambda_in(site: SiteId, class: &Class) -> Option<LambdaView<'_>>
    ensures { option_map lambda_site result ≡ lambda_in site class.now }
{
    match class.methods.as_slice().get(site.method.at as usize) {
        Some(method) => lambda_at(site.pc, class, method),
        None => None,
    }
}

fn no_lambda<'a>() -> LambdaView<'a>
    ensures { lambda_site result ≡ no_lambda }
{
    LambdaView {
        method: &[],
        descriptor: &[],
        erased: &[],
        implementing: HandleView {
            kind: 0,
            tag: 0,
            member: MemberView {
                owner: &[],
                name: &[],
                descriptor: &[],
            },
        },
        instantiated: &[],
    }
}

impl Classes<'_> {
    fn class_at(&self, class: ClassId) -> Option<&Class>
        ensures { option_map (λ c. c.now) result ≡ class_at self.now.program.now class }
    {
        match class {
            ClassId::Own(at) => self.program.classes().get(at as usize),
            ClassId::Outer(_) => None,
        }
    }

    fn lambda(&self, site: SiteId) -> Option<LambdaView<'_>>
        ensures { option_map lambda_site result
            ≡ option_and_then (lambda_in site) (class_at self.now.program.now site.method.class) }
    {
        match self.class_at(site.method.class) {
            Some(class) => lambda_in(site, class),
            None => None,
        }
    }

    /// The lambda site of a number, and the class in whose code it stands; empty texts where there is none.
    pub(crate) fn origin_of(&self, site: SiteId) -> OriginView<'_>
        ensures { ends.origin_of result ≡ origin_of self.now.program.now site }
    {
        OriginView {
            caller: self.class_name(site.method.class),
            site: match self.lambda(site) {
                Some(lambda) => lambda,
                None => no_lambda(),
            },
        }
    }
}
