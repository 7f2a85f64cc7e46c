//! What a program answers.

ghost use Rattle.std.specs.Prelude.{◌≡◌, option_map};
ghost use Rattle.class_model.specs.declared.identifiers.MemberId.{MemberId};
ghost use Rattle.class_model.specs.declared.identifiers.MemberRef.{MemberRef};
ghost use Rattle.class_code.specs.Parts.{member_ref};
ghost use Rattle.jvm_model.specs.Plans.{Oracle, resolve, select, select_special, below, class_of};
ghost use Rattle.jvm_resolve.specs.Ends.{target_of, origin_of};

use class_code::{LambdaView, MemberView};
use class_model::{MemberId, SiteId};
use native_model::Naming;

/// What a reference leads to.
#[derive(Clone, Copy, Debug)]
pub enum Target<'a> {
    /// There is no such method.
    Nowhere,
    Abstract,
    /// Several of the superinterface methods that may be selected aren't abstract.
    Several,
    /// A method of the program, with its flags.
    Own(MemberId, u16),
    /// A method of an external class.
    Outer(MemberView<'a>),
}

/// A lambda's site, with the class in whose code it stands.
#[derive(Clone, Copy, Debug)]
pub struct OriginView<'a> {
    pub caller: &'a [u8],
    pub site: LambdaView<'a>,
}

/// A program as it answers look-ups, by names.
pub trait Lookups: Naming {
    ghost oracle: { Self → Oracle };

    ghost method_name: { Self → MemberId → MemberRef };

    /// Where a lambda was made.
    fn origin(&self, site: SiteId) -> OriginView<'_>
        ensures { origin_of result ≡ Self.site_origin self.now site };

    /// The flags of a class that is there.
    fn class_flags(&self, name: &[u8]) -> Option<u16>
        ensures { result ≡ option_map (λ facts. facts.flags) (oracle self.now (class_of name.now)) };

    /// JVMS 5.4.3.3 and 5.4.3.4.
    fn resolve(&self, method: MemberView<'_>) -> Target<'_>
        ensures { oracle self.now (resolve (member_ref method.entry)) ≡ target_of (method_name self.now) result };

    /// What a reference selects for a receiver of a class (JVMS 5.4.6).
    fn select(&self, method: MemberView<'_>, class: &[u8]) -> Target<'_>
        ensures { oracle self.now (select (member_ref method.entry) class.now)
            ≡ target_of (method_name self.now) result };

    /// What a special reference selects that stands in a class (JVMS 6.5, invokespecial).
    fn select_special(&self, caller: &[u8], method: MemberView<'_>) -> Target<'_>
        ensures { oracle self.now (select_special caller.now (member_ref method.entry))
            ≡ target_of (method_name self.now) result };

    /// Whether a class is a subtype of another (JVMS 4.10).
    fn is_below(&self, low: &[u8], high: &[u8]) -> bool
        ensures { result ≡ oracle self.now (below low.now high.now) };
}
