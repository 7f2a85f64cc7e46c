//! The answers of a program to look-ups.

ghost use Rattle.std.specs.Prelude.{◌≡◌, map, option_map, slice_get, unwrap_or};
ghost use Rattle.class_index.specs.Outlines.{outline};
ghost use Rattle.class_index.specs.Declarations.{IsMethodId};
ghost use Rattle.class_index.specs.Naming.{named, flags_of, selected_target};
ghost use Rattle.jvm_model.specs.Programs.{oracle};
ghost use Rattle.jvm_resolve.specs.Ends.{target_of};
ghost use Rattle.program_lookups.specs.Names.{name_of, method_name, origin_of, AreThere};

use crate::classes::Classes;
use class_code::MemberView;
use class_index::{Outline, Selected};
use class_model::{ClassId, MemberId, SiteId};
use jvm_resolve::{Lookups, OriginView, Target};
use native_model::Naming;

/// The flags of a method by its place in file order; 0 where there is none.
fn flags_in(class: &Outline, at: u32) -> u16
    ensures { result ≡ unwrap_or (option_map (λ m. m.flags) (slice_get class.now.methods at)) 0 }
{
    match class.methods.as_slice().get(at as usize) {
        Some(method) => method.flags,
        None => 0,
    }
}

impl Classes<'_> {
    /// The flags of a method of the program.
    #[tactic(auto, using(crate::proofs::Named::names_told))]
    fn flags_of(&self, class: u32, at: u32) -> u16
        ensures { result ≡ flags_of (map outline self.now.program.now) class at }
    {
        if !self.is_class(ClassId::Own(class)) {
            return 0;
        }
        flags_in(self.index.outline(ClassId::Own(class)), at)
    }

    #[tactic(auto, using(crate::proofs::Named::names_told))]
    fn named(&self, id: MemberId) -> Target<'_>
        requires { IsMethodId (map outline self.now.program.now) id }
        ensures { target_of (method_name (map outline self.now.program.now)) result
            ≡ named (map outline self.now.program.now) id }
    {
        match id.class {
            ClassId::Own(class) => Target::Own(id, self.flags_of(class, id.at)),
            ClassId::Outer(_) => {
                let method = self.index.method(id);
                Target::Outer(MemberView {
                    owner: self.index.class_name(id.class),
                    name: method.name,
                    descriptor: method.descriptor,
                })
            }
        }
    }

    fn selected(&self, selected: Option<Selected>) -> Target<'_>
        requires { AreThere (map outline self.now.program.now) selected }
        ensures { target_of (method_name (map outline self.now.program.now)) result
            ≡ selected_target (map outline self.now.program.now) selected }
    {
        match selected {
            None => Target::Nowhere,
            Some(Selected::Found(id)) => self.named(id),
            Some(Selected::Abstract) => Target::Abstract,
            Some(Selected::Tie) => Target::Several,
        }
    }
}

impl Naming for Classes<'_> {
    ghost class_name = { λ c. name_of (map outline c.program.now) };

    ghost site_origin = { λ c. origin_of c.program.now };

    fn name_of(&self, class: ClassId) -> &[u8] {
        self.class_name(class)
    }

    #[tactic(auto, using(crate::proofs::Named::names_told))]
    fn fixed_list(&self) -> ClassId {
        ClassId::Outer(56)
    }
}

impl Lookups for Classes<'_> {
    ghost oracle = { λ c. oracle c.program.now };

    ghost method_name = { λ c. method_name (map outline c.program.now) };

    fn origin(&self, site: SiteId) -> OriginView<'_> {
        self.origin_of(site)
    }

    #[tactic(auto, unfolding(jvm_model::specs::Programs::oracle, class_index::specs::Naming::class_facts))]
    fn class_flags(&self, name: &[u8]) -> Option<u16> {
        match self.index.class(name) {
            Some(class) => Some(self.index.outline(class).flags),
            None => None,
        }
    }

    #[tactic(auto, unfolding(jvm_model::specs::Programs::oracle, class_index::specs::Naming::resolution))]
    fn resolve(&self, method: MemberView<'_>) -> Target<'_> {
        match self
            .index
            .resolve_method(method.owner, method.name, method.descriptor)
        {
            Some(id) => self.named(id),
            None => Target::Nowhere,
        }
    }

    #[tactic(auto, using(crate::proofs::There::targets_there), unfolding(jvm_model::specs::Programs::oracle, class_index::specs::Naming::selection))]
    fn select(&self, method: MemberView<'_>, class: &[u8]) -> Target<'_> {
        match self.index.class(class) {
            Some(class) => self.selected(
                self.index
                    .virtual_target(class, method.owner, method.name, method.descriptor),
            ),
            None => Target::Nowhere,
        }
    }

    #[tactic(auto, using(crate::proofs::There::targets_there), unfolding(jvm_model::specs::Programs::oracle, class_index::specs::Naming::special_selection))]
    fn select_special(&self, caller: &[u8], method: MemberView<'_>) -> Target<'_> {
        match self.index.class(caller) {
            Some(class) => self.selected(
                self.index
                    .special_target(class, method.owner, method.name, method.descriptor),
            ),
            None => Target::Nowhere,
        }
    }

    #[tactic(auto, unfolding(jvm_model::specs::Programs::oracle, class_index::specs::Naming::is_below))]
    fn is_below(&self, low: &[u8], high: &[u8]) -> bool {
        let Some(low) = self.index.class(low) else {
            return false;
        };
        match self.index.class(high) {
            Some(high) => self.index.is_subtype(low, high),
            None => false,
        }
    }
}
