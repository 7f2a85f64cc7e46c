//! Frames of every kind.

use crate::called::{Adaptation, NativeCall};
use crate::pending::Pending;
use class_model::{ClassId, SiteId};
use jvm_heap::{Frame as MethodFrame, Slots};

/// A class that is being initialised: the superinterfaces that are still to be, the next one last, and whether its
/// `<clinit>` is still to run (JVMS 5.5).
#[derive(Drop)]
pub struct InitialisingFrame {
    pub class: ClassId,
    pub interfaces: Vec<ClassId>,
    pub has_method: bool,
    pub pending: Pending,
}

/// A frame. Those of methods, and of natives and lambdas that call on, are counted; the others hold what goes on behind
/// them.
#[derive(Drop)]
pub enum Frame {
    Method(MethodFrame),
    Native(NativeCall),
    /// The lambda of a site whose method is found on another lambda, which it calls with these values.
    Forwarding(SiteId, Slots),
    Adapting(Adaptation),
    Initialising(InitialisingFrame),
}
