//! What Input and Command bodies may read.

use std::marker::Model;
use tree_value::Vars;

/// The variables of the environment, in order, and the moment of the command.
#[derive(Drop)]
pub struct Surround {
    pub environment: Vars,
    pub moment: u64,
}

impl Model for Surround {
    ghost use Rattle.native_model.specs.Worlds as worlds;

    ghost Value = { worlds.Surround };

    ghost view = { λ s. record {
      environment = s.environment;
      moment = s.moment;
    } };
}
