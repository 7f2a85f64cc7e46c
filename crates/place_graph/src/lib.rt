//! Directed graphs over places, which are numbers from 0: what is beyond each place in a fixed order, or where paths
//! return, or which places lead to a place. It stands on no crate of `mill`. The layers above rest on `order_of` and
//! `reaching`.
#![tactic(auto)]

mod above;
mod order;
mod reach;
mod turn;

pub use above::Places;
pub use order::{Order, order_of};
pub use turn::reaching;
