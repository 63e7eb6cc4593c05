//! Who hears of the changes of a page: the trait of watchers, three of them, how all of a list are told, and a page that is rebuilt from
//! its changes.
#![tactic(auto)]

mod boxed;
mod copy;
mod counter;
mod fits;
mod mirror;
mod page;
mod picky;
mod piece;
mod replica;
mod tell;
mod watcher;

pub use copy::copy_of;
pub use counter::Counter;
pub use mirror::Mirror;
pub use picky::Picky;
pub use replica::Replica;
pub use tell::{tell_all, tell_each};
pub use watcher::{TellError, Watcher};
