//! Subscriptions: behind each turn the subscribers of all stores are the `$` names of live instances, each at the store that its name holds.
#![tactic(auto)]

mod laws;

pub use laws::dollar_names_are_subscribed;
