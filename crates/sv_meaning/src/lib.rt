//! What code does: scripts, functions, reactive statements, the listeners of tags, and the pure expressions of markup.
#![tactic(auto)]

mod calls;
mod components;
mod context;
mod counting;
mod declarations;
mod errors;
mod limits;
mod listening;
mod literals;
mod locals;
mod recipes;

pub use calls::{
    call_life, convert, first, is_of_math, is_on_list, is_on_store, is_on_text, log, make_store,
    of_math, on_list, on_text, put_store, second, store_value, takes_function,
};
pub use components::{component_at, component_of, markup_of, variable_of};
pub use context::{Context, script_context};
pub use counting::{answer, assigned, count, fault, spend};
pub use declarations::{
    End, declare, event_of, give_name, open_body, returned, set_constant, subscribe,
};
pub use errors::EvalError;
pub use limits::{CALL_LIMIT, PART_STEP_LIMIT};
pub use listening::{Hearer, attrs_of, hearer_of, listener_view, part_world, source_of};
pub use literals::{put_field, put_item, spread_entries, spread_items, text_at};
pub use locals::Locals;
pub use recipes::{Computation, computation_of, recipe_of};
