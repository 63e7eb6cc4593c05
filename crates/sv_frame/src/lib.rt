//! Laws of scripts: whatever they do, snapshots stay as they are, so do the views that instances were lent and, once a script ended, its constants; and
//! derived stores are what their functions gave.
#![tactic(auto)]

mod laws;

pub use laws::{
    derived_stores_stay_computed, scripts_leave_constants, scripts_leave_snapshots,
    scripts_lend_no_views, settling_ends,
};
