// Lifecycle callbacks.
ghost use Rattle.std.specs.Prelude.{◌≡◌, ◌++◌, ◌∷◌, [], map, option_map, option_copied, OnOk, OnErr, slice_get};
ghost use Rattle.sv_value.specs.View.{view_of};
ghost use Rattle.sv_instance.specs.Callbacks.{no_callbacks, callbacks_at, with_callback};

use std::alloc::Global;
use std::marker::Model;
use sv_base::NoMemory;
use sv_value::Value;

/// When a callback runs: once its component is on the page, before and after each update, and as it goes (`onMount`,
/// `beforeUpdate`, `afterUpdate`, `onDestroy`); or what an `onMount` callback returned, which runs as it goes.
#[derive(Clone, Copy, PartialEq, Eq, Debug)]
pub enum When {
    Mount,
    Before,
    After,
    Destroy,
    Returned,
}

/// The callbacks of an instance by when they run, each list in the order in which they were given.
#[derive(Drop)]
pub struct Callbacks {
    mount: Vec<Value>,
    before: Vec<Value>,
    after: Vec<Value>,
    destroy: Vec<Value>,
    returned: Vec<Value>,
}

impl Model for Callbacks {
    ghost use Rattle.sv_instance.specs.CallbackLists.{Callbacks, callbacks_code};

    ghost Value = { Callbacks };

    ghost coded = { callbacks_code };

    ghost use Rattle.std.specs.Prelude.{map};
    ghost use Rattle.sv_value.specs.View.{view_of};

    ghost view = { λ c. record { mount = map view_of c.mount.items; before = map view_of c.before.items; after = map view_of c.after.items; destroy = map view_of c.destroy.items; returned = map view_of c.returned.items } };
}

impl Callbacks {
    /// No callbacks.
    pub fn new(alloc: Global) -> Callbacks
        ensures { result ≡ no_callbacks }
    {
        Callbacks {
            mount: Vec::new(alloc),
            before: Vec::new(alloc),
            after: Vec::new(alloc),
            destroy: Vec::new(alloc),
            returned: Vec::new(alloc),
        }
    }

    /// One more callback, behind the others of its list.
    pub fn add(&mut self, when: When, callback: Value) -> Result<(), NoMemory>
        ensures ok { OnOk result (self.new ≡ with_callback when (view_of callback) self.old) }
        ensures err { OnErr result (self.new ≡ self.old) }
    {
        match when {
            When::Mount => self.mount.push(callback)?,
            When::Before => self.before.push(callback)?,
            When::After => self.after.push(callback)?,
            When::Destroy => self.destroy.push(callback)?,
            When::Returned => self.returned.push(callback)?,
        }
        Ok(())
    }

    /// The callbacks of a list.
    pub fn list(&self, when: When) -> &[Value]
        ensures { map view_of result.now ≡ callbacks_at self.now when }
    {
        match when {
            When::Mount => &self.mount,
            When::Before => &self.before,
            When::After => &self.after,
            When::Destroy => &self.destroy,
            When::Returned => &self.returned,
        }
    }

    /// A callback of a list by its place, from 0, or `None` exactly where there are not so many.
    pub fn get(&self, when: When, at: u32) -> Option<&Value>
        ensures { option_map view_of (option_copied result) ≡ slice_get (callbacks_at self.now when) at }
    {
        self.list(when).get(at as usize)
    }
}
