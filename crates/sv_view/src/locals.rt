// Names of rows and slots.
ghost use Rattle.std.specs.Prelude.{◌≡◌, ◌==◌, [], ◌∷◌, ◌++◌, IfOk, OnOk, option_copied};
ghost use Rattle.sv_value.specs.View.{view_of};
ghost use Rattle.sv_view.specs.Local.{Local as LocalView, local_at};

use std::alloc::Global;
use std::marker::Model;
use std::rc::Rc;
use sv_base::{Name, NoMemory};
use sv_value::Value;

/// A name of a row or of slot props: its value, and the number that the list or the slot prop got when it was evaluated.
#[derive(Drop)]
pub struct Local {
    pub name: Name,
    pub value: Value,
    pub number: u64,
}

impl Model for Local {
    ghost use Rattle.sv_view.specs.Local.{Local, local_code};
    ghost use Rattle.sv_value.specs.View.{view_of};

    ghost Value = { Local };

    ghost coded = { local_code };

    ghost view = { λ l. record { name = l.name.0; value = view_of l.value; number = l.number } };
}

impl Local {
    // The same local, whose value is not copied.
    fn share(&self) -> Result<Local, NoMemory>
        ensures { IfOk result (λ l. l ≡ self.now) }
    {
        let value = self.value.share()?;
        Ok(Local {
            name: self.name,
            value,
            number: self.number,
        })
    }

    // Whether it has this name.
    fn is_named(&self, name: Name) -> bool
        ensures { result ≡ (self.now.name == name.0) }
    {
        self.name == name
    }
}

/// Row locals and slot props, the innermost first. They are shared with their copies and never change.
#[derive(Drop)]
pub struct Locals {
    alloc: Global,
    shared: Rc<Vec<Local>>,
}

impl Model for Locals {
    ghost use Rattle.std.specs.Prelude.{List};
    ghost use Rattle.std.specs.Coded.{coded_list};
    ghost use Rattle.sv_view.specs.Local.{Local, local_code};

    ghost Value = { List Local };

    ghost coded = { coded_list local_code };

    ghost view = { λ l. l.shared.value.items };
}

impl Locals {
    /// No locals.
    pub fn new(alloc: Global) -> Result<Locals, NoMemory>
        ensures { IfOk result (λ l. l ≡ []) }
    {
        let shared = Rc::new(alloc, Vec::new(alloc))?;
        Ok(Locals { alloc, shared })
    }

    /// The same locals, which are not copied.
    pub fn share(&self) -> Result<Locals, NoMemory>
        ensures { IfOk result (λ l. l ≡ self.now) }
    {
        let shared = self.shared.clone()?;
        Ok(Locals {
            alloc: self.alloc,
            shared,
        })
    }

    /// The locals, the innermost first.
    pub fn as_slice(&self) -> &[Local]
        ensures { result.now ≡ self.now }
    {
        self.shared.as_slice()
    }

    /// The innermost local of a name, or `None` exactly where there is none.
    pub fn find(&self, name: Name) -> Option<&Local>
        ensures { option_copied result ≡ local_at self.now name.0 }
    {
        find_local(self.shared.as_slice(), name)
    }

    /// These locals behind a new one, which hides one of its name.
    pub fn with(&self, local: Local) -> Result<Locals, NoMemory>
        ensures { IfOk result (λ l. l ≡ local ∷ self.now) }
    {
        let mut locals = Vec::new(self.alloc);
        locals.push(local)?;
        append(&mut locals, self.shared.as_slice())?;
        let shared = Rc::new(self.alloc, locals)?;
        Ok(Locals {
            alloc: self.alloc,
            shared,
        })
    }
}

fn find_local(locals: &[Local], name: Name) -> Option<&Local>
    ensures { option_copied result ≡ local_at locals.now name.0 }
{
    for local in locals {
        if local.is_named(name) {
            return Some(local);
        }
    }
    None
}

fn append(locals: &mut Vec<Local>, more: &[Local]) -> Result<(), NoMemory>
    ensures { OnOk result (locals.new.items ≡ locals.old.items ++ more.now) }
{
    for local in more {
        let local = local.share()?;
        locals.push(local)?;
    }
    Ok(())
}
