// What does not change once it has a value.
ghost use Rattle.std.specs.Prelude.{◌≡◌, [], ◌∷◌, ◌++◌, ◌<◌, map, length, None, Some, IfOk, OnOk, OnErr, option_map, option_copied, slice_set};
ghost use Rattle.sv_value.specs.View.{view_of};
ghost use Rattle.sv_view.specs.Constants.{constant_at, module_constant_at, with_module_constant, no_constants};

use std::alloc::Global;
use std::marker::Model;
use std::rc::Rc;
use sv_base::NoMemory;
use sv_value::Value;

/// The constants of a component's instance or of a module file, by number. One has no value until its declaration ran. They
/// are shared with their copies, and a copy keeps what it had when it was made.
#[derive(Drop)]
pub struct Constants {
    alloc: Global,
    shared: Rc<Vec<Option<Value>>>,
}

impl Model for Constants {
    ghost use Rattle.std.specs.Prelude.{List, Option};
    ghost use Rattle.std.specs.Coded.{coded_list, coded_option};
    ghost use Rattle.sv_value.specs.Value.{Val};
    ghost use Rattle.sv_value.specs.Stored.{val_code};

    ghost Value = { List (Option Val) };

    ghost coded = { coded_list (coded_option val_code) };

    ghost use Rattle.std.specs.Prelude.{map, option_map};
    ghost use Rattle.sv_value.specs.View.{view_of};

    ghost view = { λ c. map (option_map view_of) c.shared.value.items };
}

impl Constants {
    /// So many constants without values.
    pub fn new(alloc: Global, count: u32) -> Result<Constants, NoMemory>
        ensures { IfOk result (λ c. c ≡ no_constants count) }
    {
        let mut values = Vec::new(alloc);
        for _number in 0..count {
            values.push(None)?;
        }
        let shared = Rc::new(alloc, values)?;
        Ok(Constants { alloc, shared })
    }

    /// The same constants, which are not copied.
    pub fn share(&self) -> Result<Constants, NoMemory>
        ensures { IfOk result (λ c. c ≡ self.now) }
    {
        let shared = self.shared.clone()?;
        Ok(Constants {
            alloc: self.alloc,
            shared,
        })
    }

    /// The value of a constant, or `None` exactly where it has none.
    pub fn get(&self, constant: u32) -> Option<&Value>
        ensures { option_map view_of (option_copied result) ≡ constant_at self.now constant }
    {
        value_at(self.shared.as_slice(), constant as usize)
    }

    /// Gives a constant a value. Where there is no such constant, nothing changes.
    pub fn set(&mut self, constant: u32, value: Value) -> Result<(), NoMemory>
        ensures ok { OnOk result (self.new ≡ slice_set self.old constant (Some (view_of value))) }
        ensures err { OnErr result (self.new ≡ self.old) }
    {
        if let Some(values) = Rc::get_mut(&mut self.shared) {
            put_value(values, constant as usize, value);
            return Ok(());
        }
        let mut values = copy_values(self.alloc, self.shared.as_slice())?;
        put_value(&mut values, constant as usize, value);
        self.shared = Rc::new(self.alloc, values)?;
        Ok(())
    }
}

fn value_at(values: &[Option<Value>], at: usize) -> Option<&Value>
    ensures { option_map view_of (option_copied result) ≡ constant_at (map (option_map view_of) values.now) at }
{
    values.get(at)?.as_ref()
}

fn put_value(values: &mut [Option<Value>], at: usize, value: Value)
    ensures { map (option_map view_of) values.new ≡ slice_set (map (option_map view_of) values.old) at (Some (view_of value)) }
{
    if at < values.len() {
        values[at] = Some(value);
    }
}

fn copy_values(alloc: Global, values: &[Option<Value>]) -> Result<Vec<Option<Value>>, NoMemory>
    ensures { IfOk result (λ copy. copy.items ≡ values.now) }
{
    let mut copy = Vec::new(alloc);
    for value in values {
        let value = share_value(value)?;
        copy.push(value)?;
    }
    Ok(copy)
}

fn share_value(value: &Option<Value>) -> Result<Option<Value>, NoMemory>
    ensures { IfOk result (λ copy. copy ≡ value.now) }
{
    match value {
        Some(value) => {
            let value = value.share()?;
            Ok(Some(value))
        }
        None => Ok(None),
    }
}

/// The constants of the module files, by file. They are shared with their copies, and a copy keeps what it had when it was
/// made.
#[derive(Drop)]
pub struct Modules {
    alloc: Global,
    shared: Rc<Vec<Constants>>,
}

impl Model for Modules {
    ghost use Rattle.std.specs.Prelude.{List, Option};
    ghost use Rattle.std.specs.Coded.{coded_list, coded_option};
    ghost use Rattle.sv_value.specs.Value.{Val};
    ghost use Rattle.sv_value.specs.Stored.{val_code};

    ghost Value = { List (List (Option Val)) };

    ghost coded = { coded_list (coded_list (coded_option val_code)) };

    ghost view = { λ m. m.shared.value.items };
}

impl Modules {
    /// Module files with so many constants each, which have no values.
    pub fn new(alloc: Global, counts: &[u32]) -> Result<Modules, NoMemory>
        ensures { IfOk result (λ m. m ≡ map no_constants counts.now) }
    {
        let mut files = Vec::new(alloc);
        for count in counts {
            let constants = Constants::new(alloc, *count)?;
            files.push(constants)?;
        }
        let shared = Rc::new(alloc, files)?;
        Ok(Modules { alloc, shared })
    }

    /// The same constants, which are not copied.
    pub fn share(&self) -> Result<Modules, NoMemory>
        ensures { IfOk result (λ m. m ≡ self.now) }
    {
        let shared = self.shared.clone()?;
        Ok(Modules {
            alloc: self.alloc,
            shared,
        })
    }

    /// The value of a constant of a file, or `None` exactly where it has none.
    pub fn get(&self, file: u16, constant: u32) -> Option<&Value>
        ensures { option_map view_of (option_copied result) ≡ module_constant_at self.now file constant }
    {
        constant_of(self.shared.as_slice(), file as usize, constant)
    }

    /// Gives a constant of a file a value. Where there is no such constant, nothing changes.
    pub fn set(&mut self, file: u16, constant: u32, value: Value) -> Result<(), NoMemory>
        ensures ok { OnOk result (self.new ≡ with_module_constant self.old file constant (view_of value)) }
        ensures err { OnErr result (self.new ≡ self.old) }
    {
        if let Some(files) = Rc::get_mut(&mut self.shared) {
            return put_constant(files, file as usize, constant, value);
        }
        let mut files = copy_files(self.alloc, self.shared.as_slice())?;
        put_constant(&mut files, file as usize, constant, value)?;
        self.shared = Rc::new(self.alloc, files)?;
        Ok(())
    }
}

fn constant_of(files: &[Constants], file: usize, constant: u32) -> Option<&Value>
    ensures { option_map view_of (option_copied result) ≡ module_constant_at files.now file constant }
{
    if file < files.len() {
        return files[file].get(constant);
    }
    None
}

fn put_constant(
    files: &mut [Constants],
    file: usize,
    constant: u32,
    value: Value,
) -> Result<(), NoMemory>
    ensures ok { OnOk result (files.new ≡ with_module_constant files.old file constant (view_of value)) }
    ensures err { OnErr result (files.new ≡ files.old) }
{
    if file < files.len() {
        return files[file].set(constant, value);
    }
    drop(value);
    Ok(())
}

fn copy_files(alloc: Global, files: &[Constants]) -> Result<Vec<Constants>, NoMemory>
    ensures { IfOk result (λ copy. copy.items ≡ files.now) }
{
    let mut copy = Vec::new(alloc);
    for constants in files {
        let constants = constants.share()?;
        copy.push(constants)?;
    }
    Ok(copy)
}
