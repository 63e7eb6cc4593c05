// Values that were shown.
ghost use Rattle.std.specs.Prelude.{◌≡◌, IfOk};
ghost use Rattle.sv_value.specs.View.{view_of};

use std::marker::Model;
use sv_base::NoMemory;
use sv_value::Value;

/// A value that is kept beside a template. A clause sees it as its tree.
#[derive(Drop)]
pub struct Held {
    value: Value,
}

impl Model for Held {
    ghost use Rattle.sv_value.specs.Value.{Val};
    ghost use Rattle.sv_value.specs.Stored.{val_code};
    ghost use Rattle.sv_value.specs.View.{view_of};

    ghost Value = { Val };

    ghost coded = { val_code };

    ghost view = { λ h. view_of h.value };
}

impl Held {
    /// That value.
    pub fn new(value: Value) -> Held
        ensures { result ≡ view_of value }
    {
        Held { value }
    }

    /// The value, to read.
    pub fn get(&self) -> &Value
        ensures { view_of result.now ≡ self.now }
    {
        &self.value
    }

    /// The value, taken out.
    pub fn into_value(self) -> Value
        ensures { view_of result ≡ self }
    {
        let Held { value } = self;
        value
    }

    /// The same value, of which nothing is copied.
    pub fn share(&self) -> Result<Held, NoMemory>
        ensures { IfOk result (λ h. h ≡ self.now) }
    {
        let value = self.value.share()?;
        Ok(Held { value })
    }
}
