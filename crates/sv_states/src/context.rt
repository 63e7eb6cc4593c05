// Contexts looked for upwards.
ghost use Rattle.std.specs.Prelude.{◌≡◌, option_map, option_copied};
ghost use Rattle.sv_value.specs.View.{view_of};
ghost use Rattle.sv_states.specs.Context as seen;
ghost use Rattle.sv_states.specs.Board.{seen_as};

use crate::board::Board;
use sv_value::{Inst, Key, Value};

impl Board {
    // What an instance or one above it gave under a key, looked for through so many levels at most.
    pub(crate) fn context(&self, room: u32, inst: Inst, key: &Key) -> Option<&Value>
        ensures { option_map view_of (option_copied result) ≡ seen.context room (seen_as self.now) key.now inst.number }
    {
        if room == 0 {
            return None;
        }
        let instance = self.lives.get(inst)?;
        let setup = &instance.setup;
        let own = setup.contexts.find(key);
        if own.is_some() {
            return own;
        }
        let place = &instance.place;
        let parent = place.parent()?;
        self.context(room - 1, parent, key)
    }
}
