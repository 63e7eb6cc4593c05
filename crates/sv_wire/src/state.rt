// How a stream stands.
ghost use Rattle.std.specs.Prelude.{◌≡◌, List, ℕ};
ghost use Rattle.sv_wire.specs.Stream.{stands, after_end};
ghost use Rattle.sv_wire.specs.Reader.{standing_of, IsSettled};

/// What is unfinished: the head, or what stands at an offset behind it.
#[derive(Clone, Copy)]
pub enum Part {
    Head,
    Item(u64),
}

/// A part of the stream is unfinished, and nothing can be said of it before it has `needs` bytes. Or the stream ended at an
/// offset, or is wrong there.
#[derive(Clone, Copy)]
pub enum State {
    Unfinished { part: Part, needs: usize },
    Ended { at: u64 },
    Bad { at: u64 },
}

/// How it stands where the last item ends at an offset, by the bytes behind it.
pub fn ending(at: u64, rest: &[u8]) -> State
    ensures ending { (held : List ℕ) → after_end at rest.now ≡ stands (standing_of result held) }
    ensures settled { (held : List ℕ) → IsSettled result held }
{
    if rest.is_empty() {
        return State::Ended { at };
    }
    State::Bad { at }
}
