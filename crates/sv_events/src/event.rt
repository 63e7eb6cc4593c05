// What a user did.
use sv_base::Text;

/// The most places that a path has.
pub const PATH_LIMIT: usize = 2048;

/// A way to an element by places, each from 0: one among the elements of the page, and each further one among the element children of the
/// one before.
pub type Path = sv_list::Items<u32>;

/// How an event names its element.
#[derive(Drop)]
pub enum Target {
    /// By the `id` that it shows.
    Id(Text),
    /// By its place.
    Path(Path),
}

/// What a user did to an element: its type, as `click`, and what came with it. A text that was typed comes with `input` alone, and whether a
/// box is checked with `change` alone.
#[derive(Drop)]
pub struct Event {
    pub name: Text,
    pub target: Target,
    pub value: Option<Text>,
    pub checked: Option<bool>,
    pub key: Option<Text>,
}
