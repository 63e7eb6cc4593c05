// What names and properties stand for.
use sv_base::Name;

/// What a name stands for where it is written.
#[derive(Clone, Copy, Debug, PartialEq, Eq)]
pub enum Known {
    /// A name that a function, an arrow, a block, a loop, a row or slot content declares. A name that nothing declares counts as one.
    Local(Name),
    /// A cell of the component, by number: a variable, or the value of a store (`$x`).
    Cell(u8),
    /// A constant at the top of the same file, by number: a `const`, or a function.
    Constant(u32),
    /// What a module file gives: the number of the file, and that of the constant in it.
    Export { file: u16, constant: u32 },
    /// What `svelte` gives (Svelte 4 docs, 'svelte').
    Life(Life),
    /// `writable` of `svelte/store` (Svelte 4 docs, 'svelte/store').
    Writable,
    /// `derived` of `svelte/store`, which is only called (Svelte 4 docs, 'svelte/store').
    Derived,
    /// `String`, `Boolean`, `Math` or `console`, which no declaration hides.
    BuiltIn(BuiltIn),
}

/// What `svelte` gives.
#[derive(Clone, Copy, Debug, PartialEq, Eq)]
pub enum Life {
    OnMount,
    BeforeUpdate,
    AfterUpdate,
    OnDestroy,
    SetContext,
    GetContext,
    CreateEventDispatcher,
}

/// What ECMA-262 and the Console Standard give without a declaration.
#[derive(Clone, Copy, Debug, PartialEq, Eq)]
pub enum BuiltIn {
    String,
    Boolean,
    Math,
    Console,
}

/// A word behind a point: the name of a field, and what else it means on a value that has no fields.
#[derive(Clone, Copy, Debug, PartialEq, Eq)]
pub struct Property {
    pub name: Name,
    pub method: Option<Method>,
}

/// A property of lists, texts, stores, `Math` or `console` that isn't a field.
#[derive(Clone, Copy, Debug, PartialEq, Eq)]
pub enum Method {
    Length,
    Map,
    Filter,
    Some,
    Every,
    Find,
    FindIndex,
    ForEach,
    Reduce,
    Includes,
    IndexOf,
    Slice,
    Concat,
    Join,
    Trim,
    StartsWith,
    EndsWith,
    Split,
    Set,
    Update,
    Abs,
    Min,
    Max,
    Floor,
    Trunc,
    Log,
}
