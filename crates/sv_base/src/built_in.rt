//! What a file may use without declaring it: what the modules of the language give, and what ECMA-262 gives.

/// The module that gives the functions of a component's life (Svelte 4 docs, 'svelte').
pub const LIFE_MODULE: &str = "svelte";

/// What that module gives.
pub const LIFE_FUNCTIONS: [&str; 7] = [
    "onMount",
    "beforeUpdate",
    "afterUpdate",
    "onDestroy",
    "setContext",
    "getContext",
    "createEventDispatcher",
];

/// The module that gives stores (Svelte 4 docs, 'svelte/store').
pub const STORE_MODULE: &str = "svelte/store";

/// What that module gives.
pub const STORE_FUNCTIONS: [&str; 1] = ["writable"];

/// The function that makes a text of a value (ECMA-262, 22.1.1).
pub const STRING: &str = "String";

/// The function that makes a truth value of a value (ECMA-262, 20.3.1).
pub const BOOLEAN: &str = "Boolean";

/// The functions that may be called, and whose names stand for nothing where they aren't called.
pub const CONVERSIONS: [&str; 2] = [STRING, BOOLEAN];

/// The object of the functions of numbers (ECMA-262, 21.3).
pub const MATH: &str = "Math";

/// The function of `Math` that rounds down.
pub const FLOOR: &str = "floor";

/// The function of `Math` that rounds towards 0.
pub const TRUNC: &str = "trunc";

/// The functions of `Math`.
pub const MATH_FUNCTIONS: [&str; 5] = ["abs", "min", "max", FLOOR, TRUNC];

/// The object that takes notes (WHATWG, 'Console Standard').
pub const CONSOLE: &str = "console";

/// Its one function.
pub const LOG: &str = "log";

/// The calls on a list that go by a function (ECMA-262, 23.1.3).
pub const LIST_CALLS: [&str; 8] = [
    "map",
    "filter",
    "some",
    "every",
    "find",
    "findIndex",
    "forEach",
    "reduce",
];

/// The other calls on a list, and those on a text (ECMA-262, 22.1.3 and 23.1.3).
pub const VALUE_CALLS: [&str; 9] = [
    "includes",
    "indexOf",
    "slice",
    "concat",
    "join",
    "trim",
    "startsWith",
    "endsWith",
    "split",
];
