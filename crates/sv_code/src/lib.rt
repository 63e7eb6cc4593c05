//! Compiled programs: what is left of the files of a program once it is checked. A program borrows nothing.
//!
//! Code has the shape of the trees of scripts, but that each name is what it stands for, and that each function and each arrow stands in one
//! table of functions, and is named by its number there. Fragments have the shape of markup, but that white space is taken, that texts beside
//! one another are one, that component tags and handlers stand in tables too, and that each expression is a part, which knows the names whose
//! change makes it stale.
#![tactic(auto)]

mod code;
mod fragments;
mod functions;
mod known;
mod parts;
mod program;
mod tags;

pub use code::{
    Code, CodeField, CodeFields, CodeItem, CodeItems, CodeKind, CodeLink, CodeLinks, Codes,
};
pub use fragments::{
    Frag, FragArm, FragArms, FragAttr, FragAttrs, FragValue, FragValuePart, FragValueParts, Frags,
    LetName, LetNames,
};
pub use functions::{
    CodeArm, CodeArms, CodeDecl, CodeDecls, CodeStmt, CodeStmtKind, CodeStmts, Function,
    FunctionBody, Functions, WRITABLE,
};
pub use known::{BuiltIn, Known, Life, Method, Property};
pub use parts::{Arrows, CellList, Locals, Part, Reading};
pub use program::{
    Component, FileCode, Module, ModuleList, Program, ProgramFile, ProgramFiles, Prop, Props, Run,
    Runs, StoreCell, StoreCells,
};
pub use tags::{Handler, Handlers, Tag, Tags};
