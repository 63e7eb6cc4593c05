//! The trees that the parsers give, and the refusals that come in their place.
//!
//! A span goes from the first byte of its form to behind the last one. Lists keep source order.
#![tactic(auto)]

mod files;
mod markup_tree;
mod names;
mod operators;
mod refusals;
mod script_tree;

pub use files::{
    Bundle, Component, FileTree, Files, LineStarts, Module, Script, SourceFile, name_in,
};
pub use markup_tree::{
    AttrKind, AttrPart, AttrParts, AttrValue, Attrs, Branch, Branches, Markup, Modifiers, Nodes,
    TagAttr,
};
pub use names::{NameList, Named, Ref, RefList};
pub use operators::{AssignOp, Op};
pub use refusals::{Kind, ParseError, Refused};
pub use script_tree::{
    Arm, Arms, Body, Decl, Decls, Entry, Expr, ExprKind, Exprs, Field, Fields, Import, ImportName,
    ImportNames, Items, Link, Links, Stmt, StmtKind, Stmts,
};
