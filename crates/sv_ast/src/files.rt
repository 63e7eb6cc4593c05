// Whole files.
ghost use Rattle.std.specs.Prelude.{◌≡◌, MatchOption, Some, None};
ghost use Rattle.sv_ast.specs.Files as spec;

use crate::markup_tree::Nodes;
use crate::script_tree::{Stmt, Stmts};
use sv_base::{Names, Text};

/// The source files of a program, in the order of reading.
pub type Files = sv_list::Items<SourceFile>;

/// The places at which the lines of a file begin, of which the first is 0.
pub type LineStarts = sv_list::Items<u32>;

/// The statements of a script or of a module.
#[derive(Drop)]
pub struct Script {
    pub stmts: Stmts,
}

/// A component: its script, which is empty where it has none, and its nodes.
#[derive(Drop)]
pub struct Component {
    pub file: u16,
    pub script: Script,
    pub nodes: Nodes,
}

/// A module.
#[derive(Drop)]
pub struct Module {
    pub file: u16,
    pub script: Script,
}

/// What a file holds.
#[derive(Drop)]
pub enum FileTree {
    Component(Component),
    Module(Module),
}

impl FileTree {
    /// The statements at the top of the file.
    pub fn statements(&self) -> &[Stmt]
        ensures { result.now ≡ spec.statements_of self.now }
    {
        match self {
            FileTree::Component(of) => of.script.stmts.as_slice(),
            FileTree::Module(of) => of.script.stmts.as_slice(),
        }
    }

    /// Whether it is that of a module.
    pub fn is_module(&self) -> bool
        ensures { result ≡ spec.is_module self.now }
    {
        matches!(self, FileTree::Module(_))
    }
}

/// The name of the file that an import is from: `./x.js` is the file `x.js`. `None` comes exactly for what begins otherwise, as what the
/// language gives does (ECMA-262, 16.2.2, leaves this to the host).
pub fn name_in(from: &str) -> Option<&str>
    ensures { MatchOption result (spec.name_in from.now ≡ None) (λ name. spec.name_in from.now ≡ Some name.now) }
{
    from.strip_prefix("./")
}

/// A file that was read, by the name that it has on the shelf.
#[derive(Drop)]
pub struct SourceFile {
    pub name: Text,
    pub lines: LineStarts,
    pub tree: FileTree,
}

/// The files of a program, with the names with which they were read.
#[derive(Drop)]
pub struct Bundle {
    pub names: Names,
    pub files: Files,
}
