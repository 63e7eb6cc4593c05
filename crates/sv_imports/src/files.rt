// The files that imports name.
ghost use Rattle.std.specs.Prelude.{◌≡◌, ◌<◌, length, IfSome, position};
ghost use Rattle.std.specs.Str.{bytes_eq};
ghost use Rattle.sv_imports.specs.Imports as spec;

use sv_ast::{SourceFile, Stmt, StmtKind, name_in};

/// The file that an import names, by its place among the files: `./x.js` is the file `x.js`. `None` comes exactly where there is no
/// such file, as for what the language gives.
pub fn file_named(files: &[SourceFile], from: &str) -> Option<usize>
    ensures file { result ≡ spec.file_named files.now from.now }
    ensures within { IfSome result (λ file. file < length files.now) }
{
    match name_in(from) {
        Some(name) => file_of_name(files, name),
        None => None,
    }
}

fn file_of_name(files: &[SourceFile], name: &str) -> Option<usize>
    ensures file { result ≡ position (λ source. bytes_eq source.name name.now) files.now }
    ensures within { IfSome result (λ file. file < length files.now) }
{
    files.iter().position(|source| source.name.as_str() == name)
}

/// The file that a statement imports.
pub(crate) fn target(files: &[SourceFile], stmt: &Stmt) -> Option<usize>
    ensures file { result ≡ spec.target files.now stmt.now }
    ensures within { IfSome result (λ file. file < length files.now) }
{
    match stmt.kind.get() {
        StmtKind::Import(import) => file_named(files, import.from.as_str()),
        _ => None,
    }
}
