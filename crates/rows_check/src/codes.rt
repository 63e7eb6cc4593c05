// The code of small scripts and expressions, and the functions in it by number.
use crate::read::{expression, script};
use crate::unanswered::Unanswered;
use crate::words::{push_place, text_of};
use std::alloc::{AllocError, Global};
use sv_ast::{Import, NameList};
use sv_base::Names;
use sv_code::{Code, CodeKind, CodeStmt, CodeStmtKind, Function, FunctionBody, Functions, Known};
use sv_lower::{Inside, TopNames, lower_expr, lower_stmts};
use sv_names::LocalScope;

/// The code of an expression with its place, and the functions in it.
pub fn of_expression(alloc: Global, text: &str) -> Result<String, Unanswered> {
    let mut names = Names::empty(alloc);
    let tree = expression(alloc, &mut names, text)?;
    let tops = TopNames::new(alloc, &names)?;
    let inside = Inside {
        alloc,
        tops: &tops,
        locals: &LocalScope::Outside,
    };
    let mut functions = Functions::new(alloc);
    let code = lower_expr(&inside, &mut functions, &tree)?;
    expression_told(alloc, &names, &code, functions.as_slice())
}

fn expression_told(
    alloc: Global,
    names: &Names,
    code: &Code,
    functions: &[Function],
) -> Result<String, Unanswered> {
    let mut line = String::new(alloc);
    push_code(&mut line, names, code)?;
    push_place(&mut line, code.span)?;
    push_functions(&mut line, names, functions)?;
    Ok(line)
}

/// The code of a script's statements with their places, and the functions in them.
pub fn of_script(alloc: Global, text: &str) -> Result<String, Unanswered> {
    let mut names = Names::empty(alloc);
    let script = script(alloc, &mut names, text)?;
    let tops = TopNames::new(alloc, &names)?;
    let inside = Inside {
        alloc,
        tops: &tops,
        locals: &LocalScope::Outside,
    };
    let mut functions = Functions::new(alloc);
    let codes = lower_stmts(&inside, &mut functions, script.stmts.as_slice())?;
    script_told(alloc, &names, codes.as_slice(), functions.as_slice())
}

fn script_told(
    alloc: Global,
    names: &Names,
    codes: &[CodeStmt],
    functions: &[Function],
) -> Result<String, Unanswered> {
    let mut line = String::new(alloc);
    for code in codes {
        push_stmt(&mut line, names, code)?;
        push_place(&mut line, code.span)?;
    }
    push_functions(&mut line, names, functions)?;
    Ok(line)
}

fn push_functions(
    line: &mut String,
    names: &Names,
    functions: &[Function],
) -> Result<(), AllocError> {
    for (number, function) in functions.iter().enumerate() {
        write!(line, "; {number} is")?;
        push_params(line, names, &function.params)?;
        line.push_str(" => ")?;
        push_body(line, names, &function.body)?;
    }
    Ok(())
}

fn push_params(line: &mut String, names: &Names, params: &NameList) -> Result<(), AllocError> {
    for param in params.as_slice() {
        write!(line, " {}", text_of(names, param.name))?;
    }
    Ok(())
}

fn push_body(line: &mut String, names: &Names, body: &FunctionBody) -> Result<(), AllocError> {
    match body {
        FunctionBody::Value(value) => push_code(line, names, value),
        FunctionBody::Block(stmts) => {
            for stmt in stmts.as_slice() {
                push_stmt(line, names, stmt)?;
                line.push_str(";")?;
            }
            Ok(())
        }
        FunctionBody::Dispatch => line.push_str("a dispatcher"),
        FunctionBody::Writable => line.push_str("writable"),
    }
}

fn push_code(line: &mut String, names: &Names, code: &Code) -> Result<(), AllocError> {
    match code.kind.get() {
        CodeKind::Arrow(number) => write!(line, "function {number}"),
        CodeKind::Num(number) => write!(line, "{number}"),
        CodeKind::Read(Known::Local(name)) => line.push_str(text_of(names, *name)),
        CodeKind::Not(of) => {
            line.push_str("!")?;
            push_code(line, names, of)
        }
        _ => line.push_str("another form"),
    }
}

fn push_stmt(line: &mut String, names: &Names, stmt: &CodeStmt) -> Result<(), AllocError> {
    match stmt.kind.get() {
        CodeStmtKind::Return(Some(value)) => {
            line.push_str("return ")?;
            push_code(line, names, value)
        }
        CodeStmtKind::Function {
            name,
            exported,
            number,
            ..
        } => {
            line.push_str(if *exported { "export " } else { "" })?;
            write!(line, "{} = function {number}", text_of(names, name.name))
        }
        CodeStmtKind::Import(import) => push_import(line, names, import),
        _ => line.push_str("another form"),
    }
}

fn push_import(line: &mut String, names: &Names, import: &Import) -> Result<(), AllocError> {
    line.push_str("import")?;
    if let Some(whole) = &import.whole {
        write!(line, " {}", text_of(names, whole.name))?;
    }
    for spec in import.names.as_slice() {
        let (given, local) = (
            text_of(names, spec.given.name),
            text_of(names, spec.local.name),
        );
        write!(line, " {given} as {local}")?;
    }
    write!(line, " from {}", import.from.as_str())
}
