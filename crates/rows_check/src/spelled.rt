// What names stand for in code, one after the other.
use crate::words::text_of;
use std::alloc::AllocError;
use sv_base::Names;
use sv_code::{
    Code, CodeArm, CodeDecl, CodeField, CodeItem, CodeKind, CodeLink, CodeStmt, CodeStmtKind,
    FunctionBody, Known, Part,
};

/// What names stand for in a part of markup.
pub fn push_part(line: &mut String, names: &Names, part: &Part) -> Result<(), AllocError> {
    push_code(line, names, &part.code)
}

/// What a name stands for.
pub fn push_target(line: &mut String, names: &Names, known: Known) -> Result<(), AllocError> {
    match known {
        Known::Local(name) => write!(line, " {}", text_of(names, name)),
        Known::Cell(cell) => write!(line, " cell {cell}"),
        Known::Constant(constant) => write!(line, " constant {constant}"),
        Known::Export { file, constant } => write!(line, " {file}:{constant}"),
        Known::Life(life) => write!(line, " {life:?}"),
        Known::Writable => line.push_str(" writable"),
        Known::Derived => line.push_str(" derived"),
        Known::BuiltIn(given) => write!(line, " {given:?}"),
    }
}

/// What names stand for in the body of a function.
pub fn push_body(line: &mut String, names: &Names, body: &FunctionBody) -> Result<(), AllocError> {
    match body {
        FunctionBody::Value(value) => push_code(line, names, value),
        FunctionBody::Block(stmts) => push_stmts(line, names, stmts.as_slice()),
        FunctionBody::Dispatch => line.push_str(" dispatches"),
        FunctionBody::Writable => line.push_str(" makes a store"),
    }
}

#[cycle(code)]
fn push_codes(line: &mut String, names: &Names, list: &[Code]) -> Result<(), AllocError> {
    for code in list {
        push_code(line, names, code)?;
    }
    Ok(())
}

#[cycle(code)]
fn push_code(line: &mut String, names: &Names, code: &Code) -> Result<(), AllocError> {
    match code.kind.get() {
        CodeKind::Undefined
        | CodeKind::Null
        | CodeKind::Bool(_)
        | CodeKind::Num(_)
        | CodeKind::Text(_) => Ok(()),
        CodeKind::Read(known) => push_target(line, names, *known),
        CodeKind::List(items) => push_items(line, names, items.as_slice()),
        CodeKind::Object(fields) => push_fields(line, names, fields.as_slice()),
        CodeKind::Template(parts) => push_codes(line, names, parts.as_slice()),
        CodeKind::Arrow(number) => write!(line, " function {number}"),
        CodeKind::Assign { target, value, .. } => {
            push_target(line, names, *target)?;
            line.push_str(" =")?;
            push_code(line, names, value)
        }
        CodeKind::Bump { target, .. } => {
            push_target(line, names, *target)?;
            line.push_str(" ++")
        }
        CodeKind::Chain { first, rest } => {
            push_code(line, names, first)?;
            push_links(line, names, rest.as_slice())
        }
        CodeKind::Not(of) | CodeKind::Minus(of) => push_code(line, names, of),
        CodeKind::Choose { test, yes, no } => {
            push_code(line, names, test)?;
            push_code(line, names, yes)?;
            push_code(line, names, no)
        }
        CodeKind::Member { of, property } => {
            push_code(line, names, of)?;
            match property.method {
                Some(method) => write!(line, " .{method:?}"),
                None => line.push_str(" .field"),
            }
        }
        CodeKind::Index { of, at } => {
            push_code(line, names, of)?;
            push_code(line, names, at)
        }
        CodeKind::Call { of, args } => {
            push_code(line, names, of)?;
            line.push_str(" ()")?;
            push_codes(line, names, args.as_slice())
        }
        CodeKind::Dispatcher { number, args, .. } => {
            push_codes(line, names, args.as_slice())?;
            write!(line, " dispatcher {number}")
        }
    }
}

#[cycle(code)]
fn push_items(line: &mut String, names: &Names, items: &[CodeItem]) -> Result<(), AllocError> {
    for item in items {
        match item {
            CodeItem::One(value) | CodeItem::Spread(value) => push_code(line, names, value)?,
        }
    }
    Ok(())
}

#[cycle(code)]
fn push_fields(line: &mut String, names: &Names, fields: &[CodeField]) -> Result<(), AllocError> {
    for field in fields {
        match field {
            CodeField::Pair { value, .. } | CodeField::Spread(value) => {
                push_code(line, names, value)?
            }
        }
    }
    Ok(())
}

#[cycle(code)]
fn push_links(line: &mut String, names: &Names, links: &[CodeLink]) -> Result<(), AllocError> {
    for link in links {
        push_code(line, names, &link.right)?;
    }
    Ok(())
}

fn push_given(line: &mut String, names: &Names, code: &Option<Code>) -> Result<(), AllocError> {
    match code {
        Some(code) => push_code(line, names, code),
        None => Ok(()),
    }
}

/// What names stand for in statements.
#[cycle(stmts)]
pub fn push_stmts(line: &mut String, names: &Names, stmts: &[CodeStmt]) -> Result<(), AllocError> {
    for stmt in stmts {
        push_stmt(line, names, stmt)?;
    }
    Ok(())
}

#[cycle(stmts)]
fn push_stmt(line: &mut String, names: &Names, stmt: &CodeStmt) -> Result<(), AllocError> {
    match stmt.kind.get() {
        CodeStmtKind::Empty
        | CodeStmtKind::Break
        | CodeStmtKind::Continue
        | CodeStmtKind::Import(_) => Ok(()),
        CodeStmtKind::Block { stmts, .. } => push_stmts(line, names, stmts.as_slice()),
        CodeStmtKind::Let(decls) => push_decls(line, names, decls.as_slice()),
        CodeStmtKind::Const { decls, .. } => push_decls(line, names, decls.as_slice()),
        CodeStmtKind::Export(decls) => push_decls(line, names, decls.as_slice()),
        CodeStmtKind::If { arms, last } => {
            push_arms(line, names, arms.as_slice())?;
            push_optional(line, names, last)
        }
        CodeStmtKind::While { test, body } => {
            push_code(line, names, test)?;
            push_stmt(line, names, body)
        }
        CodeStmtKind::For {
            first,
            test,
            next,
            body,
            ..
        } => {
            push_optional(line, names, first)?;
            push_given(line, names, test)?;
            push_given(line, names, next)?;
            push_stmt(line, names, body)
        }
        CodeStmtKind::Each { list, body, .. } => {
            push_code(line, names, list)?;
            push_stmt(line, names, body)
        }
        CodeStmtKind::Return(value) => push_given(line, names, value),
        CodeStmtKind::Eval(value) => push_code(line, names, value),
        CodeStmtKind::React(of) => push_stmt(line, names, of),
        CodeStmtKind::Function { target, number, .. } => {
            push_target(line, names, *target)?;
            write!(line, " = function {number}")
        }
    }
}

fn push_decls(line: &mut String, names: &Names, decls: &[CodeDecl]) -> Result<(), AllocError> {
    for decl in decls {
        push_target(line, names, decl.target)?;
        if let Some(cell) = decl.store {
            write!(line, " with cell {cell}")?;
        }
        line.push_str(" =")?;
        push_given(line, names, &decl.first)?;
    }
    Ok(())
}

#[cycle(stmts)]
fn push_arms(line: &mut String, names: &Names, arms: &[CodeArm]) -> Result<(), AllocError> {
    for arm in arms {
        push_code(line, names, &arm.test)?;
        push_stmt(line, names, &arm.body)?;
    }
    Ok(())
}

#[cycle(stmts)]
fn push_optional(
    line: &mut String,
    names: &Names,
    stmt: &Option<CodeStmt>,
) -> Result<(), AllocError> {
    match stmt {
        Some(stmt) => push_stmt(line, names, stmt),
        None => Ok(()),
    }
}
