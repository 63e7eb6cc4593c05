// Statements, and functions that they declare.
ghost use Rattle.std.specs.Prelude.{map, option_map};
ghost use Rattle.sv_code.specs.declared.functions.FunctionBody.TheVariants as body_code;
ghost use Rattle.sv_lower.specs.Does.{Makes, each, given, of_one, within};
ghost use Rattle.sv_lower.specs.Inside.{made_in};
ghost use Rattle.sv_lower.specs.Lower as spec;
ghost use Rattle.sv_names.specs.Uses.{together, stmt_parts};

use crate::expressions::{lower_expr, lower_given};
use crate::frames::{function_frame, put_framed};
use crate::heads::{head_frame, row_scope, store_of};
use crate::imports::copy_import;
use crate::inside::{Inside, known_at};
use sv_ast::{Arm, Decl, Named, Ref, Stmt, StmtKind};
use sv_base::{NoMemory, Span};
use sv_code::{
    CodeArm, CodeArms, CodeDecl, CodeDecls, CodeStmt, CodeStmtKind, CodeStmts, FunctionBody,
    Functions,
};
use sv_names::{Distinct, LocalScope, block_scope};

/// The code of statements in turn where they stand. Each function and each arrow in them is put behind the functions that there are, and
/// becomes its number: those inside another come before it. `NoMemory` comes where memory runs out, or of a number below 2^32 for a function;
/// some functions may have been added then.
#[cycle(lower)]
pub fn lower_stmts(
    inside: &Inside<'_>,
    functions: &mut Functions,
    stmts: &[Stmt],
) -> Result<CodeStmts, NoMemory>
    ensures { Makes result (made_in inside.now (spec.of_stmts stmts.now) functions.old) functions.new }
{
    let mut codes = CodeStmts::new(inside.alloc);
    for of in stmts {
        codes.push(lower_stmt(inside, functions, of)?)?;
    }
    Ok(codes)
}

#[cycle(lower)]
fn lower_stmt(
    inside: &Inside<'_>,
    functions: &mut Functions,
    of: &Stmt,
) -> Result<CodeStmt, NoMemory>
    ensures { Makes result (made_in inside.now (spec.of_stmt of.now) functions.old) functions.new }
{
    let kind = lower_stmt_kind(inside, functions, of.span, of.kind.get())?;
    Ok(CodeStmt::new(inside.alloc, of.span, kind)?)
}

#[cycle(lower)]
fn lower_stmt_kind(
    inside: &Inside<'_>,
    functions: &mut Functions,
    span: Span,
    kind: &StmtKind,
) -> Result<CodeStmtKind, NoMemory>
    ensures { Makes result (made_in inside.now ((spec.stmt_kind_made kind.now).makes span) functions.old) functions.new }
{
    match kind {
        StmtKind::Empty => Ok(CodeStmtKind::Empty),
        StmtKind::Block(stmts) => lower_block(inside, functions, stmts.as_slice()),
        StmtKind::Let(decls) => Ok(CodeStmtKind::Let(lower_decls(
            inside,
            functions,
            decls.as_slice(),
        )?)),
        StmtKind::Const { decls, exported } => Ok(CodeStmtKind::Const {
            decls: lower_decls(inside, functions, decls.as_slice())?,
            exported: *exported,
        }),
        StmtKind::If { arms, last } => {
            let arms = lower_arms(inside, functions, arms.as_slice())?;
            let last = lower_optional(inside, functions, last)?;
            Ok(CodeStmtKind::If { arms, last })
        }
        StmtKind::While { test, body } => {
            let test = lower_expr(inside, functions, test)?;
            let body = lower_stmt(inside, functions, body)?;
            Ok(CodeStmtKind::While { test, body })
        }
        StmtKind::For {
            first,
            test,
            next,
            body,
        } => {
            let frame = head_frame(inside.alloc, first)?;
            let locals = LocalScope::inside(inside.locals, &frame.names);
            let inside = Inside {
                alloc: inside.alloc,
                tops: inside.tops,
                locals: &locals,
            };
            let first = lower_optional(&inside, functions, first)?;
            let test = lower_given(&inside, functions, test)?;
            let next = lower_given(&inside, functions, next)?;
            let body = lower_stmt(&inside, functions, body)?;
            Ok(CodeStmtKind::For {
                declares: frame.declares,
                first,
                test,
                next,
                body,
            })
        }
        StmtKind::Each {
            name,
            fixed,
            list,
            body,
        } => {
            let names = row_scope(inside.alloc, *name)?;
            let locals = LocalScope::inside(inside.locals, &names);
            let inside = Inside {
                alloc: inside.alloc,
                tops: inside.tops,
                locals: &locals,
            };
            let list = lower_expr(&inside, functions, list)?;
            let body = lower_stmt(&inside, functions, body)?;
            Ok(CodeStmtKind::Each {
                name: *name,
                fixed: *fixed,
                list,
                body,
            })
        }
        StmtKind::Break => Ok(CodeStmtKind::Break),
        StmtKind::Continue => Ok(CodeStmtKind::Continue),
        StmtKind::Return(value) => Ok(CodeStmtKind::Return(lower_given(inside, functions, value)?)),
        StmtKind::Eval(value) => Ok(CodeStmtKind::Eval(lower_expr(inside, functions, value)?)),
        StmtKind::Import(import) => Ok(CodeStmtKind::Import(copy_import(inside.alloc, import)?)),
        StmtKind::Export(decls) => Ok(CodeStmtKind::Export(lower_decls(
            inside,
            functions,
            decls.as_slice(),
        )?)),
        StmtKind::React(of) => Ok(CodeStmtKind::React(lower_stmt(inside, functions, of)?)),
        StmtKind::Func {
            name,
            exported,
            params,
            body,
        } => {
            let number = lower_function(
                inside,
                functions,
                span,
                params.as_slice(),
                body.as_slice(),
            )?;
            Ok(CodeStmtKind::Function {
                name: *name,
                exported: *exported,
                target: known_at(inside, Ref::Plain(name.name)),
                number,
            })
        }
    }
}

// A block.
#[cycle(lower)]
fn lower_block(
    inside: &Inside<'_>,
    functions: &mut Functions,
    stmts: &[Stmt],
) -> Result<CodeStmtKind, NoMemory>
    ensures { Makes result (made_in inside.now (spec.block (together (map stmt_parts stmts.now)) (spec.of_stmts stmts.now)) functions.old) functions.new }
{
    let names = block_scope(inside.alloc, &[], stmts)?;
    let declares = names.to_names(inside.alloc)?;
    let stmts = lower_stmts_in(inside, functions, &names, stmts)?;
    Ok(CodeStmtKind::Block { declares, stmts })
}

// Statements in a scope of some names.
#[cycle(lower)]
fn lower_stmts_in(
    inside: &Inside<'_>,
    functions: &mut Functions,
    names: &Distinct,
    stmts: &[Stmt],
) -> Result<CodeStmts, NoMemory>
    ensures { Makes result (made_in inside.now (within names.now (spec.of_stmts stmts.now)) functions.old) functions.new }
{
    let locals = LocalScope::inside(inside.locals, names);
    let inside = Inside {
        alloc: inside.alloc,
        tops: inside.tops,
        locals: &locals,
    };
    lower_stmts(&inside, functions, stmts)
}

#[cycle(lower)]
fn lower_optional(
    inside: &Inside<'_>,
    functions: &mut Functions,
    of: &Option<Stmt>,
) -> Result<Option<CodeStmt>, NoMemory>
    ensures { Makes result (made_in inside.now (given (spec.perhaps (option_map spec.stmt_made of.now))) functions.old) functions.new }
{
    match of {
        Some(of) => Ok(Some(lower_stmt(inside, functions, of)?)),
        None => Ok(None),
    }
}

// The number of a function that a statement declares.
#[cycle(lower)]
fn lower_function(
    inside: &Inside<'_>,
    functions: &mut Functions,
    span: Span,
    params: &[Named],
    stmts: &[Stmt],
) -> Result<u32, NoMemory>
    ensures { Makes result (made_in inside.now (spec.numbered span params.now (together (map stmt_parts stmts.now)) (of_one body_code.Block (spec.of_stmts stmts.now))) functions.old) functions.new }
{
    let frame = function_frame(inside, span, params, stmts)?;
    let stmts = lower_stmts_in(inside, functions, &frame.names, stmts)?;
    put_framed(functions, frame, FunctionBody::Block(stmts))
}

#[cycle(lower)]
fn lower_decls(
    inside: &Inside<'_>,
    functions: &mut Functions,
    decls: &[Decl],
) -> Result<CodeDecls, NoMemory>
    ensures { Makes result (made_in inside.now (each (spec.all (map spec.decl_made decls.now))) functions.old) functions.new }
{
    let mut codes = CodeDecls::new(inside.alloc);
    for decl in decls {
        codes.push(lower_decl(inside, functions, decl)?)?;
    }
    Ok(codes)
}

#[cycle(lower)]
fn lower_decl(
    inside: &Inside<'_>,
    functions: &mut Functions,
    decl: &Decl,
) -> Result<CodeDecl, NoMemory>
    ensures { Makes result (made_in inside.now ((spec.decl_made decl.now).makes) functions.old) functions.new }
{
    let name = decl.name;
    let target = known_at(inside, Ref::Plain(name.name));
    let store = store_of(target, known_at(inside, Ref::Store(name.name)));
    let first = lower_given(inside, functions, &decl.first)?;
    Ok(CodeDecl {
        name,
        target,
        store,
        first,
    })
}

#[cycle(lower)]
fn lower_arms(
    inside: &Inside<'_>,
    functions: &mut Functions,
    arms: &[Arm],
) -> Result<CodeArms, NoMemory>
    ensures { Makes result (made_in inside.now (each (spec.all (map spec.arm_made arms.now))) functions.old) functions.new }
{
    let mut codes = CodeArms::new(inside.alloc);
    for arm in arms {
        codes.push(lower_arm(inside, functions, arm)?)?;
    }
    Ok(codes)
}

#[cycle(lower)]
fn lower_arm(inside: &Inside<'_>, functions: &mut Functions, arm: &Arm) -> Result<CodeArm, NoMemory>
    ensures { Makes result (made_in inside.now ((spec.arm_made arm.now).makes) functions.old) functions.new }
{
    let test = lower_expr(inside, functions, &arm.test)?;
    let body = lower_stmt(inside, functions, &arm.body)?;
    Ok(CodeArm { test, body })
}
