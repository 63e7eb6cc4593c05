// What is looked up in code before it runs.
ghost use Rattle.std.specs.Prelude.{◌≡◌, ◌&&◌, not, if◌then◌else◌, IfOk, IfSome, map, option_map, option_copied};
ghost use Rattle.sv_states.specs.States.{is_derived};
ghost use Rattle.sv_value.specs.View.{view_of};
ghost use Rattle.sv_meaning.specs.Calls.{start, is_on_store};
ghost use Rattle.sv_meaning.specs.Listeners.{handler_of, is_named};
ghost use Rattle.sv_meaning.specs.Context.{expr_in, doing_in};
ghost use Rattle.sv_meaning.specs.Sight.{is_there};
ghost use Rattle.sv_eval.specs.Quotient.{ratio_of};
ghost use Rattle.sv_meaning.specs.Statements.{takes_step};
ghost use Rattle.sv_meaning.specs.Values.{rounds};
ghost use Rattle.sv_meaning.specs.declared.context.Context.{Context as Contexts};

use sv_ast::{AssignOp, Op};
use sv_base::{NoMemory, Span, Text};
use sv_code::{
    BuiltIn, Code, CodeKind, CodeLink, CodeStmtKind, FragAttr, Handler, Known, Method, Program,
};
use sv_meaning::{Context, is_on_store};
use sv_value::{Inst, Value};
use sv_world::World;

/// A call: its place, what is called, and the arguments.
#[derive(Clone, Copy)]
pub(crate) struct Call<'a> {
    pub span: Span,
    pub of: &'a Code,
    pub args: &'a [Code],
}

/// An assignment: its place, what is assigned, where that stands, the operator, and the operand.
#[derive(Clone, Copy)]
pub(crate) struct Assign<'a> {
    pub span: Span,
    pub target: Known,
    pub at: Span,
    pub op: AssignOp,
    pub value: &'a Code,
}

/// A `++` or `--`: its place, what is counted, where that stands, whether up, and whether the operator stands in front.
#[derive(Clone, Copy)]
pub(crate) struct Bump {
    pub span: Span,
    pub target: Known,
    pub at: Span,
    pub up: bool,
    pub prefix: bool,
}

/// A call of `createEventDispatcher`: its place, where the name stands, the number of the dispatcher, and the arguments.
#[derive(Clone, Copy)]
pub(crate) struct MakeDispatcher<'a> {
    pub span: Span,
    pub at: Span,
    pub number: u32,
    pub args: &'a [Code],
}

/// A call on a list that takes a function: its place, the method, the function, and the items.
#[derive(Clone, Copy)]
pub(crate) struct Visit<'a> {
    pub span: Span,
    pub method: Method,
    pub function: &'a Value,
    pub items: &'a [Value],
}

/// Which of `Math` and `console` an expression is, if it is one.
pub(crate) fn built_of(code: &Code) -> Option<BuiltIn>
    ensures { (c : Contexts) → result ≡ (expr_in c code.now).built }
{
    match code.kind.get() {
        CodeKind::Read(Known::BuiltIn(BuiltIn::Math)) => Some(BuiltIn::Math),
        CodeKind::Read(Known::BuiltIn(BuiltIn::Console)) => Some(BuiltIn::Console),
        _ => None,
    }
}

/// Whether a statement of this form takes a step.
pub(crate) fn takes_step(kind: &CodeStmtKind) -> bool
    ensures { (c : Contexts) → result ≡ takes_step (doing_in c kind.now) }
{
    !matches!(
        kind,
        CodeStmtKind::Import(_) | CodeStmtKind::React(_) | CodeStmtKind::Function { .. }
    )
}

/// Whether a method of `Math` takes a quotient, and then whether it is rounded towards 0.
pub(crate) fn rounds_of(method: Option<Method>) -> Option<bool>
    ensures { result ≡ rounds method }
{
    match method {
        Some(Method::Trunc) => Some(true),
        Some(Method::Floor) => Some(false),
        _ => None,
    }
}

/// Whether the owner of a function is still there; a module file always is.
pub(crate) fn has_owner(context: &Context, world: &World, owner: Inst) -> bool
    ensures { result ≡ is_there (option_copied context.now.sight) owner.number world.now }
{
    context.sight.is_some() || owner.number == 0 || world.is_live(owner)
}

/// What a call on a list holds first: for `reduce` its second argument, which it wants.
pub(crate) fn start_of(method: Method, args: &[Value]) -> Result<Option<Value>, NoMemory>
    ensures { IfOk result (λ held. option_map view_of held ≡ start method (map view_of args.now)) }
{
    match (method, args) {
        (Method::Reduce, [_, start, ..]) => Ok(Some(start.share()?)),
        (Method::Reduce, _) => Ok(None),
        _ => Ok(Some(Value::Undefined)),
    }
}

/// Whether a handler listens to the event of a name.
pub(crate) fn listens_to(program: &Program, handler: &Handler, name: &Text) -> bool
    ensures { result ≡ is_named program.now name.now handler.now }
{
    match program.names.text(handler.name) {
        Some(event) => event == name.as_str(),
        None => false,
    }
}

/// The handler of an attribute that listens.
pub(crate) fn handler_of<'a>(program: &'a Program, attr: &FragAttr) -> Option<&'a Handler>
    ensures { option_copied result ≡ handler_of program.now attr.now }
{
    match attr {
        FragAttr::On { handler, .. } => program.handlers.as_slice().get(*handler as usize),
        _ => None,
    }
}

/// A chain whose last operator is `/`: its first operand, the operators in front of that, and what is divided by.
#[derive(Clone, Copy)]
pub(crate) struct Quotient<'a> {
    pub at: Span,
    pub first: &'a Code,
    pub before: &'a [CodeLink],
    pub bottom: &'a Code,
}

/// The quotient that an expression is, if it is one.
pub(crate) fn quotient_of(code: &Code) -> Option<Quotient<'_>>
    ensures ratio { (c : Contexts) → option_map (ratio_of c) result ≡ (expr_in c code.now).ratio }
    ensures at { (c : Contexts) → IfSome result (λ q. q.at ≡ (expr_in c code.now).span) }
{
    let CodeKind::Chain { first, rest } = code.kind.get() else {
        return None;
    };
    let (last, before) = rest.as_slice().split_last()?;
    match last.op {
        Op::Div => Some(Quotient {
            at: code.span,
            first,
            before,
            bottom: &last.right,
        }),
        _ => None,
    }
}

/// Whether a store has a method; a derived one has none.
pub(crate) fn has_method(world: &World, id: u32, method: Method) -> bool
    ensures { result ≡ (is_on_store method && not (is_derived world.now.states id)) }
{
    is_on_store(method) && world.states.derived(id).is_none()
}

/// What a `++` or `--` gives: the new value where the operator stands in front, else the one before.
pub(crate) fn bump_value(prefix: bool, new: Value, old: Value) -> Value
    ensures { view_of result ≡ (if prefix then view_of new else view_of old) }
{
    if prefix { new } else { old }
}
