// Laws of what scripts do, on functions that do nothing.
ghost use Rattle.std.specs.Prelude.{◌≡◌, ◌<◌, ℕ, Bool, List, [], None};
ghost use Rattle.std.specs.List.{AllPairs};
ghost use Rattle.sv_base.specs.declared.span.Span.{Span};
ghost use Rattle.sv_code.specs.declared.code.Code.{Code};
ghost use Rattle.sv_code.specs.declared.functions.CodeStmt.{CodeStmt};
ghost use Rattle.sv_code.specs.declared.known.Known.{Known};
ghost use Rattle.sv_code.specs.declared.program.Program.{Program};
ghost use Rattle.sv_derived.specs.Derived.{next};
ghost use Rattle.sv_derived.specs.Order.{IsOrdered};
ghost use Rattle.sv_frame.specs.Computed.{LeavesComputed};
ghost use Rattle.sv_frame.specs.Constants.{LeavesConstants, LeavesOthers};
ghost use Rattle.sv_frame.specs.Settling.{computed_in, computed_at};
ghost use Rattle.sv_frame.specs.Snapshots.{LeavesSnapshots};
ghost use Rattle.sv_frame.specs.Views.{LeavesViews};
ghost use Rattle.sv_meaning.specs.Calls.{set_store};
ghost use Rattle.sv_meaning.specs.Env.{Env};
ghost use Rattle.sv_meaning.specs.Listeners.{teller};
ghost use Rattle.sv_meaning.specs.Outcome.{Ends, left};
ghost use Rattle.sv_meaning.specs.Runs.{world_ground, calls, run_modules, run_top, run_reactive, called, settle, each_in_turn};
ghost use Rattle.sv_meaning.specs.Sight.{set};
ghost use Rattle.sv_meaning.specs.Statements.{run};
ghost use Rattle.sv_meaning.specs.Values.{value};
ghost use Rattle.sv_value.specs.Value.{Val};
ghost use Rattle.sv_world.specs.declared.world.World.{World};

/// Whatever module files, the scripts of components, reactive statements, functions and derived stores do, what was seen of each instance at
/// its last snapshot stays.
pub fn scripts_leave_snapshots()
    ensures modules { (p : Program) → LeavesSnapshots (run_modules p) }
    ensures top { (p : Program) (n : ℕ) (props : List (ℕ × Val)) → LeavesSnapshots (run_top p n props) }
    ensures reactive { (p : Program) (n : ℕ) (all : Bool) → LeavesSnapshots (run_reactive p n all) }
    ensures calls { (p : Program) (v : Val) (args : List Val) (s : Span) → LeavesSnapshots (called p v args s) }
    ensures settling { (p : Program) → LeavesSnapshots (settle p) }
{}

/// Nor do they lend a view: each live instance holds the view that its owner handed it last.
pub fn scripts_lend_no_views()
    ensures modules { (p : Program) → LeavesViews (run_modules p) }
    ensures top { (p : Program) (n : ℕ) (props : List (ℕ × Val)) → LeavesViews (run_top p n props) }
    ensures reactive { (p : Program) (n : ℕ) (all : Bool) → LeavesViews (run_reactive p n all) }
    ensures calls { (p : Program) (v : Val) (args : List Val) (s : Span) → LeavesViews (called p v args s) }
    ensures settling { (p : Program) → LeavesViews (settle p) }
{}

/// Once the script of an instance ended no constant of it gets another value, and none of a module file once module files ran: nothing but the top of
/// a file gives constants their values, and each its own.
pub fn scripts_leave_constants()
    ensures top { (p : Program) (n : ℕ) (props : List (ℕ × Val)) → LeavesOthers n (run_top p n props) }
    ensures reactive { (p : Program) (n : ℕ) (all : Bool) → LeavesConstants (run_reactive p n all) }
    ensures calls { (p : Program) (v : Val) (args : List Val) (s : Span) → LeavesConstants (called p v args s) }
    ensures events { (p : Program) (i : ℕ) (name : List ℕ) (e : Val) → LeavesConstants (teller p (calls p) i name e) }
    ensures settling { (p : Program) → LeavesConstants (settle p) }
{}

/// Derived stores settle to the end: where nothing faults, none is pending behind it. A settling computes some one after another and does
/// nothing else; each once at most, in the order in which they were made.
pub fn settling_ends()
    ensures last { (p : Program) (w w' : World) → IsOrdered w.states.derived → settle p w ≡ Ends tt w' → next w'.states.derived ≡ None }
    ensures all { (p : Program) (w : World) → settle p w ≡ each_in_turn (computed_at p) (computed_in p w) w }
    ensures once { (p : Program) (w : World) → IsOrdered w.states.derived → AllPairs (λ m n. m < n) (computed_in p w) }
{}

/// Where no derived store is pending and each has what its function gave on the values of its inputs, so it is again wherever module files, scripts,
/// reactive statements, functions, expressions, statements, events and assignments end.
pub fn derived_stores_stay_computed()
    ensures modules { (p : Program) → LeavesComputed p (run_modules p) }
    ensures top { (p : Program) (n : ℕ) (props : List (ℕ × Val)) → LeavesComputed p (run_top p n props) }
    ensures reactive { (p : Program) (n : ℕ) (all : Bool) → LeavesComputed p (run_reactive p n all) }
    ensures calls { (p : Program) (v : Val) (args : List Val) (s : Span) → LeavesComputed p (called p v args s) }
    ensures expressions { (p : Program) (owner : ℕ) (c : Code) (env : Env) → LeavesComputed p (λ w. left (value (world_ground p) (calls p) owner c env w)) }
    ensures statements { (p : Program) (owner : ℕ) (c : CodeStmt) (env : Env) → LeavesComputed p (λ w. left (run (world_ground p) (calls p) owner c env w)) }
    ensures events { (p : Program) (i : ℕ) (name : List ℕ) (e : Val) → LeavesComputed p (teller p (calls p) i name e) }
    ensures assignments { (p : Program) (owner : ℕ) (x : Known) (v : Val) (s : Span) → LeavesComputed p (λ w. left (set (world_ground p) (calls p) owner x v s [] w)) }
    ensures stores { (p : Program) (s : Span) (id : ℕ) (v : Val) → LeavesComputed p (set_store (calls p) s id v) }
    ensures settling { (p : Program) → LeavesComputed p (settle p) }
{}
