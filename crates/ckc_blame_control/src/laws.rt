//! What follows from the definitions alone, each the contract of a function that does nothing.

ghost use Rattle.std.specs.Prelude.{◌≡◌, ◌≢◌, ℕ, ◌<◌, ◌^◌, true, List, [], ◌∷◌, ◌++◌, length, map, slice_get, Option, None, Some, IfSome, Ok, Err};
ghost use Rattle.ckc_base.specs.Activations.{has_room};
ghost use Rattle.ckc_base.specs.Lists.{AreBytes};
ghost use Rattle.ckc_base.specs.Steps.{Halts};
ghost use Rattle.ckc_base.specs.Traces.{Ended};
ghost use Rattle.ckc_base.specs.declared.arithmetic.Mode.{Mode};
ghost use Rattle.ckc_typed.specs.declared.typed.Typed.{Typed};
ghost use Rattle.ckc_typed.specs.Trees.{NotedExpr};
ghost use Rattle.ckc_blame_sound.specs.ckc_bounds_views.specs.Views.{view};
ghost use Rattle.ckc_blame_sound.specs.ckc_bounds_statements.specs.Paths.{Here};
ghost use Rattle.ckc_source.specs.declared.outcome.Halt.TheVariants as halt;
ghost use Rattle.ckc_source.specs.declared.program.Shape.{Shape};
ghost use Rattle.ckc_source.specs.declared.stmt.Kept.{Kept};
ghost use Rattle.ckc_source.specs.declared.stmt.Spot.{Spot};
ghost use Rattle.ckc_source.specs.Blocks.{Block};
ghost use Rattle.ckc_source.specs.Code.{Code, Expr, Target, Right, Assign, Bundle, Get, Put, Call, If, Loop, Return, Check, Function};
ghost use Rattle.ckc_source.specs.Eval.{Store, evaluated};
ghost use Rattle.ckc_source.specs.States as states;
ghost use Rattle.ckc_source.specs.States.{State, Caller, Work, Rest, Turn, active, entered, settled};
ghost use Rattle.ckc_source.specs.Steps.{Write, all_written, source_step};
ghost use Rattle.ckc_build_elaborate.specs.Elaborated.{elaborated};
ghost use Rattle.ckc_build_elaborate.specs.Functions.{functions_elaborated};
ghost use Rattle.ckc_build_elaborate.specs.Shapes.{shapes_elaborated};
ghost use Rattle.ckc_blame_sound.specs.Settings.{Setting, IsFunction};
ghost use Rattle.ckc_blame_sound.specs.Points.{HoldsAt};
ghost use Rattle.ckc_blame_sound.specs.Words.{HaveWords};
ghost use Rattle.ckc_blame_sound.specs.Bodies.{AreFresh};
ghost use Rattle.ckc_blame_sound.specs.Steps.{IsStep, IsCondition};
ghost use Rattle.ckc_blame_sound.specs.Calls.{store_in, arguments_of, head_of, ArePassed, Stands, Waits, AreWaiting};
ghost use Rattle.ckc_blame_sound.specs.Slots.{AreFilled};
ghost use Rattle.ckc_blame_sound.specs.Sound.{Sound};
ghost use Rattle.ckc_blame_sound.specs.Moves.{IsSoundMove, StaysSound};
ghost use Rattle.ckc_blame_sound.specs.Typed.{IsTypedIf, IsTypedStmt};
ghost use Rattle.ckc_blame_sound.specs.JudgedTexts.{IsJudged, globals_in};
ghost use Rattle.ckc_blame_sound.specs.Cells.{AreSound};
ghost use Rattle.ckc_blame_sound.specs.Limited.{store_with};
ghost use Rattle.ckc_blame_sound.specs.Writes.{AreCellWrites};
ghost use Rattle.ckc_blame_control.specs.Ready.{IsReady, Begins, Faces, is_step};
ghost use Rattle.ckc_blame_control.specs.Decided.{LeadsTo, IsDecided, HasSides};
ghost use Rattle.ckc_blame_control.specs.Whole.{KeepSound};
ghost use Rattle.ckc_blame_control.specs.Known.{IsKnownPoint};
ghost use Rattle.ckc_blame_control.specs.Kept.{KeepRanges, IsSameCall, IsBack, inside};

/// What comes next in a call, from the next step on, is judged from a point that holds if what came
/// next before was: the ends of statements, `break`, `continue` and turns of loops lead to such
/// points. It begins with a step.
pub fn settling_keeps_points()
    ensures stands { (p : Typed) (blocks : List Block) (frame : states.Frame) (s : Setting) →
        Stands p blocks frame s
        → IsReady s (store_in p blocks frame) frame.entry frame.work }
    ensures ready { (s : Setting) (store : Store) (entry : List ℕ) (work : List Work) →
        IsReady s store entry work → IsReady s store entry (settled work) }
    ensures begins { (s : Setting) (store : Store) (entry : List ℕ) (work next : List Work)
        (code : Code) → IsReady s store entry work → settled work ≡ Rest code ∷ next
        → (is_step code ≡ true) × Begins s store entry code next }
    ensures turns { (s : Setting) (store : Store) (entry : List ℕ) (work next : List Work)
        (code : Code) → IsReady s store entry work → settled work ≢ Turn code ∷ next }
{}

/// A step that comes next is judged at a point that holds, and what comes after it from the point that
/// it leads to.
pub fn steps_are_judged()
    ensures assignment { (s : Setting) (store : Store) (entry : List ℕ) (work next : List Work)
        (spot : Spot) (target : Target) (right : Right) (rest : Code) →
        IsReady s store entry work
        → settled work ≡ Rest (Assign spot target right rest) ∷ next
        → Faces s store entry (Assign spot target right) (Rest rest ∷ next) }
    ensures bundle { (s : Setting) (store : Store) (entry : List ℕ) (work next : List Work)
        (spot : Spot) (assigns : List (Target × Right)) (rest : Code) →
        IsReady s store entry work → settled work ≡ Rest (Bundle spot assigns rest) ∷ next
        → Faces s store entry (Bundle spot assigns) (Rest rest ∷ next) }
    ensures get { (s : Setting) (store : Store) (entry : List ℕ) (work next : List Work)
        (spot : Spot) (target : Target) (rest : Code) → IsReady s store entry work
        → settled work ≡ Rest (Get spot target rest) ∷ next
        → Faces s store entry (Get spot target) (Rest rest ∷ next) }
    ensures put { (s : Setting) (store : Store) (entry : List ℕ) (work next : List Work)
        (spot : Spot) (target : Target) (e : Expr) (rest : Code) → IsReady s store entry work
        → settled work ≡ Rest (Put spot target e rest) ∷ next
        → Faces s store entry (Put spot target e) (Rest rest ∷ next) }
    ensures call { (s : Setting) (store : Store) (entry : List ℕ) (work next : List Work)
        (spot : Spot) (target : Option Kept) (number : ℕ) (es : List Expr) (rest : Code) →
        IsReady s store entry work
        → settled work ≡ Rest (Call spot target number es rest) ∷ next
        → Faces s store entry (Call spot target number es) (Rest rest ∷ next) }
    ensures returns { (s : Setting) (store : Store) (entry : List ℕ) (work next : List Work)
        (spot : Spot) (e : Expr) (rest : Code) → IsReady s store entry work
        → settled work ≡ Rest (Return spot e rest) ∷ next
        → Faces s store entry (Return spot e) (Rest rest ∷ next) }
    ensures check { (s : Setting) (store : Store) (entry : List ℕ) (work next : List Work)
        (spot : Spot) (e : Expr) (rest : Code) → IsReady s store entry work
        → settled work ≡ Rest (Check spot e rest) ∷ next
        → Faces s store entry (Check spot e) (Rest rest ∷ next) }
{}

/// An `if`, a loop or a dynamic check that is the next step of a sound state leads to a sound state, or
/// stops, if its condition leads to a side that holds.
pub fn conditions_stay_sound()
    ensures branch { (p : Typed) (s : State) (h : Sound p s) (spot : Spot) (e : Expr)
        (one two rest : Code) (next : List Work) →
        settled s.frame.work ≡ Rest (If spot e one two rest) ∷ next
        → IsDecided h.setting spot.mode (store_in p s.blocks s.frame) s.frame.entry e
        → IsSoundMove p (source_step (elaborated p) s) }
    ensures check { (p : Typed) (s : State) (h : Sound p s) (spot : Spot) (e : Expr)
        (rest : Code) (next : List Work) → settled s.frame.work ≡ Rest (Check spot e rest) ∷ next
        → IsDecided h.setting spot.mode (store_in p s.blocks s.frame) s.frame.entry e
        → IsSoundMove p (source_step (elaborated p) s) }
    ensures turn { (p : Typed) (s : State) (h : Sound p s) (spot : Spot) (e : Expr)
        (body step rest : Code) (next : List Work) →
        settled s.frame.work ≡ Rest (Loop spot e body step rest) ∷ next
        → IsDecided h.setting spot.mode (store_in p s.blocks s.frame) s.frame.entry e
        → IsSoundMove p (source_step (elaborated p) s) }
{}

/// A condition leads to a side that holds if that of its expression does, and if it is left out.
pub fn conditions_have_sides()
    ensures some { (s : Setting) (store : Store) (entry : List ℕ) (here one other : Here)
        (e : Expr) (mode : Mode) (c : IsCondition s mode here e one other) (f : NotedExpr) → c.before ≡ Some f
        → HasSides s store entry here f (evaluated store e)
        → LeadsTo s store entry one other (evaluated store e) }
    ensures none { (s : Setting) (store : Store) (entry : List ℕ) (here one other : Here)
        (e : Expr) (mode : Mode) (c : IsCondition s mode here e one other) → c.before ≡ None
        → HoldsAt s store entry here → LeadsTo s store entry one other (evaluated store e) }
{}

/// The run ends if the first call falls off its end, and if it returns a value.
pub fn first_calls_end()
    ensures falls { (p : Typed) (s : State) → settled s.frame.work ≡ [] → s.callers ≡ []
        → source_step (elaborated p) s ≡ Halts [] (Ended 0) }
    ensures returns { (p : Typed) (s : State) (spot : Spot) (e : Expr) (rest : Code)
        (next : List Work) → settled s.frame.work ≡ Rest (Return spot e rest) ∷ next
        → s.callers ≡ [] → evaluated (store_in p s.blocks s.frame) e ≢ Err halt.Stuck
        → IsSoundMove p (source_step (elaborated p) s) }
{}

/// A point that holds still holds, and each call that waits still waits, in blocks in which each range
/// that was true is true. That is so after writes to integers and pointers of elements, and if blocks
/// are made.
pub fn points_outlive_stores()
    ensures point { (s : Setting) (shapes : List Shape) (before after : List Block)
        (locals entry : List ℕ) (here : Here) → KeepRanges shapes before after
        → HoldsAt s (store_with shapes before locals) entry here
        → HoldsAt s (store_with shapes after locals) entry here }
    ensures calls { (p : Typed) (before after : List Block) (callers : List Caller)
        (called : Setting) (callee : Function) (entry : List ℕ) →
        KeepRanges (shapes_elaborated p.layout) before after
        → AreWaiting p before callers called callee entry
        → AreWaiting p after callers called callee entry }
    ensures writes { (p : Typed) (next : ℕ) (ws : List Write) (s t : State)
        (shapes : List Shape) → AreSound p s.blocks next → AreCellWrites p.layout s.blocks ws
        → all_written ws s ≡ Ok t → KeepRanges shapes s.blocks t.blocks }
    ensures block { (shapes : List Shape) (before more : List Block) →
        KeepRanges shapes before (before ++ more) }
    ensures both { (shapes : List Shape) (before between after : List Block) →
        KeepRanges shapes before between → KeepRanges shapes between after
        → KeepRanges shapes before after }
{}

/// A state after a sound one, in the same call, is sound if its blocks are, each range that was true is
/// true, each checked pointer in memory may be read, and what comes next is judged from a point that
/// holds. After the step in front that is the point that it leads to.
pub fn states_stay_sound()
    ensures ready { (p : Typed) (s t : State) (h : Sound p s) → IsSameCall s t
        → KeepRanges (shapes_elaborated p.layout) s.blocks t.blocks
        → AreSound p t.blocks t.next → AreFilled p (store_in p t.blocks t.frame)
        → AreBytes t.input
        → IsReady h.setting (store_in p t.blocks t.frame) t.frame.entry t.frame.work
        → Sound p t }
    ensures step { (p : Typed) (s t : State) (h : Sound p s) (step : Code → Code)
        (next : List Work)
        (f : Faces h.setting (store_in p s.blocks s.frame) s.frame.entry step next) →
        IsSameCall s t → KeepRanges (shapes_elaborated p.layout) s.blocks t.blocks
        → AreSound p t.blocks t.next → AreFilled p (store_in p t.blocks t.frame)
        → AreBytes t.input → t.frame.work ≡ next
        → HoldsAt h.setting (store_in p t.blocks t.frame) t.frame.entry f.exits.ends
        → Sound p t }
{}

/// The state in a function that was called is sound if what the function begins with is judged from a
/// point that holds, the call is judged by the head of the function, and the arguments stand for what
/// its parameters have.
pub fn calls_enter_soundly()
    ensures { (p : Typed) (s : State) (h : Sound p s) (called : Setting) (spot : Spot)
        (target : Option Kept) (number : ℕ) (es : List Expr) (next : List Work)
        (callee : Function) (values : List ℕ)
        (f : Faces h.setting (store_in p s.blocks s.frame) s.frame.entry
        (Call spot target number es) next) → has_room (active s) ≡ true
        → slice_get (functions_elaborated p) number ≡ Some callee → IsFunction p called callee
        → head_of h.setting.frame f.judged.before ≡ Some called.head
        → ((n : ℕ) → ArePassed h.setting called f.here s.frame.locals values
        (map (view h.setting.frame) (arguments_of f.judged.before)) n)
        → IsReady called (store_in p s.blocks (entered callee values)) values
        (Rest callee.body ∷ [])
        → Sound p (inside s next target callee values) }
{}

/// A sound state has a call in front of those that wait, if one does; and the state after a return to
/// it is sound if the point after its own call holds there.
pub fn calls_return_soundly()
    ensures front { (p : Typed) (s : State) (h : Sound p s) (caller : Caller)
        (callers : List Caller) → s.callers ≡ caller ∷ callers
        → (w : Setting) × Waits p s.blocks caller w h.setting s.frame.function s.frame.entry
        × AreWaiting p s.blocks callers w caller.frame.function caller.frame.entry }
    ensures sound { (p : Typed) (s t : State) (h : Sound p s) (caller : Caller)
        (callers : List Caller) (w : Setting)
        (waits : Waits p s.blocks caller w h.setting s.frame.function s.frame.entry) →
        s.callers ≡ caller ∷ callers
        → AreWaiting p s.blocks callers w caller.frame.function caller.frame.entry
        → IsBack caller callers t → KeepRanges (shapes_elaborated p.layout) s.blocks t.blocks
        → AreSound p t.blocks t.next → AreFilled p (store_in p t.blocks t.frame)
        → AreBytes t.input
        → HoldsAt w (store_in p t.blocks t.frame) t.frame.entry waits.exits.ends → Sound p t }
{}

/// Each checked step from a sound state keeps it sound if assignments, calls and returns do, and
/// conditions lead to sides that hold.
pub fn checked_steps_stay_sound()
    ensures { (p : Typed) → KeepSound p → StaysSound p }
{}

/// The statement of a step, and a condition, of a judged text are typed, if the literals of the text are
/// words. In a function of less than 2^32 variables those from the next fresh one on are no integers, and it
/// has a word as its number.
pub fn steps_are_typed()
    ensures step { (p : Typed) (s : Setting) (f : Function) (here there : Here)
        (step : Code → Code) → IsJudged p → HaveWords p → IsFunction p s f
        → (is : IsStep s here step there) → IsTypedStmt (globals_in p) s is.before }
    ensures condition { (p : Typed) (s : Setting) (f : Function) (mode : Mode) (here yes no : Here) (e : Expr) →
        HaveWords p → IsFunction p s f → (c : IsCondition s mode here e yes no)
        → IsTypedIf (globals_in p) s c.before }
    ensures fresh { (p : Typed) (s : Setting) (f : Function) (here there : Here)
        (step : Code → Code) → IsFunction p s f → IsStep s here step there
        → length s.variables < 2 ^ 32 → AreFresh s.frame here.next × (here.next < 2 ^ 32) }
    ensures tested { (p : Typed) (s : Setting) (f : Function) (mode : Mode) (here yes no : Here) (e : Expr) →
        IsFunction p s f → IsCondition s mode here e yes no → length s.variables < 2 ^ 32
        → AreFresh s.frame here.next × (here.next < 2 ^ 32) }
{}

/// A step and a condition of a judged text whose literals are words are typed, and the point where they
/// stand is known as the laws on expressions ask, in a function of less than 2^32 variables.
pub fn steps_are_known()
    ensures step { (p : Typed) (s : Setting) (f : Function) (here there : Here)
        (step : Code → Code) → IsJudged p → HaveWords p → IsFunction p s f
        → length s.variables < 2 ^ 32 → (is : IsStep s here step there)
        → IsTypedStmt (globals_in p) s is.before × IsKnownPoint (globals_in p) s here }
    ensures condition { (p : Typed) (s : Setting) (f : Function) (mode : Mode) (here yes no : Here) (e : Expr) →
        IsJudged p → HaveWords p → IsFunction p s f → length s.variables < 2 ^ 32
        → (c : IsCondition s mode here e yes no)
        → IsTypedIf (globals_in p) s c.before × IsKnownPoint (globals_in p) s here }
{}
