//! What follows from the definitions alone, each the contract of a function that does nothing.

ghost use Rattle.std.specs.Prelude.{◌+◌, ◌^◌, ◌≡◌, ◌⊎◌, ◌<◌, ◌≤◌, ℕ, List, [], ◌∷◌, length, true, None, Some, IfSome, slice_get};
ghost use Rattle.ckc_types.specs.declared.types.CType.{CType};
ghost use Rattle.ckc_types.specs.declared.types.Kind.{Kind};
ghost use Rattle.ckc_types.specs.declared.types.Kind.TheVariants as kind;
ghost use Rattle.ckc_syntax.specs.declared.tree.Name.{Name};
ghost use Rattle.ckc_syntax.specs.declared.tree.Name.TheVariants as name;
ghost use Rattle.ckc_syntax.specs.declared.tree.Node.{Node-F, out-Node};
ghost use Rattle.ckc_typed.specs.declared.typed.Note.{Note};
ghost use Rattle.ckc_syntax_limits.specs.Marks.{is_node, marks_of_expr};
ghost use Rattle.ckc_syntax_limits.specs.Small.{Small, how_many};
ghost use Rattle.ckc_typed.specs.declared.typed.Typed.{Typed};
ghost use Rattle.ckc_typed.specs.Trees.{NotedExpr, NotedStmt};
ghost use Rattle.ckc_blame_sound.specs.ckc_bounds_points.specs.declared.frame.Frame.{Frame};
ghost use Rattle.ckc_blame_sound.specs.ckc_bounds_views.specs.Views.{view};
ghost use Rattle.ckc_typed.specs.Environment.{type_of_name};
ghost use Rattle.ckc_typed.specs.Types.{element_of, is_integer, is_object_type, is_pointer, kind_of};
ghost use Rattle.ckc_typed.specs.declared.environment.Globals.{Globals};
ghost use Rattle.ckc_blame_sound.specs.Typed.{IsTyped};
ghost use Rattle.ckc_blame_steps.specs.Pointees.{AreFine, IsFine};
ghost use Rattle.ckc_blame_sound.specs.ckc_bounds_stores.specs.Targets.{memory_bounds};
ghost use Rattle.ckc_blame_sound.specs.ckc_bounds_views.specs.Ranges.{range_of_static};
ghost use Rattle.ckc_source.specs.declared.expr.Count.{Count};
ghost use Rattle.ckc_build_values.specs.Names.{count_of_static};
ghost use Rattle.ckc_blame_sound.specs.Elements.{AreCounted};
ghost use Rattle.ckc_blame_sound.specs.ckc_bounds_points.specs.declared.frame.HeadBounds.{HeadBounds};
ghost use Rattle.ckc_source.specs.Code.{Code, Expr, Function};
ghost use Rattle.ckc_build_elaborate.specs.Functions.{functions_elaborated};
ghost use Rattle.ckc_build_elaborate.specs.Names.{number_of};
ghost use Rattle.ckc_blame_sound.specs.Settings.{Setting, IsFunction};
ghost use Rattle.ckc_source.specs.Eval.{Store};
ghost use Rattle.ckc_blame_sound.specs.Slots.{AreFilled};
ghost use Rattle.ckc_blame_given.specs.ckc_blame_pointers.specs.Covered.{IsStaticInteger, IsStaticArray, IsStaticPointer};
ghost use Rattle.ckc_blame_sound.specs.JudgedTexts.{IsJudged, globals_in};
ghost use Rattle.ckc_blame_steps.specs.Values.{HaveFewValues};
ghost use Rattle.ckc_blame_steps.specs.ExpressionRooms.{HasPlaces, HavePlaces, HaveSides};
ghost use Rattle.ckc_base.specs.declared.arithmetic.Mode.{Mode};
ghost use Rattle.ckc_syntax.specs.declared.tree.Act.{Act-F, out-Act};
ghost use Rattle.ckc_blame_sound.specs.ckc_bounds_statements.specs.Paths.{Here};
ghost use Rattle.ckc_blame_sound.specs.ckc_bounds_stores.specs.Stores.{stores_of};
ghost use Rattle.ckc_blame_sound.specs.Few.{AreFew};
ghost use Rattle.ckc_blame_sound.specs.Steps.{IsStep, IsCondition};
ghost use Rattle.ckc_blame_sound.specs.Words.{exprs_in};
ghost use Rattle.ckc_blame_steps.specs.Statics.{IsStatic, range_counted};

/// The head by which a call of a function is judged is that of the function that the program
/// calls, which is a function of the text. If there is such a head, the program has such a
/// function.
pub fn callees_have_heads()
    ensures called { (p : Typed) (s : Setting) (f callee : Function) (k : ℕ) → IsJudged p
        → IsFunction p s f
        → slice_get (functions_elaborated p) (number_of (name.Function k) p.tree.items)
        ≡ Some callee
        → (called : Setting) × IsFunction p called callee
        × (slice_get s.frame.heads k ≡ Some called.head) }
    ensures judged { (p : Typed) (s : Setting) (f : Function) (k : ℕ) (h : HeadBounds) → IsJudged p
        → IsFunction p s f → slice_get s.frame.heads k ≡ Some h
        → (called : Setting) × (callee : Function) × IsFunction p called callee × (h ≡ called.head)
        × (slice_get (functions_elaborated p) (number_of (name.Function k) p.tree.items)
        ≡ Some callee) }
{}

/// A name of file scope that has a type is declared: what the judgement and the program know of
/// its object, and the bounds and the range that the judgement knows of a pointer count as many
/// elements as the program does. It is an integer, an array or a pointer by its type. A pointer
/// that is assigned or read by its name has such bounds and such a range.
pub fn statics_are_told()
    ensures told { (p : Typed) (s : Setting) (f : Function) (t : CType) (k : ℕ) → IsJudged p
        → IsFunction p s f → type_of_name (globals_in p) s.variables (name.Static k) ≡ Some t
        → IsStatic s t k }
    ensures integers { (s : Setting) (t : CType) (k : ℕ) → IsStatic s t k → is_integer t ≡ true
        → IsStaticInteger s t k }
    ensures arrays { (s : Setting) (t : CType) (k : ℕ) (a : Kind) (w : IsStatic s t k) →
        w.object.array ≡ Some a → IsStaticArray s t k }
    ensures pointers { (s : Setting) (store : Store) (t : CType) (k : ℕ) (w : IsStatic s t k) →
        w.object.array ≡ None → is_pointer t ≡ true → w.decl.bounds ≡ None
        → AreFilled s.text store → IsStaticPointer s store t k }
    ensures counts { (s : Setting) (t : CType) (k : ℕ) (n : Count) (e : NotedExpr)
        (w : IsStatic s t k) → w.object.array ≡ None
        → out-Node Name Note e.node ≡ Node-F.Name (name.Static k) → e.note.ctype ≡ t
        → count_of_static s.text t (name.Static k) ≡ Some n
        → AreCounted (memory_bounds s.frame e) n }
    ensures ranges { (s : Setting) (t : CType) (k own : ℕ) (w : IsStatic s t k) →
        w.object.array ≡ None → range_of_static s.frame k (slice_get s.frame.statics k) t own
        ≡ range_counted own (count_of_static s.text t (name.Static k)) }
{}

/// A function of a text that keeps the limits of a text has fewer than 1,024 variables. An
/// expression has at most as many values as nodes, of which such a function has at most 1,000; so
/// has each expression in it.
pub fn functions_are_small()
    ensures locals { (p : Typed) (s : Setting) (f : Function) (j : IsJudged p) → Small j.named.tree
        → IsFunction p s f → length s.variables < 1024 }
    ensures values { (frame : Frame) (e : NotedExpr) →
        (view frame e).values ≤ how_many is_node (marks_of_expr e) }
    ensures each { (frame : Frame) (e : NotedExpr) →
        how_many is_node (marks_of_expr e) + 1 < 2 ^ 32 → HaveFewValues frame e }
{}

/// An `_Nt_array_ptr` in the type of an object points to an integer, however deep it is in the
/// type. So it is in the types of typed expressions, if names, members and results have such
/// types.
pub fn pointees_are_integers()
    ensures objects { (t : CType) → is_object_type t ≡ true → IsFine t }
    ensures typed { (globals : Globals) (s : Setting) (e : NotedExpr) → AreFine globals s.variables
        → IsTyped globals s e → IsFine e.note.ctype }
    ensures integers { (t : CType) → IsFine t → kind_of t ≡ Some kind.Nt
        → is_integer (element_of t) ≡ true }
{}

/// The bodies of a judged text that keeps the limits of a text have no more nodes than a function
/// may have.
pub fn texts_have_few()
    ensures { (p : Typed) (j : IsJudged p) → Small j.named.tree → AreFew p }
{}

/// In a text that keeps the limits of a text there is room for the values and the fresh variables of
/// the expressions of each step and of each condition, also of the two sides of an assignment, one
/// after the other, and of those of a bundle.
pub fn steps_have_room()
    ensures step { (p : Typed) (s : Setting) (f : Function) (j : IsJudged p) → Small j.named.tree
        → IsFunction p s f → (here there : Here) (step : Code → Code)
        (st : IsStep s here step there)
        → HavePlaces s.frame here.at here.next (exprs_in st.before) }
    ensures sides { (p : Typed) (s : Setting) (f : Function) (j : IsJudged p) → Small j.named.tree
        → IsFunction p s f → (here there : Here) (step : Code → Code)
        (st : IsStep s here step there) (ss : List NotedStmt)
        → (ss ≡ st.before ∷ []) ⊎ (out-Act Name Note st.before.body ≡ Act-F.Bundle ss)
        → HaveSides s.frame here.at here.next (stores_of ss) }
    ensures condition { (p : Typed) (s : Setting) (f : Function) (j : IsJudged p) →
        Small j.named.tree → IsFunction p s f → (mode : Mode) (here yes no : Here) (e : Expr)
        (c : IsCondition s mode here e yes no)
        → IfSome c.before (HasPlaces s.frame here.at here.next) }
{}
