//! What follows from the definitions alone, each the contract of a function that does nothing.

ghost use Rattle.std.specs.Prelude.{◌≡◌, ℕ, Bool, ◌<◌, ◌^◌, true, map, Option, Some, IfSome, Ok, length};
ghost use Rattle.std.specs.List.{Contains, flat_map};
ghost use Rattle.ckc_base.specs.declared.arithmetic.Mode.{Mode};
ghost use Rattle.ckc_base.specs.declared.arithmetic.Width.TheVariants.{Word};
ghost use Rattle.ckc_types.specs.declared.types.CType.{CType};
ghost use Rattle.ckc_types.specs.declared.types.CType.TheVariants as ctype;
ghost use Rattle.ckc_types.specs.declared.types.Structs.{Structs};
ghost use Rattle.ckc_base.specs.Phases.{◌>=>◌};
ghost use Rattle.ckc_syntax.specs.declared.tree.Name.{Name};
ghost use Rattle.ckc_syntax.specs.declared.tree.Name.TheVariants as name;
ghost use Rattle.ckc_syntax.specs.declared.tree.Act.{out-Act};
ghost use Rattle.ckc_syntax.specs.declared.tree.NamedText.{NamedText};
ghost use Rattle.ckc_syntax.specs.declared.tree.Item.TheVariants as item;
ghost use Rattle.ckc_typed.specs.declared.environment.Globals.{Globals};
ghost use Rattle.ckc_typed.specs.declared.typed.Note.{Note};
ghost use Rattle.ckc_typed.specs.declared.typed.Typed.{Typed};
ghost use Rattle.ckc_typed.specs.Trees.{NotedDecl, NotedExpr, NotedHead, NotedStmt};
ghost use Rattle.ckc_typed.specs.Constants.{size_of};
ghost use Rattle.ckc_typed.specs.Statics.{strings_of_item};
ghost use Rattle.ckc_typed.specs.Types.{is_scalar};
ghost use Rattle.ckc_typed.specs.Environment.{member_type, variable_declared, variables_of};
ghost use Rattle.ckc_resolve.specs.Trees.{Tree};
ghost use Rattle.ckc_plain.specs.Phase.{resolving};
ghost use Rattle.ckc_typed_welltyped.specs.Productions.{spoken_tree};
ghost use Rattle.ckc_scopes.specs.Phase.{scoping};
ghost use Rattle.ckc_typed_welltyped.specs.Expressions.{WellTypedExpr};
ghost use Rattle.ckc_typed_welltyped.specs.Noteless.{without_notes};
ghost use Rattle.ckc_typed_welltyped.specs.Parts.{StmtByParts};
ghost use Rattle.ckc_typed_welltyped.specs.Texts.{TypedAs, WellTyped};
ghost use Rattle.ckc_bounds.specs.ckc_bounds_points.specs.declared.frame.Frame.{Frame};
ghost use Rattle.ckc_bounds.specs.ckc_bounds_points.specs.declared.frame.Local.{Local};
ghost use Rattle.ckc_bounds.specs.ckc_bounds_points.specs.Frames.{local_at};
ghost use Rattle.ckc_bounds.specs.ckc_bounds_points.specs.Flow.{State};
ghost use Rattle.ckc_bounds.specs.ckc_bounds_views.specs.Views.{view};
ghost use Rattle.ckc_bounds.specs.ckc_bounds_statements.specs.Paths.{path};
ghost use Rattle.ckc_bounds.specs.Frames.{all_of};
ghost use Rattle.ckc_bounds.specs.Phase.{bounding};
ghost use Rattle.ckc_build_values.specs.Kinds.{width_of};
ghost use Rattle.ckc_build_values.specs.Members.{offset_of};
ghost use Rattle.ckc_build_elaborate.specs.Objects.{count_declared};
ghost use Rattle.ckc_source.specs.Code.{Function};
ghost use Rattle.ckc_blame_sound.specs.Settings.{Setting, AreStrings, IsFunction, setting_of};
ghost use Rattle.ckc_blame_sound.specs.Words.{HasWords, HasWordsAct};
ghost use Rattle.ckc_blame_sound.specs.Typed.{Agrees, IsTyped, IsTypedIf, IsTypedStmt};
ghost use Rattle.ckc_blame_sound.specs.Slots.{Slot, slots_of};
ghost use Rattle.ckc_blame_sound.specs.Cells.{HaveOwnNames, IsPart};
ghost use Rattle.ckc_blame_sound.specs.Limited.{IsElementAt};
ghost use Rattle.ckc_blame_sound.specs.JudgedTexts.{IsJudged, IsBodyJudged, globals_in};
ghost use Rattle.ckc_blame_sound.specs.Numbered.{AreLocals, AreAllLocals, HaveTypes, IsKnownIn};

/// No member of a structure of a judged text has the name of another one.
pub fn members_have_own_names()
    ensures { (p : Typed) → IsJudged p → HaveOwnNames p.layout }
{}

/// Whatever is said of an expression is said of what judging makes of it, in each frame: the ranges that are noted in
/// it count for nothing.
pub fn judging_keeps_views()
    ensures { (frame other : Frame) (e f : NotedExpr) (fresh : ℕ) (at : State) →
        (view frame e).judged fresh at ≡ Ok f → view other f ≡ view other e }
{}

/// The bounds phase changes notes in the tree of a text alone.
pub fn judging_keeps_trees()
    ensures { (q p : Typed) → bounding.Makes q p → without_notes p.tree ≡ without_notes q.tree }
{}

/// The parameters of a function have the numbers from 0 on, and all its locals together each their own number: the
/// numbers from 0 on, by which the frames of its judgement have them.
pub fn locals_are_numbered()
    ensures params { (p : Typed) (h : NotedHead) (body : NotedStmt) → IsJudged p
        → Contains p.tree.items (item.Function h body)
        → AreLocals 0 (map (λ (d : NotedDecl). d.name) h.params) }
    ensures all { (p : Typed) (h : NotedHead) (body : NotedStmt) → IsJudged p
        → Contains p.tree.items (item.Function h body)
        → AreAllLocals (map (λ (d : NotedDecl). d.name) (all_of h body)) }
{}

/// The frame of each function agrees with what the text and the function declare: each local has the type of its
/// name, each variable has that of its local, and no local is cut off if there are fewer than 1,024. The function
/// runs with as many locals and parameters.
pub fn frames_agree()
    ensures agree { (p : Typed) (s : Setting) (f : Function) → IsJudged p → IsFunction p s f
        → Agrees (globals_in p) s }
    ensures types { (p : Typed) (s : Setting) (f : Function) → IsJudged p → IsFunction p s f
        → HaveTypes s.frame s.variables }
    ensures there { (p : Typed) (s : Setting) (f : Function) (k : ℕ) → IsFunction p s f
        → k < length s.variables → length s.variables < 1024
        → (l : Local) × (local_at s.frame k ≡ Some l) }
    ensures counts { (p : Typed) (s : Setting) (f : Function) → IsFunction p s f
        → (f.locals ≡ length s.variables) × (f.params ≡ length s.head.params) }
{}

/// The size of a type is a word, whatever the structures are.
pub fn sizes_are_words()
    ensures { (structs : Structs) (t : CType) → size_of structs t < 2 ^ 32 }
{}

/// An expression that is well typed among the variables of a function, and has only words as literals, is typed
/// there.
pub fn expressions_are_typed()
    ensures whole { (globals : Globals) (s : Setting) (mode : Mode) (e : NotedExpr) →
        WellTypedExpr globals s.variables mode e → HasWords e → IsTyped globals s e }
    ensures maybe { (globals : Globals) (s : Setting) (mode : Mode) (e : Option NotedExpr) →
        IfSome e (WellTypedExpr globals s.variables mode) → IfSome e HasWords
        → IsTypedIf globals s e }
{}

/// A statement that is well typed among the variables of a function, has only words as literals, and declares none
/// but these variables, is typed there.
pub fn statements_are_typed()
    ensures { (globals : Globals) (s : Setting) (result : CType) (st : NotedStmt) (mode : Mode)
        (looped : Bool) → HaveTypes s.frame s.variables
        → StmtByParts globals s.variables result st mode looped
        → HasWordsAct (out-Act Name Note st.body)
        → IsKnownIn s.variables (out-Act Name Note st.body) → IsTypedStmt globals s st }
{}

/// What is read of an element is a part of it: the whole, if it is an integer or a pointer, or a member of a
/// structure by its name.
pub fn accesses_are_parts()
    ensures members { (structs : Structs) (tag k : ℕ) (t : CType) →
        member_type structs tag (name.Member k) ≡ Some t
        → IsPart structs (ctype.Struct tag) (offset_of structs tag k) (width_of t) }
    ensures scalars { (structs : Structs) (t : CType) → is_scalar t ≡ true
        → IsPart structs t 0 (width_of t) }
{}

/// What the phases make of a tree that the grammar gives is judged: its names are replaced and it is made plain, it
/// gets its types, and its scopes and its bounds are judged.
pub fn phases_judge()
    ensures { (tree : Tree) (named : NamedText) (typed p : Typed) → spoken_tree tree ≡ true
        → resolving.Makes tree named → TypedAs named typed → (scoping >=> bounding).Makes typed p → IsJudged p }
{}

/// The static objects of a judged text that come after the declared ones are those of its string literals, one after
/// another, in the setting of each function.
pub fn strings_have_objects()
    ensures { (q p : Typed) (h : NotedHead) (body : NotedStmt) → WellTyped q → bounding.Makes q p
        → AreStrings (setting_of p h body) (count_declared p.tree.items)
        (flat_map strings_of_item p.tree.items) }
{}

/// Bounds stand on pointers alone: a slot of an element is a pointer of it.
pub fn slots_are_pointers()
    ensures { (p : Typed) (number : ℕ) (t : CType) (slot : Slot) → IsJudged p
        → IsElementAt p number t → Contains (slots_of p number t) slot
        → IsPart p.layout t slot.offset Word }
{}

/// The body of each function of a judged text is what judging made of a statement that is well typed among the
/// variables of the function, and declares no others.
pub fn bodies_are_typed()
    ensures typed { (p : Typed) (j : IsJudged p) (h : NotedHead) (body : NotedStmt) →
        Contains p.tree.items (item.Function h body)
        → IsBodyJudged (globals_in p) j.typed h body }
    ensures known { (globals : Globals) (typed : Typed) (h : NotedHead) (body : NotedStmt)
        (b : IsBodyJudged globals typed h body) (d : NotedDecl) →
        Contains (path b.before).declared d → Contains (variables_of body.note.mode h body) (variable_declared d) }
{}
