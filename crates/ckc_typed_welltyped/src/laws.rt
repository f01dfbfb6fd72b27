//! What follows from the definitions alone, each the contract of a function that does nothing.

ghost use Rattle.std.specs.Prelude.{◌≡◌, ◌↔◌, Bool, List, map, Ok};
ghost use Rattle.ckc_base.specs.declared.arithmetic.Mode.{Mode};
ghost use Rattle.ckc_types.specs.declared.types.CType.{CType};
ghost use Rattle.ckc_syntax.specs.declared.tree.Limits.{out-Limits};
ghost use Rattle.ckc_syntax.specs.declared.tree.Name.{Name};
ghost use Rattle.ckc_syntax.specs.declared.tree.NamedText.{NamedText};
ghost use Rattle.ckc_syntax_limits.specs.Depth.{depth_of_item};
ghost use Rattle.ckc_syntax_limits.specs.Marks.{marks_of_item};
ghost use Rattle.ckc_syntax_limits.specs.Small.{Small};
ghost use Rattle.ckc_typed.specs.declared.environment.Globals.{Globals};
ghost use Rattle.ckc_typed.specs.declared.environment.Variable.{Variable};
ghost use Rattle.ckc_typed.specs.declared.typed.Note.{Note};
ghost use Rattle.ckc_typed.specs.declared.typed.Typed.{Typed};
ghost use Rattle.ckc_typed.specs.Trees.{NotedExpr, NotedLimits, NotedStmt};
ghost use Rattle.ckc_typed.specs.Expressions.{expr_typed, limits_typed};
ghost use Rattle.ckc_typed.specs.Declarations.{bare_typed, local_typed, static_typed};
ghost use Rattle.ckc_typed.specs.Statements.{stmt_typed};
ghost use Rattle.ckc_typed.specs.Texts.{item_typed, named_typed};
ghost use Rattle.ckc_typed_welltyped.specs.Noteless.{bare_decl, bare_expr, bare_item, bare_limits, bare_stmt, without_notes};
ghost use Rattle.ckc_typed_welltyped.specs.Expressions.{WellTypedExpr, WellTypedLimits};
ghost use Rattle.ckc_typed_welltyped.specs.Parts.{LimitsParts, ExprByParts, StmtByParts};
ghost use Rattle.ckc_typed_welltyped.specs.Declarations.{WellTypedBare, WellTypedLocal, WellTypedStatic};
ghost use Rattle.ckc_typed_welltyped.specs.Statements.{WellTypedStmt};
ghost use Rattle.ckc_typed_welltyped.specs.Given.{GivesExactly};
ghost use Rattle.ckc_typed_welltyped.specs.Productions.{given_tree};
ghost use Rattle.ckc_typed_welltyped.specs.Texts.{TypedAs, WellTypedItem};

/// A text becomes a typed text exactly when this is well typed, and is the text without its notes.
pub fn texts_exactly()
    ensures exact { (t : NamedText) (p : Typed) → (named_typed t ≡ Ok p) ↔ TypedAs t p }
{}

/// A text has at most one typed text.
pub fn one_typed_text()
    ensures one { (t : NamedText) (p q : Typed) → TypedAs t p → TypedAs t q → p ≡ q }
{}

/// The tree of a typed text without its notes is the tree of the text, and the number of `main` is that of the text.
pub fn same_tree()
    ensures tree { (t : NamedText) (p : Typed) → named_typed t ≡ Ok p → without_notes p.tree
        ≡ t.tree }
    ensures main { (t : NamedText) (p : Typed) → named_typed t ≡ Ok p → p.main ≡ t.main }
{}

/// An expression becomes one with notes exactly when this is well typed, and is it without its notes; so do bounds.
pub fn expressions_exactly()
    ensures expressions { (g : Globals) (v : List Variable) (m : Mode) →
        GivesExactly (expr_typed g v m) bare_expr (WellTypedExpr g v m) }
    ensures bounds { (g : Globals) (v : List Variable) (m : Mode) →
        GivesExactly (limits_typed g v m) bare_limits (WellTypedLimits g v m) }
{}

/// So do declarations: parameters and members, locals, and objects of file scope.
pub fn declarations_exactly()
    ensures bares { (g : Globals) (v : List Variable) (m : Mode) →
        GivesExactly (bare_typed g v m) bare_decl (WellTypedBare g v m) }
    ensures locals { (g : Globals) (v : List Variable) (m : Mode) →
        GivesExactly (local_typed g v m) bare_decl (WellTypedLocal g v m) }
    ensures statics { (g : Globals) (m : Mode) →
        GivesExactly (static_typed g m) bare_decl (WellTypedStatic g m) }
{}

/// So do the statements of a function, in a mode, and in a loop or outside.
pub fn statements_exactly()
    ensures statements { (g : Globals) (v : List Variable) (result : CType) (m : Mode)
        (looped : Bool) →
        GivesExactly (λ s. stmt_typed g v result s m looped) bare_stmt
        (λ n. WellTypedStmt g v result n m looped) }
{}

/// So do items, under a pragma.
pub fn items_exactly()
    ensures items { (g : Globals) (pragma : Mode) →
        GivesExactly (item_typed g pragma) bare_item (WellTypedItem g pragma) }
{}

/// An expression is well typed exactly when it has its row and its direct parts are well typed, and bounds when their
/// expressions are.
pub fn expressions_by_parts()
    ensures expressions { (g : Globals) (v : List Variable) (m : Mode) (e : NotedExpr) →
        WellTypedExpr g v m e ↔ ExprByParts g v m e }
    ensures bounds { (g : Globals) (v : List Variable) (m : Mode) (l : NotedLimits) →
        WellTypedLimits g v m l ↔ LimitsParts g v m (out-Limits Name Note l) }
{}

/// A statement is well typed exactly when it has its row, in which its direct parts are well typed, and its note.
pub fn statements_by_parts()
    ensures statements { (g : Globals) (v : List Variable) (result : CType) (s : NotedStmt)
        (m : Mode) (looped : Bool) →
        WellTypedStmt g v result s m looped ↔ StmtByParts g v result s m looped }
{}

/// Item by item a typed text has the nodes, locals, string literals, functions and objects of its text and its depth. So
/// it keeps the limits of a text if the text does.
pub fn counts_stay()
    ensures marks { (t : NamedText) (p : Typed) → named_typed t ≡ Ok p →
        map marks_of_item p.tree.items ≡ map marks_of_item t.tree.items }
    ensures depths { (t : NamedText) (p : Typed) → named_typed t ≡ Ok p →
        map depth_of_item p.tree.items ≡ map depth_of_item t.tree.items }
    ensures small { (t : NamedText) (p : Typed) → named_typed t ≡ Ok p → Small t.tree
        → Small p.tree }
{}

/// The grammar gives the tree of a typed text exactly when it gives the tree of the text: calls stand in the same
/// places, and so do the parts of bundles, of `for` and of structures.
pub fn form_stays()
    ensures form { (t : NamedText) (p : Typed) → named_typed t ≡ Ok p → given_tree p.tree
        ≡ given_tree t.tree }
{}
