//! What follows from the definitions alone, each the contract of a function that does nothing.

ghost use Rattle.std.specs.Prelude.{◌≡◌, ℕ, ◌≤◌, true, false, List, length};
ghost use Rattle.std.specs.List.{Contains};
ghost use Rattle.ckc_syntax.specs.declared.tree.Name.TheVariants as name;
ghost use Rattle.ckc_base.specs.Phases.{◌>=>◌};
ghost use Rattle.ckc_syntax.specs.Spelled.{Tokens};
ghost use Rattle.ckc_syntax.specs.declared.tree.NamedText.{NamedText};
ghost use Rattle.ckc_lexer.specs.Phase.{lexing};
ghost use Rattle.ckc_parser.specs.Phase.{parsing};
ghost use Rattle.ckc_syntax.specs.Trees.{Tree};
ghost use Rattle.ckc_plain.specs.Phase.{resolving};
ghost use Rattle.ckc_scopes.specs.Phase.{scoping};
ghost use Rattle.ckc_blame_sound.specs.ckc_bounds.specs.Phase.{bounding};
ghost use Rattle.ckc_typed_welltyped.specs.Productions.{given_tree};
ghost use Rattle.ckc_typed_welltyped.specs.Texts.{TypedAs};
ghost use Rattle.ckc_source.specs.LaidOut.{IsLaidOut};
ghost use Rattle.ckc_build_elaborate.specs.Elaborated.{elaborated};
ghost use Rattle.ckc_typed.specs.Trees.{NotedDecl};
ghost use Rattle.ckc_blame_sound.specs.ckc_bounds_points.specs.Flow.{in_bounds};
ghost use Rattle.ckc_blame_sound.specs.ckc_bounds_statements.specs.Paths.{path};
ghost use Rattle.ckc_typed.specs.declared.typed.Typed.{Typed};
ghost use Rattle.ckc_blame_sound.specs.JudgedTexts.{IsJudged, globals_in};
ghost use Rattle.ckc_blame_sound.specs.Given.{AreGiven};
ghost use Rattle.ckc_blame_sound.specs.Settings.{Setting, IsFunction};
ghost use Rattle.ckc_source.specs.Code.{Function};
ghost use Rattle.ckc_blame_steps.specs.Pointees.{AreFine};
ghost use Rattle.ckc_blame_given.specs.Targets.{KeepRunsFree};
ghost use Rattle.ckc_blame_given.specs.Together.{HaveSmallNames};
ghost use Rattle.ckc_syntax_limits.specs.Small.{Small};

/// Pointers with known limits point into no static object of a judged text that is declared with
/// bounds.
pub fn runs_are_free()
    ensures { (p : Typed) → IsJudged p → KeepRunsFree p }
{}

/// The names of members are small numbers, since they are numbered in the order of the text.
pub fn names_of_members_are_small()
    ensures { (p : Typed) (j : IsJudged p) → Small j.named.tree → HaveSmallNames p.layout }
{}

/// In each type that a judged text declares, however deep, an `_Nt_array_ptr` points to an
/// integer.
pub fn declared_types_are_fine()
    ensures { (p : Typed) (s : Setting) (f : Function) → IsJudged p → IsFunction p s f
        → AreFine (globals_in p) s.variables }
{}

/// The bounds of the result of a function name parameters alone, so no local that a statement of it
/// declares.
pub fn locals_are_spared()
    ensures past { (p : Typed) (s : Setting) (f : Function) (k : ℕ) → IsJudged p
        → IsFunction p s f → length s.head.params ≤ k → in_bounds k s.head.bounds ≡ false }
    ensures declared { (p : Typed) (s : Setting) (f : Function) (d : NotedDecl) (k : ℕ)
        → IsJudged p → (is : IsFunction p s f) → Contains (path is.body).declared d
        → d.name ≡ name.Local k → in_bounds k s.head.bounds ≡ false }
{}

/// The grammar gives the bodies of a judged text, as they were before they were judged, if it gives
/// the tree of its names.
pub fn bodies_are_given()
    ensures { (p : Typed) (j : IsJudged p) → given_tree j.named.tree ≡ true → AreGiven p }
{}

/// Each string literal of a text that the phases accept is made of bytes, so the objects of its
/// program begin as bytes, and lie as those of a program must.
pub fn objects_begin_as_bytes()
    ensures { (text : List ℕ) (tokens : Tokens) (whole : Tree) (named : NamedText)
        (typed p : Typed) → lexing.Makes text tokens → parsing.Makes tokens whole
        → resolving.Makes whole named → TypedAs named typed → (scoping >=> bounding).Makes typed p
        → IsLaidOut (elaborated p) }
{}
