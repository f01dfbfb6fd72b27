//! What follows from the definitions alone, each the contract of a function that does nothing.

ghost use Rattle.std.specs.Prelude.{◌≡◌, ℕ, true, false, List, Ok};
ghost use Rattle.std.specs.List.{Contains};
ghost use Rattle.ckc_syntax.specs.declared.tree.Item.TheVariants as item;
ghost use Rattle.ckc_typed.specs.declared.typed.Typed.{Typed};
ghost use Rattle.ckc_typed.specs.Statics.{strings_of_stmt};
ghost use Rattle.ckc_typed.specs.Trees.{NotedHead, NotedStmt};
ghost use Rattle.ckc_blame_sound.specs.ckc_bounds_points.specs.declared.frame.Frame.{Frame};
ghost use Rattle.ckc_blame_sound.specs.ckc_bounds_points.specs.Flow.{State, less};
ghost use Rattle.ckc_blame_sound.specs.ckc_bounds_statements.specs.Paths.{Here, path};
ghost use Rattle.ckc_blame_sound.specs.ckc_bounds.specs.Frames.{begin_in, first_fresh, function_frame};
ghost use Rattle.ckc_blame_sound.specs.ckc_bounds.specs.Texts.{body_judged};
ghost use Rattle.ckc_blame_sound.specs.ckc_bounds.specs.Phase.{bounding};
ghost use Rattle.ckc_source.specs.Code.{Code, Function, chained};
ghost use Rattle.ckc_build_elaborate.specs.Statements.{stmt_elaborated};
ghost use Rattle.ckc_blame_sound.specs.Settings.{Setting, AreStrings, IsFunction, frame_of_text};
ghost use Rattle.ckc_blame_sound.specs.Bodies.{IsInBody, IsNextFresh};
ghost use Rattle.ckc_blame_sound.specs.Few.{nodes_in, HasRoom};
ghost use Rattle.ckc_blame_sound.specs.Judged.{Exits, Judged};
ghost use Rattle.ckc_blame_sound.specs.JudgedTexts.{IsJudged};
ghost use Rattle.ckc_blame_walk.specs.Scopes.{IsScoped};
ghost use Rattle.ckc_blame_nested.specs.Nested.{nesting_of, AreNested};
ghost use Rattle.ckc_blame_walk.specs.Walks.{AreSmall, AreNamed, IsLeft, Stays, MayLeave, leaving};

/// A fact or a widening at the head of a loop names nothing that the loop assigns, and what names nothing that a statement
/// assigns is still known after it. A fact on the range of a type names its variable, and is true of all words.
pub fn loops_keep_their_heads()
    ensures head { (frame : Frame) (ks : List ℕ) (at : State) → at.reached ≡ true
        → IsLeft frame ks (less frame ks at) at }
    ensures statement { (s : Setting) (st after : NotedStmt) (here there : Here) →
        (nesting_of st).fine ≡ true → (path st).judged s.frame s.head here ≡ Ok (after, there)
        → Stays s.frame (path st).assigned here.at there.at }
{}

/// The code of a statement of a function that the walk has judged is judged from the point where the walk came to it, if
/// its names are visible there, there is room for its fresh variables, its string literals have static objects, the code
/// after it is judged from the point where the walk left it, and each `break` and `continue` that leaves it may leave it
/// there.
pub fn walks_are_judged()
    ensures { (s : Setting) (st after : NotedStmt) (here there : Here) (literals : ℕ)
        (exits : Exits) (rest : Code) → (nesting_of st).fine ≡ true → IsInBody s st
        → IsNextFresh s here.next → here.counting ≡ false → AreSmall here.at.facts
        → AreNamed s.frame here.at.facts → IsScoped s st here.seen
        → HasRoom s here.next (nodes_in st) → AreStrings s literals (strings_of_stmt after)
        → (path st).judged s.frame s.head here ≡ Ok (after, there)
        → MayLeave s.frame (path st).assigned (path st).breaks (path st).continues here exits
        → Judged s rest exits there
        → Judged s (chained (stmt_elaborated s.text s.variables s.result literals after) rest)
        exits here }
{}

/// The code of each function of a judged text is judged from its first point, where the ranges of types are all that is
/// known.
pub fn functions_are_judged()
    ensures { (p : Typed) (s : Setting) (f : Function) (j : IsJudged p)
        → AreNested j.typed.tree.items → (is : IsFunction p s f)
        → Judged s f.body leaving
        (begin_in s.frame false is.head (first_fresh is.head is.body)) }
{}

/// A judged text has the frame of the text before it was judged, and each function of it comes from one there and has the
/// frame of that one.
pub fn judging_keeps_frames()
    ensures frame { (q p : Typed) → bounding.Makes q p → frame_of_text p ≡ frame_of_text q }
    ensures function { (q p : Typed) (head : NotedHead) (body : NotedStmt) → bounding.Makes q p
        → Contains p.tree.items (item.Function head body)
        → (before : NotedStmt) × Contains q.tree.items (item.Function head before)
        × (body_judged (frame_of_text p) head before ≡ Ok body) }
    ensures locals { (frame : Frame) (head : NotedHead) (before body : NotedStmt) →
        body_judged frame head before ≡ Ok body
        → function_frame frame head body ≡ function_frame frame head before }
{}
