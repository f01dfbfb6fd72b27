//! What follows from the definitions alone, each the contract of a function that does nothing.

ghost use Rattle.std.specs.Prelude.{◌≡◌, ◌≢◌, ◌⊎◌, ℕ, ◌<◌, ◌^◌, false, List, [], ◌∷◌, length, None, Some, Ok};
ghost use Rattle.std.specs.List.{All, Contains};
ghost use Rattle.ckc_syntax.specs.declared.tree.Name.{Name};
ghost use Rattle.ckc_syntax.specs.declared.tree.Name.TheVariants as name;
ghost use Rattle.ckc_syntax.specs.declared.tree.Node.{Node-F, out-Node};
ghost use Rattle.ckc_syntax.specs.declared.tree.Act.{Act-F, out-Act};
ghost use Rattle.ckc_types.specs.declared.types.CType.{CType};
ghost use Rattle.ckc_typed.specs.declared.typed.Note.{Note};
ghost use Rattle.ckc_typed.specs.Trees.{NotedDecl, NotedExpr, NotedStmt};
ghost use Rattle.ckc_typed.specs.declared.typed.Typed.{Typed};
ghost use Rattle.ckc_typed.specs.Environment.{variable_declared};
ghost use Rattle.ckc_typed.specs.Types.{is_pointer, type_written};
ghost use Rattle.ckc_blame_sound.specs.ckc_bounds_points.specs.declared.frame.Local.{Local};
ghost use Rattle.ckc_blame_sound.specs.ckc_bounds_points.specs.Frames.{local_at};
ghost use Rattle.ckc_blame_sound.specs.ckc_bounds_points.specs.Shown.{Known};
ghost use Rattle.ckc_blame_sound.specs.ckc_bounds_points.specs.Flow.{State};
ghost use Rattle.ckc_blame_sound.specs.ckc_bounds_views.specs.Parts.{capped};
ghost use Rattle.ckc_blame_sound.specs.ckc_bounds_views.specs.Views.{view};
ghost use Rattle.ckc_blame_sound.specs.ckc_bounds_stores.specs.declared.values.Numbered.{Numbered};
ghost use Rattle.ckc_blame_sound.specs.ckc_bounds_stores.specs.Targets.{local_of};
ghost use Rattle.ckc_blame_sound.specs.ckc_bounds_stores.specs.Stores.{Placed, stores_of, numbered, stored_placed};
ghost use Rattle.ckc_blame_sound.specs.ckc_bounds_statements.specs.Paths.{Here, decl_judged, path};
ghost use Rattle.ckc_source.specs.declared.outcome.Place.TheVariants as place;
ghost use Rattle.ckc_source.specs.declared.program.Shape.{Shape};
ghost use Rattle.ckc_source.specs.Blocks.{Block};
ghost use Rattle.ckc_source.specs.Eval.{Store};
ghost use Rattle.ckc_source.specs.Code.{Function, Target, Right};
ghost use Rattle.ckc_source.specs.States as states;
ghost use Rattle.ckc_source.specs.Steps.{Write, Planned, planned, store_of, writes, all_written};
ghost use Rattle.ckc_build_values.specs.Kinds.{width_of};
ghost use Rattle.ckc_blame_sound.specs.Bodies.{IsInBody};
ghost use Rattle.ckc_blame_sound.specs.Points.{HoldsAt};
ghost use Rattle.ckc_blame_sound.specs.Settings.{Setting, IsFunction};
ghost use Rattle.ckc_blame_sound.specs.Sound.{IsPlaced};
ghost use Rattle.ckc_blame_sound.specs.JudgedTexts.{IsJudged};
ghost use Rattle.ckc_blame_sound.specs.Limited.{store_with};
ghost use Rattle.ckc_blame_sound.specs.Valuations.{Valuation, AreFacts, IsValuationOf, AreNumbersOf};
ghost use Rattle.ckc_blame_sound.specs.Ends.{HaveEnds};
ghost use Rattle.ckc_blame_sound.specs.GivenValues.{StayTrue};
ghost use Rattle.ckc_blame_given.specs.Planned.{ArePlanned};
ghost use Rattle.ckc_blame_given.specs.Stored.{AreAssignsJudged, AreStored};
ghost use Rattle.ckc_blame_given.specs.Written.{AreOne, IsFitting, IsReceived, IsWritten, IsStart, IsDeclared};

/// The point after an assignment, or after those of a bundle, holds after what was planned is
/// written, if the point before held: the right sides may have made blocks, and each range that was
/// true is true.
pub fn assignments_lead_on()
    ensures { (s : Setting) (shapes : List Shape) (blocks : List Block)
        (between after : states.State) (v : Valuation) (entry : List ℕ) (here there : Here)
        (ss : List NotedStmt) (fresh : ℕ) (ps : List Placed) (ws : List Write) → HaveEnds s
        → HoldsAt s (store_with shapes blocks between.frame.locals) entry here
        → IsValuationOf s between.frame.locals v → AreFacts v here.at.facts
        → All (IsPlaced s.text) after.blocks → AreOne ss
        → ps ≡ numbered s.frame here.at 0 fresh (stores_of ss) → All (IsFitting s) ps
        → ArePlanned s (store_with shapes blocks between.frame.locals) (store_of shapes between)
        v here.at ps ws
        → stored_placed s.frame s.head.bounds here.seen ps here.at ≡ Ok there.at
        → there.seen ≡ here.seen → all_written ws between ≡ Ok after
        → StayTrue (store_with shapes blocks between.frame.locals) (store_of shapes between)
        → StayTrue (store_of shapes between) (store_of shapes after)
        → HoldsAt s (store_of shapes after) entry there }
{}

/// The point after a declaration holds after the word that the local begins with is written, if the
/// point before held: 0, or what the initialiser gives, which may have made a block.
pub fn declarations_lead_on()
    ensures { (s : Setting) (shapes : List Shape) (blocks : List Block)
        (between after : states.State) (v : Valuation) (entry : List ℕ) (here there : Here)
        (d e : NotedDecl) (k n : ℕ) (l : Local) → HaveEnds s
        → HoldsAt s (store_with shapes blocks between.frame.locals) entry here
        → IsValuationOf s between.frame.locals v → AreFacts v here.at.facts
        → All (IsPlaced s.text) between.blocks → here.counting ≡ false
        → decl_judged s.frame d here ≡ Ok (e, there) → IsDeclared s here d k l
        → IsStart s (store_of shapes between) v here.at l.ctype e.init here.next n
        → StayTrue (store_with shapes blocks between.frame.locals) (store_of shapes between)
        → writes (place.Local k (width_of l.ctype)) n between ≡ Ok after
        → HoldsAt s (store_of shapes after) entry there }
{}

/// The point after a word that comes from outside is written holds, if the point before held: that
/// of `getchar` and of `putchar`, and the result of a call. Of a word in memory nothing is asked but
/// that each range that was true is true. If nothing is written, the point is as it was.
pub fn results_lead_on()
    ensures assigned { (s : Setting) (shapes : List Shape) (before after : states.State)
        (v : Valuation) (entry : List ℕ) (here there : Here) (p : Placed) (w : Write) →
        HaveEnds s → HoldsAt s (store_of shapes before) entry here
        → IsValuationOf s before.frame.locals v → AreFacts v here.at.facts
        → All (IsPlaced s.text) after.blocks
        → IsWritten s (store_of shapes before) v here.at p (local_of p.target) w
        → stored_placed s.frame s.head.bounds here.seen (p ∷ []) here.at ≡ Ok there.at
        → there.seen ≡ here.seen → writes w.0 w.1 before ≡ Ok after
        → StayTrue (store_of shapes before) (store_of shapes after)
        → HoldsAt s (store_of shapes after) entry there }
    ensures nothing { (s : Setting) (store : Store) (entry : List ℕ) (here there : Here) →
        HoldsAt s store entry here → there.at ≡ here.at → there.seen ≡ here.seen
        → HoldsAt s store entry there }
{}

/// A call has no form. What a call gives that gives no pointer, as `getchar` and `putchar`, is a
/// word of which nothing more is known.
pub fn calls_give_words()
    ensures formless { (s : Setting) (e : NotedExpr) (n : Name) (es : List NotedExpr)
        (facts : Known) → out-Node Name Note e.node ≡ Node-F.Call n es
        → (view s.frame e).form facts ≡ None }
    ensures word { (s : Setting) (store : Store) (v : Valuation) (at : State) (t : CType)
        (e : NotedExpr) (from : Numbered) (w : ℕ) (n : Name) (es : List NotedExpr) →
        out-Node Name Note e.node ≡ Node-F.Call n es → w < 2 ^ 32
        → is_pointer e.note.ctype ≡ false
        → (w ≢ 0 → AreNumbersOf v (capped from.fresh 1) ((view s.frame e).fresh at))
        → IsReceived s store v at t e from w }
{}

/// An assignment, and a bundle, whose step is judged at a point becomes assignments with both sides
/// judged, one after another, which are judged as one and lead to the next point.
pub fn steps_are_stored()
    ensures assignment { (s : Setting) (here there : Here) (before after : NotedStmt)
        (e f : NotedExpr) → here.counting ≡ false
        → out-Act Name Note before.body ≡ Act-F.Assign e f
        → (path before).judged s.frame s.head here ≡ Ok (after, there)
        → AreAssignsJudged s here.at here.next (before ∷ []) (after ∷ [])
        × AreStored s here (after ∷ []) there }
    ensures bundle { (s : Setting) (here there : Here) (before after : NotedStmt)
        (ss : List NotedStmt) → here.counting ≡ false
        → out-Act Name Note before.body ≡ Act-F.Bundle ss
        → (path before).judged s.frame s.head here ≡ Ok (after, there)
        → (ts : List NotedStmt) × (out-Act Name Note after.body ≡ Act-F.Bundle ts)
        × AreAssignsJudged s here.at here.next ss ts × AreStored s here ts there }
{}

/// The assignments that a statement of the body of a function of a judged text becomes are typed, and
/// so is a local that a statement there declares.
pub fn statements_fit()
    ensures assignments { (p : Typed) (s : Setting) (f : Function) (before : NotedStmt)
        (befores afters : List NotedStmt) (at point : State) (fresh value first : ℕ) →
        IsJudged p → IsFunction p s f → IsInBody s before
        → (befores ≡ before ∷ []) ⊎ (out-Act Name Note before.body ≡ Act-F.Bundle befores)
        → AreAssignsJudged s at fresh befores afters
        → All (IsFitting s) (numbered s.frame point value first (stores_of afters)) }
    ensures declaration { (p : Typed) (s : Setting) (f : Function) (d : NotedDecl) (k : ℕ) →
        IsJudged p → IsFunction p s f → Contains s.variables (variable_declared d)
        → d.name ≡ name.Local k → (k < length s.variables)
        × ((l : Local) → local_at s.frame k ≡ Some l → l.ctype ≡ type_written d.ctype) }
{}

/// What assignments are going to write is planned in a state that stays as it is but for blocks that
/// it makes, so that each range that was true is true.
pub fn plans_make_blocks()
    ensures { (shapes : List Shape) (assigns : List (Target × Right)) (before : states.State)
        (p : Planned) → planned shapes before assigns ≡ Ok p
        → (p.state ≡ record before { blocks = p.state.blocks; next = p.state.next })
        × StayTrue (store_of shapes before) (store_of shapes p.state) }
{}
