//! What follows from the definitions alone, each the contract of a function that does nothing.

ghost use Rattle.std.specs.List.{Contains};
ghost use Rattle.std.specs.Prelude.{◌≡◌, ℕ, ◌+◌, ◌<◌, ◌^◌, true, pos, List, ◌++◌, length, Ok};
ghost use Rattle.ckc_base.specs.declared.arithmetic.Mode.{Mode};
ghost use Rattle.ckc_blame_sound.specs.ckc_bounds_points.specs.declared.frame.Bounds.{Bounds};
ghost use Rattle.ckc_blame_sound.specs.ckc_bounds_points.specs.Flow.{State};
ghost use Rattle.ckc_syntax.specs.declared.tree.Name.{Name};
ghost use Rattle.ckc_syntax.specs.declared.tree.Node.{out-Node};
ghost use Rattle.ckc_typed.specs.declared.environment.Globals.{Globals};
ghost use Rattle.ckc_typed.specs.declared.typed.Note.{Note};
ghost use Rattle.ckc_typed.specs.Statics.{strings_of_expr};
ghost use Rattle.ckc_typed.specs.Trees.{NotedExpr, NotedStmt};
ghost use Rattle.ckc_typed.specs.Types.{is_scalar};
ghost use Rattle.ckc_blame_sound.specs.ckc_bounds_ranges.specs.Bundles.{is_bundle};
ghost use Rattle.ckc_blame_sound.specs.ckc_bounds_views.specs.Views.{view};
ghost use Rattle.ckc_blame_sound.specs.ckc_bounds_statements.specs.Paths.{Here};
ghost use Rattle.ckc_blame_sound.specs.ckc_bounds_stores.specs.Stores as stores;
ghost use Rattle.ckc_blame_sound.specs.ckc_bounds_stores.specs.Stores.{Placed, numbered, stores_of, stored_placed};
ghost use Rattle.ckc_source.specs.declared.outcome.Place.{Place};
ghost use Rattle.ckc_source.specs.Blocks.{Block};
ghost use Rattle.ckc_source.specs.Eval.{Store};
ghost use Rattle.ckc_source.specs.States as states;
ghost use Rattle.ckc_source.specs.Steps.{Write, aimed, all_written};
ghost use Rattle.ckc_build_elaborate.specs.Steps.{target_of};
ghost use Rattle.ckc_blame_sound.specs.Bodies.{AreFresh};
ghost use Rattle.ckc_blame_sound.specs.Points.{HoldsAt};
ghost use Rattle.ckc_blame_sound.specs.Settings.{Setting, AreStrings};
ghost use Rattle.ckc_blame_sound.specs.Slots.{AreFilled};
ghost use Rattle.ckc_blame_sound.specs.Cells.{AreSound, HaveOwnNames};
ghost use Rattle.ckc_blame_sound.specs.Limited.{AreSlotParts, store_with};
ghost use Rattle.ckc_blame_sound.specs.Writes.{AreCellWrites};
ghost use Rattle.ckc_blame_sound.specs.Elements.{NameIntegerMembers};
ghost use Rattle.ckc_blame_sound.specs.Valuations.{Valuation, AreFacts};
ghost use Rattle.ckc_blame_sound.specs.Typed.{IsTyped, Agrees};
ghost use Rattle.ckc_blame_pointers.specs.Covered.{DeclareLocals, IsSoundStore};
ghost use Rattle.ckc_blame_given.specs.Planned.{ArePlanned};
ghost use Rattle.ckc_blame_given.specs.Targets.{KeepRunsFree, IsCoveredTarget, GoesThere, IsAimed};
ghost use Rattle.ckc_blame_given.specs.Together.{HaveSmallNames, AreTogether, AreIn};

/// The evaluation of the target of a judged assignment comes to a place, or stops at a named check. In checked
/// code it is not stuck. What may be written to that place goes to the local, the element or the member that the
/// target is judged to be, also when blocks have been made since.
pub fn targets_aim()
    ensures aims { (m : Mode) (globals : Globals) (s : Setting) (entry : List ℕ) (here : Here)
        (before : NotedExpr) (p : Placed) (fresh literals next : ℕ) (store : Store) →
        Agrees globals s → DeclareLocals s → KeepRunsFree s.text → IsSoundStore s store next
        → fresh + length ((view s.frame before).fresh here.at) < 2 ^ 32 → AreFresh s.frame fresh
        → IsTyped globals s before
        → (view s.frame before).judged fresh here.at ≡ Ok p.target
        → is_scalar p.target.note.ctype ≡ true
        → IsCoveredTarget m s store here.seen p.target (out-Node Name Note p.target.node)
        → AreStrings s literals (strings_of_expr p.target) → HoldsAt s store entry here
        → IsAimed m s store p (aimed store (target_of s.text s.variables literals p.target)) }
    ensures stays { (s : Setting) (store after : Store) (more : List Block) (p : Placed) (n : ℕ)
        (w : Place) → after.blocks ≡ store.blocks ++ more → after.locals ≡ store.locals
        → GoesThere s store p n w → GoesThere s after p n w }
{}

/// After the writes that assignments plan, which are judged as one, the blocks lie as they did, and each checked
/// pointer in memory may be read within its bounds. The assignments are one alone, or several to locals, or to
/// members of one structure.
pub fn memory_stays_filled()
    ensures { (s : Setting) (next : ℕ) (before after : Store) (more : List Block)
        (state done : states.State) (v : Valuation) (at there : State) (ps : List Placed)
        (ws : List Write) (result : Bounds) (seen old locals : List ℕ) →
        s.frame.structs ≡ s.text.layout → HaveOwnNames s.text.layout
        → NameIntegerMembers s.text.layout → HaveSmallNames s.text.layout → AreSlotParts s.text
        → AreSound s.text state.blocks next → state.blocks ≡ after.blocks
        → after.blocks ≡ before.blocks ++ more → v.number 0 ≡ pos 0 → AreFacts v at.facts
        → stored_placed s.frame result seen ps at ≡ Ok there
        → ArePlanned s before after v at ps ws → AreTogether s before.locals ps
        → AreIn s before.locals ps ws → all_written ws state ≡ Ok done
        → AreFilled s.text (store_with after.shapes state.blocks old)
        → AreCellWrites s.text.layout state.blocks ws × AreSound s.text done.blocks next
        × AreFilled s.text (store_with after.shapes done.blocks locals) }
{}

/// The assignments of a bundle go together: their targets are locals, or members of one structure, no two of them
/// one.
pub fn bundles_go_together()
    ensures { (globals : Globals) (s : Setting) (locals : List ℕ) (ss : List NotedStmt)
        (at : State) (value fresh : ℕ) → is_bundle ss ≡ true
        → ((q : stores.Store) → Contains (stores_of ss) q → IsTyped globals s q.target)
        → AreTogether s locals (numbered s.frame at value fresh (stores_of ss)) }
{}
