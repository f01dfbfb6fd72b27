//! What `emit`, `build` and `View::read` promise of images.
ghost use Rattle.std.specs.Prelude.{◌≡◌, ◌≢◌, ◌+◌, ◌*◌, ◌≤◌, ◌<◌, ℕ, All, List, [], ◌++◌};
ghost use Rattle.ckc_base.specs.Follows.{IsOver};
ghost use Rattle.ckc_base.specs.Lists.{AreBytes};
ghost use Rattle.ckc_base.specs.Traces.{Stuck};
ghost use Rattle.ckc_cli.specs.ckc_build.specs.Built.{Built, most_for_a_step};
ghost use Rattle.ckc_emit.specs.Promise.{FollowsPlaced};
ghost use Rattle.ckc_frame.specs.declared.code.Placed.{Placed};
ghost use Rattle.ckc_frame.specs.Meaning.{placed_meaning};
ghost use Rattle.ckc_image.specs.declared.format.Format.{Format};
ghost use Rattle.ckc_image.specs.Image.{FirstBad, ImageOf};
ghost use Rattle.ckc_rv.specs.Machine.{Parts, machine};
ghost use Rattle.ckc_source.specs.Source.{source};

/// What placed code shows after n steps the machine of its lines shows within 80 * (n + 1) instructions. So lines are
/// refused that do not restore a register that a call keeps: placed code reads it after the call as before, and shows
/// what comes of it.
pub fn placed_code_is_shown()
    ensures { (p : Placed) (parts : Parts) (input : List ℕ) (n : ℕ) → All (λ b. b < 256) input
        → FollowsPlaced p parts → (placed_meaning p input n).standing ≢ Stuck
        → (k : ℕ) × (k ≤ 80 * (n + 1)) × (machine parts input k ≡ placed_meaning p input n) }
{}

/// Where the meaning of a text has ended or stopped after n steps, the machine of its image has done so after
/// 33,554,432 * (n + 1) instructions. So an image is refused that turns in an empty loop before it begins.
pub fn images_are_in_time()
    ensures { (text : List ℕ) (parts : Parts) (built : Built text parts) (input : List ℕ) (n k : ℕ)
        → AreBytes input → IsOver (source built.program input n).standing
        → most_for_a_step * (n + 1) ≤ k
        → machine parts input k ≡ source built.program input n }
{}

/// Bytes after the last part of an image make its length wrong, which is part 3. So a body of `View::read` is refused
/// that lets them pass.
pub fn trailing_bytes_are_bad()
    ensures { (format : Format) (bytes code initial more : List ℕ) (entry : ℕ)
        → ImageOf format bytes entry code initial → more ≢ [] → FirstBad (bytes ++ more) 3 }
{}
