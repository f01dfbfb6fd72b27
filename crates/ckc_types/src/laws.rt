//! Laws of the definitions, each the contract of a function that does nothing.
ghost use Rattle.std.specs.Prelude.{◌≡◌, ℕ, ◌+◌, ◌<◌, ◌≤◌, List, [], ◌∷◌, ◌++◌};
ghost use Rattle.std.specs.Int.{next_multiple_of};
ghost use Rattle.ckc_types.specs.declared.types.CType.{CType};
ghost use Rattle.ckc_types.specs.declared.types.Kind.{Kind};
ghost use Rattle.ckc_types.specs.declared.types.CType.TheVariants as ctype;
ghost use Rattle.ckc_types.specs.declared.types.MemberShape.{MemberShape};
ghost use Rattle.ckc_types.specs.declared.types.Structs.{Structs};
ghost use Rattle.ckc_types.specs.Scalars.{scalar_size, scalar_align};
ghost use Rattle.ckc_types.specs.Layout.{size, align, offset, end_of, members_of};
ghost use Rattle.ckc_types.specs.Multiples.{IsLeastMultiple};
ghost use Rattle.ckc_types.specs.Places.{Stands};

/// `int`, `unsigned` and pointers have four bytes and lie at multiples of four, `char` has one.
pub fn scalars_by_form()
    ensures int { (structs : Structs) → (size structs ctype.Int ≡ 4)
        × (align structs ctype.Int ≡ 4) }
    ensures unsigned { (structs : Structs) → (size structs ctype.Unsigned ≡ 4)
        × (align structs ctype.Unsigned ≡ 4) }
    ensures char { (structs : Structs) → (size structs ctype.Char ≡ 1)
        × (align structs ctype.Char ≡ 1) }
    ensures pointer { (structs : Structs) (kind : Kind) (to : CType) →
        (size structs (ctype.Pointer kind to) ≡ 4) × (align structs (ctype.Pointer kind to) ≡ 4) }
{}

/// The next multiple is the least one.
pub fn next_multiple_is_least()
    ensures { (x y : ℕ) → 0 < y → IsLeastMultiple x y (next_multiple_of x y) }
{}

/// The offset of a member is the least multiple of its alignment that is at least the end of the member before it, and
/// it ends its size later.
pub fn offset_is_least()
    ensures begins { (structs : Structs) (tag : ℕ) (front : List MemberShape) (m : MemberShape)
        → Stands structs tag front m →
        IsLeastMultiple (end_of 0 front) (scalar_align m.ctype) (offset structs tag m.name) }
    ensures ends { (structs : Structs) (tag : ℕ) (front : List MemberShape) (m : MemberShape)
        → Stands structs tag front m →
        end_of 0 (front ++ m ∷ []) ≡ offset structs tag m.name + scalar_size m.ctype }
{}

/// The size of a structure is the least multiple of its alignment that is at least the end of its last member.
pub fn size_is_least()
    ensures { (structs : Structs) (tag : ℕ) →
        IsLeastMultiple (end_of 0 (members_of structs tag))
        (align structs (ctype.Struct tag)) (size structs (ctype.Struct tag)) }
{}

/// Members do not overlap, and each lies within its structure.
pub fn members_lie_apart()
    ensures apart { (structs : Structs) (tag : ℕ) (front between : List MemberShape)
        (m n : MemberShape) →
        Stands structs tag front m → Stands structs tag (front ++ m ∷ between) n →
        offset structs tag m.name + scalar_size m.ctype ≤ offset structs tag n.name }
    ensures within { (structs : Structs) (tag : ℕ) (front : List MemberShape) (m : MemberShape)
        → Stands structs tag front m →
        offset structs tag m.name + scalar_size m.ctype ≤ size structs (ctype.Struct tag) }
{}
