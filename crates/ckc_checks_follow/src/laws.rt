//! The laws of inserted checks, each the contract of a function that does nothing.
ghost use Rattle.ckc_source.specs.Code.{Program};
ghost use Rattle.ckc_source.specs.LaidOut.{IsLaidOut};
ghost use Rattle.ckc_checks_operands.specs.Compilable.{IsCompilable};
ghost use Rattle.ckc_checks_follow.specs.code.Inserted.{inserted};
ghost use Rattle.ckc_checks_follow.specs.Followed.{IsFollowedByCore};
ghost use Rattle.ckc_checks_follow.specs.Stores.{ListsStores};

/// The core code of a program follows the program, with any input of bytes: it reads and puts the same bytes, and ends
/// with the same value or stops at the same check and place. It comes to show what the program shows after n steps within
/// 100,000 * (n + 1) steps. Nothing is said of where the program is stuck.
pub fn core_follows_source()
    ensures { (p : Program) → IsCompilable p → IsLaidOut p → IsFollowedByCore p (inserted p) }
{}

/// If a program is never stuck, its core code stores in the program's blocks, in the heap word, and where the program
/// writes: the steps of both can be listed side by side, with the same input and output and as many active calls, so that
/// each store of core code is one that the program may make at its step there.
pub fn core_stores_are_listed()
    ensures { (p : Program) → IsCompilable p → IsLaidOut p → ListsStores p (inserted p) }
{}
