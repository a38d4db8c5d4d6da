//! The laws of codewords and modules. These functions do nothing: each stands for the law that it ensures.

ghost use Rattle.std.specs.Prelude.{◌≡◌, ◌<◌, ◌≤◌, ◌++◌, ℕ, Bool, List, All, length};
ghost use Rattle.qr.specs.Check.{check_codewords};
ghost use Rattle.qr.specs.Content.{codewords};
ghost use Rattle.qr.specs.Modules.{IsPlaced};
ghost use Rattle.qr.specs.Roots.{HasRoots};

use crate::content::LONGEST;

/// Codewords followed by their error correction codewords have the roots that a reader tests for, and so have those of a text.
pub fn codewords_have_roots()
    ensures check { (data_part : List ℕ) → All (λ c. c < 256) data_part → HasRoots (data_part ++ check_codewords data_part) }
    ensures text { (text : List ℕ) → All (λ b. b < 256) text → length text ≤ LONGEST → HasRoots (codewords text) }
{}

/// The codewords determine the modules.
pub fn modules_are_determined()
    ensures { (codewords : List ℕ) (one other : List Bool) → IsPlaced codewords one → IsPlaced codewords other → one ≡ other }
{}
