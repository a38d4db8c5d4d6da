//! What holds of all plans. These functions do nothing: each stands for the laws that it ensures.

ghost use Rattle.std.specs.Prelude.{◌≡◌, ◌++◌, ℕ, List, None};
ghost use Rattle.notation.specs.declared.entry.Entry.{Entry};
ghost use Rattle.corrections.specs.Legal.{IsLegalBook};
ghost use Rattle.corrections.specs.Refusal.{first_refused_in};
ghost use Rattle.plans.specs.Plans.{IsPlan};

/// A legal book stays legal with the lines of a plan; and if the wanted corrections are against the Laws there is no plan.
pub fn no_plan_against_the_laws()
    ensures legal { (n : ℕ) → (book wanted lines : List Entry) → IsLegalBook n book → IsPlan n book wanted lines
        → IsLegalBook n (book ++ lines) }
    ensures none { (n : ℕ) → (book wanted lines : List Entry) → IsLegalBook n book → IsPlan n book wanted lines
        → first_refused_in n (book ++ wanted) ≡ None }
{}
