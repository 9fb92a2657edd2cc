//! What the marks of words say.

ghost use Rattle.std.specs.Prelude.{◌≡◌, List, ◌∷◌, [], Some, true, Contains};
ghost use Rattle.rv32_program.specs.Program.{Program};
ghost use Rattle.templates.specs.declared.places.Place.{Place};
ghost use Rattle.templates.specs.declared.plans.PlanEntry.{PlanEntry};
ghost use Rattle.templates.specs.Commits.{commit_at, is_word_of};
ghost use Rattle.templates.specs.Plans.{IsAdmissible};

/// Of a word of an entry the mark by that entry is the mark by the whole plan. The call does
/// nothing.
#[tactic(auto, using(crate::proofs::Marks::same_mark))]
pub fn mark_law()
    ensures mark { (program : Program) (plan : List PlanEntry) (e : PlanEntry) (p : Place)
        → IsAdmissible program plan → Contains plan e → is_word_of p e ≡ true
        → commit_at program (e ∷ []) (Some p) ≡ commit_at program plan (Some p) }
{}
