//! What is true of every plan of a program.

ghost use Rattle.std.specs.Prelude.{◌≡◌, ℕ, Bool, List, Option};
ghost use Rattle.rv32_decode.specs.declared.Instr.{Instr};
ghost use Rattle.rv32_program.specs.Program.{Program};
ghost use Rattle.templates.specs.declared.plans.PlanEntry.{PlanEntry};
ghost use Rattle.templates.specs.Plans.{IsAdmissible};
ghost use Rattle.templates.specs.WholePlan.{IsPlanOf};

/// Code has at most one plan with batches, and at most one without; those of a program are
/// admissible.
pub fn plan_law()
    ensures one { (batches : Bool) (code : ℕ → Option Instr) (p q : List PlanEntry) →
        IsPlanOf batches code p → IsPlanOf batches code q → p ≡ q }
    ensures admissible { (batches : Bool) (program : Program) (plan : List PlanEntry) →
        IsPlanOf batches program.code plan → IsAdmissible program plan }
{}
