//! What the file of a rewriting says. There is no code here.

ghost use Rattle.std.specs.Prelude.{◌≡◌, List};
ghost use Rattle.elf32_read.specs.Elf.{Elf};
ghost use Rattle.exec_map.specs.Contents.{program_of};
ghost use Rattle.templates.specs.declared.plans.PlanEntry.{PlanEntry};
ghost use Rattle.rewriter.specs.jump_map.Image.{Cell, IsRewriting};
ghost use Rattle.rewriter.specs.RewrittenFile.{rewritten_elf};
ghost use Rattle.rewrite_verify.specs.Refusals.{Fits};
ghost use Rattle.rewrite_verify.specs.declared.refused.VerifyRefused.{VerifyRefused};
ghost use Rattle.rewrite_verify.specs.declared.refused.VerifyRefused.TheVariants as refused;

use rewriter::jump_map::image_law;

/// The law of the files of rewritings, which the callers use by its clauses; the call does nothing.
pub fn verify_law()
    // A file is that of at most one rewriting of its original: it says one plan, and one image.
    ensures one { (original : Elf) (plan other : List PlanEntry) (image again : List Cell)
        → IsRewriting (program_of original) plan image
        → IsRewriting (program_of original) other again
        → rewritten_elf original image plan ≡ rewritten_elf original again other
        → (plan ≡ other) × (image ≡ again) }
    // And no reason fits to refuse it.
    ensures accepted { (original e : Elf) (plan : List PlanEntry) (image : List Cell)
        (r : VerifyRefused) → IsRewriting (program_of original) plan image
        → e ≡ rewritten_elf original image plan → Fits original e r → r ≡ refused.OutOfMemory }
{
    image_law();
}
