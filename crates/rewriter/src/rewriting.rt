//! Rewritten programs.

ghost use Rattle.std.specs.Prelude.{◌≡◌, ◌≤◌, ℕ, Bool, false, length, IfOk, IsErrOf};
ghost use Rattle.exec_map.specs.Contents.{program_of};
ghost use Rattle.jump_map.specs.Image.{Expands, HasRunsOf, IsRewriting, IsTooLong, most_words};
ghost use Rattle.jump_map.specs.declared.image.ImageRefused.TheVariants as refused;
ghost use Rattle.rv32_program.specs.Program.{Program as Original};
ghost use Rattle.templates.specs.Code.{code_of};
ghost use Rattle.templates.specs.Plans.{AscendsFrom};
ghost use Rattle.templates.specs.WholePlan.{IsPlanOf};
ghost use Rattle.rewriter.specs.Parts.{Parts, IsRewritten};
ghost use Rattle.rewriter.specs.TooLarge.{IsTooLarge};

use batch_plan::check_plan::{plan_checks, plan_law};
use batch_plan::liveness::Live;
use batch_plan::plan_batches;
use exec_map::Program;
use jump_map::{Image, ImageRefused, image_law};
use poll_plan::flow_graph::Graph;
use poll_plan::plan_polls;
use std::alloc::{AllocError, Global};
use std::marker::Model;
use templates::{Code, Plan};

/// How a program is rewritten.
#[derive(Clone, Copy, PartialEq, Eq)]
pub struct Options {
    /// Whether the accesses of a run are checked once.
    pub batch: bool,
}

/// A rewritten program: its plan, and the image of that plan.
#[derive(Drop)]
pub struct Rewritten {
    image: Image,
    plan: Plan,
}

impl Model for Rewritten {
    ghost use Rattle.std.specs.Prelude.{◌≤◌, length};
    ghost use Rattle.jump_map.specs.Image.{most_words};
    ghost use Rattle.rewriter.specs.Parts.{Parts};

    ghost Value = { Parts };

    ghost view = { λ r. record { image = r.image; plan = r.plan } };

    ghost invariant = { λ r. (length r.image ≤ most_words) × (length r.plan ≤ most_words) };
}

impl Rewritten {
    /// The rewriting of a program with this code by a plan of its places.
    ///
    /// Fails with the number of words where the plan has more than an image may have.
    pub fn by_plan(alloc: Global, code: &Code, plan: Plan) -> Result<Rewritten, ImageRefused>
        requires ascends { AscendsFrom 0 plan }
        requires runs { HasRunsOf code.now plan }
        ensures plan { IfOk result (λ r. r.plan ≡ plan) }
        ensures image { IfOk result (λ r. Expands code.now plan r.image) }
        ensures too_large { (w : ℕ) → IsErrOf result (refused.CodeTooLarge w)
            → IsTooLong code.now plan w }
    {
        match Image::of(alloc, code, &plan) {
            Ok(image) => Ok(Rewritten { image, plan }),
            Err(refused) => Err(refused),
        }
    }

    /// The words of the plan.
    pub fn image(&self) -> &Image
        ensures value { result.now ≡ self.now.image }
        ensures few { length self.now.image ≤ most_words }
    {
        &self.image
    }

    /// The plan.
    pub fn plan(&self) -> &Plan
        ensures value { result.now ≡ self.now.plan }
        ensures few { length self.now.plan ≤ most_words }
    {
        &self.plan
    }
}

/// Rewrites a program by its plan.
///
/// Fails with the number of words where the plan has more than an image may have.
pub fn rewrite(
    alloc: Global,
    program: &Program<'_>,
    options: Options,
) -> Result<Rewritten, ImageRefused>
    ensures plan { IfOk result (λ r. IsPlanOf options.batch (program_of program.now).code r.plan) }
    ensures rewriting { IfOk result (λ r. IsRewriting (program_of program.now) r.plan r.image) }
    ensures too_large { (w : ℕ) → IsErrOf result (refused.CodeTooLarge w)
        → IsTooLarge options.batch (program_of program.now) w }
{
    plan_law();
    let graph = Graph::of(alloc, program)?;
    let plan = plan_of(alloc, &graph, options)?;
    Rewritten::by_plan(alloc, graph.code(), plan)
}

/// A program has at most one rewriting with batches, and at most one without: one plan, and one
/// image.
pub fn rewrite_law()
    ensures one { (batches : Bool) (program : Original) (one other : Parts) →
        IsRewritten batches program one → IsRewritten batches program other → one ≡ other }
{
    plan_law();
    image_law();
}

/// The plan of the code of a graph.
fn plan_of(alloc: Global, graph: &Graph, options: Options) -> Result<Plan, AllocError>
    ensures value { IfOk result (λ plan. IsPlanOf options.batch (code_of graph.now) plan) }
{
    let live = Live::of(alloc, graph)?;
    let mut plan = plan_checks(alloc, &live)?;
    plan_polls(graph, &mut plan);
    add_batches(&live, options, &mut plan);
    Ok(plan)
}

/// Sets the runs of a plan, where batches are wanted.
fn add_batches(live: &Live<'_>, options: Options, plan: &mut Plan)
    ensures plan { IsPlanOf false (code_of live.now) plan.old
        → IsPlanOf options.batch (code_of live.now) plan.new }
{
    if options.batch {
        plan_batches(live, plan);
    }
}
