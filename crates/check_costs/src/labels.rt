//! The words of rewritten code, each with its function.

ghost use Rattle.std.specs.Prelude.{◌≡◌, ◌≤◌, ◌++◌, ◌∷◌, [], All, List, length, map, IfOk, OnOk};
ghost use Rattle.templates.specs.rv32_program.Program.{Program};
ghost use Rattle.templates.specs.Code.{HasCode, code_of};
ghost use Rattle.templates.specs.Plans.{AscendsFrom};
ghost use Rattle.jump_map.specs.Image.{Cell, HasRunsOf, IsRewriting};
ghost use Rattle.check_costs.specs.declared.kinds.WordKind.TheVariants as of_kind;
ghost use Rattle.check_costs.specs.Tally.{label_in, labels_of};

use crate::entries::push_kinds;
use crate::functions::Functions;
use crate::kinds::WordKind;
use elf_symbols::Symbols;
use std::alloc::{AllocError, Global};
use templates::{Code, Plan};

/// What a word of rewritten code counts as.
#[derive(Clone, Copy, PartialEq, Eq)]
pub struct Label {
    /// The number of its function in the executable's table. Of code in none it is the number
    /// after the last.
    pub function: usize,
    pub kind: WordKind,
}

/// The labels of the words of a plan's rewritten code, in their order.
pub fn labels_of(
    alloc: Global,
    symbols: &Symbols<'_>,
    code: &Code,
    plan: &Plan,
) -> Result<Vec<Label>, AllocError>
    requires ascends { AscendsFrom 0 plan.now }
    requires runs { HasRunsOf code.now plan.now }
    ensures value { IfOk result (λ labels.
        labels.items ≡ labels_of symbols.now (code_of code.now) plan.now) }
    ensures functions { IfOk result (λ labels.
        All (λ l. l.function ≤ length symbols.now) labels.items) }
    ensures each { (program : Program) (image : List Cell) → HasCode program code.now
        → IsRewriting program plan.now image
        → IfOk result (λ labels. length labels.items ≡ length image) }
{
    let mut functions = Functions::new(alloc, symbols)?;
    let mut labels = first_labels(alloc, symbols.functions().len())?;
    let mut kinds = Vec::new(alloc);
    for entry in plan.entries() {
        kinds.clear();
        push_kinds(entry, code, &mut kinds)?;
        let function = functions.at(entry.address)?;
        push_labels(function, &kinds, &mut labels)?;
    }
    Ok(labels)
}

/// The label of word 0 alone, which is in none of the functions.
fn first_labels(alloc: Global, functions: usize) -> Result<Vec<Label>, AllocError>
    ensures { IfOk result (λ labels. labels.items
        ≡ label_in functions of_kind.Jump ∷ []) }
{
    let mut labels = Vec::new(alloc);
    labels.push(Label {
        function: functions,
        kind: WordKind::Jump,
    })?;
    Ok(labels)
}

/// Appends the labels of words of a function.
fn push_labels(
    function: usize,
    kinds: &[WordKind],
    labels: &mut Vec<Label>,
) -> Result<(), AllocError>
    ensures { OnOk result (labels.new.items
        ≡ labels.old.items ++ map (label_in function) kinds.now) }
{
    for kind in kinds {
        labels.push(Label {
            function,
            kind: *kind,
        })?;
    }
    Ok(())
}
