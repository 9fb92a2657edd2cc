//! The laws of blocks.

ghost use Rattle.std.specs.Prelude.{◌≡◌, ℕ, ◌+◌, ◌-◌, ◌^◌, ◌<◌, ◌≤◌, ◌↔◌, List, [], true, Some};
ghost use Rattle.std.specs.Prelude.{IsSome};
ghost use Rattle.block_layout.specs.Layout.{Shape, IsValid, is_shared, has_line, shared_before};
ghost use Rattle.block_layout.specs.Layout as model;
ghost use Rattle.block_layout.specs.Text.{IsLayoutOf, IsFirstFault, IsFirstBroken};
ghost use Rattle.block_layout.specs.declared.layout.BlockRange.{BlockRange};
ghost use Rattle.block_layout.specs.declared.ranges.Lines.{Lines};
ghost use Rattle.block_layout.specs.declared.refused.LayoutRule.{LayoutRule};

/// What holds of the blocks of each layout. A caller uses the clauses; the call does nothing.
pub fn layout_law()
    ensures home { (s : Shape) (b : ℕ) → IsValid s → b < model.blocks s
        → model.home s b < s.nodes }
    ensures some { (s : Shape) (b : ℕ) → IsValid s → b < model.blocks s → 0 < model.lines s b }
    ensures few { (s : Shape) (b : ℕ) → IsValid s → b < model.blocks s → model.lines s b ≤ 64 }
    ensures low { (s : Shape) (b : ℕ) → IsValid s → b < model.blocks s
        → model.first_line s b + model.lines s b ≤ 2 ^ 26 }
    ensures within { (s : Shape) (b : ℕ) → IsValid s → b < model.blocks s
        → model.start s b + model.lines s b ≤ model.shared_lines s }
    ensures apart { (s : Shape) (b c : ℕ) → IsValid s → c < model.blocks s → b < c
        → model.start s b + model.lines s b ≤ model.start s c }
    ensures found { (s : Shape) (b line : ℕ) → IsValid s → model.block_of s line ≡ Some b
        → (b < model.blocks s) × (has_line s b line ≡ true) }
    ensures has { (s : Shape) (b line : ℕ) → IsValid s → b < model.blocks s
        → has_line s b line ≡ true → model.block_of s line ≡ Some b }
    ensures ends { (s : Shape) (b line : ℕ) → (has_line s b line ≡ true)
        ↔ ((model.first_line s b ≤ line) × (line < model.first_line s b + model.lines s b)) }
    ensures shared { (s : Shape) (line : ℕ) → (is_shared s line ≡ true)
        ↔ IsSome (model.block_of s line) }
    ensures place { (s : Shape) (b line : ℕ) → IsValid s → b < model.blocks s
        → has_line s b line ≡ true
        → shared_before s line ≡ model.start s b + (line - model.first_line s b) }
    ensures placed { (s : Shape) (b line : ℕ) → IsValid s → b < model.blocks s
        → has_line s b line ≡ true
        → model.place_of s line ≡ Some (model.start s b + (line - model.first_line s b)) }
    ensures count { (s : Shape) → IsValid s → model.shared_lines s ≤ 2 ^ 26 }
    ensures blocks { (s : Shape) → IsValid s → model.blocks s ≤ model.shared_lines s }
{}

/// A text has one layout or one first fault, over the same shared lines and nodes. A caller uses
/// the clauses; the call does nothing.
pub fn text_law()
    ensures one { (text : List ℕ) (shared : List Lines) (n : ℕ) (s t : Shape)
        → IsLayoutOf text shared n s → IsLayoutOf text shared n t → s ≡ t }
    ensures either { (text : List ℕ) (shared : List Lines) (n : ℕ) (s : Shape) (rule : LayoutRule)
        (line : ℕ) → IsLayoutOf text shared n s → IsFirstFault text shared n rule line → ⊥ }
    ensures first { (text : List ℕ) (shared : List Lines) (n : ℕ) (rule other : LayoutRule)
        (line number : ℕ) → IsFirstFault text shared n rule line
        → IsFirstFault text shared n other number
        → (rule ≡ other) × (line ≡ number) }
    ensures empty { (shared : List Lines) (n : ℕ) (s : Shape) → IsLayoutOf [] shared n s
        → s.named ≡ [] }
    ensures default { (shared : List Lines) (n : ℕ) (rule : LayoutRule) (line : ℕ)
        → IsFirstFault [] shared n rule line → ⊥ }
{}

/// Ranges are a layout's or have one that breaks a rule first, over the same shared lines and
/// nodes. A caller uses the clauses; the call does nothing.
pub fn range_list_law()
    ensures either { (ranges : List BlockRange) (shared : List Lines) (n : ℕ) (rule : LayoutRule)
        (number : ℕ) → IsFirstBroken ranges shared n rule number
        → IsValid (record { shared = shared; named = ranges; nodes = n }) → ⊥ }
    ensures first { (ranges : List BlockRange) (shared : List Lines) (n : ℕ)
        (rule other : LayoutRule)
        (number place : ℕ) → IsFirstBroken ranges shared n rule number
        → IsFirstBroken ranges shared n other place → (rule ≡ other) × (number ≡ place) }
{}
