//! What holds of the lines of every trace.

ghost use Rattle.std.specs.Prelude.{◌≡◌, List, [], All, false};
ghost use Rattle.run_trace.specs.Traced.{Traced};
ghost use Rattle.run_trace.specs.Passing.{IsPassed};
ghost use Rattle.run_trace.specs.declared.passed.Until.TheVariants.{Access};
ghost use Rattle.event_text.specs.Shown.{shown};
ghost use Rattle.event_text.specs.declared.shown.EventFilter.{EventFilter};

/// A word that accesses no memory, and does no more than that, has no line unless all words are
/// asked for. The call does nothing.
pub fn shown_law()
    ensures none { (o : EventFilter) (xs : List Traced) → o.words ≡ false → All (IsPassed Access) xs
        → shown o xs ≡ [] }
{}
