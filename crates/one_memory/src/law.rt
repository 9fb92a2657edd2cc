//! The law of reservations.

ghost use Rattle.std.specs.Prelude.{◌≡◌, ℕ, ◌⊎◌};
ghost use Rattle.llsc.specs.Reservation.{holds};
ghost use Rattle.rv32_step.specs.OneMemory.{Original, State, Pick, after_pick};
ghost use Rattle.one_memory.specs.Reserving.{IsAtConditional, StoresExactly, ReplacesBy};

/// What holds of reservations on one memory. A caller uses the clauses; the call does nothing.
pub fn reservation_law()
    // An aligned SC to a line that may be written stores exactly where the processor's reservation
    // is its address.
    ensures stores { (original : Original) (s : State) (p r a value : ℕ)
        → IsAtConditional original s p r a value
        → StoresExactly original s p r a value (holds (s.reservations p) a) }
    // A reservation stays, but for the processor's own LR and SC, another's store, AMO or storing
    // SC in the block, and a break.
    ensures stays { (original : Original) (s : State) (k : Pick) (p : ℕ)
        → ((after_pick original s k).reservations p ≡ s.reservations p)
        ⊎ ReplacesBy original s p k }
{}
