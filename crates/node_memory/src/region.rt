//! Where an address of a node lies.

ghost use Rattle.std.specs.Prelude.{◌≡◌, ◌^◌, ◌<◌, ℕ};
ghost use Rattle.node_model.specs.Node as model;
ghost use Rattle.node_memory.specs.Shelf.{region_by};

/// Where an address of the node lies.
#[derive(Clone, Copy, PartialEq, Eq)]
pub enum Region {
    /// Below the state table.
    Memory,
    /// The state byte of a line.
    StateOf(u32),
    /// A word in which sequences keep a register.
    Spill(usize),
    Elsewhere,
}

/// Where an address lies.
pub fn region_of(address: u32) -> Region
    ensures region { region_by result ≡ model.region_of address }
    ensures memory { result ≡ Region.Memory → address < 2 ^ 31 }
    ensures state { (line : ℕ) → result ≡ Region.StateOf line → line < 2 ^ 26 }
    ensures spill { (k : ℕ) → result ≡ Region.Spill k → k < 3 }
{
    match address {
        0..=0x7fff_ffff => Region::Memory,
        0x8000_0000..=0x83ff_ffff => Region::StateOf(address - 0x8000_0000),
        0xffff_fffc => Region::Spill(0),
        0xffff_fff8 => Region::Spill(1),
        0xffff_fff4 => Region::Spill(2),
        _ => Region::Elsewhere,
    }
}
