// The active slots in fixed memory.
ghost use Rattle.active_slots.specs.Slots.{SlotsIn};

// The active slots: the first `count` entries.
// Kept: an array and a count in place of a Vec, since the library allocates nothing.
#[derive(Clone, Copy)]
pub struct ActiveSlots {
    pub(crate) slots: [u8; 64],
    pub(crate) count: usize,
    pub ghost within: { SlotsIn slots count },
}

impl ActiveSlots {
    ghost use Rattle.std.specs.Prelude.{◌≡◌};
    ghost use Rattle.active_slots.specs.Active.{listed};

    // The active slots alone.
    pub fn as_slice(&self) -> &[u8]
        ensures { result.now ≡ listed self.now }
    {
        &self.slots[..self.count]
    }
}
