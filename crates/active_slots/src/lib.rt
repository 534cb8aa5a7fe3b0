// The active slots of a frame (ISO/IEC 11172-3 2.4.1.6): those that send scfsi and scalefactors.
#![tactic(auto)]

mod slots;

ghost use Rattle.std.specs.Prelude.{◌≡◌};
ghost use Rattle.side_info.specs.SideInfo.{active_slots};
ghost use Rattle.active_slots.specs.Active.{listed};

use layout::Layout;
pub use slots::ActiveSlots;

// The active slots, in the order in which scfsi and scalefactors travel. They are gathered without a branch that the steps decide: a slot is laid down
// behind those so far, and counted where its steps are not 0.
pub fn active_slots(layout: Layout, nb_steps: [u32; 64]) -> ActiveSlots
    ensures { listed result ≡ active_slots layout nb_steps }
{
    let slots = layout.slots();
    let mut active = [0; 64];
    let mut count: usize = 0;
    for k in 0..slots {
        let slot = layout.slot(k);
        active[count] = slot as u8;
        count += (0 < nb_steps[slot]) as usize;
    }
    ActiveSlots {
        slots: active,
        count,
    }
}
