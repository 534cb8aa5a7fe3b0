// Signal-to-mask ratios that come in one row of slots, as the two rows of 32 that the demand and the allocation take.
ghost use Rattle.std.specs.Prelude.{◌≡◌, ◌<◌};
ghost use Rattle.layout.specs.Slots.{smr_row, smr_rows};

// The ratios by channel and subband; a NaN where the slice is too short.
pub fn rows(by_slot: &[f64]) -> [[f64; 32]; 2]
    ensures { result ≡ smr_rows by_slot.now }
{
    [row(by_slot, 0), row(by_slot, 1)]
}

// The ratios of one channel, by subband.
fn row(by_slot: &[f64], channel: usize) -> [f64; 32]
    requires { channel < 2 }
    ensures { result ≡ smr_row by_slot.now channel }
{
    let first = 32 * channel;
    let there = by_slot.len().saturating_sub(first).min(32);
    let mut ratios = [f64::NAN; 32];
    for sb in 0..there {
        ratios[sb] = by_slot[first + sb];
    }
    ratios
}
