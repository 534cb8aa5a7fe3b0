// Numbers side by side in one word: how a writer of bits puts them together and a reader takes them apart. A width counts modulo 32.
#![tactic(auto)]

ghost use Rattle.std.specs.Prelude.{◌≡◌};
ghost use Rattle.bit_fields.specs.Fields.{joined, upper, lower};

// Two numbers side by side: the second in the last `width` bits, if it fits them.
// Kept: std has no call that puts two numbers into one word; writer and readers of bits share these three, each an equation of the definitions.
pub fn beside(high: u32, low: u32, width: u32) -> u32
    ensures { result ≡ joined high low width }
{
    high.wrapping_shl(width) | low
}

// What stands above the last `width` bits.
// Kept: std's `wrapping_shr`, under the name and the definition (`upper`) that the writer's and the readers' laws use.
pub fn above(n: u32, width: u32) -> u32
    ensures { result ≡ upper n width }
{
    n.wrapping_shr(width)
}

// What stands in them.
// Kept: std has no call that masks the last bits of a number.
pub fn below(n: u32, width: u32) -> u32
    ensures { result ≡ lower n width }
{
    n & (1u32.wrapping_shl(width) - 1)
}
