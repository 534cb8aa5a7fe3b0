// How a line is printed: the name of a function, the number that it returns, and what it writes.
use std::io;

pub fn written<T: Copy + Into<u64>>(
    rt: &impl Print,
    name: &str,
    number: u32,
    values: &[T],
) -> io::Result<()> {
    print!(rt; "{name} {number}")?;
    for value in values {
        let n: u64 = (*value).into();
        print!(rt; " {n}")?;
    }
    println!(rt)
}

// A function that returns a value and writes nothing.
pub fn returned(rt: &impl Print, name: &str, number: u32) -> io::Result<()> {
    println!(rt; "{name} {number}")
}

// A double's bits, and 0 for a NaN.
pub fn bits(x: f64) -> u64 {
    if x.is_nan() { 0 } else { x.to_bits() }
}
