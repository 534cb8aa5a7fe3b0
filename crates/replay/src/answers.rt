// The library's answers as the numbers of a line.
use replay_answers::{Verdict, verdict_on};

// The verdict on what is answered to the one value that stands before the expected number.
pub fn verdict_of<T: TryFrom<u64>, F: FnOnce(T) -> u64>(
    numbers: &[u64],
    answer: F,
) -> Option<Verdict>
where
    T::Error: Copy,
    requires { F.IsAlwaysCallable answer }
{
    let (given, expected) = numbers.split_first()?;
    let value = T::try_from(*given).ok()?;
    verdict_on(expected, &[answer(value)])
}

// Bytes packed eight to a number, the first in the lowest bits; places behind the last byte are 0.
pub fn packed<const N: usize>(bytes: &[u8]) -> [u64; N] {
    let mut numbers = [0; N];
    for (number, chunk) in numbers.iter_mut().zip(bytes.chunks(8)) {
        for byte in chunk.iter().rev() {
            *number = *number << 8 | u64::from(*byte);
        }
    }
    numbers
}
