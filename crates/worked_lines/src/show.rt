// How a line is printed: the question, the answers, and a remark where they are not the expected ones.
use std::io;

pub fn numbers(
    rt: &impl Print,
    question: &str,
    expected: &[u64],
    answered: &[u64],
) -> io::Result<()> {
    print!(rt; "{question}")?;
    for n in answered {
        print!(rt; " {n}")?;
    }
    if answered == expected {
        println!(rt)
    } else {
        println!(rt; " - not as expected")
    }
}
