// Values into a slice, from its front, as many as it holds; the rest of the slice stays as it was.
ghost use Rattle.std.specs.Prelude.{◌≡◌, ◌≤◌, length};
ghost use Rattle.c_answers.specs.Answers.{written, fitted};

// Kept: `copy_from_slice` asks for equal lengths: a caller's slice is often longer than the values, and `front` says what becomes of a shorter one.
pub fn put<T: Copy>(values: &[T], out: &mut [T])
    ensures front { out.new ≡ fitted values.now out.old }
    ensures whole { length values.now ≤ length out.old → out.new ≡ written values.now out.old }
{
    let count = values.len().min(out.len());
    out[..count].copy_from_slice(&values[..count]);
}
