// How the answer of either writer is written into the slices of a call.
ghost use Rattle.std.specs.Prelude.{◌≤◌, length};
ghost use Rattle.c_answers.specs.Answers.{Answers};
ghost use Rattle.c_side_info.specs.Parts.{written_by};
ghost use Rattle.c_side_info.specs.Replies.{bytes_in, bits_in};

use c_answers::writing;
use side_info_writer::{SIDE_INFO_BYTES, WrittenSideInfo};

// A writer's answer, or the number of its refusal, into its slices; beside a refusal 174 zeros and no bits.
#[tactic(auto, unfolding(bit_string::specs::Bits::packed))]
pub fn put_written(written: Result<WrittenSideInfo, u32>, bytes: &mut [u8], out: &mut [u32]) -> u32
    requires { (174 ≤ length bytes.old) × (1 ≤ length out.old) }
    ensures bytes_written { Answers (bytes_in (written_by written)) bytes.old result bytes.new }
    ensures out_written { Answers (bits_in (written_by written)) out.old result out.new }
{
    match written {
        Ok(written) => {
            writing::put(&written.bytes, bytes);
            out[0] = written.bits_used;
            0
        }
        Err(number) => {
            writing::put(&[0; SIDE_INFO_BYTES], bytes);
            out[0] = 0;
            number
        }
    }
}
