// The functions of the C library that take a header, as seven numbers, and the record of its frame's side information, as three slices. The function
// of the same name in `folgrist_mp2` hands over the numbers and the slices under the same contract; here the slices' lengths are asked about first (98), then
// what the numbers and the scfsi codes mean (14), then what the function itself asks.
#![tactic(auto)]

ghost use Rattle.std.specs.Prelude.{◌||◌, ltb, length};
ghost use Rattle.c_answers.specs.Answers.{answered, Answers};
ghost use Rattle.c_answers.specs.Refusals.{number_in};
ghost use Rattle.c_side_info.specs.Arguments.{frame_asked};
ghost use Rattle.c_side_info.specs.Replies.{bytes_written, bits_written, bytes_canonical, bits_canonical, place_checked};

use c_answers::arguments::HeaderNumbers;
use c_answers::refusal::Refusal;
use c_answers::writing;

mod record;
mod replies;

pub use record::RecordSlices;
use replies::put_written;

// The side information as bytes, and how many of their bits are used.
pub fn write_side_info(
    given: HeaderNumbers,
    record: RecordSlices,
    bytes: &mut [u8],
    out: &mut [u32],
) -> Result<u32, Refusal>
    ensures bytes_written { Answers
        (answered
        (frame_asked (ltb (length bytes.old) 174 || ltb (length out.old) 1) given record.entry)
        bytes_written)
        bytes.old (number_in result) bytes.new }
    ensures out_written { Answers
        (answered
        (frame_asked (ltb (length bytes.old) 174 || ltb (length out.old) 1) given record.entry)
        bits_written)
        out.old (number_in result) out.new }
{
    // Kept: the lengths of `bytes` and `out` are one test, as in the clauses; `first_chunk_mut` would lend both before the header is read, for `put_written` to write.
    let frame = record.frame(given, (bytes.len() < 174) | (out.len() < 1))?;
    let written = side_info_writer::write_side_info(frame.header, &frame.side);
    let written = written.map_err(|error| error.number());
    Ok(put_written(written, bytes, out))
}

// The same in its one form: each active slot with the scfsi that sends the fewest indices.
// Kept: C has a name for each writer; a shared body would take the writer as a closure, and the two clauses would be drawn from its `F.post` at both calls.
pub fn write_side_info_canonical(
    given: HeaderNumbers,
    record: RecordSlices,
    bytes: &mut [u8],
    out: &mut [u32],
) -> Result<u32, Refusal>
    ensures bytes_written { Answers
        (answered
        (frame_asked (ltb (length bytes.old) 174 || ltb (length out.old) 1) given record.entry)
        bytes_canonical)
        bytes.old (number_in result) bytes.new }
    ensures out_written { Answers
        (answered
        (frame_asked (ltb (length bytes.old) 174 || ltb (length out.old) 1) given record.entry)
        bits_canonical)
        out.old (number_in result) out.new }
{
    let frame = record.frame(given, (bytes.len() < 174) | (out.len() < 1))?;
    let written = canonical_writer::write_side_info_canonical(frame.header, &frame.side);
    let written = written.map_err(|error| error.number());
    Ok(put_written(written, bytes, out))
}

// Whether the record hangs together in the header's layout; where it does not, the subband and the channel that it fails at.
pub fn check_record(
    given: HeaderNumbers,
    record: RecordSlices,
    out: &mut [u32],
) -> Result<u32, Refusal>
    ensures { Answers
        (answered
        (frame_asked (ltb (length out.old) 2) given record.entry)
        place_checked)
        out.old (number_in result) out.new }
{
    let frame = record.frame(given, out.len() < 2)?;
    let (number, place) = match record_checker::check_record(frame.header, &frame.side) {
        Ok(()) => (0, [0, 0]),
        Err(error) => (error.number(), error.place()),
    };
    writing::put(&place, out);
    Ok(number)
}
