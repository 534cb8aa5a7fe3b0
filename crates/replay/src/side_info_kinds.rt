// The kinds of side information: written with the scfsi given and in one form, read, and checked.
use crate::answers::packed;
use crate::arguments::{bytes_of, header_of, record_of};
use audio_data::Scfsi;
use header::FrameHeader;
use replay_answers::{Verdict, verdict_on};
use side_info::SideInfo;
use side_info_writer::WrittenSideInfo;

// H, a record as `record_of` reads it -> number, bits used, 22 numbers of 8 bytes each, packed as there. Written with the scfsi given.
pub fn write_side_info(numbers: &[u64]) -> Option<Verdict> {
    written_verdict(numbers, |header, info| {
        side_info_writer::write_side_info(header, &info).map_err(|error| error.number())
    })
}

// The same, written in one form.
pub fn write_side_info_canonical(numbers: &[u64]) -> Option<Verdict> {
    written_verdict(numbers, |header, info| {
        canonical_writer::write_side_info_canonical(header, &info).map_err(|error| error.number())
    })
}

// The verdict on what a writer makes of a record, or on the number of its refusal, beside which every number is 0. The two bytes that the last number has
// room for besides are 0.
fn written_verdict<F: FnOnce(FrameHeader, SideInfo) -> Result<WrittenSideInfo, u32>>(
    numbers: &[u64],
    write: F,
) -> Option<Verdict>
    requires { F.IsAlwaysCallable write }
{
    let (header, rest) = header_of(numbers)?;
    let (info, rest) = record_of(rest)?;
    let (first, bytes) = rest.split_at_checked(2)?;
    let (answers, packed_bytes) = match write(header, info) {
        Ok(written) => ([0, written.bits_used], packed(&written.bytes)),
        Err(number) => ([number, 0], [0; 22]),
    };
    let verdict = verdict_on(first, &answers.map(u64::from))?;
    Some(verdict.and(verdict_on(bytes, &packed_bytes)?))
}

// H, the length of a slice, 22 numbers of 8 of its bytes each, 0 behind its end -> number, bits used, a record as `record_of` reads it. Beside a refusal
// every other number is 0.
pub fn read_side_info(numbers: &[u64]) -> Option<Verdict> {
    let (header, rest) = header_of(numbers)?;
    let (length, rest) = rest.split_first()?;
    let (given, expected) = rest.split_at_checked(22)?;
    let bytes: [u8; 176] = bytes_of(given);
    let slice = bytes.get(..usize::try_from(*length).ok()?)?;
    let (first, record) = expected.split_at_checked(2)?;
    let (answers, numbers) = match side_info_reader::read_side_info(header, slice) {
        Ok(read) => ([0, read.bits_used], record_numbers(&read.info)),
        Err(error) => ([error.number(), 0], [0; 90]),
    };
    let verdict = verdict_on(first, &answers.map(u64::from))?;
    Some(verdict.and(verdict_on(record, &numbers)?))
}

// A record as `record_of` reads it.
fn record_numbers(info: &SideInfo) -> [u64; 90] {
    let mut numbers = [0; 90];
    let (steps, rest) = numbers.split_at_mut(64);
    let (codes, indices) = rest.split_at_mut(2);
    steps.copy_from_slice(&info.steps.map(u64::from));
    codes.copy_from_slice(&packed_codes(&info.scfsi));
    indices.copy_from_slice(&packed::<24>(&info.scalefactors));
    numbers
}

// The codes of scfsi, 32 to a number.
fn packed_codes(slots: &[Scfsi]) -> [u64; 2] {
    let mut numbers = [0; 2];
    for (number, chunk) in numbers.iter_mut().zip(slots.chunks(32)) {
        for slot in chunk.iter().rev() {
            *number = *number << 2 | u64::from(slot.code());
        }
    }
    numbers
}

// H, a record as `record_of` reads it -> number, subband, channel.
pub fn check_record(numbers: &[u64]) -> Option<Verdict> {
    let (header, rest) = header_of(numbers)?;
    let (info, expected) = record_of(rest)?;
    let answers = match record_checker::check_record(header, &info) {
        Ok(()) => [0; 3],
        Err(error) => {
            let [subband, channel] = error.place();
            [error.number(), subband, channel]
        }
    };
    verdict_on(expected, &answers.map(u64::from))
}
