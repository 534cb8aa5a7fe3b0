// The functions of a header and the record of its frame's side information, steps and scfsi by slot and scalefactor indices: as bytes, from bytes, and
// checked.
ghost use Rattle.std.specs.Prelude.{◌||◌, ltb, length};
ghost use Rattle.c_answers.specs.Answers.{asked, answered, Answers};
ghost use Rattle.c_answers.specs.Arguments.{header_in};
ghost use Rattle.c_side_info.specs.Arguments.{frame_meant};
ghost use Rattle.c_side_info.specs.Replies.{bytes_written, bits_written, bytes_canonical, bits_canonical, place_checked};
ghost use Rattle.c_side_info_read.specs.Replies.{short, steps_read, scfsi_read, indices_read, bits_read};

// The side information as bytes, and how many of their bits are used.
// Kept: here and below: C needs each name, and takes numbers and slices by position, in the order of include/folgrist_mp2.h.
#[unsafe(no_mangle)]
pub extern "C" fn folgrist_write_side_info(
    lsf: u8,
    bit_rate: u32,
    sample_rate: u32,
    padding: u8,
    protection_bit: u8,
    mode: u8,
    mode_extension: u8,
    steps: &[u32],
    scfsi: &[u8],
    index: &[u8],
    bytes: &mut [u8],
    out: &mut [u32],
) -> u32
    ensures bytes_written { Answers
        (answered
        (frame_meant (ltb (length bytes.old) 174 || ltb (length out.old) 1)
        lsf bit_rate sample_rate padding protection_bit mode mode_extension
        steps.now scfsi.now index.now)
        bytes_written)
        bytes.old result bytes.new }
    ensures out_written { Answers
        (answered
        (frame_meant (ltb (length bytes.old) 174 || ltb (length out.old) 1)
        lsf bit_rate sample_rate padding protection_bit mode mode_extension
        steps.now scfsi.now index.now)
        bits_written)
        out.old result out.new }
{
    folgrist_mp2::side_information::folgrist_write_side_info(
        lsf,
        bit_rate,
        sample_rate,
        padding,
        protection_bit,
        mode,
        mode_extension,
        steps,
        scfsi,
        index,
        bytes,
        out,
    )
}

// The same in its one form: each active slot with the scfsi that sends the fewest indices.
#[unsafe(no_mangle)]
pub extern "C" fn folgrist_write_side_info_canonical(
    lsf: u8,
    bit_rate: u32,
    sample_rate: u32,
    padding: u8,
    protection_bit: u8,
    mode: u8,
    mode_extension: u8,
    steps: &[u32],
    scfsi: &[u8],
    index: &[u8],
    bytes: &mut [u8],
    out: &mut [u32],
) -> u32
    ensures bytes_written { Answers
        (answered
        (frame_meant (ltb (length bytes.old) 174 || ltb (length out.old) 1)
        lsf bit_rate sample_rate padding protection_bit mode mode_extension
        steps.now scfsi.now index.now)
        bytes_canonical)
        bytes.old result bytes.new }
    ensures out_written { Answers
        (answered
        (frame_meant (ltb (length bytes.old) 174 || ltb (length out.old) 1)
        lsf bit_rate sample_rate padding protection_bit mode mode_extension
        steps.now scfsi.now index.now)
        bits_canonical)
        out.old result out.new }
{
    folgrist_mp2::side_information::folgrist_write_side_info_canonical(
        lsf,
        bit_rate,
        sample_rate,
        padding,
        protection_bit,
        mode,
        mode_extension,
        steps,
        scfsi,
        index,
        bytes,
        out,
    )
}

// The record that stands at the front of the bytes, and how many of their bits are used.
#[unsafe(no_mangle)]
pub extern "C" fn folgrist_read_side_info(
    lsf: u8,
    bit_rate: u32,
    sample_rate: u32,
    padding: u8,
    protection_bit: u8,
    mode: u8,
    mode_extension: u8,
    bytes: &[u8],
    steps: &mut [u32],
    scfsi: &mut [u8],
    index: &mut [u8],
    out: &mut [u32],
) -> u32
    ensures steps_written { Answers
        (answered
        (asked (short steps.old scfsi.old index.old out.old)
        (header_in lsf bit_rate sample_rate padding protection_bit mode mode_extension))
        (steps_read bytes.now))
        steps.old result steps.new }
    ensures scfsi_written { Answers
        (answered
        (asked (short steps.old scfsi.old index.old out.old)
        (header_in lsf bit_rate sample_rate padding protection_bit mode mode_extension))
        (scfsi_read bytes.now))
        scfsi.old result scfsi.new }
    ensures index_written { Answers
        (answered
        (asked (short steps.old scfsi.old index.old out.old)
        (header_in lsf bit_rate sample_rate padding protection_bit mode mode_extension))
        (indices_read bytes.now))
        index.old result index.new }
    ensures out_written { Answers
        (answered
        (asked (short steps.old scfsi.old index.old out.old)
        (header_in lsf bit_rate sample_rate padding protection_bit mode mode_extension))
        (bits_read bytes.now))
        out.old result out.new }
{
    folgrist_mp2::side_information::folgrist_read_side_info(
        lsf,
        bit_rate,
        sample_rate,
        padding,
        protection_bit,
        mode,
        mode_extension,
        bytes,
        steps,
        scfsi,
        index,
        out,
    )
}

// Whether the record hangs together in the header's layout; where it does not, the subband and the channel that it fails at.
#[unsafe(no_mangle)]
pub extern "C" fn folgrist_check_record(
    lsf: u8,
    bit_rate: u32,
    sample_rate: u32,
    padding: u8,
    protection_bit: u8,
    mode: u8,
    mode_extension: u8,
    steps: &[u32],
    scfsi: &[u8],
    index: &[u8],
    out: &mut [u32],
) -> u32
    ensures { Answers
        (answered
        (frame_meant (ltb (length out.old) 2)
        lsf bit_rate sample_rate padding protection_bit mode mode_extension
        steps.now scfsi.now index.now)
        place_checked)
        out.old result out.new }
{
    folgrist_mp2::side_information::folgrist_check_record(
        lsf,
        bit_rate,
        sample_rate,
        padding,
        protection_bit,
        mode,
        mode_extension,
        steps,
        scfsi,
        index,
        out,
    )
}
