// The kinds of answers. For each kind a function calls the library with a line's arguments and compares what comes
// back with the answers that the line has behind them. A new kind is its function, a variant here, its place in `ALL`,
// its name and its arm of `verdict`.
use crate::{budget_kinds, sample_kinds, scalefactor_kinds, side_info_kinds, table_kinds};
use replay_answers::Verdict;
use std::fmt;

// Kept: `ALL`, `verdict` and the names list the kinds once each: Rust has no list of an enum's cases, and one table of names and functions would call through pointers.
#[derive(Clone, Copy)]
pub enum Kind {
    Sblimit,
    Nbal,
    NbSteps,
    AllocationIndex,
    ModeChannels,
    Bound,
    IsFreeFormat,
    FrameSizeBytes,
    BitratePerChannelKbps,
    SelectTable,
    ClassOfQuantization,
    IsGrouped,
    BitsPerSample,
    SampleBitsFor,
    Scalefactors,
    Channels,
    PickScalefactorIndex,
    ExtractScalefactorIndex,
    ComputeScalefactors,
    SelectScfsi,
    ScfsiChecksum,
    QuantizeSample,
    WriteTriplet,
    ClassifyDifference,
    SnrDb,
    FixedBitBudget,
    AvailableDataBits,
    DemandBits,
    AllocateBits,
    TransmittedCount,
    PartsOnWire,
    Fixed,
    WriteSideInfo,
    ReadSideInfo,
    CheckRecord,
    WriteSideInfoCanonical,
}

impl Kind {
    // In the order of their numbers, which begin at 1.
    pub const ALL: [Kind; 36] = [
        Kind::Sblimit,
        Kind::Nbal,
        Kind::NbSteps,
        Kind::AllocationIndex,
        Kind::ModeChannels,
        Kind::Bound,
        Kind::IsFreeFormat,
        Kind::FrameSizeBytes,
        Kind::BitratePerChannelKbps,
        Kind::SelectTable,
        Kind::ClassOfQuantization,
        Kind::IsGrouped,
        Kind::BitsPerSample,
        Kind::SampleBitsFor,
        Kind::Scalefactors,
        Kind::Channels,
        Kind::PickScalefactorIndex,
        Kind::ExtractScalefactorIndex,
        Kind::ComputeScalefactors,
        Kind::SelectScfsi,
        Kind::ScfsiChecksum,
        Kind::QuantizeSample,
        Kind::WriteTriplet,
        Kind::ClassifyDifference,
        Kind::SnrDb,
        Kind::FixedBitBudget,
        Kind::AvailableDataBits,
        Kind::DemandBits,
        Kind::AllocateBits,
        Kind::TransmittedCount,
        Kind::PartsOnWire,
        Kind::Fixed,
        Kind::WriteSideInfo,
        Kind::ReadSideInfo,
        Kind::CheckRecord,
        Kind::WriteSideInfoCanonical,
    ];

    // The verdict on a line of this kind, from the numbers behind it; none where they cannot be read. The functions that
    // it calls take the same, and their comments say what stands behind the kind: the arguments, an arrow, the expected
    // answers. H is a header, as `header_of` reads it; found is 1 with the value behind it, or 0 with 0.
    fn verdict(self, numbers: &[u64]) -> Option<Verdict> {
        match self {
            Kind::Sblimit => table_kinds::sblimit(numbers),
            Kind::Nbal => table_kinds::nbal(numbers),
            Kind::NbSteps => table_kinds::nb_steps(numbers),
            Kind::AllocationIndex => table_kinds::allocation_index(numbers),
            Kind::ModeChannels => table_kinds::mode_channels(numbers),
            Kind::Bound => table_kinds::bound(numbers),
            Kind::IsFreeFormat => table_kinds::is_free_format(numbers),
            Kind::FrameSizeBytes => table_kinds::frame_size_bytes(numbers),
            Kind::BitratePerChannelKbps => table_kinds::bitrate_per_channel_kbps(numbers),
            Kind::SelectTable => table_kinds::select_table(numbers),
            Kind::ClassOfQuantization => table_kinds::class_of_quantization(numbers),
            Kind::IsGrouped => table_kinds::is_grouped(numbers),
            Kind::BitsPerSample => table_kinds::bits_per_sample(numbers),
            Kind::SampleBitsFor => table_kinds::sample_bits_for(numbers),
            Kind::Scalefactors => table_kinds::scalefactors(numbers),
            Kind::Channels => table_kinds::channels(numbers),
            Kind::PickScalefactorIndex => scalefactor_kinds::pick_scalefactor_index(numbers),
            Kind::ExtractScalefactorIndex => scalefactor_kinds::extract_scalefactor_index(numbers),
            Kind::ComputeScalefactors => scalefactor_kinds::compute_scalefactors(numbers),
            Kind::SelectScfsi => scalefactor_kinds::select_scfsi(numbers),
            Kind::ScfsiChecksum => scalefactor_kinds::scfsi_checksum(numbers),
            Kind::QuantizeSample => sample_kinds::quantize_sample(numbers),
            Kind::WriteTriplet => sample_kinds::write_triplet(numbers),
            Kind::ClassifyDifference => scalefactor_kinds::classify_difference(numbers),
            Kind::SnrDb => budget_kinds::snr_db(numbers),
            Kind::FixedBitBudget => budget_kinds::fixed_bit_budget(numbers),
            Kind::AvailableDataBits => budget_kinds::available_data_bits(numbers),
            Kind::DemandBits => budget_kinds::demand_bits(numbers),
            Kind::AllocateBits => budget_kinds::allocate_bits(numbers),
            Kind::TransmittedCount => scalefactor_kinds::transmitted_count(numbers),
            Kind::PartsOnWire => scalefactor_kinds::parts_on_wire(numbers),
            Kind::Fixed => budget_kinds::fixed(numbers),
            Kind::WriteSideInfo => side_info_kinds::write_side_info(numbers),
            Kind::ReadSideInfo => side_info_kinds::read_side_info(numbers),
            Kind::CheckRecord => side_info_kinds::check_record(numbers),
            Kind::WriteSideInfoCanonical => side_info_kinds::write_side_info_canonical(numbers),
        }
    }
}

impl fmt::Display for Kind {
    fn fmt<W: fmt::Write>(&self, f: &mut fmt::Formatter<W>) -> fmt::Result {
        f.write_str(match self {
            Kind::Sblimit => "sblimit",
            Kind::Nbal => "nbal",
            Kind::NbSteps => "nb_steps",
            Kind::AllocationIndex => "allocation_index",
            Kind::ModeChannels => "mode_channels",
            Kind::Bound => "bound",
            Kind::IsFreeFormat => "is_free_format",
            Kind::FrameSizeBytes => "frame_size_bytes",
            Kind::BitratePerChannelKbps => "bitrate_per_channel_kbps",
            Kind::SelectTable => "select_table",
            Kind::ClassOfQuantization => "class_of_quantization",
            Kind::IsGrouped => "is_grouped",
            Kind::BitsPerSample => "bits_per_sample",
            Kind::SampleBitsFor => "sample_bits_for",
            Kind::Scalefactors => "scalefactors",
            Kind::Channels => "channels",
            Kind::PickScalefactorIndex => "pick_scalefactor_index",
            Kind::ExtractScalefactorIndex => "extract_scalefactor_index",
            Kind::ComputeScalefactors => "compute_scalefactors",
            Kind::SelectScfsi => "select_scfsi",
            Kind::ScfsiChecksum => "scfsi_checksum",
            Kind::QuantizeSample => "quantize_sample",
            Kind::WriteTriplet => "write_triplet",
            Kind::ClassifyDifference => "classify_difference",
            Kind::SnrDb => "snr_db",
            Kind::FixedBitBudget => "fixed_bit_budget",
            Kind::AvailableDataBits => "available_data_bits",
            Kind::DemandBits => "demand_bits",
            Kind::AllocateBits => "allocate_bits",
            Kind::TransmittedCount => "transmitted_count",
            Kind::PartsOnWire => "parts_on_wire",
            Kind::Fixed => "fixed",
            Kind::WriteSideInfo => "write_side_info",
            Kind::ReadSideInfo => "read_side_info",
            Kind::CheckRecord => "check_record",
            Kind::WriteSideInfoCanonical => "write_side_info_canonical",
        })
    }
}

// A line's kind and the verdict on it; none where the line cannot be read.
pub fn replay(line: &[u64]) -> Option<(Kind, Verdict)> {
    let (number, rest) = line.split_first()?;
    let place = usize::try_from(number.checked_sub(1)?).ok()?;
    let kind = *Kind::ALL.get(place)?;
    let verdict = kind.verdict(rest)?;
    Some((kind, verdict))
}
