// Which bit allocation table a header selects, by its sample rate and its bit rate per channel.
#![tactic(auto)]

ghost use Rattle.std.specs.Prelude.{◌≡◌};
ghost use Rattle.std.specs.Prelude.{Some};
ghost use Rattle.table_selection.specs.Select.{kbps_per_channel, table_at, table_of, free, kbps};

use bitalloc::BitAllocTable;
use header::FrameHeader;

// The table that the header selects.
pub fn select_table(header: FrameHeader) -> Option<BitAllocTable>
    ensures { result ≡ table_of header }
{
    if header.lsf {
        return Some(BitAllocTable::B1Lsf);
    }
    let sample_rate = header.sample_rate;
    if header.is_free_format() {
        return free_format_table(sample_rate);
    }
    let kbps = bitrate_per_channel_kbps(header)?;
    table_for(sample_rate, kbps)
}

// Kept: each frequency with its table, as the headings of Tables 3-B.2a and 3-B.2b name free format; a list of three would have to be searched.
fn free_format_table(sample_rate: u32) -> Option<BitAllocTable>
    ensures { result ≡ table_at sample_rate free }
{
    match sample_rate {
        48_000 => Some(BitAllocTable::B2a),
        44_100 | 32_000 => Some(BitAllocTable::B2b),
        _ => None,
    }
}

// Kept: each frequency with its rates, as the headings of the tables print them; a list of them would have to be searched and says the same.
fn table_for(sample_rate: u32, per_channel: u32) -> Option<BitAllocTable>
    ensures { result ≡ table_at sample_rate (kbps (Some per_channel)) }
{
    match sample_rate {
        48_000 => match per_channel {
            32 | 48 => Some(BitAllocTable::B2c),
            56 | 64 | 80 | 96 | 112 | 128 | 160 | 192 => Some(BitAllocTable::B2a),
            _ => None,
        },
        44_100 => match per_channel {
            32 | 48 => Some(BitAllocTable::B2c),
            56 | 64 | 80 => Some(BitAllocTable::B2a),
            96 | 112 | 128 | 160 | 192 => Some(BitAllocTable::B2b),
            _ => None,
        },
        32_000 => match per_channel {
            32 | 48 => Some(BitAllocTable::B2d),
            56 | 64 | 80 => Some(BitAllocTable::B2a),
            96 | 112 | 128 | 160 | 192 => Some(BitAllocTable::B2b),
            _ => None,
        },
        _ => None,
    }
}

// The bit rate of each channel in whole kbit/s; an odd number has no half.
pub fn bitrate_per_channel_kbps(header: FrameHeader) -> Option<u32>
    ensures { result ≡ kbps_per_channel header }
{
    let total_kbps = header.bit_rate / 1000;
    if header.channels() == 1 {
        return Some(total_kbps);
    }
    (total_kbps % 2 == 0).then_some(total_kbps / 2)
}
