// A record of side information.
// Kept: C takes steps, scfsi and indices as three slices, of different lengths.
#[derive(Clone, Copy)]
pub struct Record {
    pub steps: [u32; 64],
    pub scfsi: [u8; 64],
    // At 3 * slot + granule.
    pub indices: [u8; 192],
}

impl Record {
    // A record with four active slots, one for each code of scfsi: in channel 0 those of subbands 0 and 20, in channel 1 those of 2 and 20.
    // Each of its steps stands in the row that its subband has in every table that is called for. An index of 0 in an active slot is not sent.
    pub fn sent() -> Record {
        let mut steps = [0; 64];
        steps[0] = 15;
        steps[20] = 5;
        steps[34] = 7;
        steps[52] = 5;
        let mut scfsi = [0; 64];
        scfsi[20] = 2;
        scfsi[34] = 1;
        scfsi[52] = 3;
        let mut indices = [0; 192];
        indices[0] = 1;
        indices[1] = 2;
        indices[2] = 3;
        indices[60] = 62;
        indices[102] = 5;
        indices[104] = 33;
        indices[156] = 7;
        indices[158] = 9;
        Record {
            steps,
            scfsi,
            indices,
        }
    }
}
