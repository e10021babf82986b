//! A timer as a list of deadlines that is gone through: what the tests compare the timer with.

/// The deadlines by key.
#[derive(Drop)]
pub struct Plain {
    pub dues: [Option<u64>; 64],
}

impl Plain {
    /// The key of the least deadline that is at most `now`; of equal ones the least key.
    pub fn due(&self, now: u64) -> Option<u16> {
        let mut best: Option<(u64, u16)> = None;
        for key in 0..64 {
            let Some(moment) = self.dues[key] else {
                continue;
            };
            if moment <= now && best.is_none_or(|(least, _)| moment < least) {
                best = Some((moment, key as u16));
            }
        }
        best.map(|(_, key)| key)
    }
}
