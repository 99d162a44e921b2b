//! The bytes of a file as runs: how many there are of one value, one run after the other.

/// Whether bytes are these runs.
pub fn are_runs(bytes: &[u8], runs: &[(usize, u8)]) -> bool {
    let mut rest = bytes;
    for (count, byte) in runs {
        if rest.len() < *count {
            return false;
        }
        let (run, behind) = rest.split_at(*count);
        if run.iter().any(|other| other != byte) {
            return false;
        }
        rest = behind;
    }
    rest.is_empty()
}
