// A row of the tables of the explanations.

/// What the words at the front of a line mean.
#[derive(Clone, Copy)]
pub struct Explanation {
    /// The words with which the line begins.
    pub front: &'static str,
    /// What they mean, in whole sentences.
    pub meaning: &'static str,
    /// What to do next, in whole sentences.
    pub advice: &'static str,
}
