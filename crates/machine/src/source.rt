// What is run.

// A text, and the steps in words that stand for it: so many entries, and what is behind them.
// How few the lines are each function asks for itself: there are three limits.
#[derive(Clone, Copy)]
pub struct Source<'a> {
    pub text: &'a [u8],
    pub steps: &'a [u32],
    pub lines: usize,
}
