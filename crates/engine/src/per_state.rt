//! A value for each state.
ghost use Rattle.std.specs.Prelude.{◌≡◌, ℕ, ◌<◌, ◌≤◌, replicate, slice_index_or};

/// A value for each state, of which a model has at most 4,096.
#[derive(Clone, Copy)]
pub struct PerState<T> {
    // An array and no `Vec`: nothing is allocated.
    pub at: [T; 4096],
}

impl<T: Copy> PerState<T> {
    /// The same value for every state.
    pub(crate) fn everywhere(value: T) -> PerState<T>
        ensures { result.at ≡ replicate 4096 value }
    {
        PerState { at: [value; 4096] }
    }

    /// The value of the state, or `rest` for a number that no state can have.
    pub(crate) fn at_or(&self, s: u16, rest: T) -> T
        ensures { result ≡ slice_index_or self.now.at s rest }
    {
        self.at.get(usize::from(s)).copied().unwrap_or(rest)
    }

    /// What the rule gives for each of the first `n` states, and `rest` for the others.
    pub fn by<F: Fn(u16) -> T>(n: u16, rest: T, rule: F) -> PerState<T>
        requires { (s : ℕ) → s < n → s < 4096 → F.pre rule s }
        ensures ruled { (s : ℕ) → s < n → s < 4096 → F.post rule s (slice_index_or result.at s rest) }
        ensures others { (s : ℕ) → n ≤ s → slice_index_or result.at s rest ≡ rest }
    {
        let mut all = PerState::everywhere(rest);
        // Not by `array::from_fn`, which asks the rule for all 4,096 places: the model has states for the first alone. By
        // index, since `enumerate` counts in `usize` and `s` would be narrowed.
        for s in 0..n.min(4096) {
            all.at[usize::from(s)] = rule(s);
        }
        all
    }
}
