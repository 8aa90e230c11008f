//! The interface that every model stands behind.
ghost use Rattle.std.specs.Prelude.{◌≡◌, ◌&&◌, nat_lt};
ghost use Rattle.model.specs.Limits.{kept};
ghost use Rattle.model.specs.Meaning.{Meaning, Lawful, Least};

/// How many states and how many propositions a model has.
#[derive(Clone, Copy, PartialEq, Eq, Debug, Default)]
pub struct Size {
    pub states: u16,
    pub props: u8,
}

impl Size {
    /// These counts, or none of either where there are more than 4,096 states or 64 propositions.
    pub fn within(states: u32, props: u16) -> Size
        ensures states { result.states ≡ kept states props states }
        ensures props { result.props ≡ kept states props props }
    {
        if states <= 4096 && props <= 64 {
            // By `as`: the numbers fit, and `try_from` would have an error that cannot come.
            Size {
                states: states as u16,
                props: props as u8,
            }
        } else {
            Size::default()
        }
    }

    /// Are there a proposition `p` and a state `s`?
    pub fn has(self, p: u8, s: u16) -> bool
        ensures { result ≡ (nat_lt p self.props && nat_lt s self.states) }
    {
        p < self.props && s < self.states
    }
}

/// A finite model. All that it is lies in its meaning, and each question is answered from that alone.
pub trait Model {
    ghost meaning: { Self → Meaning };

    /// The laws of the meaning, for code that is generic over the model.
    ghost lawful: { (x : Self) → Lawful (meaning x) };

    /// How many states, and how many propositions?
    fn size(&self) -> Size
        ensures states { result.states ≡ (meaning self.now).states }
        ensures props { result.props ≡ (meaning self.now).props };

    /// Which is the least state not below `t` to which `s` has a step?
    fn least_step(&self, s: u16, t: u16) -> Option<u16>
        ensures { Least ((meaning self.now).step s) t result };

    /// Does proposition `p` hold in state `s`?
    fn holds(&self, p: u8, s: u16) -> bool
        ensures { result ≡ (meaning self.now).holds p s };

    /// How many states?
    fn states(&self) -> u16
        ensures { result ≡ (meaning self.now).states }
    {
        self.size().states
    }

    /// How many propositions?
    fn props(&self) -> u8
        ensures { result ≡ (meaning self.now).props }
    {
        self.size().props
    }
}
