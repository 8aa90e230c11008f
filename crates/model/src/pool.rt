//! A pool of frame buffers that two capture threads share.
ghost use Rattle.std.specs.Prelude.{◌≡◌, ◌+◌, ◌-◌, ◌*◌, ◌^◌, ◌<◌, ◌≤◌, ◌&&◌, if◌then◌else◌, ◌==◌, nat_lt};
ghost use Rattle.model.specs.Lawfulness.{pooled_lawful};
ghost use Rattle.model.specs.Meaning.{Least};
ghost use Rattle.model.specs.Pools.{digit, share, holder, leads, pooled};

use crate::interface::{Model as FiniteModel, Size};
use crate::lesser::lesser_of;

/// A capture thread.
#[derive(Clone, Copy, PartialEq, Eq, Debug)]
pub enum Thread {
    A,
    B,
}

impl Thread {
    /// What the thread adds to the digit of a buffer that it holds.
    pub fn share(self) -> u16
        ensures { result ≡ share self }
    {
        match self {
            Thread::A => 1,
            Thread::B => 2,
        }
    }

    /// Does the thread hold a buffer of this digit?
    pub fn holds(self, digit: u16) -> bool
        ensures { result ≡ holder self digit }
    {
        match self {
            Thread::A => matches!(digit, 1 | 3),
            Thread::B => matches!(digit, 2 | 3),
        }
    }

    /// The digit of a buffer once the thread has given it back, or taken it where it did not hold it.
    fn moved(self, digit: u16) -> u16
        requires { digit < 4 }
        ensures { result ≡ (if holder self digit then digit - share self else digit + share self) }
    {
        if self.holds(digit) {
            digit - self.share()
        } else {
            digit + self.share()
        }
    }
}

/// A pool of 1 to 6 buffers, with a guard (1) or without (0); of any other numbers it has no states.
///
/// A state is a number of as many base-4 digits as there are buffers, the digit of buffer `i` having weight 4^i: 0 is
/// free, 1 held by thread A, 2 held by B, 3 held by both, a torn frame. A step takes a buffer that its thread does not
/// hold or gives back one that it does. With the guard no step may tear a frame. Proposition 0 says that some frame
/// is torn, proposition 1 that some buffer is free.
#[derive(Clone, Copy, PartialEq, Eq, Debug)]
pub struct Pool {
    // Plain numbers: a pool with other numbers is a model too, one without states.
    pub buffers: u8,
    pub guard: u8,
}

// A digit is a number and no enum: a state is made of digits by arithmetic.
/// The digit of buffer `i` in state `s`.
#[tactic(auto, using(crate::proofs::Pooled::weight_few))]
fn digit_of(s: u16, i: u8) -> u16
    requires { i < 6 }
    ensures { result ≡ digit i s }
{
    s / 4u16.pow(u32::from(i)) % 4
}

/// State `s` with `e` for the digit of buffer `i`.
#[tactic(auto, using(crate::proofs::Pooled::weight_few, crate::proofs::Pooled::part_few))]
fn with_digit(s: u16, i: u8, e: u16) -> u16
    requires { (i < 6) × (s < 4096) × (e < 4) }
    ensures { result + digit i s * 4 ^ i ≡ s + e * 4 ^ i }
{
    let weight = 4u16.pow(u32::from(i));
    s - digit_of(s, i) * weight + e * weight
}

impl Pool {
    /// Does the guard forbid that a buffer's digit becomes `e`?
    fn forbids(&self, e: u16) -> bool
        ensures { result ≡ (self.now.guard == 1 && e == 3) }
    {
        self.guard == 1 && e == 3
    }

    /// The state to which thread `x` gets from `s` with buffer `i`, if it may and the state is not below `t`.
    fn turn(&self, x: Thread, i: u8, s: u16, t: u16) -> Option<u16>
        requires { (i < self.now.buffers) × (self.now.buffers ≤ 6) × (s < 4 ^ self.now.buffers) }
        ensures { Least (λ u. nat_lt u (4 ^ self.now.buffers) && leads self.now.buffers self.now.guard x i s u) t result }
    {
        let e = x.moved(digit_of(s, i));
        if self.forbids(e) {
            return None;
        }
        let u = with_digit(s, i, e);
        (u >= t).then_some(u)
    }
}

impl FiniteModel for Pool {
    ghost meaning = { λ x. pooled x.buffers x.guard };

    ghost lawful = { λ x. pooled_lawful x.buffers x.guard };

    fn size(&self) -> Size {
        if (1..=6).contains(&self.buffers) && self.guard <= 1 {
            Size {
                states: 4u16.pow(u32::from(self.buffers)),
                props: 2,
            }
        } else {
            Size::default()
        }
    }

    fn least_step(&self, s: u16, t: u16) -> Option<u16> {
        if s >= self.size().states {
            return None;
        }
        // A fold: as a chain that filters and takes the least, asking whether there is a step took three times as long.
        (0..self.buffers).fold(None, |least, i| {
            let least = lesser_of(least, self.turn(Thread::A, i, s, t));
            lesser_of(least, self.turn(Thread::B, i, s, t))
        })
    }

    fn holds(&self, p: u8, s: u16) -> bool {
        if !self.size().has(p, s) {
            return false;
        }
        let sought = if p == 0 { 3 } else { 0 };
        (0..self.buffers).any(|i| digit_of(s, i) == sought)
    }
}
