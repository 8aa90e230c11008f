//! Runs that tear a frame, state by state.
use crate::sheets::{Desk, opened};
use engine::operator::Operator;
use model::interface::Model;
use model::pair::Pair;
use model::pool::Pool;
use scale::scales::{FiveValued, Scale};
use sheet::kinds::Kind;
use sheet::row::Row;
use std::io;

/// A model whose states can be told in words.
trait InWords {
    /// Prints who holds each buffer in a state.
    fn tell(&self, rt: &HostRuntime, s: u16) -> io::Result<()>;
}

impl InWords for Pool {
    fn tell(&self, rt: &HostRuntime, s: u16) -> io::Result<()> {
        let mut digits = s;
        for _ in 0..self.buffers {
            let holder = match digits % 4 {
                0 => "free",
                1 => "A",
                2 => "B",
                _ => "A and B",
            };
            print!(rt; " [{holder}]")?;
            digits /= 4;
        }
        Ok(())
    }
}

impl<A: InWords, B: Model + InWords> InWords for Pair<A, B> {
    fn tell(&self, rt: &HostRuntime, s: u16) -> io::Result<()> {
        let n = self.second.states();
        self.first.tell(rt, s.checked_div(n).unwrap_or(0))?;
        print!(rt; " beside")?;
        self.second.tell(rt, s.checked_rem(n).unwrap_or(0))
    }
}

/// Asks for a run from state 0 that breaks a level of a row, and prints it, or the refusal.
fn run<M: Model + InWords, S: Scale>(desk: &Desk<M, S>, row: u8, level: u8) -> io::Result<()> {
    let rt = desk.rt;
    let mut out = [0u16; 8192];
    match desk.walk(row, 0, level, &mut out) {
        Ok((stem, round)) => {
            println!(rt;
                "  level {level} is broken by {stem} states once, then {round} for ever:"
            )?;
            let states = usize::from(stem) + usize::from(round);
            for (i, s) in out.iter().take(states).enumerate() {
                let when = if i < usize::from(stem) {
                    "once"
                } else {
                    "for ever"
                };
                print!(rt; "    {when}, {s}:")?;
                desk.model.tell(rt, *s)?;
                println!(rt; "")?;
            }
            Ok(())
        }
        Err(fault) => println!(rt;
            "  a run that breaks level {level}: refused with {}",
            fault.number()
        ),
    }
}

/// Is a frame ever torn, and on which runs? At level 4 and at level 1.
fn torn<M: Model + InWords>(rt: &HostRuntime, model: &M) -> io::Result<()> {
    let rows = &mut [Row::default(); 3];
    opened(rt, model, &FiveValued, rows, &mut [0; 12288], |desk| {
        desk.enter_all(&[
            (Row::of(Kind::Prop, 0, 0), "p0, a frame is torn"),
            (Row::of(Kind::Not, 0, 0), "not p0"),
            (Row::of(Kind::A(Operator::Globally), 1, 0), "AG not p0"),
        ])?;
        run(desk, 2, 4)?;
        run(desk, 2, 1)
    })
}

/// Runs over a pool, and over a pair of pools that is no table anywhere.
pub(crate) fn all(rt: &HostRuntime) -> io::Result<()> {
    println!(rt;
        "Runs that tear a frame; each bracket is a buffer with its holders, and both tear it."
    )?;
    println!(rt; "Over a pool of two buffers:")?;
    let two = Pool {
        buffers: 2,
        guard: 0,
    };
    torn(rt, &two)?;
    println!(rt; "Over a pair of two pools of three buffers, the second with a guard:")?;
    let first = Pool {
        buffers: 3,
        guard: 0,
    };
    let second = Pool {
        buffers: 3,
        guard: 1,
    };
    torn(rt, &Pair { first, second })?;
    println!(rt; "Over the same with the guard on both:")?;
    torn(
        rt,
        &Pair {
            first: second,
            second,
        },
    )
}
