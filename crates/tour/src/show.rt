//! What the tour prints of a model.
ghost use Rattle.std.specs.Prelude.{◌≡◌};
ghost use Rattle.tour.specs.Tally.{tally};

use model::check::walkable;
use model::interface::Model;
use model::pool::Pool;
use std::io;

// `rt` goes to whatever prints; a struct of it and the model would only rename the two.
/// Everything about a small model.
pub(crate) fn whole<M: Model>(rt: &HostRuntime, model: &M) -> io::Result<()> {
    size(rt, model)?;
    steps(rt, model)?;
    holdings(rt, model)?;
    walkability(rt, model)
}

// As `whole`, with one line more: one function with a flag would be no plainer.
/// Everything about a small pool.
pub(crate) fn pool(rt: &HostRuntime, pool: &Pool) -> io::Result<()> {
    size(rt, pool)?;
    steps(rt, pool)?;
    holdings(rt, pool)?;
    torn(rt, pool, 0)?;
    walkability(rt, pool)
}

/// How many states and propositions.
pub(crate) fn size<M: Model>(rt: &HostRuntime, model: &M) -> io::Result<()> {
    let states = model.states();
    let props = model.props();
    println!(rt; "  states: {states}, propositions: {props}")
}

/// Every step: there is one from s to t where the least step from t on is t.
fn steps<M: Model>(rt: &HostRuntime, model: &M) -> io::Result<()> {
    print!(rt; "  steps:")?;
    let n = model.states();
    for s in 0..n {
        for t in (0..n).filter(|&t| model.least_step(s, t) == Some(t)) {
            print!(rt; " {s}-{t}")?;
        }
    }
    println!(rt; "")
}

/// Where each proposition holds.
fn holdings<M: Model>(rt: &HostRuntime, model: &M) -> io::Result<()> {
    for p in 0..model.props() {
        print!(rt; "  proposition {p} holds in:")?;
        for s in (0..model.states()).filter(|&s| model.holds(p, s)) {
            print!(rt; " {s}")?;
        }
        println!(rt; "")?;
    }
    Ok(())
}

/// In how many states a proposition holds.
fn count<M: Model>(model: &M, p: u8) -> usize
    ensures { result ≡ tally (M.meaning model.now).states ((M.meaning model.now).holds p) }
{
    (0..model.states()).filter(|&s| model.holds(p, s)).count()
}

/// In how many states a frame is torn, where proposition `p` says so.
pub(crate) fn torn<M: Model>(rt: &HostRuntime, model: &M, p: u8) -> io::Result<()> {
    let states = model.states();
    let torn = count(model, p);
    println!(rt; "  a frame is torn (proposition {p}) in {torn} of {states} states")
}

/// Whether the model can be walked, or the refusal.
pub(crate) fn walkability<M: Model>(rt: &HostRuntime, model: &M) -> io::Result<()> {
    match walkable(model) {
        Ok(()) => println!(rt; "  can be walked: every state has a step"),
        Err(fault) => println!(rt; "  refused with {}: {fault}", fault.number()),
    }
}
