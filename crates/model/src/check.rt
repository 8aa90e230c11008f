//! The check that a model can be walked without end.
ghost use Rattle.std.specs.Prelude.{◌≡◌};
ghost use Rattle.model.specs.Faults.{answer};
ghost use Rattle.model.specs.Walkable.{Checked, walkability};

use crate::fault::ModelFault;
use crate::interface::Model;

/// Has the model states, and has each a step? If not, the fault, with the lowest state that has none.
pub fn walkable<M: Model>(model: &M) -> Result<(), ModelFault>
    ensures means { Checked (M.meaning model.now) result }
    ensures exact { answer result ≡ walkability (M.meaning model.now) }
{
    let n = model.states();
    if n == 0 {
        return Err(ModelFault::NoStates);
    }
    // The project keeps this form here: a loop over states, broken with the state's number as its value.
    let mut s = 0;
    let stuck = loop {
        if s == n || model.least_step(s, 0).is_none() {
            break s;
        }
        s += 1;
    };
    if stuck < n {
        return Err(ModelFault::DeadEnd(stuck));
    }
    Ok(())
}
