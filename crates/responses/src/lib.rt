// Impulse responses: what each injected bit of a machine does to one position of a chain, as an equation.
#![tactic(auto)]

ghost use Rattle.std.specs.Prelude.{◌≡◌, is_ok, if◌then◌else◌, Ok};
ghost use Rattle.bits.specs.Rows.{zeros};
ghost use Rattle.refusals.specs.Chains.{answer_of};
ghost use Rattle.scan.specs.Frames.{in_limits, in_span};
ghost use Rattle.responses.specs.Ranges.{in_chains};
ghost use Rattle.responses.specs.Responses.{EquationOf};

mod impulse;

use equations::Equation;
use impulse::respond;
use machine::Machine;
use refusals::Refusal;
use scan::{CareBit, Fit, Frame};

// The equation of a bit: it holds of an injection exactly if the injection loads the bit. The machine is driven from reset, once for each
// channel, and left at reset; a refusal leaves it as it was.
pub fn equation_of<M: Machine>(
    machine: &mut M,
    frame: Frame,
    bit: CareBit,
) -> Result<Equation, Refusal>
    ensures same { M.meaning machine.new ≡ M.meaning machine.old }
    ensures answer { answer_of result ≡ in_limits frame (in_span (M.meaning machine.old).channels frame (in_chains (M.meaning machine.old) frame bit (Ok tt))) }
    ensures cells { M.cells machine.new ≡ (if is_ok result then zeros else M.cells machine.old) }
    ensures equation { (e : Equation) → result ≡ Ok e → EquationOf (M.meaning machine.old) frame bit e }
{
    let fit = Fit::of(machine, frame)?;
    if bit.chain >= fit.outlets() || bit.position >= frame.shifts {
        return Err(Refusal::OutOfRange);
    }
    // The cycle whose outlets the position ends with.
    let cycle = fit.cycles() - bit.position;
    let mut coefficients = [0u64; 4];
    for channel in 0..fit.channels() {
        // Inside a loop the check takes an array from a call into a new variable only.
        let more = respond(machine, coefficients, channel, cycle, bit.chain);
        coefficients = more;
    }
    machine.reset();
    Ok(Equation {
        coefficients,
        right: bit.value,
    })
}
