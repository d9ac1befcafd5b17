// The impulse of one channel, shifted through a machine.
ghost use Rattle.std.specs.Prelude.{◌≡◌, ◌*◌, ◌<◌, ◌≤◌};
ghost use Rattle.equations.specs.Equations.{words_row};
ghost use Rattle.responses.specs.Responses.{responded};

use bits::has;
use equations::with_bit;
use machine::Machine;

// Coefficients with the responses of one channel set. The machine does the same in every cycle, so one impulse tells them all: what the outlet
// shows d shifts after it is the response to what the channel takes d cycles before the last.
pub(crate) fn respond<M: Machine>(
    machine: &mut M,
    mut coefficients: [u64; 4],
    channel: usize,
    cycles: usize,
    chain: usize,
) -> [u64; 4]
    requires channels { channel < (M.meaning machine.old).channels }
    requires outlets { chain < (M.meaning machine.old).outlets }
    requires span { (M.meaning machine.old).channels * cycles ≤ 256 }
    ensures same { M.meaning machine.new ≡ M.meaning machine.old }
    ensures coefficients { words_row result ≡ responded (M.meaning machine.old) channel cycles chain (words_row coefficients) }
{
    let channels = machine.channels();
    let mut taken = 1u64 << channel;
    machine.reset();
    for cycle in (0..cycles).rev() {
        machine.shift(taken);
        taken = 0;
        // Inside a loop the check takes an array from a call into a new variable only.
        let more = with_bit(
            coefficients,
            cycle * channels + channel,
            has(machine.read(), chain),
        );
        coefficients = more;
    }
    coefficients
}
