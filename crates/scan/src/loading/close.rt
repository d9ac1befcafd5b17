ghost use Rattle.std.specs.Prelude.{◌≡◌};
ghost use Rattle.std.specs.Result.{result_map_both};
ghost use Rattle.scan.specs.Runs.{closing};
ghost use Rattle.scan.specs.Views.{run_of};

use crate::loading::Loading;
use crate::response::Loaded;
use refusals::{HandedBack, Refusal};

impl Loading {
    // Ends the loading once all cycles are done; a refusal hands the run back.
    pub fn close(self) -> Result<Loaded, HandedBack<Loading>>
        ensures { result_map_both (λ loaded. loaded) (λ back. record { value = run_of back.value; refusal = back.refusal }) result ≡ closing (run_of self) }
    {
        if self.done < self.fit.cycles() {
            return Err(HandedBack {
                value: self,
                refusal: Refusal::CyclesLeft,
            });
        }
        Ok(Loaded {
            positions: self.fit.frame.shifts,
            chains: self.fit.outlets,
        })
    }
}
