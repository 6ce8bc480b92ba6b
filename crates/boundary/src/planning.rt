// The two plans at the boundary (document 01, "The two plans"): the floor as numbers, and the answer as words that a host lends. A refusal writes nothing.
ghost use Rattle.std.specs.Prelude.{◌≡◌, length};
ghost use Rattle.boundary.specs.Planning.{PlanTold, given_floor};
ghost use Rattle.model.specs.Plans.{adopt_c, select_c};
ghost use Rattle.plans.specs.Opened.{Opens, planned_of};
ghost use Rattle.walks.specs.Asking.{floor_means};

use block::Planned;
use plans::Begun;
use walks::Floor;

fn floor_from(given: u64, floor: u64) -> Floor
    ensures { floor_means result ≡ given_floor given floor }
{
    if given == 0 {
        return Floor::None;
    }
    Floor::At(floor)
}

// The two plans up to their entries.
pub fn begin_select(
    mem: &mut [u64],
    floor_given: u64,
    floor: u64,
    per_epoch: u64,
    places: usize,
) -> Begun
    ensures { Opens (λ clock. select_c (given_floor floor_given floor) per_epoch clock places) places mem.old mem.new result }
{
    let f = floor_from(floor_given, floor);
    plans::begin_select(mem, f, per_epoch, places)
}

pub fn begin_adopt(
    mem: &mut [u64],
    floor_given: u64,
    floor: u64,
    per_epoch: u64,
    places: usize,
) -> Begun
    ensures { Opens (λ clock. adopt_c (given_floor floor_given floor) per_epoch clock places) places mem.old mem.new result }
{
    let f = floor_from(floor_given, floor);
    plans::begin_adopt(mem, f, per_epoch, places)
}

fn write_planned(x: Planned, out: &mut [u64]) -> u64
    requires { length out.old ≡ 3 }
    ensures { PlanTold x out.old out.new result }
{
    match x {
        Planned::Scan => {
            out[0] = 0;
            out[1] = 0;
            out[2] = 0;
            0
        }
        Planned::Apply(changed, n) => {
            out[0] = 1;
            out[1] = changed;
            out[2] = n as u64;
            0
        }
        Planned::Refused(y) => block::numbers::refusal_number(y),
    }
}

// The answer, once k entries went out.
pub fn tell_begun(b: Begun, k: usize, out: &mut [u64; 3]) -> u64
    ensures { PlanTold (planned_of b k) out.old out.new result }
{
    write_planned(plans::planned(b, k), out)
}
