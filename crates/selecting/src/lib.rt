// The core of Select (document 01, "The two plans"): its changes are left as codes, by place.
#![tactic(auto)]

ghost use Rattle.std.specs.Prelude.{◌&&◌, not, true, ◌≡◌, ◌<◌, eqb};
ghost use Rattle.std.proofs.Math.Option.{some};
ghost use Rattle.memory.specs.Layout.{Laid};
ghost use Rattle.deciding.specs.Plots.{Plots};
ghost use Rattle.model.specs.Lists.{any};
ghost use Rattle.model.specs.Select as plan;
ghost use Rattle.model.specs.Select.{aside, on};
ghost use Rattle.selecting.specs.Selected.{Resolves, Selects, Settled, Stops, Switches, counted};
ghost use Rattle.turning.specs.declared.Turn.TheVariants.{Near, Off};
ghost use Rattle.walks.specs.Asking.{floor_means};
ghost use Rattle.writing.specs.Decides.{decided_changed};

use block::Reason;
use turning::Turn;
use walks::Floor;
use writing::Decided;

// ---- a pass over all places ----

// ---- up a walk ----

// ---- what is asked of a place ----

// ---- whether Select goes on ----

// ---- passes by a walk ----

// ---- the two ends ----

// (The reason is one for what a plan orphans, and Select orphans nothing: any will do.)
fn applied(demoted: bool) -> Decided
    ensures { decided_changed result ≡ some (counted demoted) }
{
    if demoted {
        return Decided::Apply(1, Reason::CompetingFork);
    }
    Decided::Apply(0, Reason::CompetingFork)
}

// Stop: the demotions so far and nothing more, so blocks aside stay as they are.
fn stop(mem: &mut [u64], n: usize, top: usize, stray: bool, demoted: bool) -> Decided
    requires { Laid mem.old n × (top < n) }
    ensures { Stops mem.old mem.new n top stray demoted result }
{
    if !stray {
        return applied(demoted);
    }
    turning::turn_all(mem, n, Turn::Into(0), top);
    applied(demoted)
}

// Best's walk above the fork is promoted, local's and the strays are demoted.
fn switch(mem: &mut [u64], n: usize, top: usize, local: usize, f: usize, stray: bool)
    requires { Laid mem.old n × (top < n) × (local < n) × (f < n) }
    ensures { Switches mem.old mem.new n top local f stray }
{
    turning::climb(mem, n, true, top, f);
    turning::climb(mem, n, false, local, f);
    if !stray {
        return;
    }
    turning::turn_all(mem, n, Turn::Into(3), top);
}

// ---- the plan ----

// From the fork on: stop or switch.
fn resolve(
    mem: &mut [u64],
    n: usize,
    floor: Floor,
    per_epoch: u64,
    top: usize,
    local: usize,
    f: usize,
    stray: bool,
    demoted: bool,
) -> Decided
    requires { Laid mem.old n × (top < n) × (local < n) × (f < n) }
    ensures { Resolves mem.old mem.new n (floor_means floor) per_epoch top local f stray demoted result }
{
    if weighing::held_back(mem, n, top, local, f, floor, per_epoch, stray) {
        return stop(mem, n, top, stray, demoted);
    }
    if !weighing::goes_on(mem, n, top, local, f, stray) {
        return stop(mem, n, top, stray, demoted);
    }
    switch(mem, n, top, local, f, stray);
    applied(true)
}

// Best is local and none is aside.
fn rests(top: usize, local: usize, aside: bool) -> bool
    ensures { result ≡ (eqb top local && not aside) }
{
    if top != local {
        return false;
    }
    !aside
}

// From the marks on: whether some are demoted and some aside is known.
fn settle(
    mem: &mut [u64],
    n: usize,
    floor: Floor,
    per_epoch: u64,
    top: usize,
    local: usize,
    demoted: bool,
    aside: bool,
) -> Decided
    requires { Laid mem.old n × (top < n) × (local < n) }
    ensures { Settled mem.old mem.new n (floor_means floor) per_epoch top local demoted aside result }
{
    if rests(top, local, aside) {
        return applied(demoted);
    }
    let f = walks::fork(mem, n, top, local);
    if n <= f {
        writing::forget(mem, n);
        return Decided::Scan;
    }
    if !aside {
        return resolve(mem, n, floor, per_epoch, top, local, f, false, demoted);
    }
    turning::turn_all(mem, n, Turn::Near, top);
    let stray = turning::has(mem, n, 8);
    resolve(mem, n, floor, per_epoch, top, local, f, stray, demoted)
}

// From both tips on. All places are passed only where canonical blocks may be off the local walk.
fn between(
    mem: &mut [u64],
    n: usize,
    floor: Floor,
    per_epoch: u64,
    top: usize,
    local: usize,
) -> Decided
    requires { Laid mem.old n × (top < n) × (local < n) }
    ensures { Selects mem.old mem.new n (floor_means floor) per_epoch top local result }
{
    if !deciding::wide(mem, n, local) {
        return settle(mem, n, floor, per_epoch, top, local, false, false);
    }
    turning::turn_all(mem, n, Turn::Off(floor), local);
    let demoted = turning::has(mem, n, 2);
    let aside = turning::has(mem, n, 8);
    settle(mem, n, floor, per_epoch, top, local, demoted, aside)
}

// Select: what is decided; its changes are left as codes.
pub fn select(mem: &mut [u64], n: usize, floor: Floor, per_epoch: u64) -> Decided
    requires { Laid mem.old n }
    ensures { Plots plan.select mem.old mem.new n (floor_means floor) per_epoch result }
{
    let top = deciding::tip(mem, n, false);
    if n <= top {
        return Decided::Scan;
    }
    let local = deciding::tip(mem, n, true);
    if n <= local {
        return Decided::Scan;
    }
    between(mem, n, floor, per_epoch, top, local)
}
