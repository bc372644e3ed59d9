// One step of a rotation (document 01, "Rotation"): the start that it leads to, how many of the members leave there, and the first step at which
// enough do. A step looks for the last sampled unit under its start and holds each member against it; who they are is listed once, by crate
// `rotation_leavers`.
#![tactic(auto)]

ghost use Rattle.std.specs.Prelude.{◌≡◌, ◌<◌, ◌≤◌};
ghost use Rattle.std.specs.Option.{IfSome};
ghost use Rattle.rules.specs.Limits.{random_range, steps};
ghost use Rattle.rotation_step.specs.Leaving.{setting_at, leaving, first_step, step_or_last};
ghost use Rattle.rotation_step.specs.Searched.{Searched};

use draw_key::{Keyed, Setting};
use draw_panel::told;
use limits::{RANDOM_RANGE, STEP_LENGTH, STEPS};

// What a step looks at: the units with their keys, the places of the members among them, and z, the number of the take-all units and of those to sample.
#[derive(Clone, Copy)]
pub struct Search<'a, 'b> {
    pub keyed: Keyed<'a>,
    pub members: &'b [usize],
    pub z: usize,
    pub ghost searched: { Searched keyed.turnovers.now keyed.gaps.now members.now keyed.setting z },
}

// The setting with the start "(old + 1,000 × k) mod 1,000,000".
pub fn setting_at(s: Setting, k: u32) -> Setting
    requires { (s.start < random_range) × (k ≤ steps) }
    ensures { result ≡ setting_at s k }
{
    Setting {
        start: (s.start + STEP_LENGTH * k) % RANDOM_RANGE,
        ..s
    }
}

impl<'a, 'b> Search<'a, 'b> {
    ghost use Rattle.rotation_step.specs.Moved.{of, Moved};

    // The same under the start that step k leads to. (Field by field: a struct with a ghost field may not be built from `..self.keyed`.)
    pub fn at(&self, k: u32) -> Search<'a, 'b>
        requires { k ≤ steps }
        ensures { Moved self.now k result }
    {
        let keyed = Keyed {
            turnovers: self.keyed.turnovers,
            randoms: self.keyed.randoms,
            gaps: self.keyed.gaps,
            setting: setting_at(self.keyed.setting, k),
        };
        Search {
            keyed,
            members: self.members,
            z: self.z,
        }
    }

    // How many members are not sampled. (The library's filter and count were tried: that the closure may be called at each member was not shown.)
    fn leaving(&self) -> usize
        ensures { result ≡ of leaving self.now }
    {
        let told = told::tell(&self.keyed, self.z);
        let mut count: usize = 0;
        for i in self.members {
            if !told.is_sampled(&self.keyed, *i) {
                count += 1;
            }
        }
        count
    }

    // The smallest step at which at least `need` members are not sampled. (`find` was tried: that it answers the smallest such step was not shown.)
    pub fn first_step(&self, need: usize) -> Option<u32>
        ensures value { step_or_last result ≡ of first_step self.now need }
        ensures below { IfSome result (λ k. k < steps) }
    {
        for k in 0..STEPS {
            if need <= self.at(k).leaving() {
                return Some(k);
            }
        }
        None
    }
}
