// A machine of its own, outside the crate `machine`: a ladder of a thousand rungs.
#![tactic(auto)]

ghost use Rattle.std.specs.Prelude.{◌≡◌, ℕ, ◌≤◌, true, IfOk};
ghost use Rattle.ladder.specs.Rungs.{Rung, rung, climb, other_way, Tried};
ghost use Rattle.ladder.specs.Lawful.{ladder_laws};

use machine::{Grant, Machine, Reason, Stride, Walk};
use runs::Readable;
use std::alloc::{AllocError, Global};

const TOP: u32 = 1_000;

// How often it creaked is no part of where a ladder stands: no step looks at it.
#[derive(Clone, Copy)]
pub struct Ladder {
    height: u32,
    // A flag by itself: no value hangs on it, so an enum would be no plainer.
    upward: bool,
    creaks: u32,
    ghost short: { height ≤ 1000 },
}

impl Ladder {
    // Stands on the ground and faces up.
    pub fn new() -> Ladder
        ensures { rung result.height result.upward ≡ rung 0 true }
    {
        Ladder {
            height: 0,
            upward: true,
            creaks: 0,
        }
    }
}

impl Machine for Ladder {
    ghost State = { Rung };

    ghost state = { λ m. rung m.height m.upward };

    ghost next = { climb };

    ghost turned = { other_way };

    ghost lawful = { ladder_laws };

    fn step(&mut self) -> Result<(), Reason> {
        self.creaks = self.creaks.wrapping_add(1);
        if self.upward {
            if self.height >= TOP {
                return Err(Reason::NoRow);
            }
            self.height += 1;
        } else {
            if self.height == 0 {
                return Err(Reason::Home);
            }
            self.height -= 1;
        }
        Ok(())
    }

    fn turn(&mut self) {
        self.upward = !self.upward;
    }
}

// The one reading is the height.
impl Readable for Ladder {
    type Query = ();

    type Room = ();

    type Reply = u32;

    ghost Told = { ℕ };

    ghost told = { λ n. n };

    ghost reading = { λ m s q. m.height };

    ghost fits = { λ q x. Unit {0} };

    fn room(query: &(), heap: Global) -> Result<(), AllocError>
        ensures { IfOk result (λ x. Unit {0}) }
    {
        Ok(())
    }

    fn reply(&self, sum: i64, query: &(), room: ()) -> u32 {
        self.height
    }
}

// Goes as many strides of k as are granted of those wanted, and comes back to where the ladder stood.
pub fn up_and_back(ladder: Ladder, k: u32, wanted: u32) -> (Grant, Ladder)
    ensures { Tried k wanted (rung ladder.height ladder.upward) result.0 (rung result.1.height result.1.upward) }
{
    let mut walk = Walk::new(Stride::new(ladder, k));
    let start = walk.probe();
    let grant = walk.forward(wanted);
    let _ = walk.bring_back(start);
    (grant, walk.into_machine().into_below())
}

#[cfg(test)]
mod tests {
    use super::*;
    use runs::{Answer, Call, perform};
    use std::test::Fail;

    #[test]
    fn climbs_to_the_top(rt: HostRuntime) {
        let mut walk = Walk::new(Ladder::new());
        assert_eq!(rt; walk.forward(1_000_001), (0, Some(Reason::TooManySteps)));
        assert_eq!(rt; walk.forward(2_000), (1_000, Some(Reason::NoRow)));
        assert_eq!(rt; walk.back(2_000), (1_000, Some(Reason::Home)));
        assert_eq!(rt; walk.sum(), 0);
        // Each step creaks, the two that were refused too.
        assert_eq!(rt; walk.machine().creaks, 2_002);
    }

    #[test]
    fn strides_and_comes_back(rt: HostRuntime) {
        let (grant, ladder) = up_and_back(Ladder::new(), 300, 9);
        assert_eq!(rt; grant, (3, Some(Reason::NoRow)));
        assert_eq!(rt; ladder.height, 0);
    }

    #[test]
    fn performs_a_list(rt: HostRuntime) -> Result<(), Fail> {
        let mut walk = Walk::new(Ladder::new());
        let calls = [
            Call::Forward(7),
            Call::Probe,
            Call::Forward(2),
            Call::BringBack,
            Call::Read(()),
            Call::Keep,
        ];
        let answers = perform(&mut walk, &calls, rt.alloc())?;
        let mut heights = 0;
        for answer in answers.iter() {
            if let Answer::Read(height) = answer {
                heights = *height;
            }
        }
        assert_eq!(rt; heights, 7);
        Ok(())
    }
}
