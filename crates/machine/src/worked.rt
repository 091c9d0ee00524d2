ghost use Rattle.std.specs.Prelude.{◌≡◌, negsuc, Some};
ghost use Rattle.machine.specs.declared.reasons.Reason.TheVariants.{Home};
ghost use Rattle.machine.specs.Worked.{OutAndBack};

use crate::addition::{Addition, Direction};
use crate::walks::{Grant, Walk};

// Opens the addition machine out at 3/2, and wants ten steps forward and then ten back: three are granted and
// then five, each time until the machine is home, and the sum is -2.
pub fn out_and_back() -> (Grant, Grant, i64)
    ensures value { result ≡ ((3, Some Home), (5, Some Home), negsuc 1) }
    ensures computed { OutAndBack }
{
    let mut walk = Walk::new(Addition {
        a: 3,
        b: 2,
        direction: Direction::Out,
    });
    let forward = walk.forward(10);
    let back = walk.back(10);
    (forward, back, walk.sum())
}
