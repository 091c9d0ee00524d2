// Programs without iterator bring the token home.
#![tactic(auto)]

ghost use Rattle.homecoming.specs.Home.{ComesHome};
ghost use Rattle.homecoming.specs.Programs.{ProgramsComeHome};
ghost use Rattle.homecoming.specs.Further.{FurtherNodesDoNoHarm, FurtherNodesBringNoOther};
ghost use Rattle.homecoming.specs.Example.{Met};

/// From every typed network without iterator, in memory that suffices, the token comes home with a number,
/// after an odd number of steps, at most one less than twice the network's weight.
pub fn comes_home()
    ensures { ComesHome }
{}

/// So does the token of every closed program of type N without iterator, within the bound that the program's weight sets.
pub fn programs_come_home()
    ensures { ProgramsComeHome }
{}

/// Whatever cells stand behind a sound network, the token brings the same number home, after as many steps; and it brings none home that it would not bring without them.
pub fn further_nodes_do_no_harm()
    ensures same { FurtherNodesDoNoHarm }
    ensures only { FurtherNodesBringNoOther }
{}

/// What both suppose can be met, and distances exist: `(\x:N.S x 3)` comes home with 4 in 11 steps, its weight being 6,
/// in one letter cell and two data cells, and opened with 4 it is back at the question in 11; with one cell less it is not.
pub fn premises_are_met()
    ensures { Met }
{}
