// The network of a term, and the theorems about it: it is sound, and its ports are typed.
// Nothing here runs: each function stands for the theorem that its contract states.
#![tactic(auto)]

ghost use Rattle.geometry.specs.Theorems.{NamesAreFree, SameNames, NoneTwice};
ghost use Rattle.geometry.specs.Theorems.{NodesCounted, SuccessorsCounted, NumbersListed, NumbersKept, LinksAreWires, WiresAreLocal, MemoryHolds, ReadBack};
ghost use Rattle.geometry.specs.Theorems.{NetworksAreSound, PortsAreTyped, WeightIsKept, PlainKinds};
ghost use Rattle.geometry.specs.Examples.{WrittenOut, WeighedOut, PremisesMet};

/// The context of a derivation lists the term's free variables in order of occurrence; in a closed derivation no context has one twice.
pub fn names_are_free()
    ensures free { NamesAreFree }
    ensures same { SameNames }
    ensures once { NoneTwice }
{}

/// A network has the root and as many nodes as its term counts, an S node for each S sign, and an n node for each number, with that value; so the values keep within every bound of the term's numbers.
pub fn nodes_are_counted()
    ensures nodes { NodesCounted }
    ensures successors { SuccessorsCounted }
    ensures listed { NumbersListed }
    ensures numbers { NumbersKept }
{}

/// The links of a closed program's network are its wires; those of a term depend on where its free variables start, and on nothing else.
pub fn links_are_wires()
    ensures kept { LinksAreWires }
    ensures local { WiresAreLocal }
{}

/// Memory in which the nodes are laid and then wired begins with the network, the rest untouched; a step sees the network there.
pub fn memory_holds_network()
    ensures written { MemoryHolds }
    ensures seen { ReadBack }
{}

/// The network of every closed program of type N is sound.
pub fn network_is_sound()
    ensures { NetworksAreSound }
{}

/// Each port of it has a sign and a type, from the derivation: the ends of a wire are opposite, and a node's ports fit its kind.
pub fn ports_are_typed()
    ensures { PortsAreTyped }
{}

/// Without iterator, the Ns at the plus ports are the program's weight, and no node is one of an iterator's.
pub fn weight_is_kept()
    ensures weight { WeightIsKept }
    ensures plain { PlainKinds }
{}

/// The networks of five programs are those written out by hand, and so are the weights of those without iterator.
pub fn examples_stand()
    ensures networks { WrittenOut }
    ensures weights { WeighedOut }
{}

/// Programs of which the theorems speak exist: the five are such.
pub fn premises_are_met()
    ensures { PremisesMet }
{}
