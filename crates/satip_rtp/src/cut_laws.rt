//! Laws of every list of calls of a packer, as contracts of functions with an empty body.
ghost use Rattle.satip_rtp.specs.Cut.{CutLosesNothing};
ghost use Rattle.satip_rtp.specs.Picked.{EachCallCuts, AllCallsCut};

/// The packets of the datagrams, followed by those that stay, are all packets in order. At most six
/// stay, and none after a flush.
pub fn cut_loses_nothing()
    ensures nothing_lost { CutLosesNothing }
{}

/// After each call of a packer its state follows from all packets that were pushed, and the call
/// sends their cut.
pub fn each_call_cuts()
    ensures keeps_and_cuts { EachCallCuts }
{}

/// Over every list of calls of a new packer, the datagrams are the cut of the pushed packets, byte
/// for byte.
pub fn all_calls_cut()
    ensures cut { AllCallsCut }
{}
