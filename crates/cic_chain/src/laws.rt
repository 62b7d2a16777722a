// What integrators and combs make of a sequence, as the contract of a call that does nothing.

ghost use Rattle.cic_chain.specs.Cascade.{WholeDown, WholeUp, WrappedDown, WrappedUp, WrapsIntegrators, WrapsCombs, WrapsDelays};

/// Integrators, a change of rate and combs are the moving sums of the elements, and so they are where every result is cut to one width
/// that holds the last. Every register then holds its whole number modulo 2^width.
pub fn law_of_cascades()
    ensures whole_down { WholeDown }
    ensures whole_up { WholeUp }
    ensures wrapped_down { WrappedDown }
    ensures wrapped_up { WrappedUp }
    ensures integrators { WrapsIntegrators }
    ensures combs { WrapsCombs }
    ensures delays { WrapsDelays }
{}
