//! What holds of status after each cause, and after TEST SUBCHANNEL; its code is empty.

ghost use Rattle.subchannel_model.specs.declared.cause.StatusCause.{StatusCause};
ghost use Rattle.subchannel_model.specs.declared.state.SubchannelState.{SubchannelState};
ghost use Rattle.subchannel_model.specs.Causes.{with_cause};
ghost use Rattle.functions.specs.Counted.{IsCounted};
ghost use Rattle.subchannel_model.specs.Test.{tested_wholly};

/// After each cause status is pending exactly where some status that was made is not cleared, if it was before; after TEST
/// SUBCHANNEL with code 0 it is.
pub fn counts()
    ensures made { (s : SubchannelState) (c : StatusCause) → IsCounted s → IsCounted (with_cause s c) }
    ensures test { (s : SubchannelState) → IsCounted (tested_wholly s) }
{}
