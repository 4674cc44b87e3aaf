//! What holds of the effects of instructions; its code is empty.

ghost use Rattle.std.specs.Prelude.{◌≡◌};
ghost use Rattle.orb_block.specs.declared.Orb.{Orb};
ghost use Rattle.schib_block.specs.declared.pmcw.Pmcw as block;
ghost use Rattle.channel_config.specs.declared.parts.ConcurrentSense.{ConcurrentSense};
ghost use Rattle.subchannel_model.specs.declared.state.Subchannel.{Subchannel};
ghost use Rattle.subchannel_model.specs.declared.state.SubchannelState.{SubchannelState};
ghost use Rattle.subchannel_model.specs.Resume.{resumed};
ghost use Rattle.subchannel_model.specs.Halt.{halted};
ghost use Rattle.subchannel_model.specs.Clear.{cleared};
ghost use Rattle.subchannel_model.specs.Cancel.{cancelled};
ghost use Rattle.subchannel_model.specs.Modify.{placed, modified_state};
ghost use Rattle.subchannel_model.specs.Start.{started};
ghost use Rattle.functions.specs.Counted.{IsCounted};

/// MODIFY SUBCHANNEL leaves the same whatever else the word of its subchannel has.
pub fn modified()
    ensures { (sub : Subchannel) (given : block.Pmcw) → modified_state sub given ≡ placed sub.setup.concurrent_sense sub.state given }
{}

/// After each instruction status is pending exactly where some status that was made is not cleared, if it was before.
pub fn counts()
    ensures start { (s : SubchannelState) (orb : Orb) → IsCounted s → IsCounted (started s orb) }
    ensures resume { (s : SubchannelState) → IsCounted s → IsCounted (resumed s) }
    ensures halt { (s : SubchannelState) → IsCounted s → IsCounted (halted s) }
    ensures clear { (s : SubchannelState) → IsCounted s → IsCounted (cleared s) }
    ensures cancel { (s : SubchannelState) → IsCounted s → IsCounted (cancelled s) }
    ensures modify { (choice : ConcurrentSense) (s : SubchannelState) (given : block.Pmcw) → IsCounted s → IsCounted (placed choice s given) }
{}
