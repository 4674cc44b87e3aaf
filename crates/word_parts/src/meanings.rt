//! What the codes of a channel-report word stand for (SA22-7832, chapter 17).

ghost use Rattle.std.specs.Prelude.{◌≡◌};
ghost use Rattle.word_parts.specs.Meanings as spec;

/// What a reporting-source code stands for, after a blank; nothing where it stands for nothing.
pub(crate) fn source_name(code: u32) -> &'static [u8]
    ensures { result.now ≡ spec.source_name code }
{
    match code {
        0x2 => b" monitoring facility",
        0x3 => b" subchannel",
        0x4 => b" channel path",
        0x9 => b" configuration-alert facility",
        0xB => b" channel subsystem",
        _ => b"",
    }
}

/// What an error-recovery code stands for, after a blank; nothing where it stands for nothing.
pub(crate) fn recovery_name(code: u32) -> &'static [u8]
    ensures { result.now ≡ spec.recovery_name code }
{
    match code {
        0x00 => b" event information pending",
        0x01 => b" available (back)",
        0x02 => b" initialized (reset)",
        0x03 => b" temporary error",
        0x04 => b" installed parameters initialized",
        0x05 => b" terminal",
        0x06 => b" permanent error, not initialized (lost)",
        0x07 => b" permanent error, initialized",
        0x08 => b" installed parameters modified",
        _ => b"",
    }
}
