ghost use Rattle.ck_spec.specs.Lists.{OneChannelLooksBack};

/// With one channel no retirement stands beside another, so that all kinds of checks look back alone.
pub fn one_channel_looks_back()
    ensures { OneChannelLooksBack }
{}
