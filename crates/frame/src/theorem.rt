// What holds of reading and writing together.
ghost use Rattle.frame.specs.Frames.{RoundTrip, WritesBack};

/// Nothing to run: its contract says that frames and messages are each other's images.
pub fn round_trip()
    ensures there { RoundTrip }
    ensures back { WritesBack }
{}
