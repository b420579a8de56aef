//! The fields of a frame word.
ghost use Rattle.std.specs.Prelude.{◌≡◌};
ghost use Rattle.wf_frames.specs.FrameWords.{AreFields, fields_of, word_of};

/// All bits of a word but bit 0, which says that a hart has taken the frame.
pub const ALL_BUT_TAKEN: u64 = 0xFFFF_FFFF_FFFF_FFFE;

/// All bits of a word but bit 63, which says that the frame is live.
pub const ALL_BUT_LIVE: u64 = 0x7FFF_FFFF_FFFF_FFFF;

/// What stands in a frame word: whether a hart has taken the frame, how often the frame was written
/// in this incarnation, its incarnation, and whether it is live.
#[derive(Clone, Copy, Debug, PartialEq, Eq)]
pub struct FrameWord {
    /// Bit 0: a hart has taken the frame, and has not given it back.
    pub taken: bool,
    /// Bits 1 to 39: the count of writes.
    pub writes: u64,
    /// Bits 40 to 62: the incarnation, 0 before the first use as data.
    pub inc: u64,
    /// Bit 63: the frame is that of a page that is mapped.
    pub live: bool,
}

/// The frame word with these fields.
pub fn frame_word(f: FrameWord) -> u64
    requires { AreFields f }
    ensures value { result ≡ word_of f }
    ensures back { fields_of result ≡ f }
{
    u64::from(f.taken) + f.writes * (1 << 1) + f.inc * (1 << 40) + u64::from(f.live) * (1 << 63)
}

/// The fields of a frame word.
pub fn frame_fields(w: u64) -> FrameWord
    ensures value { result ≡ fields_of w }
    ensures fit { AreFields result }
    ensures back { word_of result ≡ w }
{
    FrameWord {
        taken: w % 2 == 1,
        writes: w / (1 << 1) % (1 << 39),
        inc: w / (1 << 40) % (1 << 23),
        live: w / (1 << 63) == 1,
    }
}
