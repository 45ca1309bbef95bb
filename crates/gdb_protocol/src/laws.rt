// Laws of the reading of frames. A law takes no argument and does nothing; its clause is the theorem.
ghost use Rattle.gdb_protocol.specs.FrameLaws.{FramesAreRead, LongFrames, Noise, PlainFrames};

/// Where a stream goes on with the frame of a payload, that payload arrives, and then what arrives by the rest.
pub fn law_frames_are_read()
    ensures { FramesAreRead }
{}

/// Data without escapes is a packet where its checksum is right. With another one it is asked for once more, and nothing of it
/// is left.
pub fn law_plain_frames()
    ensures { PlainFrames }
{}

/// Data of more bytes than are kept is no packet.
pub fn law_long_frames()
    ensures { LongFrames }
{}

/// Other bytes between packets are passed over.
pub fn law_noise()
    ensures { Noise }
{}
