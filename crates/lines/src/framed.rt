// The frame line: every message as its frame, one after another, in order of posting.
ghost use Rattle.std.specs.Prelude.{◌≡◌, ◌≤◌, true, is_some, vec_capacity};
ghost use Rattle.lines.specs.Framed.{parsed};

pub mod each;
pub mod methods;
pub mod slots;

/// A line that holds 256 messages, each kept as its frame, in 21,504 bytes. Its memory is had when it is made.
#[derive(Drop)]
pub struct FrameLine {
    frames: Vec<u8>,
    // How many frames lie there: one number beside them is plainer than going over them all at each post.
    count: usize,
    ghost few: { count ≤ 256 },
    ghost reserved: { 21504 ≤ vec_capacity frames },
    ghost whole: { is_some (parsed count frames.items) ≡ true },
}
