//! Laws of the definitions. The functions do nothing: what they ensure is the law.
ghost use Rattle.std.specs.Prelude.{◌≡◌, ◌↔◌, ℕ, List, Some};
ghost use Rattle.can_frames.specs.Frames.{Frame, frame_of};
ghost use Rattle.can_frames.specs.LogGrammar.{IsLogLine};

/// A line contains a frame exactly when the grammar of log lines has it: a stamp, an interface, and the text of that frame. So a
/// line contains at most one frame.
pub fn log_lines()
    ensures exactly { (body : List ℕ) (frame : Frame) → (frame_of body ≡ Some frame) ↔ IsLogLine body frame }
    ensures unique { (body : List ℕ) (one other : Frame) → IsLogLine body one → IsLogLine body other → one ≡ other }
{}
