//! Laws of the definitions. The functions do nothing: what they ensure is the law.
ghost use Rattle.std.specs.Prelude.{◌≡◌, ◌<◌, ◌≤◌, ◌^◌, ◌++◌, ℕ, ℤ, List, [], ◌∷◌, unsigned_abs, false};
ghost use Rattle.dbc_values.specs.Lexical.{line_feed};
ghost use Rattle.dbc_values.specs.Scales.{Scale, IsScale};
ghost use Rattle.can_frames.specs.Frames.{Frame, IsFrame, number_of};
ghost use Rattle.can_entries.specs.Groups.{is_bad_number};
ghost use Rattle.can_decode.specs.DecodedLines.{Bus, decoded_log};
ghost use Rattle.can_decode.specs.Values.{scaled, scaled_text};
ghost use Rattle.can_decode.specs.ScaledTexts.{IsScaledText};

/// The CAN identifier of a frame, with bit 31 set if it is extended (29-bit), is a valid message ID.
pub fn frame_numbers()
    ensures { (frame : Frame) → IsFrame frame → is_bad_number (number_of frame) ≡ false }
{}

/// The text of a scaled value is a decimal of it with nothing superfluous in it. No other text is one, and the text is one of no
/// other value. Numbers are written with up to 64 digits; the values of a scale have fewer.
pub fn one_scaled_text()
    ensures is { (value : ℤ) (places : ℕ) → unsigned_abs value < 10 ^ 64 → IsScaledText value places (scaled_text value places) }
    ensures one { (value : ℤ) (places : ℕ) (a b : List ℕ) → IsScaledText value places a → IsScaledText value places b → a ≡ b }
    ensures back { (a b : ℤ) (places : ℕ) (text : List ℕ) → IsScaledText a places text → IsScaledText b places text → a ≡ b }
    ensures of_scale { (scale : Scale) (raw : ℤ) → IsScale scale → unsigned_abs raw ≤ 2 ^ scale.length
        → IsScaledText (scaled scale raw) scale.places (scaled_text (scaled scale raw) scale.places) }
{}

/// A log in two parts, of which the first ends in a line feed, is decoded as the first part and then the second: so logs may be
/// split at line ends, and the parts decoded separately.
#[tactic(auto, using(crate::proofs::LogParts::decoded_parts))]
pub fn parts_of_a_log()
    ensures { (bus : Bus) (front back : List ℕ) → decoded_log bus (front ++ line_feed ∷ back)
        ≡ decoded_log bus (front ++ line_feed ∷ []) ++ decoded_log bus back }
{}
